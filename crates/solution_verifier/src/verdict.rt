ghost use Rattle.std.specs.Prelude.{◌≡◌, ◌≢◌, ℕ, ◌↔◌, Ok, Err, Some, MatchResult};
ghost use Rattle.solution_verifier.specs.declared.fault.Fault.{Fault};
ghost use Rattle.solution_verifier.specs.First.{IsRight, IsFirstFault};
ghost use Rattle.solution_verifier.specs.Stated.{IsStated};

use crate::cost::cost_of;
use crate::fault::Fault;
use crate::fixings::judge_fixings;
use crate::runs::{judge_ends, judge_events};
use disp_model::{Fixing, Plan, Problem};

/// Judges whether the stated cost, if there is one, is the cost.
fn judge_cost(cost: u128, stated: Option<u64>) -> Result<u128, Fault>
    ensures { IsStated cost stated result }
{
    match stated {
        Some(claimed) if u128::from(claimed) != cost => Err(Fault::WrongCost(claimed, cost)),
        _ => Ok(cost),
    }
}

/// The cost of a plan that is valid for a problem and fixings, where the stated cost, if there is
/// one, is that. It takes no memory. Of each event it looks at those behind it until all that it
/// holds is released, and at those before it back to its train's last one; for each train, fixing
/// and component it goes along the plan once.
///
/// # Errors
///
/// Exactly where the plan is not valid or costs another value than stated: its first fault. Events
/// are judged in the order of the plan, each by the rules in the order of `Fault`'s variants, up to
/// `Held`, which names the first event that holds a resource against it, and of that event's
/// listings the first such. Then come the first train that does not reach its exit, the first
/// fixing that is not met, and a stated cost that is wrong.
pub fn verify(
    problem: &Problem,
    fixings: &[Fixing],
    plan: &Plan,
    stated: Option<u64>,
) -> Result<u128, Fault>
    ensures right { (cost : ℕ)
        → ((result ≡ Ok cost) ↔ IsRight problem.now fixings.now plan.now stated cost) }
    ensures first { (fault : Fault)
        → ((result ≡ Err fault) ↔ IsFirstFault problem.now fixings.now plan.now stated fault) }
{
    let events = plan.as_slice();
    judge_events(problem, events)?;
    judge_ends(problem, events)?;
    judge_fixings(fixings, events)?;
    judge_cost(cost_of(problem, events), stated)
}
