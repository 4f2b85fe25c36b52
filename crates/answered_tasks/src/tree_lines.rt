ghost use Rattle.std.specs.Prelude.{◌≡◌, IfOk, string_bytes};
ghost use Rattle.solution_verifier.specs.FaultText.{with_numbers};
ghost use Rattle.answered_tasks.specs.Texts.{accepted_line, rule_text, refused_line, plan_fault_line, no_plan_line};

use disp_model::{List, Memory, Problem, Verdict};
use solution_verifier::Fault;
use std::alloc::Global;
use tree_checker::Why;

/// The line of a tree that is accepted.
pub(crate) fn accepted_line(alloc: Global, verdict: Verdict) -> Result<List<u8>, Memory>
    ensures { IfOk result (λ line. line ≡ accepted_line verdict) }
{
    match verdict {
        Verdict::Optimal(cost) => {
            let text = format!(in alloc; "accepted optimal {cost}\n")?;
            Ok(List::from_vec(text.into_bytes()))
        }
        Verdict::Infeasible => {
            let text = String::from_str(alloc, "accepted infeasible\n")?;
            Ok(List::from_vec(text.into_bytes()))
        }
    }
}

/// Words and two numbers.
pub(crate) fn with_numbers(
    alloc: Global,
    words: &str,
    first: u128,
    second: u64,
) -> Result<String, Memory>
    ensures { IfOk result (λ text. string_bytes text ≡ with_numbers words.now first second) }
{
    Ok(format!(in alloc; "{words} {first} {second}")?)
}

/// The rule that a node breaks.
fn rule_text(alloc: Global, why: Why) -> Result<String, Memory>
    ensures { IfOk result (λ text. string_bytes text ≡ rule_text why) }
{
    match why {
        Why::BadName => Ok(String::from_str(alloc, "BadName")?),
        Why::BadChoice => Ok(String::from_str(alloc, "BadChoice")?),
        Why::HasRoute => Ok(String::from_str(alloc, "HasRoute")?),
        Why::NotCycle => Ok(String::from_str(alloc, "NotCycle")?),
        Why::EmptyWalk => Ok(String::from_str(alloc, "EmptyWalk")?),
        Why::NotForced => Ok(String::from_str(alloc, "NotForced")?),
        Why::BadArc => Ok(String::from_str(alloc, "BadArc")?),
        Why::NotLate => Ok(String::from_str(alloc, "NotLate")?),
        Why::RepeatedComponent => Ok(String::from_str(alloc, "RepeatedComponent")?),
        Why::RepeatedTrain => Ok(String::from_str(alloc, "RepeatedTrain")?),
        Why::WrongTrain => Ok(String::from_str(alloc, "WrongTrain")?),
        Why::WrongEnd => Ok(String::from_str(alloc, "WrongEnd")?),
        Why::NoVerdict => Ok(String::from_str(alloc, "NoVerdict")?),
        Why::BelowCost { bound, cost } => with_numbers(alloc, "BelowCost", bound, cost),
    }
}

/// The line of a node that is refused.
pub(crate) fn refused_line(alloc: Global, node: usize, why: Why) -> Result<List<u8>, Memory>
    ensures { IfOk result (λ line. line ≡ refused_line node why) }
{
    let rule = rule_text(alloc, why)?;
    let text = format!(in alloc; "refused {node} {rule}\n")?;
    Ok(List::from_vec(text.into_bytes()))
}

/// The line of the fault of a plan behind a tree.
pub(crate) fn plan_fault_line(
    alloc: Global,
    problem: &Problem,
    fault: &Fault,
) -> Result<List<u8>, Memory>
    ensures { IfOk result (λ line. line ≡ plan_fault_line problem.now fault.now) }
{
    let mut text = String::from_str(alloc, "plan: ")?;
    fault.write(problem, &mut text)?;
    text.push_str("\n")?;
    Ok(List::from_vec(text.into_bytes()))
}

/// The line that a plan is given where none is valid.
pub(crate) fn no_plan_line(alloc: Global) -> Result<List<u8>, Memory>
    ensures { IfOk result (λ line. line ≡ no_plan_line) }
{
    let text = String::from_str(alloc, "plan: NoPlanWanted\n")?;
    Ok(List::from_vec(text.into_bytes()))
}
