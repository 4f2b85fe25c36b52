// Trains whose operations start within windows, and no trains.
ghost use Rattle.std.specs.Prelude.{◌≡◌, ◌≤◌, [], ◌∷◌, IfOk};
ghost use Rattle.std.specs.Option.{ForSome};
ghost use Rattle.disp_model.specs.declared.limits.TheConstants.{GREATEST_NUMBER};
ghost use Rattle.worked_problems.specs.Worked.{two_windowed, windowed_train, worked_component};

use crate::parts::costing;
use disp_model::{List, Memory, Operation, Problem, Train};
use std::alloc::Global;

/// One train of one operation, with its window and what it costs for each unit of time, each
/// number at most 2^31 - 1.
pub fn windowed(
    alloc: Global,
    lower: u32,
    upper: Option<u32>,
    coeff: u32,
) -> Result<Problem, Memory>
    requires lower { lower ≤ GREATEST_NUMBER }
    requires upper { ForSome upper (λ u. u ≤ GREATEST_NUMBER) }
    requires coeff { coeff ≤ GREATEST_NUMBER }
    ensures trains { IfOk result (λ problem. problem.trains ≡ windowed_train lower upper ∷ []) }
    ensures costs { IfOk result
        (λ problem. problem.components ≡ worked_component 0 0 coeff 0 ∷ []) }
    ensures names { IfOk result (λ problem. problem.names ≡ []) }
{
    let operation = Operation {
        lower,
        upper,
        min: 0,
        listings: List::new(alloc),
        next: List::new(alloc),
    };
    let train = List::from_vec(vec![in alloc; operation]?);
    Ok(Problem {
        trains: List::from_vec(vec![in alloc; train]?),
        components: List::from_vec(vec![in alloc; costing(0, 0, coeff, 0)]?),
        names: List::new(alloc),
    })
}

/// An operation that may start from a time on, and until another, with what comes next.
fn starting(
    alloc: Global,
    lower: u32,
    upper: Option<u32>,
    next: &[u32],
) -> Result<Operation, Memory>
    ensures { IfOk result (λ o. o
        ≡ record { lower = lower; upper = upper; min = 1; listings = []; next = next.now }) }
{
    Ok(Operation {
        lower,
        upper,
        min: 1,
        listings: List::new(alloc),
        next: List::from_vec(Vec::from_slice(alloc, next)?),
    })
}

fn two_steps(alloc: Global) -> Result<Train, Memory>
    ensures { IfOk result (λ t. t ≡ two_windowed) }
{
    let entry = starting(alloc, 2, None, &[1])?;
    let exit = starting(alloc, 4, Some(20), &[])?;
    Ok(List::from_vec(vec![in alloc; entry, exit]?))
}

/// Two trains of two operations of the duration 1: from 2 on, and from 4 until 20. No cost.
pub fn two_windows(alloc: Global) -> Result<Problem, Memory>
    ensures trains { IfOk result (λ problem. problem.trains ≡ two_windowed ∷ two_windowed ∷ []) }
    ensures costs { IfOk result (λ problem. problem.components ≡ []) }
    ensures names { IfOk result (λ problem. problem.names ≡ []) }
{
    let one = two_steps(alloc)?;
    let other = two_steps(alloc)?;
    Ok(Problem {
        trains: List::from_vec(vec![in alloc; one, other]?),
        components: List::new(alloc),
        names: List::new(alloc),
    })
}

/// No trains.
pub fn no_trains(alloc: Global) -> Problem
    ensures trains { result.trains ≡ [] }
    ensures costs { result.components ≡ [] }
    ensures names { result.names ≡ [] }
{
    Problem {
        trains: List::new(alloc),
        components: List::new(alloc),
        names: List::new(alloc),
    }
}
