// Trains that hold resources.
ghost use Rattle.std.specs.Prelude.{◌≡◌, ◌<◌, ◌≤◌, [], ◌∷◌, Some, None, IfOk, codes};
ghost use Rattle.std.specs.Option.{ForSome};
ghost use Rattle.disp_model.specs.declared.limits.TheConstants.{GREATEST_NUMBER};
ghost use Rattle.worked_problems.specs.Worked.{block_costs, blocked_train, blocked_trains, swapping_train};

use crate::parts::{costing, lasting, name};
use disp_model::{List, Listing, Memory, Problem, Train};
use std::alloc::Global;

/// A train that holds the resource 0 for so long, from a time at the latest, then reaches its exit.
fn holding(alloc: Global, upper: Option<u32>, release: u32, min: u32) -> Result<Train, Memory>
    ensures { IfOk result (λ t. t ≡ blocked_train upper release min) }
{
    let listing = Listing {
        resource: 0,
        release,
    };
    let first = lasting(alloc, upper, min, &[listing], &[1])?;
    let exit = lasting(alloc, None, 0, &[], &[])?;
    Ok(List::from_vec(vec![in alloc; first, exit]?))
}

/// Two trains on one resource, of the durations 10 and 4. Each unit of time costs 1 at each exit.
fn blocked(alloc: Global, upper: Option<u32>, release: u32) -> Result<Problem, Memory>
    requires upper { ForSome upper (λ u. u ≤ GREATEST_NUMBER) }
    requires release { release < 4 }
    ensures trains { IfOk result (λ problem. problem.trains ≡ blocked_trains upper release) }
    ensures costs { IfOk result (λ problem. problem.components ≡ block_costs) }
    ensures names { IfOk result (λ problem. problem.names ≡ codes "r" ∷ []) }
{
    let first = holding(alloc, upper, release, 10)?;
    let second = holding(alloc, upper, release, 4)?;
    let resource = name(alloc, "r")?;
    let costs = vec![in alloc; costing(0, 1, 1, 0), costing(1, 1, 1, 0)]?;
    Ok(Problem {
        trains: List::from_vec(vec![in alloc; first, second]?),
        components: List::from_vec(costs),
        names: List::from_vec(vec![in alloc; resource]?),
    })
}

/// Two trains on the block "r", which the first holds for 10 and the second for 4, on the way to
/// its exit, the operation 1. Each unit of time costs 1 at each exit.
pub fn two_trains(alloc: Global) -> Result<Problem, Memory>
    ensures trains { IfOk result (λ problem. problem.trains ≡ blocked_trains None 0) }
    ensures costs { IfOk result (λ problem. problem.components ≡ block_costs) }
    ensures names { IfOk result (λ problem. problem.names ≡ codes "r" ∷ []) }
{
    blocked(alloc, None, 0)
}

/// `two_trains` that are to enter the block until a time, at most 2^31 - 1.
pub fn two_trains_until(alloc: Global, upper: u32) -> Result<Problem, Memory>
    requires { upper ≤ GREATEST_NUMBER }
    ensures trains { IfOk result (λ problem. problem.trains ≡ blocked_trains (Some upper) 0) }
    ensures costs { IfOk result (λ problem. problem.components ≡ block_costs) }
    ensures names { IfOk result (λ problem. problem.names ≡ codes "r" ∷ []) }
{
    blocked(alloc, Some(upper), 0)
}

/// `two_trains` whose block is free only so long after each, at most 3.
pub fn two_trains_released(alloc: Global, release: u32) -> Result<Problem, Memory>
    requires { release < 4 }
    ensures trains { IfOk result (λ problem. problem.trains ≡ blocked_trains None release) }
    ensures costs { IfOk result (λ problem. problem.components ≡ block_costs) }
    ensures names { IfOk result (λ problem. problem.names ≡ codes "r" ∷ []) }
{
    blocked(alloc, None, release)
}

/// A train that holds one resource, then another, then reaches its exit.
fn swapping(alloc: Global, first: u32, second: u32) -> Result<Train, Memory>
    ensures { IfOk result (λ t. t ≡ swapping_train first second) }
{
    let first = Listing {
        resource: first,
        release: 0,
    };
    let second = Listing {
        resource: second,
        release: 0,
    };
    let start = lasting(alloc, None, 10, &[first], &[1])?;
    let middle = lasting(alloc, None, 0, &[second], &[2])?;
    let exit = lasting(alloc, None, 0, &[], &[])?;
    Ok(List::from_vec(vec![in alloc; start, middle, exit]?))
}

/// Two trains that each hold "r1" or "r2" for 10, and then want the other's. No cost.
pub fn swap(alloc: Global) -> Result<Problem, Memory>
    ensures trains { IfOk result (λ problem.
        problem.trains ≡ swapping_train 0 1 ∷ swapping_train 1 0 ∷ []) }
    ensures costs { IfOk result (λ problem. problem.components ≡ []) }
    ensures names { IfOk result (λ problem. problem.names ≡ codes "r1" ∷ codes "r2" ∷ []) }
{
    let first = swapping(alloc, 0, 1)?;
    let second = swapping(alloc, 1, 0)?;
    let resource = name(alloc, "r1")?;
    let other = name(alloc, "r2")?;
    Ok(Problem {
        trains: List::from_vec(vec![in alloc; first, second]?),
        components: List::new(alloc),
        names: List::from_vec(vec![in alloc; resource, other]?),
    })
}
