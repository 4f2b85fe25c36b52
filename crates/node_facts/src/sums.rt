ghost use Rattle.std.specs.Prelude.{◌≡◌, ◌↔◌, ◌+◌, ◌*◌, ◌<◌, ◌≤◌, ◌^◌, ℕ, All, IfOk, IfSome, IsSome, IsTrue, Some, length};
ghost use Rattle.disp_model.specs.WellFormed.{IsAcyclic};
ghost use Rattle.train_orders.specs.Orders.{IsInside, IsOrder};
ghost use Rattle.node_facts.specs.Ways.{MayGo, IsLeastOf, lesser, AreSums, IsOnward, GoesOnward, IsSumBy};
ghost use Rattle.route_marks.specs.Marks.{ArePlaces, sum_at};

use crate::demands::{Demand, may_go};
use disp_model::{Memory, Operation};
use std::alloc::Global;

/// The least sum that is kept of an operation.
pub(crate) fn sum_at(sums: &[Option<u64>], op: u32) -> Option<u64>
    ensures { result ≡ sum_at sums.now op }
{
    match sums.get(op as usize) {
        Some(sum) => *sum,
        None => None,
    }
}

/// Whether a sum is kept of an operation, so that it has a way.
pub(crate) fn has_way(sums: &[Option<u64>], op: u32) -> bool
    ensures { IsTrue result ↔ IsSome (sum_at sums.now op) }
{
    sum_at(sums, op).is_some()
}

/// The lesser of two sums that may be known.
fn lesser(sum: Option<u64>, other: Option<u64>) -> Option<u64>
    ensures { result ≡ lesser sum other }
{
    match (sum, other) {
        (Some(sum), Some(other)) => Some(sum.min(other)),
        _ => sum.or(other),
    }
}

/// The least sum from an operation on that a route may go on to from another.
fn onward(
    places: &[usize],
    demands: &[Demand],
    sums: &[Option<u64>],
    op: u32,
    next: u32,
) -> Option<u64>
    ensures { (n : ℕ) → (result ≡ Some n)
        ↔ IsOnward places.now demands.now sums.now op next n }
{
    if may_go(places, demands, op, Some(next)) {
        sum_at(sums, next)
    } else {
        None
    }
}

/// The least sum from those of some operations on that a route may go on to from another.
fn least_onward(
    places: &[usize],
    demands: &[Demand],
    sums: &[Option<u64>],
    op: u32,
    nexts: &[u32],
) -> Option<u64>
    ensures { IsLeastOf (GoesOnward places.now demands.now sums.now op nexts.now) result }
{
    let mut least = None;
    for next in nexts {
        least = lesser(least, onward(places, demands, sums, op, *next));
    }
    least
}

/// A duration and the sum behind it.
fn added(min: u32, behind: u64) -> u64
    requires { behind ≤ 2 ^ 63 }
    ensures sum { result ≡ min + behind }
    ensures small { result ≤ behind + 2 ^ 32 }
{
    u64::from(min) + behind
}

/// The least sum of a way from an operation, by those of its successors.
fn least_from(
    operation: &Operation,
    places: &[usize],
    demands: &[Demand],
    sums: &[Option<u64>],
    op: u32,
) -> Option<u64>
    requires { (s n : ℕ) → sum_at sums.now s ≡ Some n → n ≤ 2 ^ 63 }
    ensures least { IsLeastOf (IsSumBy operation.now places.now demands.now sums.now op) result }
    ensures rises { (most : ℕ) → ((s n : ℕ) → sum_at sums.now s ≡ Some n → n ≤ most)
        → IfSome result (λ n. n ≤ most + 2 ^ 32) }
{
    if operation.next.len() == 0 {
        return if may_go(places, demands, op, None) {
            Some(0)
        } else {
            None
        };
    }
    match least_onward(places, demands, sums, op, operation.next.as_slice()) {
        Some(behind) => Some(added(operation.min, behind)),
        None => None,
    }
}

/// Of each operation of a train the least sum of durations on a way from it to the exit that does
/// what is asked, by an order of the operations from the exit back.
pub(crate) fn sums_of(
    alloc: Global,
    train: &[Operation],
    order: &[u32],
    places: &[usize],
    demands: &[Demand],
) -> Result<Vec<Option<u64>>, Memory>
    requires order { IsOrder train.now order.now }
    requires places { ArePlaces train.now order.now places.now }
    requires fits { length order.now < 2 ^ 31 }
    ensures long { IfOk result (λ sums. length sums.items ≡ length train.now) }
    ensures sums { IfOk result (λ sums. AreSums train.now places.now demands.now sums.items) }
{
    let mut sums = vec![in alloc; None; train.len()]?;
    for number in order {
        let at = *number as usize;
        let sum = least_from(&train[at], places, demands, &sums, *number);
        sums[at] = sum;
    }
    Ok(sums)
}
