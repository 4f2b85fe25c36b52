ghost use Rattle.std.specs.Prelude.{◌≡◌, ◌∷◌, [], ◌+◌, ◌*◌, ◌<◌, ◌≤◌, ◌^◌, ℕ, All, IfOk, Some, length, max, slice_index, slice_set};
ghost use Rattle.disp_model.specs.Train.{IsSuccessor, duration_of};
ghost use Rattle.train_orders.specs.Orders.{IsInside, IsOrder};
ghost use Rattle.node_facts.specs.Ways.{lesser};
ghost use Rattle.route_marks.specs.Marks.{ArePlaces, sum_at};
ghost use Rattle.tree_checker.specs.TrainCosts.{EntersNexts, LeavesCosts, AreEntered, base_by, reach_by};

use disp_model::{Memory, Operation};
use node_facts::{TrainKnowledge, min_of, nexts_of};
use std::alloc::Global;

/// What is kept of an operation, if anything is.
pub(crate) fn kept_at(kept: &[Option<u128>], op: u32) -> Option<u128>
    ensures { result ≡ sum_at kept.now op }
{
    match kept.get(op as usize) {
        Some(number) => *number,
        None => None,
    }
}

/// The base of an operation, or 0 where none is kept.
pub(crate) fn base_at(bases: &[u128], op: u32) -> u128
    ensures { result ≡ slice_index bases.now op }
{
    match bases.get(op as usize) {
        Some(base) => *base,
        None => 0,
    }
}

/// The lesser of two numbers that may be known.
pub(crate) fn lesser(number: Option<u128>, other: Option<u128>) -> Option<u128>
    ensures { result ≡ lesser number other }
{
    match (number, other) {
        (Some(number), Some(other)) => Some(number.min(other)),
        _ => number.or(other),
    }
}

/// EntersNexts an operation at a time, unless it was entered no later.
fn enter(entered: &mut Vec<Option<u128>>, op: u32, time: u128)
    requires { op < length entered.old.items }
    ensures { entered.new.items
        ≡ slice_set entered.old.items op (lesser (sum_at entered.old.items op) (Some time)) }
{
    let at = op as usize;
    let sooner = lesser(entered[at], Some(time));
    entered[at] = sooner;
}

/// EntersNexts an operation at a time, if a route may go on to it from another.
fn step_to(entered: &mut Vec<Option<u128>>, known: &TrainKnowledge, op: u32, next: u32, time: u128)
    requires { next < length entered.old.items }
    ensures { EntersNexts known.now.places.items known.now.demands.items op (next ∷ []) time
        entered.old.items entered.new.items }
{
    if known.may_go(op, Some(next)) {
        enter(entered, next, time);
    }
}

/// EntersNexts at a time those operations to which a route may go on from another.
fn go_on(
    entered: &mut Vec<Option<u128>>,
    known: &TrainKnowledge,
    op: u32,
    nexts: &[u32],
    time: u128,
)
    requires { All (λ s. s < length entered.old.items) nexts.now }
    ensures { EntersNexts known.now.places.items known.now.demands.items op nexts.now time
        entered.old.items entered.new.items }
{
    for next in nexts {
        step_to(entered, known, op, *next, time);
    }
}

/// When an operation is left that is entered at a time.
fn left_at(time: u128, base: u128, min: u32) -> u128
    requires { (time ≤ 2 ^ 127 + 2 ^ 65) × (base ≤ 2 ^ 127) }
    ensures { result ≡ max time base + min }
{
    time.max(base) + u128::from(min)
}

/// LeavesCosts an operation, if it was entered, for those to which a route may go on from it.
fn leave(
    entered: &mut Vec<Option<u128>>,
    operations: &[Operation],
    known: &TrainKnowledge,
    bases: &[u128],
    op: u32,
)
    requires inside { (s : ℕ) → IsSuccessor operations.now op s
        → s < length entered.old.items }
    requires entered { (o x : ℕ) → sum_at entered.old.items o ≡ Some x
        → x ≤ 2 ^ 127 + 2 ^ 65 }
    requires bases { (o : ℕ) → slice_index bases.now o ≤ 2 ^ 127 }
    ensures leaves { LeavesCosts operations.now known.now.places.items known.now.demands.items
        bases.now op
        entered.old.items entered.new.items }
    ensures small { duration_of operations.now op < 2 ^ 32 }
{
    let min = min_of(operations, op);
    let Some(time) = kept_at(entered.as_slice(), op) else {
        return;
    };
    let left = left_at(time, base_at(bases, op), min);
    go_on(entered, known, op, nexts_of(operations, op), left);
}

/// When each operation is entered at the earliest, over the ways from the entry that a route may
/// go.
pub(crate) fn entered_of(
    alloc: Global,
    operations: &[Operation],
    known: &TrainKnowledge,
    bases: &[u128],
) -> Result<Vec<Option<u128>>, Memory>
    requires inside { IsInside operations.now }
    requires order { IsOrder operations.now known.now.order.items }
    requires places { ArePlaces operations.now known.now.order.items known.now.places.items }
    requires fits { length known.now.order.items < 2 ^ 31 }
    requires entry { known.now.entry < length operations.now }
    requires bases { (o : ℕ) → slice_index bases.now o ≤ 2 ^ 127 }
    ensures { IfOk result (λ entered. AreEntered operations.now known.now.places.items
        known.now.demands.items (base_by bases.now) known.now.entry entered.items) }
{
    let order = known.order();
    let entry = known.entry();
    let mut entered = vec![in alloc; None; operations.len()]?;
    entered[entry as usize] = Some(0);
    for step in 0..order.len() {
        let op = order[order.len() - 1 - step];
        leave(&mut entered, operations, known, bases, op);
    }
    Ok(entered)
}

/// When an operation is reached, by when it is entered.
pub(crate) fn reach_at(entered: &[Option<u128>], bases: &[u128], op: u32) -> u128
    ensures { result ≡ reach_by entered.now bases.now op }
{
    kept_at(entered, op).unwrap_or(0).max(base_at(bases, op))
}
