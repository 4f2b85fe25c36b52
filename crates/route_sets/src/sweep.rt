ghost use Rattle.std.specs.Prelude.{◌≡◌, ◌↔◌, ◌⊎◌, ◌<◌, ◌^◌, ℕ, [], ◌∷◌, ◌++◌, All, IfOk, IfSome, IsTrue, Some, None, Contains, length, if◌then◌else◌};
ghost use Rattle.disp_model.specs.WellFormed.{IsAcyclic};
ghost use Rattle.train_orders.specs.Orders.{IsInside, IsOrder};
ghost use Rattle.route_sets.specs.Sweeps.{AskMayGo, CanEnd, IsKept, IsSwept, counted};

use crate::asks::Ask;
use disp_model::{List, Memory, Operation};
use route_marks::Row;
use std::alloc::Global;

/// What is kept of the operations of a train, in an order from the exit back.
#[derive(Drop)]
pub(crate) struct Swept {
    /// Of each operation, those of its successors that it goes on to on routes that do all that is
    /// asked.
    pub rows: List<Row>,
    /// Whether some route does all that is asked.
    pub holds: bool,
}

/// Whether one may go on to an operation, where one has to be gone on to.
fn goes_to(wanted: Option<u64>, next: u32) -> bool
    ensures { IsTrue result ↔ IfSome wanted (λ n. n ≡ next) }
{
    match wanted {
        Some(wanted) => wanted == u64::from(next),
        None => true,
    }
}

/// Whether an operation may go on to another, by what is asked of it.
fn may_go(ask: Ask, next: u32) -> bool
    ensures { IsTrue result ↔ AskMayGo ask next }
{
    !ask.skipped && goes_to(ask.next, next)
}

/// Whether a way of wanted operations may end at the operation, where none is wanted of those so
/// far.
fn can_end(operation: &Operation, ask: Ask, count: usize) -> bool
    ensures { IsTrue result ↔ CanEnd operation.now ask count }
{
    operation.next.len() == 0 && count == 0 && !ask.skipped && ask.next.is_none()
}

/// Whether the operation may go on to another, which has a way with so many wanted operations.
fn is_kept(ask: Ask, held: &[Option<usize>], count: usize, next: u32) -> bool
    requires { next < length held.now }
    ensures { IsTrue result ↔ IsKept ask held.now count next }
{
    may_go(ask, next) && held[next as usize] == Some(count)
}

/// The successors of an operation that have a way with so many wanted operations.
fn row_of(
    alloc: Global,
    operation: &Operation,
    ask: Ask,
    held: &[Option<usize>],
    count: usize,
) -> Result<Row, Memory>
    requires { All (λ s. s < length held.now) operation.now.next }
    ensures { IfOk result (λ row. (s : ℕ) →
        Contains row s ↔ (Contains operation.now.next s × IsKept ask held.now count s)) }
{
    let mut row = Row::new(alloc);
    for next in operation.next.as_slice() {
        let kept = is_kept(ask, held, count, *next);
        row.push_if(*next, kept)?;
    }
    Ok(row)
}

/// How many operations are wanted with one more.
fn counted(ask: Ask, count: usize) -> usize
    requires { count < 2 ^ 63 }
    ensures { result ≡ counted ask count }
{
    if ask.wanted { count + 1 } else { count }
}

/// What is held of an operation.
fn holding(holds: bool, count: usize) -> Option<usize>
    ensures { result ≡ (if holds then Some count else None) }
{
    if holds { Some(count) } else { None }
}

/// Whether the operation has a way with all that is wanted of those so far, by the row of it.
fn has_way(operation: &Operation, ask: Ask, row: &Row, count: usize) -> bool
    ensures { IsTrue result ↔ (CanEnd operation.now ask count ⊎ ((s : ℕ) × Contains row.now s)) }
{
    can_end(operation, ask, count) || row.len() > 0
}

/// No rows yet, with room for so many.
fn no_rows(alloc: Global, count: usize) -> Result<List<Row>, Memory>
    ensures { IfOk result (λ rows. rows ≡ []) }
{
    Ok(List::from_vec(Vec::with_capacity(alloc, count)?))
}

/// The rows of all operations, by an order of them from the exit back. Of each operation it keeps
/// how many wanted ones it has on a way, where it has a way with all of those so far.
pub(crate) fn sweep(
    alloc: Global,
    train: &[Operation],
    asks: &[Ask],
    order: &[u32],
) -> Result<Swept, Memory>
    requires inside { IsInside train.now }
    requires asks { length asks.now ≡ length train.now }
    requires order { IsOrder train.now order.now }
    requires fits { length order.now < 2 ^ 63 }
    ensures { IfOk result (λ swept. IsSwept train.now asks.now order.now swept) }
{
    let mut held = vec![in alloc; None; train.len()]?;
    let mut rows = no_rows(alloc, order.len())?;
    let mut count = 0;
    let mut holds = false;
    for number in order {
        let at = *number as usize;
        let ask = asks[at];
        let row = row_of(alloc, &train[at], ask, &held, count)?;
        holds = has_way(&train[at], ask, &row, count);
        count = counted(ask, count);
        held[at] = holding(holds, count);
        rows.push(row)?;
    }
    Ok(Swept { rows, holds })
}
