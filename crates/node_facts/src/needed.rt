ghost use Rattle.std.specs.Prelude.{◌≡◌, ◌↔◌, ◌<◌, ◌^◌, IfOk, IsTrue, IsSome, Contains, length, map, slice_index_or, false, true, ℕ, [], replicate};
ghost use Rattle.std.specs.Option.{is_some};
ghost use Rattle.disp_model.specs.WellFormed.{IsAcyclic};
ghost use Rattle.train_orders.specs.Orders.{IsOrder};
ghost use Rattle.route_marks.specs.Marks.{ArePlaces};
ghost use Rattle.node_facts.specs.Live.{AreLiveRows, IsLiveStep};
ghost use Rattle.node_facts.specs.Ways.{AreSums};
ghost use Rattle.route_marks.specs.Ways.{last_of};
ghost use Rattle.node_facts.specs.Known.{AreOnEach};

use crate::demands::{Demand, may_go};
use crate::sums::has_way;
use disp_model::{List, Memory, Operation};
use route_marks::{Mark, Row, passed_of};
use std::alloc::Global;

/// Whether an operation is marked.
pub(crate) fn is_marked(marks: &[bool], op: u32) -> bool
    ensures { result ≡ slice_index_or marks.now op false }
{
    match marks.get(op as usize) {
        Some(mark) => *mark,
        None => false,
    }
}

/// Whether a route may go on from an operation to another, which has a way.
pub(crate) fn is_live(
    places: &[usize],
    demands: &[Demand],
    sums: &[Option<u64>],
    op: u32,
    next: u32,
) -> bool
    ensures { IsTrue result ↔ IsLiveStep places.now demands.now sums.now op next }
{
    may_go(places, demands, op, Some(next)) && has_way(sums, next)
}

/// The successors of an operation that have a way and to which a route may go on.
fn row_of(
    alloc: Global,
    operation: &Operation,
    places: &[usize],
    demands: &[Demand],
    sums: &[Option<u64>],
    op: u32,
) -> Result<Row, Memory>
    ensures { IfOk result (λ row. (s : ℕ) → Contains row s
        ↔ (Contains operation.now.next s × IsLiveStep places.now demands.now sums.now op s)) }
{
    let mut row = Row::new(alloc);
    for next in operation.next.as_slice() {
        let kept = is_live(places, demands, sums, op, *next);
        row.push_if(*next, kept)?;
    }
    Ok(row)
}

/// No rows yet, with room for so many.
fn no_rows(alloc: Global, count: usize) -> Result<List<Row>, Memory>
    ensures { IfOk result (λ rows. rows ≡ []) }
{
    Ok(List::from_vec(Vec::with_capacity(alloc, count)?))
}

/// The rows of a train's operations, by an order of them from the exit back.
fn rows_of(
    alloc: Global,
    train: &[Operation],
    order: &[u32],
    places: &[usize],
    demands: &[Demand],
    sums: &[Option<u64>],
) -> Result<List<Row>, Memory>
    requires { IsOrder train.now order.now }
    ensures { IfOk result (AreLiveRows train.now order.now places.now demands.now sums.now) }
{
    let mut rows = no_rows(alloc, order.len())?;
    for number in order {
        let row = row_of(
            alloc,
            &train[*number as usize],
            places,
            demands,
            sums,
            *number,
        )?;
        rows.push(row)?;
    }
    Ok(rows)
}

/// Which operations have a mark.
fn marked(alloc: Global, marks: &[Option<Mark>]) -> Result<Vec<bool>, Memory>
    ensures { IfOk result (λ marked. marked.items ≡ map is_some marks.now) }
{
    let mut marked = Vec::with_capacity(alloc, marks.len())?;
    for mark in marks {
        marked.push(mark.is_some())?;
    }
    Ok(marked)
}

/// A mark for each of so many operations.
fn all_marked(alloc: Global, count: usize) -> Result<Vec<bool>, Memory>
    ensures { IfOk result (λ marks. marks.items ≡ replicate count true) }
{
    Ok(vec![in alloc; true; count]?)
}

/// Which operations of a train are on each way from the entry. Where there is no such way all are.
pub(crate) fn needed_of(
    alloc: Global,
    train: &[Operation],
    order: &[u32],
    places: &[usize],
    demands: &[Demand],
    sums: &[Option<u64>],
    entry: u32,
) -> Result<Vec<bool>, Memory>
    requires acyclic { IsAcyclic train.now }
    requires order { IsOrder train.now order.now }
    requires places { ArePlaces train.now order.now places.now }
    requires fits { length order.now < 2 ^ 31 }
    requires sums { AreSums train.now places.now demands.now sums.now }
    requires entry { entry ≡ last_of order.now }
    ensures { IfOk result (λ marks.
        AreOnEach train.now places.now demands.now entry marks.items) }
{
    if !has_way(sums, entry) {
        return all_marked(alloc, train.len());
    }
    let rows = rows_of(alloc, train, order, places, demands, sums)?;
    let passed = passed_of(alloc, train, order, places, &rows)?;
    marked(alloc, &passed.marks)
}
