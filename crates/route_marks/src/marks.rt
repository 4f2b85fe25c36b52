ghost use Rattle.std.specs.Prelude.{◌≡◌, ◌≢◌, ◌+◌, ◌<◌, ◌^◌, All, IfOk, MatchOption, Some, length, slice_get};
ghost use Rattle.train_orders.specs.Orders.{IsOrder};
ghost use Rattle.route_marks.specs.Marks.{ArePlaces, IsLaid, lowered, Relaxes, IsLowest, IsOnly, Makes, IsPass, MarksEntered, HasMarks, HasSums};

use crate::row::Row;
use disp_model::{List, Memory, Operation};
use std::alloc::Global;

/// What is kept of an operation that each route has.
#[derive(Clone, Copy)]
pub struct Mark {
    /// Its place in the order from the exit back.
    pub place: usize,
    /// The least sum of durations from the entry up to it.
    pub sum: u64,
    /// The one operation that routes go on to from it.
    pub next: Option<u32>,
}

/// What the walks along rows have of a train's operations.
#[derive(Drop)]
pub struct Passed {
    /// The least sum of durations up to each operation that some walk has.
    pub sums: Vec<Option<u64>>,
    /// The marks of the operations that each walk has.
    pub marks: Vec<Option<Mark>>,
}

/// How far a pass has come that goes from the entry on.
#[derive(Drop)]
struct Pass {
    /// The least sum of durations up to each operation that is stepped to so far.
    sums: Vec<Option<u64>>,
    /// The place nearest to the exit that is stepped to so far.
    reach: usize,
    /// The marks of the operations so far that each route has.
    marks: Vec<Option<Mark>>,
}

/// Where each operation of a train stands in an order. Fails for memory alone.
pub fn places_of(alloc: Global, train: &[Operation], order: &[u32]) -> Result<Vec<usize>, Memory>
    requires { IsOrder train.now order.now }
    ensures { IfOk result (λ places. ArePlaces train.now order.now places.items) }
{
    let mut places = vec![in alloc; 0; train.len()]?;
    for (place, number) in order.iter().enumerate() {
        places[*number as usize] = place;
    }
    Ok(places)
}

/// The least of a sum that may be known and one that is.
fn lowered(sum: Option<u64>, through: u64) -> u64
    ensures { result ≡ lowered sum through }
{
    match sum {
        Some(sum) => sum.min(through),
        None => through,
    }
}

/// Lowers the sums of a row's operations to that through the operation whose row it is.
fn relax(sums: &mut Vec<Option<u64>>, row: &[u32], through: u64)
    requires { All (λ s. s < length sums.old.items) row.now }
    ensures { Relaxes row.now through sums.old.items sums.new.items }
{
    for next in row {
        let at = *next as usize;
        let sum = lowered(sums[at], through);
        sums[at] = Some(sum);
    }
}

/// The place nearest to the exit of one and those of a row's operations.
fn lowest(reach: usize, row: &[u32], places: &[usize]) -> usize
    requires { All (λ s. s < length places.now) row.now }
    ensures { IsLowest places.now reach row.now result }
{
    let mut least = reach;
    for next in row {
        least = least.min(places[*next as usize]);
    }
    least
}

/// The operation of a row that has one.
fn only(row: &[u32]) -> Option<u32>
    ensures { IsOnly row.now result }
{
    let first = row.first().copied()?;
    if row.iter().all(|next| *next == first) {
        Some(first)
    } else {
        None
    }
}

/// The mark of an operation, where no step so far leads past its place.
fn mark_of(reach: usize, place: usize, sum: u64, row: &[u32]) -> Option<Mark>
    ensures { MatchOption result (reach ≢ place) (Makes reach place sum row.now) }
{
    if reach != place {
        return None;
    }
    Some(Mark {
        place,
        sum,
        next: only(row),
    })
}

/// Goes on by the operation at a place of the order.
fn visit(
    pass: &mut Pass,
    train: &[Operation],
    order: &[u32],
    places: &[usize],
    rows: &List<Row>,
    place: usize,
)
    requires laid { IsLaid train.now order.now rows.now }
    requires places { ArePlaces train.now order.now places.now }
    requires place { place < length order.now }
    requires passes { IsPass train.now order.now rows.now (place + 1)
        pass.old.sums.items pass.old.reach pass.old.marks.items }
    ensures { IsPass train.now order.now rows.now place
        pass.new.sums.items pass.new.reach pass.new.marks.items }
{
    let at = order[place] as usize;
    let Some(sum) = pass.sums[at] else {
        return;
    };
    let row = rows.as_slice()[place].as_slice();
    let through = sum + u64::from(train[at].min);
    pass.marks[at] = mark_of(pass.reach, place, sum, row);
    relax(&mut pass.sums, row, through);
    pass.reach = lowest(pass.reach, row, places);
}

/// A pass at the entry, which is the last of the order.
fn entered(alloc: Global, train: &[Operation], order: &[u32]) -> Result<Pass, Memory>
    requires some { 0 < length order.now }
    requires within { All (λ o. o < length train.now) order.now }
    ensures { IfOk result
        (λ pass. MarksEntered train.now order.now pass.sums.items pass.reach pass.marks.items) }
{
    let reach = order.len() - 1;
    let mut sums = vec![in alloc; None; train.len()]?;
    sums[order[reach] as usize] = Some(0);
    let marks = vec![in alloc; None; train.len()]?;
    Ok(Pass { sums, reach, marks })
}

/// What the walks from the entry that go along rows have of the operations, by an order of the train
/// from the exit back. Fails for memory alone.
pub fn passed_of(
    alloc: Global,
    train: &[Operation],
    order: &[u32],
    places: &[usize],
    rows: &List<Row>,
) -> Result<Passed, Memory>
    requires laid { IsLaid train.now order.now rows.now }
    requires places { ArePlaces train.now order.now places.now }
    ensures sums { IfOk result
        (λ passed. HasSums train.now order.now rows.now passed.sums.items) }
    ensures marks { IfOk result
        (λ passed. HasMarks train.now order.now rows.now passed.marks.items) }
{
    let mut pass = entered(alloc, train, order)?;
    let mut place = order.len();
    while place > 0 {
        place -= 1;
        visit(&mut pass, train, order, places, rows, place);
    }
    Ok(Passed {
        sums: pass.sums,
        marks: pass.marks,
    })
}
