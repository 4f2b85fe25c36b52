ghost use Rattle.std.specs.Prelude.{◌≡◌, ◌<◌, ◌≤◌, ◌+◌, ◌^◌, ℕ, All, IfOk, Some, None, length, max, replicate, slice_index, slice_set};
ghost use Rattle.route_marks.specs.Ways.{last_of};
ghost use Rattle.route_marks.specs.Marks.{IsLaid, Relaxes, lowered};
ghost use Rattle.share_bound.specs.Times.{base_in, reach_in, AreTimes, IsEntering};

use disp_model::{Memory, Operation};
use route_marks::Row;
use std::alloc::Global;

/// The lesser of a time that may be known and one that is.
fn lowered(known: Option<u64>, time: u64) -> u64
    ensures { result ≡ lowered known time }
{
    match known {
        Some(known) => known.min(time),
        None => time,
    }
}

/// Enters the operations of a row at a time, unless they are entered by then.
fn enter(times: &mut Vec<Option<u64>>, row: &[u32], time: u64)
    requires { All (λ s. s < length times.old.items) row.now }
    ensures { Relaxes row.now time times.old.items times.new.items }
{
    for next in row {
        let at = *next as usize;
        let sooner = lowered(times[at], time);
        times[at] = Some(sooner);
    }
}

/// When an operation is left that is entered at a time.
fn left_at(time: u64, base: u64, min: u32) -> u64
    requires time { time ≤ 2 ^ 62 + 2 ^ 63 }
    requires base { base ≤ 2 ^ 62 }
    ensures { result ≡ max time base + min }
{
    time.max(base) + u64::from(min)
}

/// Leaves the operation at a place of the order, where it is entered, for those of its row.
fn leave(
    times: &mut Vec<Option<u64>>,
    train: &[Operation],
    order: &[u32],
    rows: &[Row],
    bases: &[u64],
    place: usize,
)
    requires laid { IsLaid train.now order.now rows.now }
    requires bases { (o : ℕ) → slice_index bases.now o ≤ 2 ^ 62 }
    requires long { length bases.now ≡ length train.now }
    requires place { place < length order.now }
    requires before { IsEntering train.now (base_in bases.now) order.now rows.now (place + 1)
        times.old.items }
    ensures { IsEntering train.now (base_in bases.now) order.now rows.now place times.new.items }
{
    let at = order[place] as usize;
    let Some(time) = times[at] else {
        return;
    };
    let left = left_at(time, bases[at], train[at].min);
    enter(times, rows[place].as_slice(), left);
}

/// The times of a train of which the last operation of an order is entered at 0 and none else.
fn begun(alloc: Global, train: &[Operation], order: &[u32]) -> Result<Vec<Option<u64>>, Memory>
    requires some { 0 < length order.now }
    requires within { All (λ o. o < length train.now) order.now }
    ensures { IfOk result (λ times. times.items
        ≡ slice_set (replicate (length train.now) None) (last_of order.now) (Some 0)) }
{
    let entry = order.len() - 1;
    let mut times = vec![in alloc; None; train.len()]?;
    times[order[entry] as usize] = Some(0);
    Ok(times)
}

/// When each operation of a train is entered at the earliest, over the ways from the entry, by rows
/// of an order of its operations from the exit back; none where no way leads to it.
pub(crate) fn times_of(
    alloc: Global,
    train: &[Operation],
    order: &[u32],
    rows: &[Row],
    bases: &[u64],
) -> Result<Vec<Option<u64>>, Memory>
    requires laid { IsLaid train.now order.now rows.now }
    requires bases { (o : ℕ) → slice_index bases.now o ≤ 2 ^ 62 }
    requires long { length bases.now ≡ length train.now }
    ensures { IfOk result
        (λ times. AreTimes train.now (base_in bases.now) order.now rows.now times.items) }
{
    let mut times = begun(alloc, train, order)?;
    let mut place = order.len();
    while place > 0 {
        place -= 1;
        leave(&mut times, train, order, rows, bases, place);
    }
    Ok(times)
}

/// When an operation is reached, by when it is entered.
pub(crate) fn reach_at(times: &[Option<u64>], bases: &[u64], op: u32) -> u64
    ensures { result ≡ reach_in times.now (base_in bases.now) op }
{
    let at = op as usize;
    let entered = match times.get(at) {
        Some(time) => time.unwrap_or(0),
        None => 0,
    };
    let base = match bases.get(at) {
        Some(base) => *base,
        None => 0,
    };
    entered.max(base)
}
