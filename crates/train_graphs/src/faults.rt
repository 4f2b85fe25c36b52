ghost use Rattle.std.specs.Prelude.{◌≡◌, ◌<◌, ◌≤◌, All, IfOk, IfSome, IfNone, length};
ghost use Rattle.train_graphs.specs.Graphs.{entry_count, exit_count, first_not_one, HasNoCycle, IsFirstLoop, AreInside};

use crate::cycle::first_on_cycle;
use crate::graph::{entry_count, exit_count};
use disp_model::{MOST_OPERATIONS, Memory, Train};
use std::alloc::Global;

/// The first train with another count of entries than one, and that count.
pub fn first_not_entered(alloc: Global, trains: &[Train]) -> Result<Option<(usize, u64)>, Memory>
    requires inside { All AreInside trains.now }
    ensures first { IfOk result (λ found. found ≡ first_not_one entry_count 0 trains.now) }
    ensures there { IfOk result (λ found. IfSome found (λ p. p.0 < length trains.now)) }
{
    for (t, train) in trains.iter().enumerate() {
        let count = entry_count(alloc, train.as_slice())?;
        if count != 1 {
            return Ok(Some((t, count)));
        }
    }
    Ok(None)
}

/// The first train with another count of exits than one, and that count.
pub fn first_not_left(trains: &[Train]) -> Option<(usize, u64)>
    ensures first { result ≡ first_not_one exit_count 0 trains.now }
    ensures there { IfSome result (λ p. p.0 < length trains.now) }
{
    for (t, train) in trains.iter().enumerate() {
        let count = exit_count(train.as_slice());
        if count != 1 {
            return Some((t, count));
        }
    }
    None
}

/// The first train with a cycle, and the least operation that lies on one.
pub fn first_loop(alloc: Global, trains: &[Train]) -> Result<Option<(usize, u32)>, Memory>
    requires inside { All AreInside trains.now }
    requires small { All (λ train. length train ≤ MOST_OPERATIONS) trains.now }
    ensures found { IfOk result (λ found. IfSome found (λ p. IsFirstLoop trains.now p.0 p.1)) }
    ensures none { IfOk result (λ found. IfNone found (All HasNoCycle trains.now)) }
    ensures there { IfOk result (λ found. IfSome found (λ p. p.0 < length trains.now)) }
{
    for (t, train) in trains.iter().enumerate() {
        if let Some(o) = first_on_cycle(alloc, train.as_slice())? {
            return Ok(Some((t, o)));
        }
    }
    Ok(None)
}
