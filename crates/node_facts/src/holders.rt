ghost use Rattle.std.specs.Prelude.{◌≡◌, ◌↔◌, ◌<◌, ◌^◌, ℕ, IfOk, IfSome, Some, length};
ghost use Rattle.train_orders.specs.Orders.{IsInside};
ghost use Rattle.node_facts.specs.Holders.{Holds, noted, AreHolders};
ghost use Rattle.route_marks.specs.Marks.{sum_at};

use crate::demands::Demand;
use crate::needed::is_marked;
use crate::reading::nexts_of;
use crate::steps::only_step;
use disp_model::{Memory, Operation};
use std::alloc::Global;

/// The one that is kept of an operation, if there is one.
pub(crate) fn holder_at(holders: &[Option<u32>], op: u32) -> Option<u32>
    ensures { result ≡ sum_at holders.now op }
{
    match holders.get(op as usize) {
        Some(holder) => *holder,
        None => None,
    }
}

/// The operation that each way goes on to from one that each way has.
fn held_by(
    train: &[Operation],
    places: &[usize],
    demands: &[Demand],
    sums: &[Option<u64>],
    needed: &[bool],
    op: u32,
) -> Option<u32>
    ensures { (s : ℕ) → (result ≡ Some s)
        ↔ Holds train.now places.now demands.now sums.now needed.now op s }
{
    if is_marked(needed, op) {
        only_step(places, demands, sums, op, nexts_of(train, op))
    } else {
        None
    }
}

/// Notes the holder of an operation, if there is such a one.
fn note(holders: &mut Vec<Option<u32>>, op: u32, held: Option<u32>)
    requires { IfSome held (λ s. s < length holders.old.items) }
    ensures { holders.new.items ≡ noted holders.old.items op held }
{
    if let Some(next) = held {
        holders[next as usize] = Some(op);
    }
}

/// Of each operation the one that each way has and from which each goes on to it, if there is one.
pub(crate) fn holders_of(
    alloc: Global,
    train: &[Operation],
    places: &[usize],
    demands: &[Demand],
    sums: &[Option<u64>],
    needed: &[bool],
) -> Result<Vec<Option<u32>>, Memory>
    requires inside { IsInside train.now }
    requires fits { length train.now < 2 ^ 32 }
    ensures { IfOk result (λ holders. AreHolders train.now places.now demands.now sums.now
        needed.now holders.items) }
{
    let mut holders = vec![in alloc; None; train.len()]?;
    for op in 0..train.len() {
        let held = held_by(train, places, demands, sums, needed, op as u32);
        note(&mut holders, op as u32, held);
    }
    Ok(holders)
}
