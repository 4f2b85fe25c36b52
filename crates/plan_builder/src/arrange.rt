ghost use Rattle.std.specs.Prelude.{◌≡◌, ℕ, ◌+◌, ◌<◌, ◌≤◌, List, [], length, All, IfOk, IfSome, IfNone, slice_index_or};
ghost use Rattle.std.specs.List.{remove};
ghost use Rattle.std.specs.List.Sorted.{IsPermutation};
ghost use Rattle.plan_builder.specs.declared.stop.Stop.{Stop};
ghost use Rattle.plan_builder.specs.Stops.{AreOnce, AreMarkedNodes, IsBlocked, IsFirstFree, AreStopsLeft, AreStopsArranged};

use crate::order::last_first;
use crate::stop::Stop;
use disp_model::Memory;
use incremental_paths::Paths;
use std::alloc::Global;

/// Of so many nodes, marks on those of the stops.
fn waiting_of(alloc: Global, nodes: usize, stops: &[Stop]) -> Result<Vec<bool>, Memory>
    requires nodes { All (λ s. s.node < nodes) stops.now }
    ensures size { IfOk result (λ waiting. length waiting.items ≡ nodes) }
    ensures marks { IfOk result (λ waiting. AreMarkedNodes stops.now waiting.items) }
{
    let mut waiting = vec![in alloc; false; nodes]?;
    for stop in stops {
        waiting[stop.node as usize] = true;
    }
    Ok(waiting)
}

/// The place of the last stop to which no arc leads from one that waits.
fn last_free(rest: &[Stop], waiting: &[bool], paths: &Paths) -> Option<usize>
    requires nodes { All (λ s. s.node < length paths.now.lowers) rest.now }
    requires size { length waiting.now ≡ length paths.now.lowers }
    requires waiting { AreMarkedNodes rest.now waiting.now }
    ensures within { IfSome result (λ place. place < length rest.now) }
    ensures free { IfSome result (λ place. (d : Stop)
        → IsBlocked paths.now.arcs rest.now (slice_index_or rest.now place d) → ⊥) }
    ensures blocked { IfSome result (λ place. (k : ℕ) (d : Stop) → place < k → k < length rest.now
        → IsBlocked paths.now.arcs rest.now (slice_index_or rest.now k d)) }
    ensures none { IfNone result (length rest.now ≡ 0) }
{
    let mut place = rest.len();
    while place > 0 {
        place -= 1;
        if !paths.is_entered_from(rest[place].node, waiting) {
            return Some(place);
        }
    }
    None
}

/// Takes out the first stop, which are in falling order, to which no arc leads from another.
fn take_first(rest: &mut Vec<Stop>, waiting: &mut [bool], paths: &Paths) -> Stop
    requires some { 0 < length rest.old.items }
    requires left { AreStopsLeft paths.now rest.old.items waiting.old }
    ensures left { AreStopsLeft paths.now rest.new.items waiting.new }
    ensures taken { (place : ℕ) × (place < length rest.old.items)
        × (result ≡ slice_index_or rest.old.items place result)
        × (rest.new.items ≡ remove rest.old.items place) }
    ensures first { IsFirstFree paths.now.arcs rest.old.items result }
{
    let place = match last_free(rest, waiting, paths) {
        Some(place) => place,
        None => unreachable!(),
    };
    let stop = rest.remove(place);
    waiting[stop.node as usize] = false;
    stop
}

/// The stops in the order of their events, each behind those from which an arc leads to it.
pub(crate) fn arrange(alloc: Global, stops: Vec<Stop>, paths: &Paths) -> Result<Vec<Stop>, Memory>
    requires nodes { All (λ s. s.node < length paths.now.lowers) stops.items }
    requires once { AreOnce stops.items }
    ensures same { IfOk result (λ plan. IsPermutation stops.items plan.items) }
    ensures arranged { IfOk result (λ plan. AreStopsArranged paths.now.arcs plan.items []) }
{
    let count = stops.len();
    let mut rest = last_first(stops)?;
    let mut waiting = waiting_of(alloc, paths.size(), &rest)?;
    let mut plan = Vec::with_capacity(alloc, count)?;
    for _ in 0..count {
        plan.push(take_first(&mut rest, &mut waiting, paths))?;
    }
    Ok(plan)
}
