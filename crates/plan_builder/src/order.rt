ghost use Rattle.std.specs.Prelude.{◌≡◌, IfOk, AllPairs, map, OnOk};
ghost use Rattle.std.specs.List.Sorted.{IsPermutation};
ghost use Rattle.disp_model.specs.Earliest.{ComesBefore};

use crate::stop::Stop;
use disp_model::{Event, Memory};
use std::alloc::Global;

/// The stops in the order of their events, the last one first.
pub(crate) fn last_first(mut stops: Vec<Stop>) -> Result<Vec<Stop>, Memory>
    ensures same { IfOk result (λ sorted. IsPermutation stops.items sorted.items) }
    ensures falling { IfOk result
        (λ sorted. AllPairs (λ s t. ComesBefore s.event t.event → ⊥) sorted.items) }
{
    stops.sort_by_key(|stop| (stop.event.time, stop.event.train, stop.event.operation))?;
    stops.reverse();
    Ok(stops)
}

/// The events of the stops.
pub(crate) fn events_of(alloc: Global, stops: &[Stop]) -> Result<Vec<Event>, Memory>
    ensures { IfOk result (λ events. events.items ≡ map (λ s. s.event) stops.now) }
{
    let mut events = Vec::with_capacity(alloc, stops.len())?;
    for stop in stops {
        events.push(stop.event)?;
    }
    Ok(events)
}
