use disp_model::{Event, Memory};
use std::alloc::Global;
use train_insertion::{Start, Target};

/// An operation of a target: when it starts and when the next one does, its train, its place there,
/// and its number. Of two that start at one time the one that ends first stands in front.
#[derive(Clone, Copy, Debug, PartialEq, Eq, PartialOrd, Ord)]
struct Passing {
    time: u64,
    until: u64,
    train: u32,
    place: usize,
    op: u32,
}

/// Adds what a train runs.
fn add_run(all: &mut Vec<Passing>, train: u32, run: &[Start]) -> Result<(), Memory> {
    for (place, start) in run.iter().enumerate() {
        let until = match run.get(place.saturating_add(1)) {
            Some(next) => next.time,
            None => start.time,
        };
        all.push(Passing {
            time: start.time,
            until,
            train,
            place,
            op: start.op,
        })?;
    }
    Ok(())
}

/// What a target has so many trains run, in order.
fn passings(alloc: Global, target: &Target, trains: usize) -> Result<Vec<Passing>, Memory> {
    let mut all = Vec::new(alloc);
    for train in 0..u32::try_from(trains).unwrap_or(u32::MAX) {
        add_run(&mut all, train, target.run(train))?;
    }
    all.sort_unstable();
    Ok(all)
}

/// The events of a target for so many trains, in order.
pub(crate) fn events_of(
    alloc: Global,
    target: &Target,
    trains: usize,
) -> Result<Vec<Event>, Memory> {
    let all = passings(alloc, target, trains)?;
    let mut events = Vec::with_capacity(alloc, all.len())?;
    for passing in all.as_slice() {
        events.push(Event {
            time: passing.time,
            train: passing.train,
            operation: passing.op,
        })?;
    }
    Ok(events)
}
