use crate::holds::{Hold, Holds, gap_of};
use crate::labels::Label;
use disp_model::{Listing, Memory, Operation};
use std::alloc::Global;

/// A time in which all that an operation lists is free: it may start at `from`, and must have ended
/// before `until`. The best way to start in it is kept once one is known.
#[derive(Clone, Copy)]
pub(crate) struct Window {
    pub from: u64,
    pub until: u64,
    pub label: Option<Label>,
}

/// The time during which an operation with this gap may not have a resource that is held. It may
/// end before `from`.
fn closed_by(hold: &Hold, gap: u64) -> Hold {
    Hold {
        from: hold.from.saturating_add(1).saturating_sub(gap),
        until: hold.until,
    }
}

/// Adds the times during which an operation may not have what a listing names.
fn add_closed(closed: &mut Vec<Hold>, holds: &Holds, listing: &Listing) -> Result<(), Memory> {
    let gap = gap_of(listing);
    for hold in holds.of(listing.resource) {
        closed.push(closed_by(hold, gap))?;
    }
    Ok(())
}

/// The times during which an operation may not have all that it lists, by their beginnings, in a
/// list whose elements are dropped.
fn find_closed(closed: &mut Vec<Hold>, holds: &Holds, listings: &[Listing]) -> Result<(), Memory> {
    closed.clear();
    for listing in listings {
        add_closed(closed, holds, listing)?;
    }
    if listings.len() > 1 {
        closed.sort_unstable();
    }
    Ok(())
}

/// Adds the times between these.
fn add_between(windows: &mut Vec<Window>, closed: &[Hold]) -> Result<(), Memory> {
    let mut from = 0;
    for hold in closed {
        if from < hold.from {
            windows.push(Window {
                from,
                until: hold.from,
                label: None,
            })?;
        }
        from = hold.until.max(from);
    }
    windows.push(Window {
        from,
        until: u64::MAX,
        label: None,
    })?;
    Ok(())
}

/// The windows of the operations of a train, one operation behind the other.
#[derive(Drop)]
pub(crate) struct Windows {
    all: Vec<Window>,
    /// For each operation where its windows begin, and where the last ones end.
    begins: Vec<usize>,
}

impl Windows {
    /// Where the windows of an operation stand.
    pub(crate) fn range(&self, op: u32) -> (usize, usize) {
        let begin = self.begins.get(op as usize).copied().unwrap_or(0);
        let end = self.begins.get((op as usize).saturating_add(1)).copied();
        (begin, end.unwrap_or(begin))
    }

    /// Where the windows of an operation stand that end behind a time.
    pub(crate) fn range_behind(&self, op: u32, time: u64) -> (usize, usize) {
        let (begin, end) = self.range(op);
        let windows = self.all.get(begin..end).unwrap_or(&[]);
        let passed = windows.partition_point(|window| window.until <= time);
        (begin.saturating_add(passed), end)
    }

    /// The window at a place.
    pub(crate) fn get(&self, place: usize) -> Option<Window> {
        self.all.get(place).copied()
    }

    /// The window at a place, to change it.
    pub(crate) fn get_mut(&mut self, place: usize) -> Option<&mut Window> {
        self.all.get_mut(place)
    }
}

/// How many windows there are at most between the times that are taken of what a train lists.
fn most_windows(holds: &Holds, train: &[Operation]) -> usize {
    let mut most = train.len();
    for operation in train {
        for listing in operation.listings.as_slice() {
            most = most.saturating_add(holds.of(listing.resource).len());
        }
    }
    most
}

/// The times in which all that each operation of a train lists is free.
pub(crate) fn windows_of(
    alloc: Global,
    holds: &Holds,
    train: &[Operation],
) -> Result<Windows, Memory> {
    let mut all = Vec::with_capacity(alloc, most_windows(holds, train))?;
    let mut begins = Vec::with_capacity(alloc, train.len().saturating_add(1))?;
    let mut closed = Vec::new(alloc);
    for operation in train {
        begins.push(all.len())?;
        find_closed(&mut closed, holds, operation.listings.as_slice())?;
        add_between(&mut all, closed.as_slice())?;
    }
    begins.push(all.len())?;
    Ok(Windows { all, begins })
}
