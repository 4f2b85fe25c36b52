use crate::advice::Start;
use disp_model::{Listing, Memory, Operation};
use std::alloc::Global;

/// The shortest time between two trains on a resource, also where no release time is asked for, so
/// that two trains never change places at one moment.
const GAP: u32 = 1;

/// A time during which a train has a resource, its release time with it.
#[derive(Clone, Copy, Debug, PartialEq, Eq, PartialOrd, Ord)]
pub(crate) struct Hold {
    pub from: u64,
    pub until: u64,
}

/// How long after its end an operation keeps others from what it lists.
pub(crate) fn gap_of(listing: &Listing) -> u64 {
    u64::from(listing.release.max(GAP))
}

/// The times during which each resource is taken, those of one resource by their beginnings.
#[derive(Drop)]
pub(crate) struct Holds {
    each: Vec<Vec<Hold>>,
}

/// Puts a time in behind those that begin no later.
fn put_in(row: &mut Vec<Hold>, hold: Hold) -> Result<(), Memory> {
    let place = row.partition_point(|other| other.from <= hold.from);
    row.insert(place, hold)?;
    Ok(())
}

impl Holds {
    /// Nothing is taken of so many resources.
    pub(crate) fn new(alloc: Global, resources: usize) -> Result<Holds, Memory> {
        let mut each = Vec::with_capacity(alloc, resources)?;
        for _ in 0..resources {
            each.push(Vec::new(alloc))?;
        }
        Ok(Holds { each })
    }

    /// Nothing is taken, with room for as much as these are.
    pub(crate) fn as_many(alloc: Global, other: &Holds) -> Result<Holds, Memory> {
        let mut each = Vec::with_capacity(alloc, other.each.len())?;
        for row in other.each.as_slice() {
            each.push(Vec::with_capacity(alloc, row.len().saturating_add(1))?)?;
        }
        Ok(Holds { each })
    }

    /// The times during which a resource is taken.
    pub(crate) fn of(&self, resource: u32) -> &[Hold] {
        match self.each.get(resource as usize) {
            Some(row) => row.as_slice(),
            None => &[],
        }
    }

    /// Takes what an operation lists.
    fn take_listed(&mut self, listings: &[Listing], from: u64, end: u64) -> Result<(), Memory> {
        for listing in listings {
            if let Some(row) = self.each.get_mut(listing.resource as usize) {
                let until = end.saturating_add(gap_of(listing));
                put_in(row, Hold { from, until })?;
            }
        }
        Ok(())
    }

    /// Takes what a train holds on its run.
    pub(crate) fn take_run(&mut self, train: &[Operation], run: &[Start]) -> Result<(), Memory> {
        for (place, start) in run.iter().enumerate() {
            if let Some(operation) = train.get(start.op as usize) {
                let end = match run.get(place.saturating_add(1)) {
                    Some(next) => next.time,
                    None => start.time.saturating_add(u64::from(operation.min)),
                };
                self.take_listed(operation.listings.as_slice(), start.time, end)?;
            }
        }
        Ok(())
    }
}
