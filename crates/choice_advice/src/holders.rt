use crate::spots::{NEVER, Spot};
use disp_model::{Listing, Memory, Problem};
use std::alloc::Global;
use std::mem;

/// An operation that lists a resource, and what a node says of it.
#[derive(Clone, Copy)]
pub(crate) struct Holder {
    pub resource: u32,
    pub release: u64,
    pub train: u32,
    pub number: u32,
    /// Whether each allowed route of its train has it.
    pub forced: bool,
    pub start: u64,
    pub end: u64,
}

impl Holder {
    /// Until when it keeps others out.
    pub(crate) fn until(&self) -> u64 {
        self.end.saturating_add(self.release)
    }
}

/// A time in which holders of a resource were moved, from one beginning to one end.
#[derive(Clone, Copy)]
pub(crate) struct Span {
    pub from: u64,
    pub until: u64,
}

impl Span {
    /// No time.
    const NOTHING: Span = Span {
        from: NEVER,
        until: 0,
    };

    /// Takes in the time in which a holder keeps others out.
    fn take_in(&mut self, holder: &Holder) {
        self.from = self.from.min(holder.start);
        self.until = self.until.max(holder.until());
    }

    /// Whether there is such a time.
    pub(crate) fn is_some(&self) -> bool {
        self.from < self.until
    }

    /// Whether a holder keeps others out, or is kept out, in that time.
    pub(crate) fn meets(&self, holder: &Holder) -> bool {
        holder.start < self.until && self.from < holder.until()
    }
}

/// The holders of a resource of which some have moved.
#[derive(Clone, Copy)]
pub(crate) struct Moved<'a> {
    pub resource: u32,
    pub holders: &'a [Holder],
    /// When those were held, before or now, that have moved.
    pub span: Span,
    /// The same of those alone that are forced, before or now.
    pub forced: Span,
}

/// The operations that list a resource, as they start.
#[derive(Drop)]
struct Resource {
    holders: Vec<Holder>,
    /// Whether it is to be looked at again.
    stale: bool,
    /// When holders have moved since it was looked at, and when forced ones have.
    span: Span,
    forced: Span,
}

/// The operations that list each resource. Only resources of which a holder has moved are looked at
/// again.
#[derive(Drop)]
pub(crate) struct Holders {
    each: Vec<Resource>,
    stale: Vec<u32>,
}

/// Moves the holder at a place to the front of those before it that start later.
fn sink(holders: &mut [Holder], place: usize) {
    for at in (0..place).rev() {
        let behind = at.saturating_add(1);
        let (Some(before), Some(holder)) = (holders.get(at), holders.get(behind)) else {
            return;
        };
        let (before, holder) = (*before, *holder);
        if before.start <= holder.start {
            return;
        }
        if let Some(there) = holders.get_mut(at) {
            *there = holder;
        }
        if let Some(there) = holders.get_mut(behind) {
            *there = before;
        }
    }
}

/// Moves the holder at a place behind those after it that start earlier.
fn rise(holders: &mut [Holder], place: usize) {
    for at in place..holders.len() {
        let behind = at.saturating_add(1);
        let (Some(holder), Some(after)) = (holders.get(at), holders.get(behind)) else {
            return;
        };
        let (holder, after) = (*holder, *after);
        if holder.start <= after.start {
            return;
        }
        if let Some(there) = holders.get_mut(at) {
            *there = after;
        }
        if let Some(there) = holders.get_mut(behind) {
            *there = holder;
        }
    }
}

/// The place of an operation that starts at a time among holders.
fn place_of(holders: &[Holder], number: u32, start: u64) -> Option<usize> {
    let first = holders.partition_point(|holder| holder.start < start);
    let there = holders.get(first..)?;
    let place = there.iter().position(|holder| holder.number == number)?;
    Some(first.saturating_add(place))
}

/// Notes when a holder was held before, and when it is now.
fn note_move(span: &mut Span, forced: &mut Span, before: &Holder, now: &Holder) {
    span.take_in(before);
    span.take_in(now);
    if before.forced {
        forced.take_in(before);
    }
    if now.forced {
        forced.take_in(now);
    }
}

impl Resource {
    /// Has an operation that started at a time be held as it is now.
    fn move_to(&mut self, number: u32, start: u64, spot: Spot) {
        let holders = self.holders.as_mut_slice();
        let Some(place) = place_of(holders, number, start) else {
            return;
        };
        if let Some(holder) = holders.get_mut(place) {
            let before = *holder;
            holder.forced = spot.forced;
            holder.start = spot.start;
            holder.end = spot.end;
            note_move(&mut self.span, &mut self.forced, &before, holder);
        }
        sink(holders, place);
        rise(holders, place);
    }

    /// When its holders have moved since it was asked last.
    fn take_moved(&mut self, resource: u32) -> Moved {
        let span = mem::replace(&mut self.span, Span::NOTHING);
        let forced = mem::replace(&mut self.forced, Span::NOTHING);
        Moved {
            resource,
            holders: self.holders.as_slice(),
            span,
            forced,
        }
    }
}

impl Holders {
    /// The holders of a problem's resources, of which nothing is known.
    pub(crate) fn of(alloc: Global, problem: &Problem) -> Result<Holders, Memory> {
        let mut each = Vec::new(alloc);
        for _ in problem.names.as_slice() {
            each.push(Resource {
                holders: Vec::new(alloc),
                stale: false,
                span: Span::NOTHING,
                forced: Span::NOTHING,
            })?;
        }
        let stale = Vec::with_capacity(alloc, each.len())?;
        let mut holders = Holders { each, stale };
        let mut train = 0u32;
        let mut number = 0u32;
        for operations in problem.trains.as_slice() {
            for operation in operations.as_slice() {
                for listing in operation.listings.as_slice() {
                    holders.add(*listing, train, number)?;
                }
                number = number.saturating_add(1);
            }
            train = train.saturating_add(1);
        }
        Ok(holders)
    }

    /// Adds an operation of a train.
    fn add(&mut self, listing: Listing, train: u32, number: u32) -> Result<(), Memory> {
        if let Some(resource) = self.each.get_mut(listing.resource as usize) {
            resource.holders.push(Holder {
                resource: listing.resource,
                release: u64::from(listing.release),
                train,
                number,
                forced: false,
                start: NEVER,
                end: NEVER,
            })?;
        }
        Ok(())
    }

    /// Has an operation that lists a resource, and started at a time, be held as it is now.
    pub(crate) fn move_to(
        &mut self,
        resource: u32,
        number: u32,
        start: u64,
        spot: Spot,
    ) -> Result<(), Memory> {
        let Some(place) = self.each.get_mut(resource as usize) else {
            return Ok(());
        };
        place.move_to(number, start, spot);
        if !place.stale {
            place.stale = true;
            self.stale.push(resource)?;
        }
        Ok(())
    }

    /// Gives a resource of which a holder has moved; it has not any more then.
    pub(crate) fn next_moved(&mut self) -> Option<Moved> {
        let number = self.stale.pop()?;
        let resource = self.each.get_mut(number as usize)?;
        resource.stale = false;
        Some(resource.take_moved(number))
    }

    /// The holders of a resource.
    pub(crate) fn of_resource(&self, resource: u32) -> &[Holder] {
        match self.each.get(resource as usize) {
            Some(resource) => resource.holders.as_slice(),
            None => &[],
        }
    }
}
