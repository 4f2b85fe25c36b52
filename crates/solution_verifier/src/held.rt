ghost use Rattle.std.specs.Prelude.{◌≡◌, ℕ, ◌+◌, ◌<◌, ◌≤◌, ◌↔◌, IsTrue, MatchOption, All, [], length};
ghost use Rattle.std.specs.List.{Any};
ghost use Rattle.disp_model.specs.declared.train.Listing.{Listing};
ghost use Rattle.disp_model.specs.Train.{next_of, duration_of};
ghost use Rattle.disp_model.specs.Valid.{train_at};
ghost use Rattle.solution_verifier.specs.Held.{HasPassed, event_end, listings_at};
ghost use Rattle.solution_verifier.specs.Answered.{RisesUntil, LetsThrough, IsFirstListing, IsFirstHeldOf, IsFirstHeldClash};

use crate::clash::Clash;
use crate::event::operation_of;
use disp_model::{Event, Listing, Problem};

/// What an event's operation lists.
fn listings_of<'a>(problem: &'a Problem, event: &Event) -> &'a [Listing]
    ensures { result.now ≡ listings_at problem.now event.now }
{
    match operation_of(problem, event) {
        Some(operation) => operation.listings.as_slice(),
        None => &[],
    }
}

/// Whether a resource is listed.
fn lists(listings: &[Listing], resource: u32) -> bool
    ensures { IsTrue result ↔ Any (λ k. k.resource ≡ resource) listings.now }
{
    listings.iter().any(|listing| listing.resource == resource)
}

/// Whether the release time has passed since the end.
fn has_passed(end: Option<u128>, release: u32, time: u64) -> bool
    ensures { IsTrue result ↔ HasPassed end release time }
{
    let release = u64::from(release);
    match end {
        Some(end) => release <= time && end <= u128::from(time - release),
        None => false,
    }
}

/// Whether the release times of all listings have passed since the end.
fn all_passed(listings: &[Listing], end: Option<u128>, time: u64) -> bool
    ensures { IsTrue result ↔ All (λ l. HasPassed end l.release time) listings.now }
{
    listings
        .iter()
        .all(|listing| has_passed(end, listing.release, time))
}

/// The first resource listed that others list too, at a time when its release time has not passed.
fn held_resource(
    listings: &[Listing],
    others: &[Listing],
    end: Option<u128>,
    time: u64,
) -> Option<u32>
    ensures { MatchOption result
        (All (λ l. Any (λ k. k.resource ≡ l.resource) others.now → HasPassed end l.release time)
        listings.now) (IsFirstListing listings.now
        (λ l. Any (λ k. k.resource ≡ l.resource) others.now → HasPassed end l.release time)) }
{
    for listing in listings {
        if lists(others, listing.resource) && !has_passed(end, listing.release, time) {
            return Some(listing.resource);
        }
    }
    None
}

/// When an event has event_end of itself: an exit after its duration, no other.
fn own_end(problem: &Problem, event: &Event) -> Option<u128>
    ensures { result ≡ event_end
        (next_of (train_at problem.now event.now.train) event.now.operation)
        (event.now.time + duration_of (train_at problem.now event.now.train) event.now.operation)
        [] }
{
    match operation_of(problem, event) {
        Some(operation) if operation.next.as_slice().is_empty() => {
            Some(u128::from(event.time) + u128::from(operation.min))
        }
        Some(_) => None,
        None => Some(u128::from(event.time)),
    }
}

/// The first event before a bound that the event at a place holds a resource against. Once all that
/// it lists is released it holds nothing against any later event.
fn first_held(problem: &Problem, events: &[Event], place: usize, bound: usize) -> Option<Clash>
    requires place { place < bound }
    requires bound { bound ≤ length events.now }
    requires order { RisesUntil events.now bound }
    ensures { MatchOption result
        ((k : ℕ) → place < k → k < bound → LetsThrough problem.now events.now place k)
        (IsFirstHeldOf problem.now events.now place bound) }
{
    let holder = events[place];
    let listings = listings_of(problem, &holder);
    let mut end = own_end(problem, &holder);
    for later in place + 1..bound {
        let event = events[later];
        if all_passed(listings, end, event.time) {
            return None;
        }
        if event.train == holder.train {
            end = end.or(Some(u128::from(event.time)));
            continue;
        }
        let others = listings_of(problem, &event);
        if let Some(resource) = held_resource(listings, others, end, event.time) {
            return Some(Clash {
                holder: place,
                event: later,
                resource,
            });
        }
    }
    None
}

/// The first event before a bound that an event holds a resource against, and the first that does.
pub(crate) fn first_clash(problem: &Problem, events: &[Event], bound: usize) -> Option<Clash>
    requires bound { bound ≤ length events.now }
    requires order { RisesUntil events.now bound }
    ensures { MatchOption result
        ((h k : ℕ) → h < k → k < bound → LetsThrough problem.now events.now h k)
        (IsFirstHeldClash problem.now events.now bound) }
{
    let mut found = None;
    let mut limit = bound;
    for place in 0..bound {
        if place >= limit {
            break;
        }
        if let Some(clash) = first_held(problem, events, place, limit) {
            limit = clash.event;
            found = Some(clash);
        }
    }
    found
}
