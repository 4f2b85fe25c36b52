ghost use Rattle.std.specs.Prelude.{◌≡◌, ◌+◌, ◌<◌, ◌++◌, ◌∷◌, ℕ, List, [], All, Contains, IfOk, OnOk, Some, None, length, slice_get, slice_index_or, slice_set};
ghost use Rattle.std.specs.Global.{Vec};
ghost use Rattle.disp_model.specs.declared.train.Listing.{Listing};
ghost use Rattle.disp_model.specs.declared.plan.Event.{Event};
ghost use Rattle.disp_model.specs.Plan.{end_of};
ghost use Rattle.branch_rules.specs.Pairs.{RiseAlong, ending_of};
ghost use Rattle.branch_rules.specs.Behind.{AreFalling, ArePutBehind, AreOfTrains, IsKnownBehind, IsFirstFrom, IsTriedOn};

use crate::end::{End, duration_of, is_released, listings_of};
use crate::pair::{Pair, earlier, pair_of};
use disp_model::{Event, Listing, Memory, Problem};
use std::alloc::Global;

/// What is known of the events of a plan from a place on.
#[derive(Drop)]
pub(crate) struct Behind {
    /// The first one of each train, with its place.
    next: Vec<Option<(usize, Event)>>,
    /// The places of those that list each resource, the last one first.
    listed: Vec<Vec<usize>>,
}

/// No event yet of so many trains.
fn no_events(alloc: Global, trains: usize) -> Result<Vec<Option<(usize, Event)>>, Memory>
    ensures count { IfOk result (λ next. length next.items ≡ trains) }
    ensures none { IfOk result (λ next. (t : ℕ) → slice_index_or next.items t None ≡ None) }
{
    let mut next = Vec::with_capacity(alloc, trains)?;
    for _ in 0..trains {
        next.push(None)?;
    }
    Ok(next)
}

/// No place yet for so many resources.
fn no_places(alloc: Global, resources: usize) -> Result<Vec<Vec<usize>>, Memory>
    ensures count { IfOk result (λ listed. length listed.items ≡ resources) }
    ensures none { IfOk result (λ listed. (r : ℕ) (places : Vec ℕ)
        → slice_get listed.items r ≡ Some places → places.items ≡ []) }
{
    let mut listed = Vec::with_capacity(alloc, resources)?;
    for _ in 0..resources {
        listed.push(Vec::new(alloc))?;
    }
    Ok(listed)
}

/// Has an event at a place be the first one of its train.
fn put_event(next: &mut Vec<Option<(usize, Event)>>, place: usize, event: Event)
    requires { event.train < length next.old.items }
    ensures { next.new.items ≡ slice_set next.old.items event.train (Some (place, event)) }
{
    next[event.train as usize] = Some((place, event));
}

/// Puts a place behind those of a listing's resource.
fn put(listed: &mut Vec<Vec<usize>>, listing: Listing, place: usize) -> Result<(), Memory>
    requires { listing.resource < length listed.old.items }
    ensures { OnOk result ((listings : List Listing) (before : List (Vec ℕ))
        → ArePutBehind place listings before listed.old.items
        → ArePutBehind place (listings ++ listing ∷ []) before listed.new.items) }
{
    listed[listing.resource as usize].push(place)?;
    Ok(())
}

/// Puts a place behind those of the resources of all these listings.
fn put_all(listed: &mut Vec<Vec<usize>>, listings: &[Listing], place: usize) -> Result<(), Memory>
    requires { All (λ l. l.resource < length listed.old.items) listings.now }
    ensures { OnOk result (ArePutBehind place listings.now listed.old.items listed.new.items) }
{
    for listing in listings {
        put(listed, *listing, place)?;
    }
    Ok(())
}

/// The first pair of one that may be known and those of a holder, until its end, with the events at
/// these places, the last one first, for which this listing of its is not released. Once it is, it
/// is for all later ones.
fn first_on(
    events: &[Event],
    places: &[usize],
    holder: &Event,
    listing: Listing,
    end: End,
    known: Option<Pair>,
) -> Option<Pair>
    requires rise { RiseAlong events.now }
    requires there { All (λ j. j < length events.now) places.now }
    requires falling { AreFalling places.now }
    ensures { IsTriedOn events.now places.now holder.now listing (ending_of end) known result }
{
    let mut first = known;
    for at in (0..places.len()).rev() {
        let place = places[at];
        let event = events[place];
        if is_released(end, listing, place, &event) {
            return first;
        }
        if event.train != holder.train {
            first = earlier(first, pair_of(holder, &event));
        }
    }
    first
}

impl Behind {
    /// What is known behind the last event.
    pub(crate) fn none(alloc: Global, problem: &Problem) -> Result<Behind, Memory>
        ensures { IfOk result
            (λ behind. (plan : List Event) → IsKnownBehind problem.now plan (length plan) behind) }
    {
        let next = no_events(alloc, problem.trains.len())?;
        let listed = no_places(alloc, problem.names.len())?;
        Ok(Behind { next, listed })
    }

    /// Where the event at the place before ends: where its train's next event stands, the last one
    /// after its duration.
    fn end_of(&self, problem: &Problem, place: usize, event: &Event) -> End
        requires { event.now.train < length self.now.next.items }
        ensures { (plan : List Event) → IsKnownBehind problem.now plan (place + 1) self.now
            → ending_of result ≡ end_of problem.now.trains plan place event.now }
    {
        match self.next[event.train as usize] {
            Some((position, next)) => End {
                position,
                time: u128::from(next.time),
            },
            None => End {
                position: place,
                time: u128::from(event.time) + u128::from(duration_of(problem, event)),
            },
        }
    }

    /// The first pair that clashes of those whose first event stands from a place on, where that of
    /// those behind it is known.
    pub(crate) fn first_with(
        &self,
        problem: &Problem,
        events: &[Event],
        place: usize,
        known: Option<Pair>,
    ) -> Option<Pair>
        requires place { place < length events.now }
        requires rise { RiseAlong events.now }
        requires trains { AreOfTrains problem.now events.now }
        requires behind { IsKnownBehind problem.now events.now (place + 1) self.now }
        requires known { IsFirstFrom problem.now events.now (place + 1) known }
        ensures { IsFirstFrom problem.now events.now place result }
    {
        let event = events[place];
        let end = self.end_of(problem, place, &event);
        let mut first = known;
        for listing in listings_of(problem, &event) {
            let places = &self.listed[listing.resource as usize];
            first = first_on(events, places, &event, *listing, end, first);
        }
        first
    }

    /// Takes the event at the place before in.
    pub(crate) fn take(
        &mut self,
        problem: &Problem,
        events: &[Event],
        place: usize,
    ) -> Result<(), Memory>
        requires place { place < length events.now }
        requires trains { AreOfTrains problem.now events.now }
        requires behind { IsKnownBehind problem.now events.now (place + 1) self.old }
        ensures { OnOk result (IsKnownBehind problem.now events.now place self.new) }
    {
        let event = events[place];
        put_event(&mut self.next, place, event);
        put_all(&mut self.listed, listings_of(problem, &event), place)
    }
}
