ghost use Rattle.std.specs.Prelude.{◌≡◌, ◌<◌, ◌∷◌, ◌++◌, [], All, IfOk, IfSome, IsTrue, length};
ghost use Rattle.disp_model.specs.declared.problem.Problem.{Problem as ProblemOf};
ghost use Rattle.event_graph.specs.Known.{AreOwnRoutes, KeepsOwnRoutes, IsFor, IsPlaceFor};

use disp_model::{Decision, Fixing, Memory};
use event_arcs::Own;
use route_sets::Routes;
use std::alloc::Global;
use std::mem;

/// How many routes of a train are kept at most.
const MOST: usize = 8;

/// Routes of a train, with its own fixings and decisions that they were made for.
#[derive(Drop)]
pub(crate) struct Known {
    pub train: usize,
    pub own: Own,
    pub routes: Routes,
}

/// Routes that were made before and are not in use, a few of each train: where a search goes up and
/// down, the same decisions about a train come again and again.
#[derive(Drop)]
pub(crate) struct KnownRoutes {
    /// As many places for each train, one train's behind the other's.
    slots: Vec<Option<Known>>,
    /// The place of a train that is taken next where none is free.
    next: usize,
}

/// Whether two lists of decisions are the same.
fn are_decisions(one: &[Decision], other: &[Decision]) -> bool
    ensures { IsTrue result → one.now ≡ other.now }
{
    one == other
}

/// Whether two lists of fixings are the same.
fn are_fixings(one: &[Fixing], other: &[Fixing]) -> bool
    ensures { IsTrue result → one.now ≡ other.now }
{
    one == other
}

/// Whether decisions are some others with one more.
fn are_with(decisions: &[Decision], others: &[Decision], last: Decision) -> bool
    ensures { IsTrue result → decisions.now ≡ others.now ++ last ∷ [] }
{
    match decisions.split_last() {
        Some((found, front)) => *found == last && are_decisions(front, others),
        None => false,
    }
}

/// Whether routes were made for a train with one decision more.
fn is_for(known: &Known, train: usize, own: &Own, decision: Decision) -> bool
    ensures { IsTrue result → IsFor train own.now decision known.now }
{
    known.train == train
        && are_fixings(known.own.fixings.as_slice(), own.fixings.as_slice())
        && are_with(
            known.own.decisions.as_slice(),
            own.decisions.as_slice(),
            decision,
        )
}

/// Whether such routes stand here.
fn holds(slot: &Option<Known>, train: usize, own: &Own, decision: Decision) -> bool
    ensures { IsTrue result → IfSome slot.now (IsFor train own.now decision) }
{
    match slot {
        Some(known) => is_for(known, train, own, decision),
        None => false,
    }
}

/// Whether such routes stand at a place.
fn stands_at(
    slots: &[Option<Known>],
    place: usize,
    train: usize,
    own: &Own,
    decision: Decision,
) -> bool
    ensures { IsTrue result → IsPlaceFor train own.now decision slots.now place }
{
    place < slots.len() && holds(&slots[place], train, own, decision)
}

/// The place of routes that were made for a train with one decision more.
fn place_of(slots: &[Option<Known>], train: usize, own: &Own, decision: Decision) -> Option<usize>
    ensures { IfSome result (IsPlaceFor train own.now decision slots.now) }
{
    let first = train.saturating_mul(MOST);
    for place in first..first.saturating_add(MOST) {
        if stands_at(slots, place, train, own, decision) {
            return Some(place);
        }
    }
    None
}

impl KnownRoutes {
    /// Nothing is known, and there is room for so many trains.
    pub(crate) fn new(alloc: Global, trains: usize) -> Result<KnownRoutes, Memory>
        ensures { IfOk result (λ known. (problem : ProblemOf) → KeepsOwnRoutes problem known) }
    {
        let count = trains.saturating_mul(MOST);
        let mut slots = Vec::with_capacity(alloc, count)?;
        for _ in 0..count {
            slots.push(None)?;
        }
        Ok(KnownRoutes { slots, next: 0 })
    }

    /// Hands out what is known of a train with one decision more.
    pub(crate) fn take(&mut self, train: usize, own: &Own, decision: Decision) -> Option<Known>
        ensures left { (problem : ProblemOf) → KeepsOwnRoutes problem self.old
            → KeepsOwnRoutes problem self.new }
        ensures known { (problem : ProblemOf) → KeepsOwnRoutes problem self.old
            → IfSome result (AreOwnRoutes problem) }
        ensures made { IfSome result (IsFor train own.now decision) }
    {
        let place = place_of(&self.slots, train, own, decision)?;
        mem::replace(&mut self.slots[place], None)
    }

    /// The place at which routes of a train are to be kept.
    fn place_for(&self, train: usize) -> usize {
        let first = train.saturating_mul(MOST);
        for place in first..first.saturating_add(MOST) {
            if let Some(None) = self.slots.get(place) {
                return place;
            }
        }
        first.saturating_add(self.next % MOST)
    }

    /// Keeps routes, where no place is free in place of others of the train.
    pub(crate) fn keep(&mut self, known: Known)
        ensures { (problem : ProblemOf) → KeepsOwnRoutes problem self.old → AreOwnRoutes problem known
            → KeepsOwnRoutes problem self.new }
    {
        let place = self.place_for(known.train);
        self.next = self.next.wrapping_add(1);
        if place < self.slots.len() {
            self.slots[place] = Some(known);
        }
    }
}
