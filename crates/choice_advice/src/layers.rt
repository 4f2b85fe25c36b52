ghost use Rattle.std.specs.Prelude.{◌≡◌};

use crate::holders::Holder;
use crate::spots::{NEVER, Spot, Spots};
use crate::view::View;
use disp_model::Memory;
use problem_facts::listings_of;
use route_sets::Routes;
use std::alloc::Global;

/// How often a forced operation counts, where others count once.
const FORCED: u64 = 8;

/// How often the crowd counts, where a decision that failed counts once.
const CROWD: u64 = 16;

/// An operation that some allowed routes have and others have not, and how much else may be held
/// while it is run.
#[derive(Clone, Copy)]
pub(crate) struct Crossing {
    pub number: u32,
    pub crowd: u64,
    pub start: u64,
    /// How many decisions of its train failed, where crossings of several trains are compared.
    pub failures: u64,
}

impl Crossing {
    /// How much hangs on whether the operation is run.
    fn weight(&self) -> u64 {
        self.crowd
            .saturating_mul(CROWD)
            .saturating_add(self.failures)
    }

    /// Whether it comes before another.
    fn is_before(&self, other: &Crossing) -> bool {
        if self.weight() != other.weight() {
            return self.weight() > other.weight();
        }
        if self.start != other.start {
            return self.start < other.start;
        }
        self.number < other.number
    }
}

/// How much other trains may hold of a resource in a time.
fn crowd_on(holders: &[Holder], train: u32, from: u64, until: u64) -> u64 {
    let mut crowd = 0u64;
    for holder in holders {
        if holder.start >= until {
            return crowd;
        }
        if holder.train != train && from < holder.until() {
            crowd = crowd.saturating_add(if holder.forced { FORCED } else { 1 });
        }
    }
    crowd
}

/// An operation at its earliest start.
fn crossing_at(view: View, number: u32, spot: Spot) -> Crossing {
    let op = view.facts.op(number);
    let mut crowd = 0u64;
    for listing in listings_of(view.problem, op) {
        let until = spot.end.saturating_add(u64::from(listing.release));
        let holders = view.holders.of_resource(listing.resource);
        crowd = crowd.saturating_add(crowd_on(holders, op.train, spot.start, until));
    }
    Crossing {
        number,
        crowd,
        start: spot.start,
        failures: 0,
    }
}

/// Whether a fork stands behind another one before the routes of a train meet.
pub(crate) fn has_layers(spots: &Spots, routes: &Routes, first: u32) -> bool {
    for (op, next) in routes.order().iter().zip(routes.rows()) {
        let spot = spots.at(first.saturating_add(*op));
        if !spot.forced && spot.start != NEVER && next.len() > 1 {
            return true;
        }
    }
    false
}

/// A crossing that was looked at, and how often its train had been looked at again by then.
#[derive(Clone, Copy)]
struct Looked {
    crossing: Option<Crossing>,
    turn: u64,
}

/// What is known of a train's crossings.
#[derive(Clone, Copy)]
struct Known {
    /// Whether the one that comes first is known, but for those that are to be looked at again.
    current: bool,
    /// It, if there is one.
    first: Option<Crossing>,
    /// How often the train was looked at again.
    turn: u64,
}

impl Known {
    /// Nothing is known.
    const NOTHING: Known = Known {
        current: false,
        first: None,
        turn: 0,
    };

    /// What is known with a crossing that was looked at again.
    fn with(&self, crossing: Crossing) -> Known {
        let Some(first) = self.first else {
            return Known {
                first: Some(crossing),
                ..*self
            };
        };
        if first.number != crossing.number {
            return Known {
                first: first_of(self.first, crossing),
                ..*self
            };
        }
        Known {
            current: !first.is_before(&crossing),
            first: Some(crossing),
            turn: self.turn,
        }
    }
}

/// The crossings of the trains, as far as they are known.
#[derive(Drop)]
pub(crate) struct Crossings {
    trains: Vec<Known>,
    /// Of each train the operations that are to be looked at again.
    changed: Vec<Vec<u32>>,
    /// Of each operation what was found of it.
    looked: Vec<Looked>,
}

/// The one of a crossing that may be known and another that comes first.
fn first_of(known: Option<Crossing>, crossing: Crossing) -> Option<Crossing> {
    match known {
        Some(before) if !crossing.is_before(&before) => known,
        _ => Some(crossing),
    }
}

impl Crossings {
    /// The crossings of so many operations of so many trains, of which nothing is known.
    pub(crate) fn new(alloc: Global, count: usize, trains: usize) -> Result<Crossings, Memory> {
        let mut crossings = Crossings {
            trains: Vec::with_capacity(alloc, trains)?,
            changed: Vec::with_capacity(alloc, trains)?,
            looked: Vec::with_capacity(alloc, count)?,
        };
        for _ in 0..trains {
            crossings.trains.push(Known::NOTHING)?;
            crossings.changed.push(Vec::new(alloc))?;
        }
        for _ in 0..count {
            crossings.looked.push(Looked {
                crossing: None,
                turn: 0,
            })?;
        }
        Ok(crossings)
    }

    /// Notes that all crossings of a train are to be looked at again.
    pub(crate) fn forget(&mut self, train: u32) {
        if let Some(known) = self.trains.get_mut(train as usize) {
            known.current = false;
            known.turn = known.turn.saturating_add(1);
        }
    }

    /// Notes that the crossing at an operation of a train is to be looked at again.
    pub(crate) fn forget_at(&mut self, train: u32, number: u32) {
        let Some(looked) = self.looked.get_mut(number as usize) else {
            return;
        };
        if looked.crossing.is_none() {
            return;
        }
        looked.crossing = None;
        let Some(changed) = self.changed.get_mut(train as usize) else {
            return;
        };
        if changed.push(number).is_err() {
            self.forget(train);
        }
    }

    /// An operation of a train that is to be looked at again; it is not any more then.
    fn take_changed(&mut self, train: u32) -> Option<u32> {
        self.changed.get_mut(train as usize)?.pop()
    }

    /// What is known of a train's crossings.
    fn of_train(&self, train: u32) -> Known {
        match self.trains.get(train as usize) {
            Some(known) => *known,
            None => Known::NOTHING,
        }
    }

    /// What was found of an operation, if its train was not looked at again since.
    fn found(&self, number: u32, turn: u64) -> Option<Crossing> {
        let looked = self.looked.get(number as usize)?;
        if looked.turn == turn {
            looked.crossing
        } else {
            None
        }
    }

    /// The crossing at an operation, by what is known of it or by a look.
    fn at(&mut self, view: View, number: u32, spot: Spot, turn: u64) -> Crossing {
        if let Some(crossing) = self.found(number, turn) {
            return crossing;
        }
        let crossing = crossing_at(view, number, spot);
        if let Some(looked) = self.looked.get_mut(number as usize) {
            *looked = Looked {
                crossing: Some(crossing),
                turn,
            };
        }
        crossing
    }

    /// The first crossing of a train.
    fn first_in_train(&mut self, view: View, routes: &Routes, train: u32) -> Option<Crossing> {
        let first = view.facts.first(train);
        let turn = self.of_train(train).turn;
        let mut found = None;
        for op in routes.order() {
            let number = first.saturating_add(*op);
            let spot = view.spots.at(number);
            if spot.forced || spot.start == NEVER {
                continue;
            }
            let crossing = self.at(view, number, spot, turn);
            found = first_of(found, crossing);
        }
        found
    }

    /// What is known of a train's crossings, with one that is looked at again.
    fn renew(&mut self, view: View, known: Known, number: u32) -> Known {
        if !known.current {
            return known;
        }
        let spot = view.spots.at(number);
        let crossing = self.at(view, number, spot, known.turn);
        known.with(crossing)
    }

    /// What is known of a train's crossings, with those that are looked at again.
    fn renewed(&mut self, view: View, train: u32) -> Known {
        let mut known = self.of_train(train);
        for _ in 0..self.looked.len() {
            let Some(number) = self.take_changed(train) else {
                return known;
            };
            known = self.renew(view, known, number);
        }
        known
    }

    /// The first crossing of a train, by what is known of it or by a look.
    fn of_routes(&mut self, view: View, routes: &Routes, train: u32) -> Option<Crossing> {
        let mut known = self.renewed(view, train);
        if !known.current {
            known.first = self.first_in_train(view, routes, train);
            known.current = true;
        }
        if let Some(kept) = self.trains.get_mut(train as usize) {
            *kept = known;
        }
        known.first
    }

    /// The crossing that comes first, of trains whose forks stand in layers.
    pub(crate) fn first(&mut self, view: View, layered: &[bool]) -> Option<Crossing>
        requires { view.graph.now.problem ≡ view.problem.now }
    {
        let mut found = None;
        for train in 0..view.problem.trains.len() as u32 {
            if layered.get(train as usize) == Some(&true) {
                let routes = view.graph.routes(train);
                if let Some(crossing) = self.of_routes(view, routes, train) {
                    let failures = view.failures.of_train(train);
                    let crossing = Crossing {
                        failures,
                        ..crossing
                    };
                    found = first_of(found, crossing);
                }
            }
        }
        found
    }
}
