ghost use Rattle.std.specs.Prelude.{◌≡◌};

use crate::seeker::Seeker;
use crate::spots::NEVER;
use crate::view::View;
use crate::ways::{Parting, Ways};
use disp_model::Memory;
use route_sets::Routes;
use std::alloc::Global;

/// A fork counts so often where none of its ways is free, half as often where one is, and so on.
const NONE_FREE: u64 = 64;

/// A fork, and what was found of its ways.
#[derive(Clone, Copy)]
pub(crate) struct Fork {
    pub number: u32,
    /// How many of its ways lead on in time, two where they are more.
    pub live: u32,
    /// How much more the second least of those costs than the least one.
    pub spread: u64,
    /// How many of those cost no more than the least one, and begin with what no other train must
    /// hold then.
    pub free: u32,
    pub start: u64,
    /// How many decisions of its train failed, where forks of several trains are compared.
    pub failures: u64,
}

impl Fork {
    /// How much hangs on which way is taken: what the ways differ by, the more the more decisions
    /// of the train failed, and the less the more ways are free.
    fn weight(&self) -> u64 {
        let failures = self.failures.saturating_add(1);
        let whole = self.spread.saturating_add(1).saturating_mul(failures);
        whole.saturating_mul(NONE_FREE) / u64::from(self.free).saturating_add(1)
    }

    /// Whether it comes before another.
    fn is_before(&self, other: &Fork) -> bool {
        if self.live != other.live {
            return self.live < other.live;
        }
        if self.weight() != other.weight() {
            return self.weight() > other.weight();
        }
        if self.free != other.free {
            return self.free < other.free;
        }
        if self.start != other.start {
            return self.start < other.start;
        }
        self.number < other.number
    }
}

/// The one of a fork that may be known and another that comes first.
fn first_of(known: Option<Fork>, fork: Fork) -> Option<Fork> {
    match known {
        Some(before) if !fork.is_before(&before) => known,
        _ => Some(fork),
    }
}

/// A fork, by a look at each of its ways.
fn fork_at(
    view: View,
    seeker: &mut Seeker,
    ways: &mut Ways,
    routes: &Routes,
    parting: Parting,
) -> Fork {
    let spot = view.spots.at(parting.fork);
    let mut fork = Fork {
        number: parting.fork,
        live: 0,
        spread: 0,
        free: 0,
        start: spot.start,
        failures: 0,
    };
    let Some(next) = routes.rows().get(spot.row as usize) else {
        return fork;
    };
    let mut least = NEVER;
    let mut second = NEVER;
    for op in next.as_slice() {
        let over = parting.first.saturating_add(*op);
        let way = ways.way(view, seeker, routes, parting, over);
        if way.cost == NEVER {
            continue;
        }
        fork.live = fork.live.saturating_add(1).min(2);
        if way.cost < least {
            second = least;
            least = way.cost;
            fork.free = 0;
        } else {
            second = second.min(way.cost);
        }
        if way.cost == least && way.free {
            fork.free = fork.free.saturating_add(1);
        }
    }
    if second != NEVER {
        fork.spread = second.saturating_sub(least);
    }
    fork
}

/// A fork that was looked at, and how often its train had been looked at again by then.
#[derive(Clone, Copy)]
struct Looked {
    fork: Option<Fork>,
    turn: u64,
}

impl Looked {
    /// Nothing was looked at.
    const NOTHING: Looked = Looked {
        fork: None,
        turn: 0,
    };
}

/// What is known of a train's forks.
#[derive(Clone, Copy)]
struct Known {
    /// Whether the one that comes first is known.
    current: bool,
    /// It, if there is one.
    first: Option<Fork>,
    /// How often the train was looked at again.
    turn: u64,
}

/// The forks of the trains, as far as they are known.
#[derive(Drop)]
pub(crate) struct Forks {
    trains: Vec<Known>,
    /// Of each operation what was found of the fork there.
    looked: Vec<Looked>,
    /// Of each operation the number of the fork from which one way begins with it.
    before: Vec<u32>,
}

impl Forks {
    /// The forks of so many operations of so many trains, of which nothing is known.
    pub(crate) fn new(alloc: Global, count: usize, trains: usize) -> Result<Forks, Memory> {
        let mut forks = Forks {
            trains: Vec::with_capacity(alloc, trains)?,
            looked: Vec::with_capacity(alloc, count)?,
            before: Vec::with_capacity(alloc, count)?,
        };
        for _ in 0..trains {
            forks.trains.push(Known {
                current: false,
                first: None,
                turn: 0,
            })?;
        }
        for number in 0..count {
            forks.looked.push(Looked::NOTHING)?;
            forks
                .before
                .push(u32::try_from(number).unwrap_or(u32::MAX))?;
        }
        Ok(forks)
    }

    /// Notes that all forks of a train are to be looked at again.
    pub(crate) fn forget(&mut self, train: u32) {
        if let Some(known) = self.trains.get_mut(train as usize) {
            known.current = false;
            known.turn = known.turn.saturating_add(1);
        }
    }

    /// Notes that the fork of a train is to be looked at again from which one way begins with an
    /// operation.
    pub(crate) fn forget_before(&mut self, train: u32, number: u32) {
        if let Some(known) = self.trains.get_mut(train as usize) {
            known.current = false;
        }
        let Some(before) = self.before.get(number as usize) else {
            return;
        };
        if let Some(looked) = self.looked.get_mut(*before as usize) {
            looked.fork = None;
        }
    }

    /// What is known of a train's forks.
    fn of_train(&self, train: u32) -> Known {
        match self.trains.get(train as usize) {
            Some(known) => *known,
            None => Known {
                current: false,
                first: None,
                turn: 0,
            },
        }
    }

    /// Keeps the first fork of a train.
    fn keep(&mut self, train: u32, fork: Option<Fork>) {
        if let Some(known) = self.trains.get_mut(train as usize) {
            known.current = true;
            known.first = fork;
        }
    }

    /// What was found of a fork, if its train was not looked at again since.
    fn found(&self, number: u32, turn: u64) -> Option<Fork> {
        let looked = self.looked.get(number as usize)?;
        if looked.turn == turn {
            looked.fork
        } else {
            None
        }
    }

    /// Keeps what was found of a fork, whose ways begin with these operations.
    fn keep_fork(&mut self, fork: Fork, turn: u64, first: u32, next: &[u32]) {
        for op in next {
            let number = first.saturating_add(*op);
            if let Some(before) = self.before.get_mut(number as usize) {
                *before = fork.number;
            }
        }
        if let Some(looked) = self.looked.get_mut(fork.number as usize) {
            *looked = Looked {
                fork: Some(fork),
                turn,
            };
        }
    }

    /// A fork, by what is known of it or by a look at each of its ways.
    fn at(
        &mut self,
        view: View,
        seeker: &mut Seeker,
        ways: &mut Ways,
        routes: &Routes,
        parting: Parting,
        turn: u64,
    ) -> Fork {
        if let Some(fork) = self.found(parting.fork, turn) {
            return fork;
        }
        let fork = fork_at(view, seeker, ways, routes, parting);
        let row = view.spots.at(parting.fork).row as usize;
        if let Some(next) = routes.rows().get(row) {
            self.keep_fork(fork, turn, parting.first, next.as_slice());
        }
        fork
    }

    /// The first fork of a train.
    fn first_in_train(
        &mut self,
        view: View,
        seeker: &mut Seeker,
        ways: &mut Ways,
        routes: &Routes,
        train: u32,
    ) -> Option<Fork> {
        let first = view.facts.first(train);
        let turn = self.of_train(train).turn;
        let mut found = None;
        let mut number = first.saturating_add(*routes.order().last()?);
        for _ in routes.order() {
            let Some(next) = view.spots.at(number).next else {
                return found;
            };
            if routes.only_next(number.saturating_sub(first)).is_none() {
                let parting = Parting {
                    first,
                    fork: number,
                    join: next,
                };
                let fork = self.at(view, seeker, ways, routes, parting, turn);
                found = first_of(found, fork);
            }
            number = next;
        }
        found
    }

    /// The fork that comes first.
    pub(crate) fn first(&mut self, view: View, seeker: &mut Seeker, ways: &mut Ways) -> Option<Fork>
        requires { view.graph.now.problem ≡ view.problem.now }
    {
        let mut found = None;
        for train in 0..view.problem.trains.len() as u32 {
            let known = self.of_train(train);
            let fork = if known.current {
                known.first
            } else {
                let routes = view.graph.routes(train);
                let fork = self.first_in_train(view, seeker, ways, routes, train);
                self.keep(train, fork);
                fork
            };
            if let Some(fork) = fork {
                let failures = view.failures.of_train(train);
                found = first_of(found, Fork { failures, ..fork });
            }
        }
        found
    }
}
