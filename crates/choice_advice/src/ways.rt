use crate::facts::Facts;
use crate::holders::Holder;
use crate::seeker::Seeker;
use crate::spots::NEVER;
use crate::tolls::toll;
use crate::view::View;
use disp_model::{Listing, Memory};
use problem_facts::listings_of;
use route_sets::Routes;
use std::alloc::Global;

/// Where the routes of a train part, and where they all meet again.
#[derive(Clone, Copy)]
pub(crate) struct Parting {
    /// The number of the train's first operation.
    pub first: u32,
    /// The numbers of the last operation that all routes have before they part, and of the first
    /// one behind.
    pub fork: u32,
    pub join: u32,
}

/// What one way on from a fork costs at least, by the train's own matters.
#[derive(Clone, Copy)]
pub(crate) struct Way {
    pub cost: u64,
    /// Whether its first operation holds nothing that another train must hold then.
    pub free: bool,
}

/// When each operation is reached along one way, and what comes behind it costs: room for one look
/// after another.
#[derive(Drop)]
pub(crate) struct Ways {
    times: Vec<u64>,
    costs: Vec<u64>,
}

/// What another train's forced operation leaves of a way whose first operation wants its resource.
#[derive(Clone, Copy, PartialEq, Eq)]
enum Hold {
    /// It is over before, or begins behind.
    Apart,
    /// One of the two has to wait.
    Waits,
    /// Neither can wait for the other.
    Blocks,
}

impl Ways {
    /// Room for so many operations.
    pub(crate) fn new(alloc: Global, count: usize) -> Result<Ways, Memory> {
        let mut times = Vec::with_capacity(alloc, count)?;
        let mut costs = Vec::with_capacity(alloc, count)?;
        for _ in 0..count {
            times.push(NEVER)?;
            costs.push(NEVER)?;
        }
        Ok(Ways { times, costs })
    }

    /// When an operation is reached.
    fn time(&self, number: u32) -> u64 {
        match self.times.get(number as usize) {
            Some(time) => *time,
            None => NEVER,
        }
    }

    /// What an operation and all behind it cost.
    fn cost(&self, number: u32) -> u64 {
        match self.costs.get(number as usize) {
            Some(cost) => *cost,
            None => NEVER,
        }
    }

    fn set(&mut self, number: u32, time: u64, cost: u64) {
        if let Some(place) = self.times.get_mut(number as usize) {
            *place = time;
        }
        if let Some(place) = self.costs.get_mut(number as usize) {
            *place = cost;
        }
    }

    /// Has an operation be reached no later than a time.
    fn reach(&mut self, number: u32, time: u64) {
        if let Some(place) = self.times.get_mut(number as usize) {
            *place = time.min(*place);
        }
    }

    /// Reaches on from an operation.
    fn reach_from(&mut self, facts: &Facts, first: u32, number: u32, next: &[u32]) {
        let start = self.time(number);
        if start == NEVER {
            return;
        }
        let time = start.saturating_add(facts.min(number));
        for op in next {
            let number = first.saturating_add(*op);
            self.reach(number, time.max(facts.lower(number)));
        }
    }

    /// The least cost behind an operation and its own.
    fn cost_from(&mut self, facts: &Facts, first: u32, number: u32, next: &[u32]) {
        let start = self.time(number);
        let own = if start == NEVER {
            None
        } else {
            facts.cost(number, start)
        };
        let mut least = NEVER;
        if let Some(own) = own {
            for op in next {
                let behind = self.cost(first.saturating_add(*op));
                least = least.min(behind.saturating_add(own));
            }
        }
        if let Some(place) = self.costs.get_mut(number as usize) {
            *place = least;
        }
    }

    /// Forgets the operations at these rows.
    fn forget(&mut self, routes: &Routes, first: u32, from: usize, until: usize) {
        for row in from..until {
            if let Some(op) = routes.order().get(row) {
                self.set(first.saturating_add(*op), NEVER, NEVER);
            }
        }
    }

    /// Reaches on from each operation at these rows, the last row first.
    fn go_along(&mut self, facts: &Facts, routes: &Routes, first: u32, from: usize, until: usize) {
        for row in (from..until).rev() {
            if let (Some(op), Some(next)) = (routes.order().get(row), routes.rows().get(row)) {
                self.reach_from(facts, first, first.saturating_add(*op), next.as_slice());
            }
        }
    }

    /// Adds up the costs from each operation at these rows on, the first row first.
    fn add_along(&mut self, facts: &Facts, routes: &Routes, first: u32, from: usize, until: usize) {
        for row in from..until {
            if let (Some(op), Some(next)) = (routes.order().get(row), routes.rows().get(row)) {
                self.cost_from(facts, first, first.saturating_add(*op), next.as_slice());
            }
        }
    }

    /// What the way from a fork over one operation costs, which it reaches at a time, up to where
    /// the routes meet, and how much more what is behind; never where it leads nowhere in time.
    fn cost_over(
        &mut self,
        view: View,
        routes: &Routes,
        parting: Parting,
        over: u32,
        start: u64,
    ) -> u64 {
        let first = parting.first;
        let from = view.spots.at(parting.join).row as usize;
        let until = view.spots.at(over).row as usize;
        let until = until.saturating_add(1).min(routes.order().len());
        self.forget(routes, first, from, until);
        self.set(over, start, NEVER);
        let behind = from.saturating_add(1);
        self.go_along(view.facts, routes, first, behind, until);
        let time = self.time(parting.join);
        if time == NEVER {
            return NEVER;
        }
        let pushed = toll(view.facts, view.spots, parting.join, time);
        self.set(parting.join, time, 0);
        self.add_along(view.facts, routes, first, behind, until);
        pushed.saturating_add(self.cost(over))
    }

    /// Whether the first operation of a way can neither go before a holder nor behind it.
    fn is_blocked(
        &self,
        view: View,
        seeker: &mut Seeker,
        parting: Parting,
        over: u32,
        start: u64,
        holder: &Holder,
    ) -> bool {
        let (facts, spots) = (view.facts, view.spots);
        let end = start.saturating_add(facts.min(over));
        let behind = spots.at(holder.number).behind;
        let before = toll(facts, spots, holder.number, end) != NEVER
            && !view.leads(seeker, holder.number, parting.fork);
        if before {
            return false;
        }
        let wait = holder.until().saturating_sub(start);
        let late = self.time(parting.join).saturating_add(wait);
        let waits = facts.cost(over, holder.until()).is_some()
            && toll(facts, spots, parting.join, late) != NEVER
            && !view.leads(seeker, parting.join, behind)
            && !view.ends_before(seeker, parting.fork, behind);
        !waits
    }

    /// What the holders of a resource leave of a way whose first operation holds it in a time.
    fn hold(
        &self,
        view: View,
        seeker: &mut Seeker,
        parting: Parting,
        over: u32,
        start: u64,
        listing: Listing,
    ) -> Hold {
        let train = view.facts.op(over).train;
        let end = start.saturating_add(view.facts.min(over));
        let until = end.saturating_add(u64::from(listing.release));
        let mut found = Hold::Apart;
        for holder in view.holders.of_resource(listing.resource) {
            if holder.start >= until {
                return found;
            }
            if holder.forced && holder.train != train && start < holder.until() {
                if self.is_blocked(view, seeker, parting, over, start, holder) {
                    return Hold::Blocks;
                }
                found = Hold::Waits;
            }
        }
        found
    }

    /// The way from a fork over one operation.
    pub(crate) fn way(
        &mut self,
        view: View,
        seeker: &mut Seeker,
        routes: &Routes,
        parting: Parting,
        over: u32,
    ) -> Way {
        let fork = view.spots.at(parting.fork);
        let start = fork.start.saturating_add(view.facts.min(parting.fork));
        let start = start.max(view.facts.lower(over));
        let mut way = Way {
            cost: self.cost_over(view, routes, parting, over, start),
            free: true,
        };
        for listing in listings_of(view.problem, view.facts.op(over)) {
            match self.hold(view, seeker, parting, over, start, *listing) {
                Hold::Apart => {}
                Hold::Waits => way.free = false,
                Hold::Blocks => way.cost = NEVER,
            }
        }
        way
    }
}
