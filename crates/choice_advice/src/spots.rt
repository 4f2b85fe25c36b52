use crate::facts::{Facts, Most};
use disp_model::Memory;
use incremental_paths::Paths;
use route_sets::Routes;
use std::alloc::Global;

/// A time that never comes.
pub(crate) const NEVER: u64 = u64::MAX;

/// What a node says of an operation.
#[derive(Clone, Copy)]
pub(crate) struct Spot {
    /// Whether each allowed route of its train has it.
    pub forced: bool,
    /// When it starts and ends at the earliest; never where no allowed route has it.
    pub start: u64,
    pub end: u64,
    /// The place of its row among those of its train's routes.
    pub row: u32,
    /// The number of the next operation of its train that is forced.
    pub next: Option<u32>,
    /// Of a forced one, the least time up to it from the first of its train.
    pub sum: u64,
    /// Its train.
    pub train: u32,
    /// The number of the operation that comes next on each route, or its own where there is none.
    pub behind: u32,
    /// Of a forced one, how many stops of its train come before it.
    pub stops: u32,
}

impl Spot {
    /// An operation that no allowed route has.
    const NOWHERE: Spot = Spot {
        forced: false,
        start: NEVER,
        end: NEVER,
        row: 0,
        next: None,
        sum: 0,
        train: 0,
        behind: 0,
        stops: 0,
    };
}

/// A forced operation of which it matters when it starts.
#[derive(Clone, Copy)]
pub(crate) struct Stop {
    pub number: u32,
    pub start: u64,
    /// The least time up to it from the first forced one of its train.
    pub sum: u64,
    /// How much more it may cost, and it and those behind it.
    own: Most,
    pub most: Most,
}

/// Rows of a train's routes, from one on up to another.
#[derive(Clone, Copy)]
pub(crate) struct Rows {
    pub from: usize,
    pub until: usize,
}

/// When a forced operation starts.
pub(crate) fn length_of(paths: &Paths, number: u32) -> u64 {
    if number as usize >= paths.size() {
        return NEVER;
    }
    paths.length(number)
}

/// What a node says of the operations, by their numbers.
#[derive(Drop)]
pub(crate) struct Spots {
    each: Vec<Spot>,
    /// The first operation of each train at which its routes part.
    forks: Vec<Option<u32>>,
    /// Of each train, in the order in which they come.
    stops: Vec<Vec<Stop>>,
    /// What was known of the operations of the train that was looked at last, in its order.
    before: Vec<Spot>,
    /// How many looks there were at trains, and at which of them each train was looked at last.
    turn: u64,
    turns: Vec<u64>,
}

impl Spots {
    /// So many operations of so many trains, of which nothing is known.
    pub(crate) fn new(alloc: Global, count: usize, trains: usize) -> Result<Spots, Memory> {
        let mut each = Vec::with_capacity(alloc, count)?;
        for _ in 0..count {
            each.push(Spot::NOWHERE)?;
        }
        let mut forks = Vec::with_capacity(alloc, trains)?;
        let mut stops = Vec::with_capacity(alloc, trains)?;
        let mut turns = Vec::with_capacity(alloc, trains)?;
        for _ in 0..trains {
            forks.push(None)?;
            stops.push(Vec::new(alloc))?;
            turns.push(0)?;
        }
        Ok(Spots {
            each,
            forks,
            stops,
            before: Vec::new(alloc),
            turn: 0,
            turns,
        })
    }

    /// How many looks there were at trains.
    pub(crate) fn turn(&self) -> u64 {
        self.turn
    }

    /// Whether a train was not looked at again since a turn.
    pub(crate) fn is_as_at(&self, train: u32, turn: u64) -> bool {
        match self.turns.get(train as usize) {
            Some(last) => *last <= turn,
            None => true,
        }
    }

    /// Notes that a train is looked at again.
    fn take_turn(&mut self, train: u32) {
        self.turn = self.turn.saturating_add(1);
        if let Some(last) = self.turns.get_mut(train as usize) {
            *last = self.turn;
        }
    }

    /// What is known of an operation.
    pub(crate) fn at(&self, number: u32) -> Spot {
        match self.each.get(number as usize) {
            Some(spot) => *spot,
            None => Spot::NOWHERE,
        }
    }

    /// The first operation at which the routes of a train part, of the first such train.
    pub(crate) fn fork(&self) -> Option<u32> {
        for fork in &self.forks {
            if fork.is_some() {
                return *fork;
            }
        }
        None
    }

    fn put(&mut self, number: u32, spot: Spot) {
        if let Some(place) = self.each.get_mut(number as usize) {
            *place = spot;
        }
    }

    /// Has an operation be reached no later than a time, if some routes only have it.
    fn reach(&mut self, number: u32, time: u64) {
        if let Some(spot) = self.each.get_mut(number as usize) {
            if !spot.forced {
                spot.start = spot.start.min(time);
            }
        }
    }

    /// Has the forced operation that came last go on to the next one.
    fn go_on(&mut self, number: u32, next: u32) {
        if let Some(spot) = self.each.get_mut(number as usize) {
            spot.next = Some(next);
        }
    }

    /// The operations of a train of which it matters when they start, from a forced one of it on,
    /// in the order in which they come.
    pub(crate) fn stops_from(&self, spot: &Spot) -> &[Stop] {
        match self.stops.get(spot.train as usize) {
            Some(stops) => stops.get(spot.stops as usize..).unwrap_or(&[]),
            None => &[],
        }
    }

    /// How many stops of a train are known.
    fn count_stops(&self, train: u32) -> u32 {
        match self.stops.get(train as usize) {
            Some(stops) => u32::try_from(stops.len()).unwrap_or(u32::MAX),
            None => 0,
        }
    }

    /// Adds up how much more a train may cost from each stop on.
    fn add_up(&mut self, train: u32) {
        let Some(stops) = self.stops.get_mut(train as usize) else {
            return;
        };
        let mut most = Most::NOTHING;
        for stop in stops.iter_mut().rev() {
            most = most.with(&stop.own);
            stop.most = most;
        }
    }

    /// Keeps a forced operation, if it matters when it starts.
    fn stop_at(&mut self, facts: &Facts, number: u32, spot: Spot) -> Result<(), Memory> {
        if !facts.matters(number) {
            return Ok(());
        }
        let most = facts.most_at(number, spot.start);
        let stop = Stop {
            number,
            start: spot.start,
            sum: spot.sum,
            own: most,
            most,
        };
        if let Some(stops) = self.stops.get_mut(spot.train as usize) {
            stops.push(stop)?;
        }
        Ok(())
    }

    /// The spot of a forced operation.
    fn forced(
        facts: &Facts,
        routes: &Routes,
        paths: &Paths,
        train: u32,
        op: u32,
        row: u32,
    ) -> Spot {
        let first = facts.first(train);
        let number = first.saturating_add(op);
        let start = length_of(paths, number);
        let (behind, end) = match routes.only_next(op) {
            Some(next) => {
                let behind = first.saturating_add(next);
                (behind, length_of(paths, behind))
            }
            None => (number, start.saturating_add(facts.min(number))),
        };
        Spot {
            forced: true,
            start,
            end,
            row,
            next: None,
            sum: 0,
            train,
            behind,
            stops: 0,
        }
    }

    /// Has the operations be reached to which an operation at a row goes on.
    fn reach_from(&mut self, facts: &Facts, first: u32, number: u32, next: &[u32]) {
        let spot = self.at(number);
        if spot.start == NEVER {
            return;
        }
        let time = spot.start.saturating_add(facts.min(number));
        for op in next {
            let number = first.saturating_add(*op);
            self.reach(number, time.max(facts.lower(number)));
        }
    }

    /// Keeps what is known of a train's operations, as long as they are looked at again.
    fn set_aside(&mut self, order: &[u32], first: u32) -> Result<(), Memory> {
        self.before.clear();
        for op in order {
            let number = first.saturating_add(*op);
            let spot = self.at(number);
            self.before.push(spot)?;
            self.put(number, Spot::NOWHERE);
        }
        Ok(())
    }

    /// When an operation at a place among those that were looked at last started before, if it is
    /// held otherwise now.
    pub(crate) fn moved_from(&self, place: usize, number: u32) -> Option<u64> {
        let spot = self.at(number);
        let before = self.before.get(place)?;
        if before.start != spot.start || before.end != spot.end || before.forced != spot.forced {
            Some(before.start)
        } else {
            None
        }
    }

    /// The rows of a train's operations, its routes as before, that may start or end at another
    /// time: from behind the last forced one that does not up to the first forced one that does.
    fn moved_rows(&self, routes: &Routes, paths: &Paths, first: u32) -> Rows {
        let order = routes.order();
        let mut rows = Rows { from: 0, until: 0 };
        let mut before = order.len();
        let mut number = first.saturating_add(order.last().copied().unwrap_or(0));
        for _ in order {
            let spot = self.at(number);
            let row = spot.row as usize;
            if spot.start != length_of(paths, number) {
                rows.until = rows.until.max(before);
                rows.from = 0;
            } else if rows.until > 0 && rows.from == 0 {
                rows.from = row.saturating_add(1);
            }
            let Some(next) = spot.next else {
                return rows;
            };
            before = row.saturating_add(1);
            number = next;
        }
        rows
    }

    /// Has a forced operation start and end as the arcs ask for.
    fn move_forced(&mut self, facts: &Facts, paths: &Paths, number: u32) {
        let Some(spot) = self.each.get_mut(number as usize) else {
            return;
        };
        spot.start = length_of(paths, number);
        spot.end = if spot.behind == number {
            spot.start.saturating_add(facts.min(number))
        } else {
            length_of(paths, spot.behind)
        };
        if !facts.matters(number) {
            return;
        }
        let Some(stops) = self.stops.get_mut(spot.train as usize) else {
            return;
        };
        if let Some(stop) = stops.get_mut(spot.stops as usize) {
            stop.start = spot.start;
            stop.own = facts.most_at(number, spot.start);
        }
    }

    /// Keeps what is known of some of a train's operations, and forgets when those are reached that
    /// are not forced.
    fn forget_starts(&mut self, order: &[u32], first: u32) -> Result<(), Memory> {
        self.before.clear();
        for op in order {
            let number = first.saturating_add(*op);
            let Some(spot) = self.each.get_mut(number as usize) else {
                return Ok(());
            };
            self.before.push(*spot)?;
            if !spot.forced {
                spot.start = NEVER;
            }
        }
        Ok(())
    }

    /// Has the operation at a row of its train's routes start and end as those before it ask for.
    fn move_at(&mut self, facts: &Facts, paths: &Paths, first: u32, number: u32, next: &[u32]) {
        let spot = self.at(number);
        if spot.forced {
            self.move_forced(facts, paths, number);
            if spot.behind != number {
                return;
            }
        } else if let Some(spot) = self.each.get_mut(number as usize) {
            spot.end = spot.start.saturating_add(facts.min(number));
        }
        self.reach_from(facts, first, number, next);
    }

    /// Looks again at a train whose routes are as before. Gives the rows of the operations that may
    /// start or end at another time.
    pub(crate) fn look_along(
        &mut self,
        facts: &Facts,
        routes: &Routes,
        paths: &Paths,
        train: u32,
    ) -> Result<Rows, Memory> {
        let first = facts.first(train);
        let order = routes.order();
        let rows = self.moved_rows(routes, paths, first);
        self.take_turn(train);
        let moved = order.get(rows.from..rows.until).unwrap_or(&[]);
        self.forget_starts(moved, first)?;
        for row in (rows.from..rows.until).rev() {
            if let (Some(op), Some(next)) = (order.get(row), routes.rows().get(row)) {
                let number = first.saturating_add(*op);
                self.move_at(facts, paths, first, number, next.as_slice());
            }
        }
        self.add_up(train);
        Ok(rows)
    }

    /// Looks at a train again. Gives the rows of its operations.
    pub(crate) fn look_at(
        &mut self,
        facts: &Facts,
        routes: &Routes,
        paths: &Paths,
        train: u32,
    ) -> Result<Rows, Memory> {
        let first = facts.first(train);
        let order = routes.order();
        self.take_turn(train);
        self.set_aside(order, first)?;
        let rows = routes.rows();
        if let Some(stops) = self.stops.get_mut(train as usize) {
            stops.clear();
        }
        let mut fork = None;
        let mut last = None;
        let mut sum = 0u64;
        let mut row = u32::try_from(order.len()).unwrap_or(u32::MAX);
        for op in order.iter().rev() {
            row = row.saturating_sub(1);
            let number = first.saturating_add(*op);
            if routes.forced(*op) {
                let mut spot = Spots::forced(facts, routes, paths, train, *op, row);
                if let Some(before) = last {
                    let gap = routes.least_between(before, *op).unwrap_or(0);
                    sum = sum.saturating_add(gap);
                    self.go_on(first.saturating_add(before), number);
                }
                spot.sum = sum;
                spot.stops = self.count_stops(train);
                self.put(number, spot);
                self.stop_at(facts, number, spot)?;
                last = Some(*op);
                if routes.only_next(*op).is_some() {
                    continue;
                }
                if row > 0 && fork.is_none() {
                    fork = Some(number);
                }
            } else if let Some(spot) = self.each.get_mut(number as usize) {
                spot.end = spot.start.saturating_add(facts.min(number));
                spot.row = row;
            }
            if let Some(next) = rows.get(row as usize) {
                self.reach_from(facts, first, number, next.as_slice());
            }
        }
        self.add_up(train);
        if let Some(place) = self.forks.get_mut(train as usize) {
            *place = fork;
        }
        Ok(Rows {
            from: 0,
            until: order.len(),
        })
    }
}
