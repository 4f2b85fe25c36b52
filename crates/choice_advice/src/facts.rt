use crate::ages::set_of;
use disp_model::{Component, List, Memory, Op, Operation, Problem};
use std::alloc::Global;

/// What the problem says of an operation.
#[derive(Drop)]
struct Fact {
    op: Op,
    lower: u64,
    upper: Option<u64>,
    min: u64,
    components: List<Component>,
}

/// What the problem says of the operations, by their numbers, and the numbers of the trains' first.
#[derive(Drop)]
pub(crate) struct Facts {
    each: Vec<Fact>,
    firsts: Vec<u32>,
    /// Whether it matters when each operation starts: it costs something, or has an upper.
    matters: Vec<bool>,
    /// The bit of the set of each one's train.
    sets: Vec<u64>,
}

/// How much more operations may cost that start later.
#[derive(Clone, Copy)]
pub(crate) struct Most {
    coeffs: u64,
    increments: u64,
    /// How much later all of them may start.
    slack: u64,
}

impl Most {
    /// Of no operation.
    pub(crate) const NOTHING: Most = Most {
        coeffs: 0,
        increments: 0,
        slack: u64::MAX,
    };

    /// Of these and others.
    pub(crate) fn with(&self, other: &Most) -> Most {
        Most {
            coeffs: self.coeffs.saturating_add(other.coeffs),
            increments: self.increments.saturating_add(other.increments),
            slack: self.slack.min(other.slack),
        }
    }

    /// How much more they cost at most where none is later by more than this.
    pub(crate) fn of(&self, late: u64) -> u64 {
        if late > self.slack {
            return u64::MAX;
        }
        self.coeffs
            .saturating_mul(late)
            .saturating_add(self.increments)
    }
}

/// What the problem says of an operation, but for the costs.
fn fact_of(alloc: Global, op: Op, operation: &Operation) -> Fact {
    Fact {
        op,
        lower: u64::from(operation.lower),
        upper: match operation.upper {
            Some(upper) => Some(u64::from(upper)),
            None => None,
        },
        min: u64::from(operation.min),
        components: List::new(alloc),
    }
}

/// What a component costs where its operation starts at a time.
fn cost_at(component: &Component, time: u64) -> u64 {
    match time.checked_sub(u64::from(component.threshold)) {
        Some(late) => u64::from(component.coeff)
            .saturating_mul(late)
            .saturating_add(u64::from(component.increment)),
        None => 0,
    }
}

impl Facts {
    /// What a problem says.
    pub(crate) fn of(alloc: Global, problem: &Problem) -> Result<Facts, Memory> {
        let mut facts = Facts {
            each: Vec::new(alloc),
            firsts: Vec::new(alloc),
            matters: Vec::new(alloc),
            sets: Vec::new(alloc),
        };
        let mut train = 0u32;
        let mut number = 0u32;
        for operations in problem.trains.as_slice() {
            facts.firsts.push(number)?;
            let mut op = 0u32;
            for operation in operations.as_slice() {
                facts
                    .each
                    .push(fact_of(alloc, Op { train, op }, operation))?;
                op = op.saturating_add(1);
                number = number.saturating_add(1);
            }
            train = train.saturating_add(1);
        }
        for component in problem.components.as_slice() {
            facts.keep(*component)?;
        }
        for fact in &facts.each {
            let matters = fact.upper.is_some() || fact.components.len() > 0;
            facts.matters.push(matters)?;
            facts.sets.push(set_of(fact.op.train))?;
        }
        Ok(facts)
    }

    /// Keeps a component with its operation.
    fn keep(&mut self, component: Component) -> Result<(), Memory> {
        let number = self
            .first(component.train)
            .saturating_add(component.operation);
        if let Some(fact) = self.each.get_mut(number as usize) {
            fact.components.push(component)?;
        }
        Ok(())
    }

    /// How much more an operation may cost that starts later than at a time.
    pub(crate) fn most_at(&self, number: u32, start: u64) -> Most {
        let Some(fact) = self.each.get(number as usize) else {
            return Most::NOTHING;
        };
        let mut most = Most::NOTHING;
        if let Some(upper) = fact.upper {
            most.slack = upper.saturating_sub(start);
        }
        for component in fact.components.as_slice() {
            let increment = u64::from(component.increment);
            most.coeffs = most.coeffs.saturating_add(u64::from(component.coeff));
            most.increments = most.increments.saturating_add(increment);
        }
        most
    }

    /// Whether it matters when an operation starts: it costs something, or has an upper.
    pub(crate) fn matters(&self, number: u32) -> bool {
        match self.matters.get(number as usize) {
            Some(matters) => *matters,
            None => false,
        }
    }

    /// The bit of the set of an operation's train.
    pub(crate) fn set(&self, number: u32) -> u64 {
        match self.sets.get(number as usize) {
            Some(set) => *set,
            None => u64::MAX,
        }
    }

    /// How many operations there are.
    pub(crate) fn count(&self) -> usize {
        self.each.len()
    }

    /// The number of a train's first operation.
    pub(crate) fn first(&self, train: u32) -> u32 {
        match self.firsts.get(train as usize) {
            Some(first) => *first,
            None => 0,
        }
    }

    /// The operation of a number.
    pub(crate) fn op(&self, number: u32) -> Op {
        match self.each.get(number as usize) {
            Some(fact) => fact.op,
            None => Op { train: 0, op: 0 },
        }
    }

    /// From when on an operation may start.
    pub(crate) fn lower(&self, number: u32) -> u64 {
        match self.each.get(number as usize) {
            Some(fact) => fact.lower,
            None => 0,
        }
    }

    /// How long an operation lasts at least.
    pub(crate) fn min(&self, number: u32) -> u64 {
        match self.each.get(number as usize) {
            Some(fact) => fact.min,
            None => 0,
        }
    }

    /// What an operation costs more at a time than at an earlier one; none where it may not start
    /// then.
    pub(crate) fn rise(&self, number: u32, before: u64, time: u64) -> Option<u64> {
        let Some(fact) = self.each.get(number as usize) else {
            return Some(0);
        };
        if fact.upper.is_some_and(|upper| upper < time) {
            return None;
        }
        let mut rise = 0u64;
        for component in fact.components.as_slice() {
            let more = cost_at(component, time).saturating_sub(cost_at(component, before));
            rise = rise.saturating_add(more);
        }
        Some(rise)
    }

    /// What an operation costs at a time; none where it may not start then.
    pub(crate) fn cost(&self, number: u32, time: u64) -> Option<u64> {
        let Some(fact) = self.each.get(number as usize) else {
            return Some(0);
        };
        if fact.upper.is_some_and(|upper| upper < time) {
            return None;
        }
        let mut cost = 0u64;
        for component in fact.components.as_slice() {
            cost = cost.saturating_add(cost_at(component, time));
        }
        Some(cost)
    }
}
