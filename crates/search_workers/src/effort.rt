ghost use Rattle.std.specs.Prelude.{◌≤◌};

use crate::growth::{Growth, size_of};
use disp_model::Memory;

/// How many branches a searcher asks for at a time to find a plan: as many as a dive may need to
/// reach one. A dive that is cut off goes on where the core says, which may be beside the target.
pub const FOR_PLAN: u32 = 65_536;

/// How many it asks for at a time to raise the bound: so few that the core gives out a leaf of the
/// least bound.
pub const FOR_BOUND: u32 = 16;

/// For each node that is grown to raise the bound so many are grown to find a plan.
const PLAN_NODES: u64 = 3;

/// Leaves that are deep and leaves of the least bound stand far from each other, so a searcher
/// stays with the one kind for a while: of the nodes that find plans it grows a part beforehand,
const PART_AHEAD: u64 = 4;

/// and so many at most.
const MOST_AHEAD: u64 = 1024;

/// What a searcher has done: how many nodes it grew to find a plan, and how many to raise the
/// bound. It says how many branches to ask for next. Nothing rests on it.
#[derive(Drop)]
pub struct Effort {
    for_plan: u32,
    plan: u64,
    bound: u64,
    /// Whether the bound is to be raised next.
    raises: bool,
}

impl Effort {
    /// Nothing grown yet, by a searcher that asks for so many branches to find a plan.
    pub fn new(for_plan: u32) -> Effort {
        Effort {
            for_plan,
            plan: 0,
            bound: 0,
            raises: false,
        }
    }

    /// How many branches to ask for next: one at least.
    pub fn want(&self) -> u32
        ensures { 1 ≤ result }
    {
        if self.raises {
            FOR_BOUND
        } else {
            self.for_plan.max(1)
        }
    }

    /// Counts what came of a work that was allowed so many branches.
    pub fn count(&mut self, allowance: u32, growth: &Result<Growth, Memory>) {
        let size = size_of(growth);
        if allowance <= FOR_BOUND {
            self.bound = self.bound.saturating_add(size);
        } else {
            self.plan = self.plan.saturating_add(size);
        }
        self.raises = self.plan > self.plan_nodes();
    }

    /// How many nodes may be grown to find a plan: until the bound is raised next, or again once it
    /// is.
    fn plan_nodes(&self) -> u64 {
        let due = self.bound.saturating_mul(PLAN_NODES);
        if self.raises {
            return due;
        }
        let ahead = (self.plan / PART_AHEAD).min(MOST_AHEAD);
        due.saturating_add(ahead)
    }
}
