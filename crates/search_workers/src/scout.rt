ghost use Rattle.std.specs.Prelude.{IfOk};
ghost use Rattle.disp_model.specs.declared.problem.Problem.{Problem as ProblemOf};
ghost use Rattle.tree_dives.specs.Guides.{GuidesIn};

use crate::amount::Amount;
use crate::growth::{Growth, size_of};
use crate::lookout::Lookout;
use disp_model::{Fixing, Memory, Plan, Problem};
use near_plans::Ahead;
use std::alloc::Global;
use train_insertion::{INSERTIONS, Target, target};
use tree_dives::Guide;

/// How many trains are put in for a first target.
const FIRST_INSERTIONS: Amount = Amount {
    for_train: 250,
    fewest: INSERTIONS,
    most: 30_000,
    for_operations: 216_000_000,
};

/// How many trains are put in for a target where an order of trains is known from the last one.
const INSERTIONS_AGAIN: Amount = Amount {
    for_train: 0,
    fewest: 4000,
    most: 4000,
    for_operations: 216_000_000,
};

/// What guides the dives of a search, and when better plans are looked for.
#[derive(Drop)]
pub(crate) struct Scout {
    pub guide: Guide,
    pub lookout: Lookout,
}

/// How many trains are put in for a target, where this order of trains is known from the last one,
/// if it is one.
fn insertions_after(problem: &Problem, order: &[u32]) -> u32 {
    if order.is_empty() {
        FIRST_INSERTIONS.of(problem)
    } else {
        INSERTIONS_AGAIN.of(problem)
    }
}

impl Scout {
    /// A scout for the search of an edition. Its target begins with the order of trains of the last
    /// one, and leaves its own. Fails for memory alone.
    pub(crate) fn new(
        alloc: Global,
        problem: &Problem,
        fixings: &[Fixing],
        lookout: Lookout,
        order: &mut Vec<u32>,
    ) -> Result<Scout, Memory>
        ensures { IfOk result (λ scout. GuidesIn problem.now scout.guide) }
    {
        let insertions = insertions_after(problem, order.as_slice());
        let target = target(alloc, problem, fixings, insertions, order)?;
        let guide = Guide::new(alloc, problem, target)?;
        Ok(Scout { guide, lookout })
    }

    /// Makes a plan the target, where there is memory for it.
    pub(crate) fn aim_at(&mut self, alloc: Global, problem: &Problem, plan: &Plan)
        requires { GuidesIn problem.now self.old.guide }
        ensures { GuidesIn problem.now self.new.guide }
    {
        if let Ok(target) = Target::of_plan(alloc, problem, plan.as_slice()) {
            self.guide.aim_at(target);
        }
    }

    /// Notes whether all that a look saw is dead: then there is nothing more to look for.
    fn note_dead(&mut self, dead_by_time: bool)
        ensures { (problem : ProblemOf) → GuidesIn problem self.old.guide
            → GuidesIn problem self.new.guide }
    {
        if !dead_by_time {
            return;
        }
        self.guide.begin_by_time();
        self.lookout.end();
    }

    /// Notes what a look came to. A plan that it found is the target from then on.
    pub(crate) fn note_look(&mut self, alloc: Global, problem: &Problem, ahead: &Ahead)
        requires { GuidesIn problem.now self.old.guide }
        ensures { GuidesIn problem.now self.new.guide }
    {
        self.note_dead(ahead.dead_by_time);
        if let Some(plan) = &ahead.plan {
            self.aim_at(alloc, problem, plan);
        }
    }

    /// Notes what a dive came to: a plan that it found is the target from then on.
    pub(crate) fn note_growth(
        &mut self,
        alloc: Global,
        problem: &Problem,
        growth: &Result<Growth, Memory>,
    )
        requires { GuidesIn problem.now self.old.guide }
        ensures { GuidesIn problem.now self.new.guide }
    {
        self.guide.count_dive();
        self.lookout.count(size_of(growth));
        if let Ok(
            Growth::Subtree {
                plan: Some(plan),
                ..
            },
        ) = growth
        {
            self.aim_at(alloc, problem, plan);
        }
    }
}
