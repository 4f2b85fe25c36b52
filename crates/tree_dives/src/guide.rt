ghost use Rattle.std.specs.Prelude.{◌≡◌, IfOk};
ghost use Rattle.disp_model.specs.declared.problem.Problem.{Problem as ProblemOf};
ghost use Rattle.tree_dives.specs.Guides.{GuidesIn};

use crate::following::is_in;
use crate::script::Script;
use disp_model::{Choice, Decision, Memory, Problem};
use event_graph::Graph;
use first_overlaps::KnownSpans;
use free_choices::{Adviser, Care, Orders, Strategy};
use std::alloc::Global;
use train_insertion::Target;

/// After so many dives by tolls the choices are taken by time,
const TOLL_DIVES: u32 = 960;

/// and after so many of these by tolls again: a deadlock is often seen by time alone.
const TIME_DIVES: u32 = 64;

/// After so many by time where that comes first.
const TIME_DIVES_FIRST: u32 = 4096;

/// So many scripts are kept, at most.
const MOST_SCRIPTS: usize = 8;

/// Advice for dives, on which nothing rests: which child is followed, and under the free rule which
/// choice is taken: one that was prompted, or that a script says, where it is open, and else one
/// that an adviser names. With it, what the fixed rule keeps from pick to pick of when operations
/// ran.
#[derive(Drop)]
pub struct Guide {
    pub(crate) target: Target,
    pub(crate) adviser: Adviser,
    pub(crate) strategy: Strategy,
    pub(crate) spans: KnownSpans,
    pub(crate) scripts: Vec<Script>,
    /// Choices that are taken first at the next node.
    pub(crate) prompts: Vec<Choice>,
    /// Whether it is counted which decisions lead to closed nodes.
    counts: bool,
    /// How many dives the strategy has left.
    left: u32,
}

impl Guide {
    /// Advice for the dives of a problem that follow a target. Fails for memory alone.
    pub fn new(alloc: Global, problem: &Problem, target: Target) -> Result<Guide, Memory>
        ensures { IfOk result (GuidesIn problem.now) }
    {
        Ok(Guide {
            target,
            adviser: Adviser::new(alloc, problem, Care::Thorough)?,
            strategy: Strategy::Toll,
            spans: KnownSpans::new(alloc, problem)?,
            scripts: Vec::new(alloc),
            prompts: Vec::new(alloc),
            counts: true,
            left: TOLL_DIVES,
        })
    }

    /// Advice for rehearsals of a problem's search, which learn in their own way from closed nodes.
    /// Fails for memory alone.
    pub fn for_rehearsals(alloc: Global, problem: &Problem) -> Result<Guide, Memory>
        ensures { IfOk result (GuidesIn problem.now) }
    {
        let guide = Guide::new(alloc, problem, Target::none(alloc))?;
        Ok(Guide {
            counts: false,
            ..guide
        })
    }

    /// Has the choices be taken by time first, where that shows a deadlock.
    pub fn begin_by_time(&mut self)
        ensures { (problem : ProblemOf) → GuidesIn problem self.old → GuidesIn problem self.new }
    {
        self.strategy = Strategy::Time;
        self.left = TIME_DIVES_FIRST;
    }

    /// What the dives follow.
    pub fn target(&self) -> &Target {
        &self.target
    }

    /// Makes this the target.
    pub fn aim_at(&mut self, target: Target)
        ensures { (problem : ProblemOf) → GuidesIn problem self.old → GuidesIn problem self.new }
    {
        self.target = target;
    }

    /// Has these choices be taken first at the next node, where they are open.
    pub fn prompt(&mut self, choices: Vec<Choice>)
        ensures { (problem : ProblemOf) → GuidesIn problem self.old → GuidesIn problem self.new }
    {
        self.prompts = choices;
    }

    /// Has a script be followed. Where there are many the oldest is given up but for the first one,
    /// which says most. Fails for memory alone.
    pub fn follow(&mut self, script: Script) -> Result<(), Memory>
        ensures { (problem : ProblemOf) → GuidesIn problem self.old → GuidesIn problem self.new }
    {
        if self.scripts.len() >= MOST_SCRIPTS {
            let _oldest = self.scripts.remove(1);
        }
        self.scripts.push(script)?;
        Ok(())
    }

    /// Has a script be followed and no other one. Fails for memory alone.
    pub fn follow_alone(&mut self, script: Script) -> Result<(), Memory>
        ensures { (problem : ProblemOf) → GuidesIn problem self.old → GuidesIn problem self.new }
    {
        self.scripts.clear();
        self.scripts.push(script)?;
        Ok(())
    }

    /// The script that is followed from the root on, if one is.
    pub fn whole_script(&self) -> Option<&Script> {
        self.scripts.iter().find(|script| script.is_whole())
    }

    /// Gives the script that came last, and has it be followed no more.
    pub fn leave(&mut self) -> Option<Script>
        ensures { (problem : ProblemOf) → GuidesIn problem self.old → GuidesIn problem self.new }
    {
        self.scripts.pop()
    }

    /// Whether a script says something of the node of a graph.
    pub fn is_scripted(&self, problem: &Problem, graph: &Graph) -> bool
        requires { graph.now.problem ≡ problem.now }
    {
        for script in self.scripts.iter() {
            if is_in(script, &*problem, &*graph) {
                return true;
            }
        }
        false
    }

    /// By what the choices are taken.
    pub fn strategy(&self) -> Strategy {
        self.strategy
    }

    /// What is known of the two orders of the choice that was taken last.
    pub fn orders(&self) -> Option<Orders> {
        self.adviser.orders()
    }

    /// Notes that the graph may have been moved to any node.
    pub(crate) fn begin(&mut self)
        ensures { (problem : ProblemOf) → GuidesIn problem self.old → GuidesIn problem self.new }
    {
        self.adviser.lose();
    }

    /// Notes that the graph may have been moved to any node that has as many of its decisions.
    pub fn begin_behind(&mut self, depth: usize)
        ensures { (problem : ProblemOf) → GuidesIn problem self.old → GuidesIn problem self.new }
    {
        self.adviser.lose_behind(depth);
    }

    /// Notes that the node of a graph is closed: it leaves no plan that is wanted.
    pub(crate) fn count_closed(&mut self, graph: &Graph)
        ensures { (problem : ProblemOf) → GuidesIn problem self.old → GuidesIn problem self.new }
    {
        if !self.counts {
            return;
        }
        if let Some(decision) = graph.decisions().last() {
            self.adviser.count_failure(*decision);
        }
    }

    /// Counts a dive. Each of the two strategies gives way to the other after a number of dives.
    pub fn count_dive(&mut self)
        ensures { (problem : ProblemOf) → GuidesIn problem self.old → GuidesIn problem self.new }
    {
        self.left = self.left.saturating_sub(1);
        if self.left > 0 {
            return;
        }
        let (strategy, left) = match self.strategy {
            Strategy::Toll | Strategy::Any => (Strategy::Time, TIME_DIVES),
            Strategy::Time => (Strategy::Toll, TOLL_DIVES),
        };
        self.strategy = strategy;
        self.left = left;
    }
}
