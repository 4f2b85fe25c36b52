ghost use Rattle.std.specs.Prelude.{◌≡◌, IfOk, IfSome};
ghost use Rattle.disp_model.specs.declared.problem.Problem.{Problem as ProblemOf};
ghost use Rattle.disp_model.specs.Node.{node_at};
ghost use Rattle.event_graph.specs.Joined.{IsOfEdition};
ghost use Rattle.near_plans.specs.Plans.{IsBeside, IsPlanAt};
ghost use Rattle.node_leaves.specs.Reckoned.{ReckonsFor};
ghost use Rattle.search_workers.specs.Explorers.{IsExplorerOf};
ghost use Rattle.search_workers.specs.Grown.{IsGrownOf};

use crate::growth::{Growth, grow};
use crate::lookout::{Look, Lookout};
use crate::rehearser::Rehearser;
use crate::scout::Scout;
use crate::walk::go_to;
use disp_model::{Decision, Fixing, Leaf, Memory, Plan, Problem, Rule};
use event_graph::Graph;
use near_plans::{Ahead, look_ahead};
use node_leaves::Reckoning;
use open_nodes::Work;
use rehearsals::{Ending, Lessons, Rehearsed, Trial, rehearse};
use share_bound::KnownShares;
use std::alloc::Global;
use tree_dives::{Script, rewind_knowing};

/// A graph of an edition, which is moved from work to work, what is known of shares where it is,
/// what guides its moves, and a plan that is to be published.
#[derive(Drop)]
pub struct Explorer<'p> {
    pub graph: Graph<'p>,
    pub known: KnownShares,
    scout: Scout,
    rehearser: Rehearser,
    found: Option<Plan>,
}

/// What is known after a rehearsal.
#[derive(Drop)]
struct Tried {
    /// What the best plan costs, if there is one.
    best: Option<u64>,
    /// What was learned, unless a script is followed now.
    lessons: Option<Lessons>,
}

impl<'p> Explorer<'p> {
    /// An explorer at the node of a graph, which is of an edition with these fixings. Its first
    /// target begins with the order of trains of the last search, and leaves its own.
    ///
    /// # Errors
    ///
    /// `Memory` where memory runs out.
    pub fn new(
        alloc: Global,
        problem: &Problem,
        fixings: &[Fixing],
        graph: Graph<'p>,
        lookout: Lookout,
        order: &mut Vec<u32>,
    ) -> Result<Explorer<'p>, Memory>
        requires problem { graph.problem ≡ problem.now }
        ensures graph { IfOk result (λ explorer. explorer.graph ≡ graph.entry) }
        ensures ready { IfOk result (IsExplorerOf problem.now) }
    {
        let scout = Scout::new(alloc, problem, fixings, lookout, order)?;
        let known = KnownShares::new(alloc, problem)?;
        let rehearser = Rehearser::new(alloc, problem, fixings)?;
        Ok(Explorer {
            graph,
            known,
            scout,
            rehearser,
            found: None,
        })
    }

    /// Looks for plans that are better than the target, from the root. A plan that is found is
    /// valid, and the target from then on.
    fn look_from_root(
        &mut self,
        alloc: Global,
        problem: &Problem,
        look: Look,
    ) -> Result<Ahead, Memory>
        requires problem { self.old.graph.problem ≡ problem.now }
        requires edition { IsOfEdition self.old.graph }
        requires ready { IsExplorerOf problem.now self.old }
        ensures beside { IsBeside self.old.graph self.new.graph }
        ensures ready { IsExplorerOf problem.now self.new }
        ensures plan { IfOk result (λ ahead. IfSome ahead.plan (IsPlanAt self.old.graph)) }
    {
        rewind_knowing(&mut self.graph, &mut self.known, 0);
        let Look { draws, nodes } = look;
        let target = self.scout.guide.target();
        let ahead = look_ahead(alloc, problem, &mut self.graph, target, draws, nodes)?;
        self.scout.note_look(alloc, problem, &ahead);
        Ok(ahead)
    }

    /// Whether it agrees with the other searchers of its crew on a script.
    pub fn agrees(&self) -> bool {
        self.scout.lookout.trials.are_shared()
    }

    /// Whether it grows nothing before its rehearsals from the root came to an end.
    pub fn rehearses_first(&self) -> bool {
        self.rehearser.lessons.is_some() && self.scout.lookout.trials.come_first()
    }

    /// Has rehearsals from the root look for plans that cost less than this, if it is a cost.
    pub fn note_cost(&mut self, cost: Option<u64>)
        ensures ready { (problem : ProblemOf) → IsExplorerOf problem self.old
            → IsExplorerOf problem self.new }
        ensures same { self.new.graph ≡ self.old.graph }
    {
        self.rehearser.note_cost(cost);
    }

    /// Follows a script from the root that another searcher came to, and rehearses no more there.
    ///
    /// # Errors
    ///
    /// `Memory` where memory runs out.
    pub fn follow_other(&mut self, script: Script) -> Result<(), Memory>
        ensures ready { (problem : ProblemOf) → IsExplorerOf problem self.old
            → IsExplorerOf problem self.new }
        ensures same { self.new.graph ≡ self.old.graph }
    {
        self.rehearser.lessons = None;
        self.scout.lookout.end_looks();
        self.scout.guide.follow_alone(script)
    }

    /// A copy of the script that is followed from the root on, if one is.
    ///
    /// # Errors
    ///
    /// `Memory` where memory runs out.
    pub fn script(&self, alloc: Global) -> Result<Option<Script>, Memory> {
        match self.scout.guide.whole_script() {
            Some(script) => Ok(Some(script.copied(alloc)?)),
            None => Ok(None),
        }
    }

    /// Whether a script is followed from the root on.
    pub fn is_scripted(&self) -> bool {
        self.scout.guide.whole_script().is_some()
    }

    /// Gives a plan that was found by a rehearsal below a leaf, or looks for plans that are better
    /// than the target, from the root, if that is due. A plan that is found is valid, and the
    /// target from then on.
    ///
    /// # Errors
    ///
    /// `Memory` where memory runs out.
    pub fn look_on(&mut self, alloc: Global, problem: &Problem) -> Result<Option<Plan>, Memory>
        requires problem { self.old.graph.problem ≡ problem.now }
        requires edition { IsOfEdition self.old.graph }
        requires ready { IsExplorerOf problem.now self.old }
        ensures beside { IsBeside self.old.graph self.new.graph }
        ensures ready { IsExplorerOf problem.now self.new }
        ensures plan { IfOk result (λ plan. IfSome plan (IsPlanAt self.old.graph)) }
    {
        if let Some(plan) = self.found.take() {
            return Ok(Some(plan));
        }
        let rehearsals_first = self.rehearses_first();
        let Some(look) = self.scout.lookout.next(rehearsals_first) else {
            return Ok(None);
        };
        let Ahead { plan, .. } = self.look_from_root(alloc, problem, look)?;
        Ok(plan)
    }

    /// Rehearses the search below where the graph is, for plans that cost less than this.
    fn rehearse_here(
        &mut self,
        alloc: Global,
        problem: &Problem,
        reckoning: &Reckoning,
        lessons: Lessons,
        best: Option<u64>,
        nodes: u32,
    ) -> Result<Rehearsed, Memory>
        requires problem { self.old.graph.problem ≡ problem.now }
        requires edition { IsOfEdition self.old.graph }
        requires reckons { ReckonsFor problem.now reckoning.now }
        requires ready { IsExplorerOf problem.now self.old }
        ensures ready { IsExplorerOf problem.now self.new }
        ensures beside { IsBeside self.old.graph self.new.graph }
        ensures plan { IfOk result
            (λ rehearsed. IfSome rehearsed.plan (IsPlanAt self.new.graph)) }
    {
        rehearse(
            alloc,
            problem,
            reckoning,
            &mut self.graph,
            &mut self.known,
            &mut self.rehearser.guide,
            lessons,
            Trial {
                fixings: &self.rehearser.fixings,
                target: self.scout.guide.target(),
                best,
                nodes,
            },
        )
    }

    /// Keeps a plan, if there is one, until it is published. It is the target from then on.
    fn keep(&mut self, alloc: Global, problem: &Problem, plan: Option<Plan>)
        requires ready { IsExplorerOf problem.now self.old }
        requires plan { IfSome plan (IsPlanAt self.old.graph) }
        ensures ready { IsExplorerOf problem.now self.new }
        ensures same { self.new.graph ≡ self.old.graph }
    {
        let Some(plan) = plan else {
            return;
        };
        self.scout.aim_at(alloc, problem, &plan);
        self.found = Some(plan);
    }

    /// Follows the script of a rehearsal that came to its end. Gives what another one learned.
    fn follow(&mut self, problem: &Problem, ending: Ending) -> Result<Option<Lessons>, Memory>
        requires ready { IsExplorerOf problem.now self.old }
        ensures ready { IsExplorerOf problem.now self.new }
        ensures same { self.new.graph ≡ self.old.graph }
    {
        let _problem = problem;
        match ending {
            Ending::Closed(script) => {
                self.scout.guide.follow(script)?;
                Ok(None)
            }
            Ending::Open(lessons) => Ok(Some(lessons)),
        }
    }

    /// Rehearses the search below where the graph is, for plans that cost less than this. A plan
    /// that is found is kept, and is the target from then on.
    fn try_on(
        &mut self,
        alloc: Global,
        problem: &Problem,
        reckoning: &Reckoning,
        lessons: Lessons,
        best: Option<u64>,
        nodes: u32,
    ) -> Result<Tried, Memory>
        requires problem { self.old.graph.problem ≡ problem.now }
        requires edition { IsOfEdition self.old.graph }
        requires reckons { ReckonsFor problem.now reckoning.now }
        requires ready { IsExplorerOf problem.now self.old }
        ensures ready { IsExplorerOf problem.now self.new }
        ensures beside { IsBeside self.old.graph self.new.graph }
    {
        let rehearsed = self.rehearse_here(alloc, problem, reckoning, lessons, best, nodes)?;
        let Rehearsed { plan, best, ending } = rehearsed;
        self.keep(alloc, problem, plan);
        let lessons = self.follow(problem, ending)?;
        Ok(Tried { best, lessons })
    }

    /// Looks for better plans behind a rehearsal from the root at so many nodes that came to no
    /// end, if that is due; it may have found a better one. A plan that is found is kept, and
    /// rehearsals look for better ones.
    fn look_behind(
        &mut self,
        alloc: Global,
        problem: &Problem,
        is_better: bool,
        nodes: u32,
    ) -> Result<(), Memory>
        requires problem { self.old.graph.problem ≡ problem.now }
        requires edition { IsOfEdition self.old.graph }
        requires ready { IsExplorerOf problem.now self.old }
        ensures ready { IsExplorerOf problem.now self.new }
        ensures beside { IsBeside self.old.graph self.new.graph }
    {
        let Some(look) = self.scout.lookout.look_between(is_better, nodes) else {
            return Ok(());
        };
        let Ahead { plan, cost, .. } = self.look_from_root(alloc, problem, look)?;
        self.rehearser.note_cost(cost);
        self.keep(alloc, problem, plan);
        Ok(())
    }

    /// Moves the graph to the node of these decisions. Where one on the way is refused, gives the
    /// leaf that shows it.
    fn move_to(&mut self, problem: &Problem, decisions: &[Decision]) -> Result<Option<Leaf>, Memory>
        requires ready { IsExplorerOf problem.now self.old }
        ensures ready { IsExplorerOf problem.now self.new }
        ensures beside { IsBeside self.old.graph self.new.graph }
    {
        let _problem = problem;
        go_to(&mut self.graph, &mut self.known, decisions)
    }

    /// Rehearses a part of the search from the root, if that is due, and looks on from a better
    /// plan that it finds. Says whether it came to no end. What the plans cost that others found is
    /// left out here: where searchers do not agree on a script each comes to the same one then.
    fn rehearse_once(
        &mut self,
        alloc: Global,
        problem: &Problem,
        reckoning: &Reckoning,
    ) -> Result<bool, Memory>
        requires problem { self.old.graph.problem ≡ problem.now }
        requires edition { IsOfEdition self.old.graph }
        requires reckons { ReckonsFor problem.now reckoning.now }
        requires ready { IsExplorerOf problem.now self.old }
        ensures ready { IsExplorerOf problem.now self.new }
        ensures beside { IsBeside self.old.graph self.new.graph }
    {
        let Some(lessons) = self.rehearser.lessons.take() else {
            return Ok(false);
        };
        // Where none is to come any more, what was learned is let go.
        let Some(part) = self.scout.lookout.trials.next() else {
            return Ok(false);
        };
        let mut lessons = lessons;
        if part.begins {
            lessons.begin_anew();
        }
        let None = self.move_to(problem, lessons.way())? else {
            return Ok(false);
        };
        let best = self.rehearser.best;
        let Tried {
            best: cost,
            lessons: learned,
        } = self.try_on(alloc, problem, reckoning, lessons, best, part.nodes)?;
        let is_open = learned.is_some();
        self.rehearser.lessons = learned;
        self.rehearser.best = cost;
        if !is_open {
            self.scout.lookout.end_looks();
            return Ok(false);
        }
        let is_better = cost != best;
        if is_better || part.ends {
            self.look_behind(alloc, problem, is_better, part.look)?;
        }
        if self.rehearser.best != best {
            self.scout.lookout.trials.note_better();
        }
        Ok(true)
    }

    /// Rehearses the search from the root, as often in turn as is due.
    fn rehearse_root(
        &mut self,
        alloc: Global,
        problem: &Problem,
        reckoning: &Reckoning,
    ) -> Result<(), Memory>
        requires problem { self.old.graph.problem ≡ problem.now }
        requires edition { IsOfEdition self.old.graph }
        requires reckons { ReckonsFor problem.now reckoning.now }
        requires ready { IsExplorerOf problem.now self.old }
        ensures ready { IsExplorerOf problem.now self.new }
        ensures beside { IsBeside self.old.graph self.new.graph }
    {
        for _ in 0..self.scout.lookout.trials.at_once() {
            if !self.rehearse_once(alloc, problem, reckoning)? {
                return Ok(());
            }
        }
        Ok(())
    }

    /// Rehearses the search from the root, if that is due. A plan that is found is valid, and the
    /// target from then on.
    ///
    /// # Errors
    ///
    /// `Memory` where memory runs out.
    pub fn rehearse_on(
        &mut self,
        alloc: Global,
        problem: &Problem,
        reckoning: &Reckoning,
    ) -> Result<Option<Plan>, Memory>
        requires problem { self.old.graph.problem ≡ problem.now }
        requires edition { IsOfEdition self.old.graph }
        requires reckons { ReckonsFor problem.now reckoning.now }
        requires ready { IsExplorerOf problem.now self.old }
        ensures beside { IsBeside self.old.graph self.new.graph }
        ensures ready { IsExplorerOf problem.now self.new }
        ensures plan { IfOk result (λ plan. IfSome plan (IsPlanAt self.old.graph)) }
    {
        if reckoning.rule == Rule::Free {
            self.rehearse_root(alloc, problem, reckoning)?;
        }
        Ok(self.found.take())
    }

    /// Rehearses the search below the node where the graph is, which is the node of these
    /// decisions, if that is due.
    fn rehearse_below(
        &mut self,
        alloc: Global,
        problem: &Problem,
        reckoning: &Reckoning,
        decisions: &[Decision],
        best: Option<u64>,
    ) -> Result<(), Memory>
        requires problem { self.old.graph.problem ≡ problem.now }
        requires edition { IsOfEdition self.old.graph }
        requires reckons { ReckonsFor problem.now reckoning.now }
        requires ready { IsExplorerOf problem.now self.old }
        ensures ready { IsExplorerOf problem.now self.new }
        ensures beside { IsBeside self.old.graph self.new.graph }
    {
        let Some(nodes) = self.scout.lookout.trials.next_below() else {
            return Ok(());
        };
        let lessons = Lessons::new(alloc, decisions)?;
        let _tried = self.try_on(alloc, problem, reckoning, lessons, best, nodes)?;
        Ok(())
    }

    /// Whether the search is to be rehearsed below a leaf where no script says anything of it: not
    /// by the fixed rule, nor as long as rehearsals from the root come to no end.
    fn rehearses_leaves(&self, reckoning: &Reckoning) -> bool {
        reckoning.rule == Rule::Free && self.rehearser.lessons.is_none()
    }

    /// Rehearses the search below the leaf of a work where no script says anything of it, if that
    /// is due.
    fn prepare(
        &mut self,
        alloc: Global,
        problem: &Problem,
        reckoning: &Reckoning,
        work: &Work,
        best: Option<u64>,
    ) -> Result<(), Memory>
        requires problem { self.old.graph.problem ≡ problem.now }
        requires edition { IsOfEdition self.old.graph }
        requires reckons { ReckonsFor problem.now reckoning.now }
        requires ready { IsExplorerOf problem.now self.old }
        ensures ready { IsExplorerOf problem.now self.new }
        ensures beside { IsBeside self.old.graph self.new.graph }
    {
        if !self.rehearses_leaves(reckoning) {
            return Ok(());
        }
        let decisions = work.decisions.as_slice();
        let None = self.move_to(problem, decisions)? else {
            return Ok(());
        };
        if self.scout.guide.is_scripted(problem, &self.graph) {
            return Ok(());
        }
        self.rehearse_below(alloc, problem, reckoning, decisions, best)
    }

    /// Grows the leaf of a work by a dive from its node.
    fn dive_from(
        &mut self,
        alloc: Global,
        problem: &Problem,
        reckoning: &Reckoning,
        work: &Work,
        best: Option<u64>,
    ) -> Result<Growth, Memory>
        requires problem { self.old.graph.problem ≡ problem.now }
        requires edition { IsOfEdition self.old.graph }
        requires reckons { ReckonsFor problem.now reckoning.now }
        requires ready { IsExplorerOf problem.now self.old }
        ensures ready { IsExplorerOf problem.now self.new }
        ensures beside { IsBeside self.old.graph self.new.graph }
        ensures grown { IfOk result (IsGrownOf reckoning.now.rule
            (node_at self.old.graph.problem self.old.graph.fixings work.now.decisions) best
            work.now.allowance work.now.bound) }
    {
        let growth = grow(
            alloc,
            problem,
            reckoning,
            &mut self.graph,
            &mut self.known,
            work,
            best,
            &mut self.scout.guide,
        );
        self.scout.note_growth(alloc, problem, &growth);
        growth
    }

    /// Grows the leaf of a work, by a dive from its node, where what branches costs less than this
    /// best. Before, the search below is rehearsed where that is due. A plan that is found costs
    /// less than that, and is the target from then on. Where the node is not reached, a leaf shows
    /// that it is dead.
    ///
    /// # Errors
    ///
    /// `Memory` where memory runs out.
    pub fn grow(
        &mut self,
        alloc: Global,
        problem: &Problem,
        reckoning: &Reckoning,
        work: &Work,
        best: Option<u64>,
    ) -> Result<Growth, Memory>
        requires problem { self.old.graph.problem ≡ problem.now }
        requires edition { IsOfEdition self.old.graph }
        requires reckons { ReckonsFor problem.now reckoning.now }
        requires ready { IsExplorerOf problem.now self.old }
        ensures ready { IsExplorerOf problem.now self.new }
        ensures beside { IsBeside self.old.graph self.new.graph }
        ensures grown { IfOk result (IsGrownOf reckoning.now.rule
            (node_at self.old.graph.problem self.old.graph.fixings work.now.decisions) best
            work.now.allowance work.now.bound) }
    {
        self.prepare(alloc, problem, reckoning, work, best)?;
        self.dive_from(alloc, problem, reckoning, work, best)
    }
}
