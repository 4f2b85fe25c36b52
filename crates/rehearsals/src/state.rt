ghost use Rattle.std.specs.Prelude.{◌≡◌, None as NoPlan, IfOk, IfSome};
ghost use Rattle.disp_model.specs.Node.{Node};
ghost use Rattle.near_plans.specs.Plans.{IsBeside, IsFoundBeside};
ghost use Rattle.node_leaves.specs.Reckoned.{ReckonsFor};
ghost use Rattle.share_bound.specs.Known.{HoldFor};
ghost use Rattle.tree_dives.specs.Guides.{GuidesIn};

use crate::frame::{Closed, Frame, Next};
use crate::lessons::{Course, Learned, Lessons};
use crate::rehearsal::Trial;
use branch_rules::children;
use conflict_reasons::{At, Met, Reasons};
use cost_bound::cost;
use disp_model::{Choice, Decision, Fixing, Leaf, Memory, Plan, Problem};
use event_graph::{ExtendNo, Graph};
use node_leaves::{NodeLeaf, Reckoning, leaf_of};
use share_bound::KnownShares;
use std::alloc::Global;
use train_insertion::Target;
use tree_dives::{End, Guide, Stage, preferred, rewind_knowing, stage_of};

/// A rehearsal where it is.
#[derive(Drop)]
pub(crate) struct Rehearsal<'a> {
    /// The fixings of the graph.
    fixings: &'a [Fixing],
    /// Which child of a node comes first.
    target: &'a Target,
    /// Behind how many decisions of the graph it began.
    base: usize,
    /// How far it has come.
    pub course: Course,
    pub learned: Learned,
    /// The best plan that was found.
    pub plan: Option<Plan>,
    /// What plans are to cost less than, if a cost is known.
    pub best: Option<u64>,
    /// Whether the node where it began is closed.
    pub closed: bool,
}

/// The leaf of a node that a graph refused. Fails for memory alone.
fn refused(no: ExtendNo) -> Result<Leaf, Memory> {
    match no {
        ExtendNo::NoRoute(_) => Ok(Leaf::NoRoute),
        ExtendNo::Cycle(ops) => Ok(Leaf::Cycle(ops)),
        ExtendNo::Memory => Err(Memory),
    }
}

/// The leaf that a node shows.
fn leaf_in(shown: NodeLeaf) -> Leaf {
    match shown {
        NodeLeaf::Dead(leaf) => leaf,
        NodeLeaf::Open { leaf, .. } => leaf,
    }
}

/// How much more a node's leaf costs than the best plan.
fn room_in(shown: &NodeLeaf, best: Option<u64>) -> u64 {
    match (shown, best) {
        (NodeLeaf::Open { bound, .. }, Some(best)) => bound.saturating_sub(best),
        _ => 0,
    }
}

/// Moves a graph to a decision behind so many of those where it is. Gives the leaf of one that is
/// refused. What is known of shares holds where the graph is.
fn go_to(
    graph: &mut Graph,
    known: &mut KnownShares,
    depth: usize,
    next: Next,
) -> Result<Option<Leaf>, Memory>
    requires known { HoldFor graph.old known.old }
    ensures known { HoldFor graph.new known.new }
    ensures beside { IsBeside graph.old graph.new }
{
    let depth = depth.min(graph.decisions().len());
    rewind_knowing(graph, known, depth);
    let _aside = known.set_aside(next.decision);
    match graph.extend(next.decision) {
        Ok(()) => Ok(None),
        Err(no) => Ok(Some(refused(no)?)),
    }
}

impl<'a> Rehearsal<'a> {
    /// A rehearsal from the node of a graph, or from the one above it to which lessons lead that
    /// say how far the last one came: it goes on there. Fails for memory alone.
    pub(crate) fn new(
        alloc: Global,
        problem: &Problem,
        graph: &Graph,
        lessons: Lessons,
        trial: Trial<'a>,
    ) -> Result<Rehearsal<'a>, Memory>
        requires { graph.now.problem ≡ problem.now }
        ensures { IfOk result (λ rehearsal. rehearsal.plan ≡ NoPlan) }
    {
        let Lessons { learned, course } = lessons;
        let course = match course {
            Some(course) => course,
            None => Course::new(alloc, problem, trial.fixings, graph)?,
        };
        let depth = graph.decisions().len();
        Ok(Rehearsal {
            fixings: trial.fixings,
            target: trial.target,
            base: depth.saturating_sub(course.way().len()),
            course,
            learned,
            plan: None,
            best: trial.best,
            closed: false,
        })
    }

    /// Keeps on which decisions it rests that a node is closed, if a branch shows it, and that has
    /// few branches below it.
    fn learn(&mut self, alloc: Global, closed: &Closed) -> Result<(), Memory>
        ensures { self.new.plan ≡ self.old.plan }
    {
        match closed.place {
            Some(branch) if self.learned.script.size(branch) <= self.learned.most => {
                let nogoods = &mut self.learned.nogoods;
                nogoods.add(alloc, &self.course.past, &closed.reasons, branch)
            }
            _ => Ok(()),
        }
    }

    /// Notes in the node in front that its child is closed. Gives the node where it is closed too.
    fn close_in(
        &mut self,
        alloc: Global,
        mut frame: Frame,
        closed: Closed,
    ) -> Result<Option<Closed>, Memory>
        ensures { self.new.plan ≡ self.old.plan }
    {
        if !frame.rests_on_child(&closed) {
            return Ok(Some(closed));
        }
        frame.note(closed)?;
        if frame.is_done() {
            let closed = frame.into_closed(alloc, &mut self.learned.script)?;
            self.learn(alloc, &closed)?;
            return Ok(Some(closed));
        }
        self.course.frames.push(frame)?;
        Ok(None)
    }

    /// Notes that the node where it is is closed, and those above that are closed by it.
    fn close(&mut self, alloc: Global, closed: Closed) -> Result<(), Memory>
        ensures { self.new.plan ≡ self.old.plan }
    {
        let mut closed = closed;
        for _ in 0..self.course.frames.len() {
            let Some(frame) = self.course.frames.pop() else {
                return Ok(());
            };
            closed = match self.close_in(alloc, frame, closed)? {
                Some(closed) => closed,
                None => return Ok(()),
            };
        }
        self.closed = true;
        self.learned.script.begin_at(closed.place);
        Ok(())
    }

    /// Notes that a leaf shows the node where it is, which is that of a graph, or the one to which
    /// the graph refused to go, and that it costs so much more than it has to.
    fn close_by(
        &mut self,
        alloc: Global,
        problem: &Problem,
        graph: &Graph,
        leaf: &Leaf,
        room: u64,
    ) -> Result<(), Memory>
        requires { graph.now.problem ≡ problem.now }
        ensures { self.new.plan ≡ self.old.plan }
    {
        let at = At {
            problem,
            fixings: self.fixings,
            graph,
            past: &self.course.past,
            room,
        };
        let reasons = Reasons::of_leaf(alloc, at, &mut self.course.tried, leaf)?;
        self.close(
            alloc,
            Closed {
                reasons,
                place: None,
            },
        )
    }

    /// Has the children of a choice be looked at next, with the one that is preferred in front. The
    /// graph is as before.
    fn branch(
        &mut self,
        alloc: Global,
        problem: &Problem,
        graph: &mut Graph,
        guide: &Guide,
        choice: Choice,
    ) -> Result<(), Memory>
        requires { graph.old.problem ≡ problem.now }
        ensures same { graph.new ≡ graph.old }
        ensures plan { self.new.plan ≡ self.old.plan }
    {
        let children = children(alloc, problem, choice)?;
        let orders = guide.orders();
        let first = preferred(problem, graph, self.target, orders, children.as_slice());
        let frame = Frame::new(alloc, self.course.past.len(), choice, children, first)?;
        self.course.frames.push(frame)?;
        Ok(())
    }

    /// Keeps the plan of the node of a graph, which is better than the one before.
    fn keep(&mut self, problem: &Problem, graph: &Graph, plan: Plan)
        requires { graph.now.problem ≡ problem.now }
        ensures { self.new.plan ≡ Some plan }
    {
        self.best = Some(cost(problem, graph));
        self.plan = Some(plan);
    }

    /// Notes how the node of a graph ends.
    fn end(
        &mut self,
        alloc: Global,
        problem: &Problem,
        reckoning: &Reckoning,
        graph: &Graph,
        known: &mut KnownShares,
    ) -> Result<(), Memory>
        requires node { graph.now.problem ≡ problem.now }
        requires reckons { ReckonsFor problem.now reckoning.now }
        requires known { HoldFor graph.now known.old }
        ensures known { HoldFor graph.now known.new }
        ensures plan { self.new.plan ≡ self.old.plan }
    {
        let shown = leaf_of(alloc, problem, reckoning, graph, known)?;
        let room = room_in(&shown, self.best);
        let leaf = leaf_in(shown);
        self.close_by(alloc, problem, graph, &leaf, room)
    }

    /// Keeps the plan at which the node of a graph ends, which is closed then.
    fn end_in(
        &mut self,
        alloc: Global,
        problem: &Problem,
        reckoning: &Reckoning,
        graph: &Graph,
        known: &mut KnownShares,
        plan: Plan,
    ) -> Result<(), Memory>
        requires node { graph.now.problem ≡ problem.now }
        requires reckons { ReckonsFor problem.now reckoning.now }
        requires known { HoldFor graph.now known.old }
        requires plan { IsFoundBeside graph.now plan }
        ensures known { HoldFor graph.now known.new }
        ensures plan { (root : Node) → IsBeside root graph.now
            → IfSome self.new.plan (IsFoundBeside root) }
    {
        self.keep(problem, graph, plan);
        self.end(alloc, problem, reckoning, graph, known)
    }

    /// Looks at the node of a graph: it branches there, or notes that it is closed. The graph is as
    /// before.
    pub(crate) fn look(
        &mut self,
        alloc: Global,
        problem: &Problem,
        reckoning: &Reckoning,
        graph: &mut Graph,
        known: &mut KnownShares,
        guide: &mut Guide,
    ) -> Result<(), Memory>
        requires node { graph.old.problem ≡ problem.now }
        requires reckons { ReckonsFor problem.now reckoning.now }
        requires known { HoldFor graph.old known.old }
        requires guide { GuidesIn problem.now guide.old }
        ensures same { graph.new ≡ graph.old }
        ensures known { HoldFor graph.new known.new }
        ensures guide { GuidesIn problem.now guide.new }
        ensures plan { (root : Node) → IsBeside root graph.old
            → IfSome self.old.plan (IsFoundBeside root) → IfSome self.new.plan (IsFoundBeside root) }
    {
        guide.prompt(self.learned.nogoods.prompts(alloc)?);
        let strategy = guide.strategy();
        match stage_of(
            alloc, problem, reckoning, graph, known, guide, strategy, self.best,
        )? {
            Stage::Branch(choice) => self.branch(alloc, problem, graph, guide, choice),
            Stage::End(End::Plan(plan)) => {
                self.end_in(alloc, problem, reckoning, graph, known, plan)
            }
            Stage::End(_) => self.end(alloc, problem, reckoning, graph, known),
        }
    }

    /// The decision to look at next, if one is left.
    pub(crate) fn next(&mut self) -> Option<Next>
        ensures { self.new.plan ≡ self.old.plan }
    {
        self.course.frames.last_mut()?.next()
    }

    /// Takes decisions back until so many are left.
    fn go_back(&mut self, depth: usize)
        ensures { self.new.plan ≡ self.old.plan }
    {
        for _ in depth..self.course.past.len() {
            if let Some(decision) = self.course.past.pop() {
                self.learned.nogoods.give_back(decision);
            }
        }
    }

    /// Takes a decision. Gives the node there as closed, where a nogood shows that it is.
    fn take(&mut self, alloc: Global, decision: Decision) -> Result<Option<Closed>, Memory>
        ensures { self.new.plan ≡ self.old.plan }
    {
        let place = self.course.past.len();
        self.course.past.push(decision)?;
        match self.learned.nogoods.take(alloc, decision, place)? {
            Some(Met { reasons, branch }) => Ok(Some(Closed {
                reasons,
                place: Some(branch),
            })),
            None => Ok(None),
        }
    }

    /// Moves a graph to a decision, and looks at the node there, unless a nogood shows that it is
    /// closed.
    pub(crate) fn step(
        &mut self,
        alloc: Global,
        problem: &Problem,
        reckoning: &Reckoning,
        graph: &mut Graph,
        known: &mut KnownShares,
        guide: &mut Guide,
        next: Next,
    ) -> Result<(), Memory>
        requires node { graph.old.problem ≡ problem.now }
        requires reckons { ReckonsFor problem.now reckoning.now }
        requires known { HoldFor graph.old known.old }
        requires guide { GuidesIn problem.now guide.old }
        ensures beside { IsBeside graph.old graph.new }
        ensures known { HoldFor graph.new known.new }
        ensures guide { GuidesIn problem.now guide.new }
        ensures plan { (root : Node) → IsBeside root graph.old
            → IfSome self.old.plan (IsFoundBeside root) → IfSome self.new.plan (IsFoundBeside root) }
    {
        self.go_back(next.depth);
        if let Some(closed) = self.take(alloc, next.decision)? {
            return self.close(alloc, closed);
        }
        let depth = self.base.saturating_add(next.depth);
        guide.begin_behind(depth);
        match go_to(graph, known, depth, next)? {
            Some(leaf) => self.close_by(alloc, problem, graph, &leaf, 0),
            None => self.look(alloc, problem, reckoning, graph, known, guide),
        }
    }
}
