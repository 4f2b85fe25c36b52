ghost use Rattle.std.specs.Prelude.{◌≡◌, None as NoPlan, IfOk, IfSome};
ghost use Rattle.disp_model.specs.declared.settings.Rule.TheVariants.{Free};
ghost use Rattle.disp_model.specs.Node.{Node};
ghost use Rattle.free_choices.specs.Picks.{IsPickBy};
ghost use Rattle.near_plans.specs.Plans.{IsBeside, IsFoundBeside};

use branch_rules::{Pick, children};
use cost_bound::cost;
use disp_model::{Choice, Decision, Memory, Plan, Problem};
use event_graph::{ExtendNo, Graph};
use free_choices::{Adviser, Orders, Strategy, pick_free, seen_open};
use std::alloc::Global;
use train_insertion::Target;
use tree_dives::{preferred, rewind};

/// By what is gone down: the target that is followed, and what the choices are taken by.
#[derive(Clone, Copy)]
pub(crate) struct Aim<'a> {
    pub problem: &'a Problem,
    pub target: &'a Target,
    pub strategy: Strategy,
}

/// What is looked for below a node.
#[derive(Clone, Copy)]
pub(crate) struct Wanted {
    /// What plans are to cost less than.
    below: u64,
    /// At how many nodes is looked at most.
    nodes: u32,
    /// Whether one plan is enough.
    one: bool,
}

impl Wanted {
    /// Any plan, in so many nodes.
    pub(crate) fn any(nodes: u32) -> Wanted {
        Wanted {
            below: u64::MAX,
            nodes,
            one: true,
        }
    }

    /// The cheapest plan that is found in so many nodes, if it costs less than this.
    pub(crate) fn cheaper(below: u64, nodes: u32) -> Wanted {
        Wanted {
            below,
            nodes,
            one: false,
        }
    }
}

/// A decision that is to be looked at, below so many others.
#[derive(Clone, Copy)]
struct Waiting {
    depth: usize,
    decision: Decision,
}

/// What a look at the nodes below one comes to.
#[derive(Drop)]
pub(crate) struct Outlook {
    waiting: Vec<Waiting>,
    /// The cheapest plan that was found.
    pub plan: Option<Plan>,
    /// Its cost, or what plans were to cost less than where none was found.
    pub below: u64,
    /// At how many nodes it looked.
    pub nodes: u32,
    /// Whether it looked at all that may have such a plan.
    pub whole: bool,
}

/// Moves a graph to a decision below so many of those where it is. Says whether it is not refused.
fn go_to(graph: &mut Graph, waiting: Waiting) -> Result<bool, Memory>
    ensures { IsBeside graph.old graph.new }
{
    let depth = waiting.depth.min(graph.decisions().len());
    rewind(graph, depth);
    match graph.extend(waiting.decision) {
        Ok(()) => Ok(true),
        Err(ExtendNo::Memory) => Err(Memory),
        Err(_) => Ok(false),
    }
}

/// What is picked at the node of a graph, where that is not dead and costs less than this. The
/// graph is as before.
fn picked(
    alloc: Global,
    aim: Aim,
    graph: &mut Graph,
    adviser: &mut Adviser,
    below: u64,
) -> Result<Option<Pick>, Memory>
    requires { graph.old.problem ≡ aim.problem.now }
    ensures same { graph.new ≡ graph.old }
    ensures picked { IfOk result (λ found. IfSome found (IsPickBy Free graph.old)) }
{
    let None = graph.late() else {
        return Ok(None);
    };
    let cost = cost(aim.problem, graph);
    if cost >= below {
        return Ok(None);
    }
    let room = below - cost;
    let pick = pick_free(alloc, aim.problem, graph, adviser, aim.strategy, room)?;
    Ok(Some(pick))
}

/// Has a decision wait, unless an adviser has seen that it leaves no plan that is wanted.
fn put(
    waiting: &mut Vec<Waiting>,
    orders: Option<Orders>,
    depth: usize,
    decision: Decision,
) -> Result<(), Memory> {
    if seen_open(orders, decision) == Some(false) {
        return Ok(());
    }
    waiting.push(Waiting { depth, decision })?;
    Ok(())
}

/// Has all but one of some decisions wait, and then that one.
fn put_all(
    waiting: &mut Vec<Waiting>,
    orders: Option<Orders>,
    depth: usize,
    decisions: &[Decision],
    last: usize,
) -> Result<(), Memory> {
    for (place, decision) in decisions.iter().enumerate() {
        if place != last {
            put(waiting, orders, depth, *decision)?;
        }
    }
    match decisions.get(last) {
        Some(decision) => put(waiting, orders, depth, *decision),
        None => Ok(()),
    }
}

/// Has the children of a choice wait that are not seen to be closed, with the one that is preferred
/// in front. The graph is as before.
fn put_children(
    alloc: Global,
    aim: Aim,
    graph: &mut Graph,
    choice: Choice,
    orders: Option<Orders>,
    waiting: &mut Vec<Waiting>,
) -> Result<(), Memory>
    requires { graph.old.problem ≡ aim.problem.now }
    ensures { graph.new ≡ graph.old }
{
    let children = children(alloc, aim.problem, choice)?;
    let first = preferred(aim.problem, graph, aim.target, orders, children.as_slice());
    let depth = graph.decisions().len();
    put_all(waiting, orders, depth, children.as_slice(), first)
}

impl Outlook {
    /// Nothing looked at yet, for plans that cost less than this.
    fn new(alloc: Global, below: u64) -> Outlook
        ensures { result.plan ≡ NoPlan }
    {
        Outlook {
            waiting: Vec::new(alloc),
            plan: None,
            below,
            nodes: 0,
            whole: false,
        }
    }

    /// Looks at the node of a graph: keeps its plan, where it has one that is cheaper; else its
    /// children wait, where such plans may be below them. The graph is as before.
    fn see(
        &mut self,
        alloc: Global,
        aim: Aim,
        graph: &mut Graph,
        adviser: &mut Adviser,
    ) -> Result<(), Memory>
        requires { graph.old.problem ≡ aim.problem.now }
        ensures same { graph.new ≡ graph.old }
        ensures plan { (root : Node) → IsBeside root graph.old
            → IfSome self.old.plan (IsFoundBeside root) → IfSome self.new.plan (IsFoundBeside root) }
    {
        self.nodes = self.nodes.saturating_add(1);
        match picked(alloc, aim, graph, adviser, self.below)? {
            None => Ok(()),
            Some(Pick::Plan(plan)) => {
                self.below = cost(aim.problem, graph);
                self.plan = Some(plan);
                Ok(())
            }
            Some(Pick::Choice(choice)) => {
                let orders = adviser.orders();
                put_children(alloc, aim, graph, choice, orders, &mut self.waiting)
            }
        }
    }

    /// Moves a graph to a decision, and looks at the node there.
    fn step(
        &mut self,
        alloc: Global,
        aim: Aim,
        graph: &mut Graph,
        adviser: &mut Adviser,
        next: Waiting,
    ) -> Result<(), Memory>
        requires { graph.old.problem ≡ aim.problem.now }
        ensures beside { IsBeside graph.old graph.new }
        ensures plan { (root : Node) → IsBeside root graph.old
            → IfSome self.old.plan (IsFoundBeside root) → IfSome self.new.plan (IsFoundBeside root) }
    {
        adviser.lose_behind(next.depth);
        if !go_to(graph, next)? {
            return Ok(());
        }
        self.see(alloc, aim, graph, adviser)
    }

    /// The decision to look at next, where something is still wanted.
    fn next(&mut self, one: bool) -> Option<Waiting>
        ensures { self.new.plan ≡ self.old.plan }
    {
        if one && self.plan.is_some() {
            return None;
        }
        let next = self.waiting.pop();
        self.whole = next.is_none();
        next
    }
}

/// Looks at the nodes below that of a graph in depth. A plan that it comes to is valid where the
/// graph was; nothing is claimed of how good it is.
pub(crate) fn look_below(
    alloc: Global,
    aim: Aim,
    graph: &mut Graph,
    adviser: &mut Adviser,
    wanted: Wanted,
) -> Result<Outlook, Memory>
    requires { graph.old.problem ≡ aim.problem.now }
    ensures beside { IsBeside graph.old graph.new }
    ensures plan { IfOk result (λ outlook. IfSome outlook.plan (IsFoundBeside graph.old)) }
{
    adviser.lose();
    let mut outlook = Outlook::new(alloc, wanted.below);
    outlook.see(alloc, aim, graph, adviser)?;
    for _ in 1..wanted.nodes {
        let Some(next) = outlook.next(wanted.one) else {
            return Ok(outlook);
        };
        outlook.step(alloc, aim, graph, adviser, next)?;
    }
    Ok(outlook)
}
