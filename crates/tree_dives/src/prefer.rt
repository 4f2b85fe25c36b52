ghost use Rattle.std.specs.Prelude.{◌≡◌, ◌<◌, ◌≤◌, length, IfSome};

use cost_bound::cost;
use disp_model::{Decision, Problem};
use event_graph::Graph;
use free_choices::{Orders, seen_open};
use train_insertion::Target;

/// A dive of no more branches than this is to raise the bound.
const FEW: u32 = 31;

/// To which child of a node a dive goes.
#[derive(Clone, Copy)]
pub(crate) enum Way {
    /// To the one that is preferred.
    Preferred,
    /// To the one that is preferred, or to another where that one is closed by this best cost.
    Open(Option<u64>),
}

impl Way {
    /// How a dive of so many branches goes below this best cost. One that is to find a plan goes to
    /// open children, since another dive would soon begin there. One that is to raise the bound
    /// rather ends, so that the next one begins at a leaf of the least bound.
    pub(crate) fn of(allowance: u32, best: Option<u64>) -> Way {
        if allowance > FEW {
            Way::Open(best)
        } else {
            Way::Preferred
        }
    }
}

/// What the child costs to which a decision leads, where it is not dead. The graph is as before.
fn child_cost(problem: &Problem, graph: &mut Graph, decision: Decision) -> Option<u64>
    requires { graph.old.problem ≡ problem.now }
    ensures { graph.new ≡ graph.old }
{
    if graph.extend(decision).is_err() {
        return None;
    }
    let cost = match graph.late() {
        Some(_) => None,
        None => Some(cost(problem, graph)),
    };
    graph.undo();
    cost
}

/// Whether a target decides so. Where it has not both operations of an order, or they start at one
/// time, it decides neither way.
fn is_aimed_at(target: &Target, decision: Decision) -> bool {
    match decision {
        Decision::Go { op, next } => target.next_of(op) == Some(next),
        Decision::First { a, b } => match (target.start_of(a), target.start_of(b)) {
            (Some(first), Some(second)) => first < second,
            _ => false,
        },
        Decision::Run(op) => target.start_of(op).is_some(),
        Decision::Skip(op) => target.start_of(op).is_none(),
    }
}

/// The place of the first child that a target takes.
fn aimed(target: &Target, children: &[Decision]) -> Option<usize>
    ensures { IfSome result (λ place. place < length children.now) }
{
    for (place, decision) in children.iter().enumerate() {
        if is_aimed_at(target, *decision) {
            return Some(place);
        }
    }
    None
}

/// The place of the child that takes the cheaper one of two orders.
fn cheaper(orders: Option<Orders>, children: &[Decision]) -> Option<usize>
    ensures { IfSome result (λ place. place < length children.now) }
{
    let orders = orders?;
    for (place, decision) in children.iter().enumerate() {
        if orders.is_cheaper(*decision) {
            return Some(place);
        }
    }
    None
}

/// The place of the child that costs least among those that are not dead, the first one of several,
/// or 0. No child costs less than the node itself, so none is tried behind one that costs no more.
/// The graph is as before.
fn cheapest(problem: &Problem, graph: &mut Graph, children: &[Decision]) -> usize
    requires { graph.old.problem ≡ problem.now }
    ensures same { graph.new ≡ graph.old }
    ensures within { result ≤ length children.now }
    ensures there { 0 < length children.now → result < length children.now }
{
    let floor = cost(problem, graph);
    let mut found = 0;
    let mut least = None;
    for (place, decision) in children.iter().enumerate() {
        if let Some(cost) = child_cost(problem, graph, *decision) {
            if cost == floor {
                return place;
            }
            if least.is_none_or(|least| cost < least) {
                least = Some(cost);
                found = place;
            }
        }
    }
    found
}

/// The place of the child that a target takes. Where it takes none, that of the child that takes
/// the cheaper one of the orders that an adviser named; where none does, that of the child that
/// costs least among those that are not dead, the first one of several, or 0. The graph is as
/// before.
pub fn preferred(
    problem: &Problem,
    graph: &mut Graph,
    target: &Target,
    orders: Option<Orders>,
    children: &[Decision],
) -> usize
    requires { graph.old.problem ≡ problem.now }
    ensures same { graph.new ≡ graph.old }
    ensures within { result ≤ length children.now }
    ensures there { 0 < length children.now → result < length children.now }
{
    if let Some(place) = aimed(target, children) {
        return place;
    }
    if let Some(place) = cheaper(orders, children) {
        return place;
    }
    cheapest(problem, graph, children)
}

/// Whether the child to which a decision leads is seen to be open, by an adviser or by a look: it
/// is not dead, and its forced components cost less than the best. The graph is as before.
fn is_open(
    problem: &Problem,
    graph: &mut Graph,
    orders: Option<Orders>,
    decision: Decision,
    best: Option<u64>,
) -> bool
    requires { graph.old.problem ≡ problem.now }
    ensures { graph.new ≡ graph.old }
{
    if let Some(open) = seen_open(orders, decision) {
        return open;
    }
    match child_cost(problem, graph, decision) {
        Some(cost) => best.is_none_or(|best| cost < best),
        None => false,
    }
}

/// The place of a child, or of the first other one that is open where it is closed and such a one
/// is there. The graph is as before.
fn open_one(
    problem: &Problem,
    graph: &mut Graph,
    orders: Option<Orders>,
    children: &[Decision],
    place: usize,
    best: Option<u64>,
) -> usize
    requires problem { graph.old.problem ≡ problem.now }
    requires within { place ≤ length children.now }
    ensures same { graph.new ≡ graph.old }
    ensures within { result ≤ length children.now }
    ensures there { place < length children.now → result < length children.now }
{
    let Some(decision) = children.get(place) else {
        return place;
    };
    if is_open(problem, graph, orders, *decision, best) {
        return place;
    }
    for (other, decision) in children.iter().enumerate() {
        if other != place && is_open(problem, graph, orders, *decision, best) {
            return other;
        }
    }
    place
}

/// The place of the child to which a dive goes. The graph is as before.
pub(crate) fn followed(
    problem: &Problem,
    graph: &mut Graph,
    target: &Target,
    orders: Option<Orders>,
    children: &[Decision],
    way: Way,
) -> usize
    requires { graph.old.problem ≡ problem.now }
    ensures same { graph.new ≡ graph.old }
    ensures within { result ≤ length children.now }
    ensures there { 0 < length children.now → result < length children.now }
{
    let place = preferred(problem, graph, target, orders, children);
    match way {
        Way::Preferred => place,
        Way::Open(best) => open_one(problem, graph, orders, children, place, best),
    }
}
