ghost use Rattle.std.specs.Prelude.{◌↔◌, ◌≢◌, [], List, IsTrue, All};
ghost use Rattle.disp_model.specs.declared.fixing.Fixing.{Fixing};
ghost use Rattle.disp_model.specs.Node.{Node, node_at};
ghost use Rattle.disp_model.specs.Routes.{IsForced};
ghost use Rattle.node_facts.specs.Orders.{AreKnown};
ghost use Rattle.tree_checker.specs.Rules.{IsNamed, HasArcs, IsListRight};

use decision_paths::DecisionPath;
use disp_model::{Op, Problem};
use node_facts::{KnownTrains, has_arc, is_forced};

/// What is asked of each list of operations of a leaf.
#[derive(Clone, Copy)]
pub(crate) enum ListRule {
    /// Each operation is there.
    Named,
    /// It has an operation.
    NotEmpty,
    /// Each operation is forced.
    Forced,
    /// An arc leads from each operation to the next.
    Joined,
}

/// Whether an operation is there.
pub(crate) fn is_named(problem: &Problem, op: Op) -> bool
    ensures { IsTrue result ↔ IsNamed problem.now op }
{
    match problem.trains.as_slice().get(op.train as usize) {
        Some(operations) => (op.op as usize) < operations.as_slice().len(),
        None => false,
    }
}

/// Whether each operation is there.
fn are_named(problem: &Problem, walk: &[Op]) -> bool
    ensures { IsTrue result ↔ All (IsNamed problem.now) walk.now }
{
    walk.iter().all(|op| is_named(problem, *op))
}

/// Whether each operation is forced.
fn are_forced(trains: &KnownTrains, walk: &[Op]) -> bool
    ensures { (node : Node) → AreKnown node trains.now
        → IsTrue result ↔ All (IsForced node) walk.now }
{
    for op in walk {
        if !is_forced(trains, *op) {
            return false;
        }
    }
    true
}

/// Whether an arc leads from each operation to the next.
fn are_joined(
    problem: &Problem,
    trains: &KnownTrains,
    decisions: &DecisionPath,
    walk: &[Op],
) -> bool
    requires { (fixings : List Fixing)
        × AreKnown (node_at problem.now fixings decisions.now) trains.now }
    ensures { (fixings : List Fixing)
        → AreKnown (node_at problem.now fixings decisions.now) trains.now
        → IsTrue result ↔ HasArcs (node_at problem.now fixings decisions.now) walk.now }
{
    for place in 1..walk.len() {
        if !has_arc(problem, trains, decisions, walk[place - 1], walk[place]) {
            return false;
        }
    }
    true
}

/// Whether a list of operations is as a rule asks.
pub(crate) fn is_right(
    problem: &Problem,
    trains: &KnownTrains,
    decisions: &DecisionPath,
    rule: ListRule,
    walk: &[Op],
) -> bool
    requires { (fixings : List Fixing)
        × AreKnown (node_at problem.now fixings decisions.now) trains.now }
    ensures { (fixings : List Fixing)
        → AreKnown (node_at problem.now fixings decisions.now) trains.now
        → IsTrue result ↔ IsListRight (node_at problem.now fixings decisions.now) rule walk.now }
{
    match rule {
        ListRule::Named => are_named(problem, walk),
        ListRule::NotEmpty => walk.len() > 0,
        ListRule::Forced => are_forced(trains, walk),
        ListRule::Joined => are_joined(problem, trains, decisions, walk),
    }
}
