ghost use Rattle.std.specs.Prelude.{◌↔◌, List, IsTrue, All};
ghost use Rattle.disp_model.specs.declared.fixing.Fixing.{Fixing};
ghost use Rattle.disp_model.specs.Node.{node_at};
ghost use Rattle.node_facts.specs.Orders.{AreKnown};
ghost use Rattle.tree_checker.specs.Rules.{own_lists, IsListRight, AreRight};

use crate::leaf::{component_walks, listed_trains};
use crate::lists::{ListRule, is_right};
use decision_paths::DecisionPath;
use disp_model::{ComponentWalk, Leaf, List, Op, Problem, TrainWalks};
use node_facts::KnownTrains;

/// Whether the list of a cycle or of a late walk is as a rule asks.
fn own_is_right(
    problem: &Problem,
    trains: &KnownTrains,
    decisions: &DecisionPath,
    rule: ListRule,
    leaf: &Leaf,
) -> bool
    requires { (fixings : List Fixing)
        × AreKnown (node_at problem.now fixings decisions.now) trains.now }
    ensures { (fixings : List Fixing)
        → AreKnown (node_at problem.now fixings decisions.now) trains.now
        → IsTrue result ↔ All (IsListRight (node_at problem.now fixings decisions.now) rule)
        (own_lists leaf.now) }
{
    match leaf {
        Leaf::NoRoute => true,
        Leaf::Cycle(nodes) => is_right(problem, trains, decisions, rule, nodes.as_slice()),
        Leaf::Late(walk) => is_right(problem, trains, decisions, rule, walk.as_slice()),
        Leaf::Costs(_) => true,
        Leaf::Shares { .. } => true,
    }
}

/// Whether walks to components are as a rule asks.
fn components_are_right(
    problem: &Problem,
    trains: &KnownTrains,
    decisions: &DecisionPath,
    rule: ListRule,
    walks: &[ComponentWalk],
) -> bool
    requires { (fixings : List Fixing)
        × AreKnown (node_at problem.now fixings decisions.now) trains.now }
    ensures { (fixings : List Fixing)
        → AreKnown (node_at problem.now fixings decisions.now) trains.now → IsTrue result
        ↔ All (λ w. IsListRight (node_at problem.now fixings decisions.now) rule w.walk) walks.now }
{
    for listed in walks {
        if !is_right(problem, trains, decisions, rule, listed.walk.as_slice()) {
            return false;
        }
    }
    true
}

/// Whether lists of operations are as a rule asks.
fn lists_are_right(
    problem: &Problem,
    trains: &KnownTrains,
    decisions: &DecisionPath,
    rule: ListRule,
    walks: &[List<Op>],
) -> bool
    requires { (fixings : List Fixing)
        × AreKnown (node_at problem.now fixings decisions.now) trains.now }
    ensures { (fixings : List Fixing)
        → AreKnown (node_at problem.now fixings decisions.now) trains.now → IsTrue result
        ↔ All (IsListRight (node_at problem.now fixings decisions.now) rule) walks.now }
{
    for walk in walks {
        if !is_right(problem, trains, decisions, rule, walk.as_slice()) {
            return false;
        }
    }
    true
}

/// Whether the lists of operations of listed trains are as a rule asks.
fn trains_are_right(
    problem: &Problem,
    trains: &KnownTrains,
    decisions: &DecisionPath,
    rule: ListRule,
    shown: &[TrainWalks],
) -> bool
    requires { (fixings : List Fixing)
        × AreKnown (node_at problem.now fixings decisions.now) trains.now }
    ensures { (fixings : List Fixing)
        → AreKnown (node_at problem.now fixings decisions.now) trains.now → IsTrue result
        ↔ All (λ listed. All (IsListRight (node_at problem.now fixings decisions.now) rule)
        listed.walks)
        shown.now }
{
    for listed in shown {
        if !lists_are_right(problem, trains, decisions, rule, listed.walks.as_slice()) {
            return false;
        }
    }
    true
}

/// Whether each list of operations of a leaf is as a rule asks.
pub(crate) fn are_right(
    problem: &Problem,
    trains: &KnownTrains,
    decisions: &DecisionPath,
    rule: ListRule,
    leaf: &Leaf,
) -> bool
    requires { (fixings : List Fixing)
        × AreKnown (node_at problem.now fixings decisions.now) trains.now }
    ensures { (fixings : List Fixing)
        → AreKnown (node_at problem.now fixings decisions.now) trains.now
        → IsTrue result ↔ AreRight (node_at problem.now fixings decisions.now) rule leaf.now }
{
    if !own_is_right(problem, trains, decisions, rule, leaf) {
        return false;
    }
    if !components_are_right(problem, trains, decisions, rule, component_walks(leaf)) {
        return false;
    }
    trains_are_right(problem, trains, decisions, rule, listed_trains(leaf))
}
