ghost use Rattle.std.specs.Prelude.{◌↔◌, ◌<◌, List, IsTrue, All, length};
ghost use Rattle.disp_model.specs.declared.fixing.Fixing.{Fixing};
ghost use Rattle.disp_model.specs.Node.{node_at};
ghost use Rattle.node_facts.specs.Orders.{AreKnown};
ghost use Rattle.tree_checker.specs.Rules.{AreNamed, HasNames};

use crate::leaf::{component_walks, listed_trains};
use crate::lists::{ListRule, is_named};
use crate::rights::are_right;
use decision_paths::DecisionPath;
use disp_model::{Choice, ComponentWalk, Leaf, Problem, TrainWalks};
use node_facts::KnownTrains;

/// Whether the operations of a choice are there.
pub(crate) fn are_named(problem: &Problem, choice: Choice) -> bool
    ensures { IsTrue result ↔ AreNamed problem.now choice }
{
    match choice {
        Choice::Route(op) => is_named(problem, op),
        Choice::Order(a, b) => is_named(problem, a) && is_named(problem, b),
        Choice::Run(op) => is_named(problem, op),
    }
}

/// Whether each walk is to a component that is there.
fn have_components(problem: &Problem, walks: &[ComponentWalk]) -> bool
    ensures { IsTrue result
        ↔ All (λ w. w.component < length problem.now.components) walks.now }
{
    let count = problem.components.as_slice().len();
    walks.iter().all(|walk| (walk.component as usize) < count)
}

/// Whether each listed train is there.
fn have_trains(problem: &Problem, listed: &[TrainWalks]) -> bool
    ensures { IsTrue result ↔ All (λ t. t.train < length problem.now.trains) listed.now }
{
    let count = problem.trains.as_slice().len();
    listed.iter().all(|train| (train.train as usize) < count)
}

/// Whether each name of a leaf names something.
pub(crate) fn has_names(
    problem: &Problem,
    trains: &KnownTrains,
    decisions: &DecisionPath,
    leaf: &Leaf,
) -> bool
    requires { (fixings : List Fixing)
        × AreKnown (node_at problem.now fixings decisions.now) trains.now }
    ensures { (fixings : List Fixing)
        → AreKnown (node_at problem.now fixings decisions.now) trains.now
        → IsTrue result ↔ HasNames (node_at problem.now fixings decisions.now) leaf.now }
{
    if !are_right(problem, trains, decisions, ListRule::Named, leaf) {
        return false;
    }
    if !have_components(problem, component_walks(leaf)) {
        return false;
    }
    have_trains(problem, listed_trains(leaf))
}
