ghost use Rattle.std.specs.Prelude.{◌↔◌, List, IfOk, IsTrue, All};
ghost use Rattle.disp_model.specs.declared.fixing.Fixing.{Fixing};
ghost use Rattle.disp_model.specs.declared.tree.TrainWalks.{TrainWalks};
ghost use Rattle.disp_model.specs.Node.{node_at};
ghost use Rattle.disp_model.specs.Shares.{AreOfOthers};
ghost use Rattle.node_facts.specs.Orders.{AreKnown};
ghost use Rattle.tree_checker.specs.Rules.{EndsRight, EndsOn, EndOnTrain, IsOfOtherTrain, IsJoinedBack, IsLeafClosed, IsLateIfSaid};
ghost use Rattle.tree_checker.specs.Seen.{AreListedTrains};

use crate::distinct::listed_in;
use decision_paths::DecisionPath;
use disp_model::{ComponentWalk, Leaf, Memory, Op, Problem, TrainWalks};
use node_facts::{FixingIndex, KnownTrains, end_of, ends_in, has_arc, is_late};
use std::alloc::Global;
use std::collections::BTreeSet;

/// Whether a walk ends in the operation of its component, where that is there.
fn ends_right(problem: &Problem, listed: &ComponentWalk) -> bool
    ensures { IsTrue result ↔ EndsRight problem.now listed.now }
{
    match problem.components.as_slice().get(listed.component as usize) {
        Some(component) => ends_in(listed.walk.as_slice(), component),
        None => true,
    }
}

/// Whether walks end in the operations of their components.
pub(crate) fn end_right(problem: &Problem, walks: &[ComponentWalk]) -> bool
    ensures { IsTrue result ↔ All (EndsRight problem.now) walks.now }
{
    walks.iter().all(|listed| ends_right(problem, listed))
}

/// Whether a walk ends in an operation of a train.
fn ends_on(walk: &[Op], train: u32) -> bool
    ensures { IsTrue result ↔ EndsOn train walk.now }
{
    match end_of(walk) {
        Some(end) => end.train == train,
        None => true,
    }
}

/// Whether the walks of a listed train end in operations of it.
fn all_end_on(listed: &TrainWalks) -> bool
    ensures { IsTrue result ↔ All (EndsOn listed.now.train) listed.now.walks }
{
    let train = listed.train;
    listed
        .walks
        .as_slice()
        .iter()
        .all(|walk| ends_on(walk.as_slice(), train))
}

/// Whether the walks of listed trains end in operations of them.
pub(crate) fn end_on_train(trains: &[TrainWalks]) -> bool
    ensures { IsTrue result ↔ EndOnTrain trains.now }
{
    trains.iter().all(|listed| all_end_on(listed))
}

/// Whether the component of a walk, where it is there, is of no listed train, by the numbers of
/// those.
fn is_of_other(problem: &Problem, walk: &ComponentWalk, numbers: &BTreeSet<u32>) -> bool
    ensures { (trains : List TrainWalks) → AreListedTrains trains numbers.now.keys
        → IsTrue result ↔ IsOfOtherTrain problem.now trains walk.now }
{
    match problem.components.as_slice().get(walk.component as usize) {
        Some(component) => !numbers.contains(&component.train),
        None => true,
    }
}

/// Whether the component of each walk is of no listed train, by the numbers of those.
fn each_of_other(problem: &Problem, walks: &[ComponentWalk], numbers: &BTreeSet<u32>) -> bool
    ensures { (trains : List TrainWalks) → AreListedTrains trains numbers.now.keys
        → IsTrue result ↔ All (IsOfOtherTrain problem.now trains) walks.now }
{
    for walk in walks {
        if !is_of_other(problem, walk, numbers) {
            return false;
        }
    }
    true
}

/// Whether walks are to components of trains that are not listed.
pub(crate) fn are_of_others(
    alloc: Global,
    problem: &Problem,
    walks: &[ComponentWalk],
    trains: &[TrainWalks],
) -> Result<bool, Memory>
    ensures { IfOk result (λ others. IsTrue others
        ↔ AreOfOthers problem.now walks.now trains.now) }
{
    let numbers = listed_in(alloc, trains)?;
    Ok(each_of_other(problem, walks, &numbers))
}

/// Whether an arc leads from the last of the operations to the first, if there are any.
fn is_joined_back(
    problem: &Problem,
    trains: &KnownTrains,
    decisions: &DecisionPath,
    nodes: &[Op],
) -> bool
    requires { (fixings : List Fixing)
        × AreKnown (node_at problem.now fixings decisions.now) trains.now }
    ensures { (fixings : List Fixing)
        → AreKnown (node_at problem.now fixings decisions.now) trains.now
        → IsTrue result ↔ IsJoinedBack (node_at problem.now fixings decisions.now) nodes.now }
{
    let Some(first) = nodes.get(0) else {
        return true;
    };
    match end_of(nodes) {
        Some(last) => has_arc(problem, trains, decisions, last, *first),
        None => true,
    }
}

/// Whether the operations of a cycle are joined back to the first.
pub(crate) fn is_closed(
    problem: &Problem,
    trains: &KnownTrains,
    decisions: &DecisionPath,
    leaf: &Leaf,
) -> bool
    requires { (fixings : List Fixing)
        × AreKnown (node_at problem.now fixings decisions.now) trains.now }
    ensures { (fixings : List Fixing)
        → AreKnown (node_at problem.now fixings decisions.now) trains.now
        → IsTrue result ↔ IsLeafClosed (node_at problem.now fixings decisions.now) leaf.now }
{
    match leaf {
        Leaf::NoRoute => true,
        Leaf::Cycle(nodes) => is_joined_back(problem, trains, decisions, nodes.as_slice()),
        Leaf::Late(_) => true,
        Leaf::Costs(_) => true,
        Leaf::Shares { .. } => true,
    }
}

/// Whether a walk that is to be late is.
pub(crate) fn is_late_if_said(
    problem: &Problem,
    fixings: &FixingIndex,
    decisions: &DecisionPath,
    trains: &KnownTrains,
    leaf: &Leaf,
) -> bool
    requires { AreKnown (node_at problem.now fixings.now decisions.now) trains.now }
    ensures { IsTrue result
        ↔ IsLateIfSaid (node_at problem.now fixings.now decisions.now) leaf.now }
{
    match leaf {
        Leaf::NoRoute => true,
        Leaf::Cycle(_) => true,
        Leaf::Late(walk) => is_late(problem, fixings, decisions, trains, walk.as_slice()),
        Leaf::Costs(_) => true,
        Leaf::Shares { .. } => true,
    }
}
