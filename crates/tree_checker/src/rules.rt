ghost use Rattle.std.specs.Prelude.{◌≡◌, ◌↔◌, List, IfOk, IsTrue};
ghost use Rattle.disp_model.specs.declared.fixing.Fixing.{Fixing};
ghost use Rattle.disp_model.specs.Node.{node_at};
ghost use Rattle.disp_model.specs.Shares.{AreOfOthers};
ghost use Rattle.node_facts.specs.Orders.{AreKnown};
ghost use Rattle.tree_checker.specs.declared.lists.ListRule.TheVariants.{Joined};
ghost use Rattle.tree_checker.specs.Rules.{rule_at, AreRight, IsLeafClosed, EndOnTrain, KeepsListRule};
ghost use Rattle.tree_checker.specs.KnownNodes.{node_here};

use crate::distinct::{have_distinct, have_distinct_trains};
use crate::ends::{are_of_others, end_on_train, end_right, is_closed, is_late_if_said};
use crate::known::KnownNode;
use crate::leaf::{component_walks, has_verdict, is_long_cycle, listed_trains, says_more};
use crate::lists::ListRule;
use crate::names::has_names;
use crate::rights::are_right;
use crate::why::Why;
use decision_paths::DecisionPath;
use disp_model::{ComponentWalk, Leaf, Memory, Problem, TrainWalks, Verdict};
use node_facts::KnownTrains;
use std::alloc::Global;

/// The rule of a place in the order in which they are asked; of costs none speaks.
pub(crate) fn rule_at(place: usize) -> Why
    ensures { result ≡ rule_at place }
{
    match place {
        0 => Why::BadName,
        1 => Why::BadChoice,
        2 => Why::HasRoute,
        3 => Why::NotCycle,
        4 => Why::EmptyWalk,
        5 => Why::NotForced,
        6 => Why::BadArc,
        7 => Why::NotLate,
        8 => Why::RepeatedComponent,
        9 => Why::RepeatedTrain,
        10 => Why::WrongTrain,
        11 => Why::WrongEnd,
        _ => Why::NoVerdict,
    }
}

/// Whether an arc leads from each operation of each list to the next, and a cycle is closed.
fn has_arcs(problem: &Problem, trains: &KnownTrains, decisions: &DecisionPath, leaf: &Leaf) -> bool
    requires { (fixings : List Fixing)
        × AreKnown (node_at problem.now fixings decisions.now) trains.now }
    ensures { (fixings : List Fixing)
        → AreKnown (node_at problem.now fixings decisions.now) trains.now → IsTrue result
        ↔ (AreRight (node_at problem.now fixings decisions.now) Joined leaf.now
        × IsLeafClosed (node_at problem.now fixings decisions.now) leaf.now) }
{
    are_right(problem, trains, decisions, ListRule::Joined, leaf)
        && is_closed(problem, trains, decisions, leaf)
}

/// Whether walks are to components of trains that are not listed, and those of listed trains end
/// on them.
fn are_on_trains(
    alloc: Global,
    problem: &Problem,
    walks: &[ComponentWalk],
    listed: &[TrainWalks],
) -> Result<bool, Memory>
    ensures { IfOk result (λ right. IsTrue right
        ↔ (AreOfOthers problem.now walks.now listed.now × EndOnTrain listed.now)) }
{
    let others = are_of_others(alloc, problem, walks, listed)?;
    Ok(others && end_on_train(listed))
}

/// Whether a leaf keeps a rule.
pub(crate) fn keeps(
    alloc: Global,
    here: KnownNode,
    verdict: Verdict,
    leaf: &Leaf,
    rule: Why,
) -> Result<bool, Memory>
    requires { AreKnown (node_here here) here.trains.now }
    ensures { IfOk result (λ kept. IsTrue kept
        ↔ KeepsListRule (node_here here.entry) verdict leaf.now rule) }
{
    let walks = component_walks(leaf);
    let listed = listed_trains(leaf);
    match rule {
        Why::BadName => Ok(has_names(here.problem, here.trains, here.decisions, leaf)),
        Why::BadChoice => Ok(true),
        Why::HasRoute => Ok(says_more(leaf)),
        Why::NotCycle => Ok(is_long_cycle(leaf)),
        Why::EmptyWalk => Ok(are_right(
            here.problem,
            here.trains,
            here.decisions,
            ListRule::NotEmpty,
            leaf,
        )),
        Why::NotForced => Ok(are_right(
            here.problem,
            here.trains,
            here.decisions,
            ListRule::Forced,
            leaf,
        )),
        Why::BadArc => Ok(has_arcs(here.problem, here.trains, here.decisions, leaf)),
        Why::NotLate => Ok(is_late_if_said(
            here.problem,
            here.fixings,
            here.decisions,
            here.trains,
            leaf,
        )),
        Why::RepeatedComponent => have_distinct(alloc, walks),
        Why::RepeatedTrain => have_distinct_trains(alloc, listed),
        Why::WrongTrain => are_on_trains(alloc, here.problem, walks, listed),
        Why::WrongEnd => Ok(end_right(here.problem, walks)),
        Why::NoVerdict => Ok(has_verdict(verdict, leaf)),
        Why::BelowCost { .. } => Ok(true),
    }
}
