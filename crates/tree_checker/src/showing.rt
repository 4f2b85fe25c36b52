ghost use Rattle.std.specs.Prelude.{◌↔◌, IfOk, IsTrue};
ghost use Rattle.disp_model.specs.Trees.{SharesEnough, ShareVerdict, Shows};
ghost use Rattle.node_facts.specs.Orders.{AreKnown};
ghost use Rattle.problem_facts.specs.Components.{AreOwnOf};
ghost use Rattle.tree_checker.specs.KnownNodes.{node_here};

use crate::bound::bound_of;
use crate::costs::reach_verdict;
use crate::distinct::{have_distinct, have_distinct_trains};
use crate::ends::are_of_others;
use crate::known::KnownNode;
use disp_model::{ComponentWalk, Leaf, Memory, TrainWalks, Verdict};
use node_facts::{is_cycle, is_late};
use std::alloc::Global;

/// Whether walks to distinct components and the shares of other trains, each listed once, cost
/// together as much as a cost.
fn shares_enough(
    alloc: Global,
    here: KnownNode,
    walks: &[ComponentWalk],
    listed: &[TrainWalks],
    cost: u64,
) -> Result<bool, Memory>
    requires known { AreKnown (node_here here) here.trains.now }
    requires own { AreOwnOf here.problem.now here.own.now }
    ensures { IfOk result (λ enough. IsTrue enough ↔ SharesEnough
        (node_here here.entry) walks.now listed.now cost) }
{
    if !have_distinct(alloc, walks)? {
        return Ok(false);
    }
    if !have_distinct_trains(alloc, listed)? {
        return Ok(false);
    }
    if !are_of_others(alloc, here.problem, walks, listed)? {
        return Ok(false);
    }
    match bound_of(alloc, here, walks, listed)? {
        Some(bound) => Ok(u128::from(cost) <= bound),
        None => Ok(false),
    }
}

/// Whether walks and shares show that no valid plan costs less than a verdict says.
fn share_verdict(
    alloc: Global,
    here: KnownNode,
    verdict: Verdict,
    walks: &[ComponentWalk],
    listed: &[TrainWalks],
) -> Result<bool, Memory>
    requires known { AreKnown (node_here here) here.trains.now }
    requires own { AreOwnOf here.problem.now here.own.now }
    ensures { IfOk result (λ shown. IsTrue shown ↔ ShareVerdict
        (node_here here.entry) verdict walks.now listed.now) }
{
    match verdict {
        Verdict::Optimal(cost) => shares_enough(alloc, here, walks, listed, cost),
        Verdict::Infeasible => Ok(false),
    }
}

/// Whether what a leaf lists shows that its place needs no branch.
pub(crate) fn shows(
    alloc: Global,
    here: KnownNode,
    verdict: Verdict,
    leaf: &Leaf,
) -> Result<bool, Memory>
    requires known { AreKnown (node_here here) here.trains.now }
    requires own { AreOwnOf here.problem.now here.own.now }
    ensures { IfOk result (λ shown. IsTrue shown
        ↔ Shows (node_here here.entry) verdict leaf.now) }
{
    match leaf {
        Leaf::NoRoute => Ok(false),
        Leaf::Cycle(nodes) => Ok(is_cycle(
            here.problem,
            here.trains,
            here.decisions,
            nodes.as_slice(),
        )),
        Leaf::Late(walk) => Ok(is_late(
            here.problem,
            here.fixings,
            here.decisions,
            here.trains,
            walk.as_slice(),
        )),
        Leaf::Costs(walks) => reach_verdict(alloc, here, verdict, walks.as_slice()),
        Leaf::Shares {
            walks,
            trains: listed,
        } => share_verdict(alloc, here, verdict, walks.as_slice(), listed.as_slice()),
    }
}
