ghost use Rattle.std.specs.Prelude.{IfOk};
ghost use Rattle.node_facts.specs.Orders.{AreKnown};
ghost use Rattle.tree_checker.specs.Bounds.{IsBoundOfAll};
ghost use Rattle.problem_facts.specs.Components.{AreOwnOf};
ghost use Rattle.tree_checker.specs.KnownNodes.{node_here};

use crate::known::KnownNode;
use crate::shares::shares_cost;
use disp_model::{ComponentWalk, Memory, TrainWalks};
use node_facts::walks_cost;
use std::alloc::Global;

/// What walks and listed trains cost together; none where one of them shows no cost.
pub(crate) fn bound_of(
    alloc: Global,
    here: KnownNode,
    walks: &[ComponentWalk],
    listed: &[TrainWalks],
) -> Result<Option<u128>, Memory>
    requires known { AreKnown (node_here here) here.trains.now }
    requires own { AreOwnOf here.problem.now here.own.now }
    ensures { IfOk result (IsBoundOfAll (node_here here.entry) walks.now listed.now) }
{
    let Some(sum) = walks_cost(
        here.problem,
        here.fixings,
        here.decisions,
        here.trains,
        walks,
    ) else {
        return Ok(None);
    };
    match shares_cost(alloc, here, listed)? {
        Some(shares) => Ok(Some(sum.saturating_add(shares))),
        None => Ok(None),
    }
}
