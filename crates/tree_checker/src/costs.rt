ghost use Rattle.std.specs.Prelude.{◌↔◌, IfOk, IsTrue};
ghost use Rattle.disp_model.specs.Trees.{CostsEnough, ReachVerdict};
ghost use Rattle.node_facts.specs.Orders.{AreKnown};
ghost use Rattle.tree_checker.specs.KnownNodes.{node_here};

use crate::distinct::have_distinct;
use crate::known::KnownNode;
use disp_model::{ComponentWalk, Memory, Verdict};
use node_facts::walks_cost;
use std::alloc::Global;

/// Whether walks to distinct components cost together as much as a cost.
fn cost_enough(
    alloc: Global,
    here: KnownNode,
    walks: &[ComponentWalk],
    cost: u64,
) -> Result<bool, Memory>
    requires { AreKnown (node_here here) here.trains.now }
    ensures { IfOk result (λ enough. IsTrue enough
        ↔ CostsEnough (node_here here.entry) walks.now cost) }
{
    if !have_distinct(alloc, walks)? {
        return Ok(false);
    }
    match walks_cost(
        here.problem,
        here.fixings,
        here.decisions,
        here.trains,
        walks,
    ) {
        Some(bound) => Ok(u128::from(cost) <= bound),
        None => Ok(false),
    }
}

/// Whether walks show that no valid plan costs less than a verdict says.
pub(crate) fn reach_verdict(
    alloc: Global,
    here: KnownNode,
    verdict: Verdict,
    walks: &[ComponentWalk],
) -> Result<bool, Memory>
    requires { AreKnown (node_here here) here.trains.now }
    ensures { IfOk result (λ reached. IsTrue reached
        ↔ ReachVerdict (node_here here.entry) verdict walks.now) }
{
    match verdict {
        Verdict::Optimal(cost) => { cost_enough(alloc, here, walks, cost) }
        Verdict::Infeasible => Ok(false),
    }
}
