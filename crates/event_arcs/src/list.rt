ghost use Rattle.std.specs.Prelude.{IfOk, List};
ghost use Rattle.disp_model.specs.declared.fixing.Fixing.{Fixing};
ghost use Rattle.disp_model.specs.Node.{node_at};
ghost use Rattle.event_arcs.specs.Listed.{AreArcsOf};
ghost use Rattle.event_arcs.specs.Placed.{ArePlaced};
ghost use Rattle.event_arcs.specs.Answered.{IsListedAt};

use crate::chains::add_chains;
use crate::orders::add_orders;
use crate::owns::owns_of;
use crate::placed::{Placed, Placing, placing_of};
use disp_model::{Decision, Fixing, Memory, Problem};
use incremental_paths::Arc;
use std::alloc::Global;

/// The arcs of the operations that each train must run, or the first train without an allowed
/// route.
#[derive(Debug, Drop)]
pub enum NodeArcs {
    Listed(Vec<Arc>),
    NoRoute(u32),
}

/// The arcs of the trains and of the orders that are decided.
pub fn listed(
    alloc: Global,
    problem: &Problem,
    each: &[Placed],
    decisions: &[Decision],
) -> Result<Vec<Arc>, Memory>
    requires { (fixings : List Fixing)
        × ArePlaced (node_at problem.now fixings decisions.now) each.now }
    ensures { (fixings : List Fixing)
        → ArePlaced (node_at problem.now fixings decisions.now) each.now
        → IfOk result (λ arcs. AreArcsOf (node_at problem.now fixings decisions.now) arcs.items) }
{
    let mut arcs = Vec::new(alloc);
    add_chains(&mut arcs, problem, each)?;
    add_orders(&mut arcs, problem, each, decisions)?;
    Ok(arcs)
}

/// The arcs between the operations that each train must run by the fixings and the decisions: of
/// each train from one to the next, by the least sum of durations between them; of each decided
/// order from the first to the second, and from what follows the first, where that is known. Takes
/// time linear in the operations with their successors, the fixings and the decisions; an order
/// takes the product of its two lists of resources.
pub fn arcs(
    alloc: Global,
    problem: &Problem,
    fixings: &[Fixing],
    decisions: &[Decision],
) -> Result<NodeArcs, Memory>
    ensures { IfOk result (IsListedAt (node_at problem.now fixings.now decisions.now)) }
{
    let owns = owns_of(alloc, problem.trains.len(), fixings, decisions)?;
    match placing_of(alloc, problem, &owns)? {
        Placing::Each(each) => {
            let arcs = listed(alloc, problem, &each, decisions)?;
            Ok(NodeArcs::Listed(arcs))
        }
        Placing::NoRoute(train) => Ok(NodeArcs::NoRoute(train)),
    }
}
