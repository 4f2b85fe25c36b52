ghost use Rattle.std.specs.Prelude.{◌≡◌, ℕ, Option, map, IfOk};
ghost use Rattle.disp_model.specs.Node.{with_decision};
ghost use Rattle.node_leaves.specs.Reckoned.{ReckonsFor};
ghost use Rattle.tree_growth.specs.Grown.{GrowsBelow, branches};
ghost use Rattle.share_bound.specs.Known.{HoldFor};

use crate::grown::{Grown, nothing, push_leaf};
use disp_model::{Decision, Memory, Problem};
use event_graph::Graph;
use node_leaves::{Reckoning, child_leaf};
use share_bound::KnownShares;
use std::alloc::Global;

/// A leaf for each of the children to which these decisions lead. The graph is as before.
pub(crate) fn leaves_of(
    alloc: Global,
    problem: &Problem,
    reckoning: &Reckoning,
    graph: &mut Graph,
    known: &mut KnownShares,
    decisions: &[Decision],
) -> Result<Grown, Memory>
    requires node { graph.old.problem ≡ problem.now }
    requires reckons { ReckonsFor problem.now reckoning.now }
    requires known { HoldFor graph.old known.old }
    ensures same { graph.new ≡ graph.old }
    ensures known { HoldFor graph.old known.new }
    ensures grows { IfOk result (λ grown. (best : Option ℕ)
        → GrowsBelow reckoning.now.rule best (map (with_decision graph.old) decisions.now)
        grown.nodes.items grown.bounds.items) }
    ensures leaves { IfOk result (λ grown. branches grown.nodes.items ≡ 0) }
{
    let mut grown = nothing(alloc);
    for decision in decisions {
        let leaf = child_leaf(alloc, problem, reckoning, graph, known, *decision)?;
        push_leaf(&mut grown, leaf)?;
    }
    Ok(grown)
}
