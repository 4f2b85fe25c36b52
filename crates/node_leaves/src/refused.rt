ghost use Rattle.std.specs.Prelude.{IfOk};
ghost use Rattle.disp_model.specs.Node.{Node};
ghost use Rattle.event_graph.specs.Kept.{IsRefusedAt};
ghost use Rattle.node_leaves.specs.Shown.{IsDeadLeaf};

use disp_model::{Leaf, Memory};
use event_graph::ExtendNo;

/// The leaf of a node that a graph refused.
pub(crate) fn refused_leaf(no: ExtendNo) -> Result<Leaf, Memory>
    ensures { (node : Node) → IsRefusedAt node no → IfOk result (IsDeadLeaf node) }
{
    match no {
        ExtendNo::NoRoute(_) => Ok(Leaf::NoRoute),
        ExtendNo::Cycle(nodes) => Ok(Leaf::Cycle(nodes)),
        ExtendNo::Memory => Err(Memory),
    }
}
