ghost use Rattle.std.specs.Prelude.{ℕ, IfOk};
ghost use Rattle.incremental_paths.specs.Walks.{Leads, IsArcCycle, ArcsHaveCycle};
ghost use Rattle.incremental_paths.specs.Network.{IsNode, with_arc};

use incremental_paths::{Memory, Paths};

/// The nodes of a cycle that an arc between these nodes, which `add` refused, would close: from
/// `to` along kept arcs to `from`, and from there by that arc back to `to`.
pub fn cycle(paths: &Paths, from: u32, to: u32) -> Result<Vec<u32>, Memory>
    requires from { IsNode paths.now from }
    requires to { IsNode paths.now to }
    requires refused { (length : ℕ) × ArcsHaveCycle (with_arc paths.now from to length).arcs }
    ensures way { IfOk result (λ nodes. Leads paths.now.arcs to from nodes.items) }
    ensures cycle { IfOk result
        (λ nodes. (length : ℕ) → IsArcCycle (with_arc paths.now from to length).arcs nodes.items) }
{
    match paths.between(to, from)? {
        Some(nodes) => Ok(nodes),
        None => unreachable!(),
    }
}
