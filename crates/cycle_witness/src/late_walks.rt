ghost use Rattle.std.specs.Prelude.{ℕ, ◌<◌, ◌≤◌, ◌↔◌, IfOk, IfSome, IsNone};
ghost use Rattle.incremental_paths.specs.Walks.{IsWalkTo, walk_length, HasNoNodeTwice, IsLongestLength};
ghost use Rattle.incremental_paths.specs.Network.{IsNode};

use incremental_paths::{Memory, Paths};

/// A walk that ends in the node and is longer than `upper`, and `None` exactly where the node's
/// length is at most `upper`.
pub fn late(paths: &Paths, node: u32, upper: u64) -> Result<Option<Vec<u32>>, Memory>
    requires { IsNode paths.now node }
    ensures none { IfOk result (λ found. IsNone found
        ↔ ((longest : ℕ) → IsLongestLength paths.now.lowers paths.now.arcs node longest → longest
        ≤ upper)) }
    ensures walk { IfOk result
        (λ found. IfSome found
        (λ nodes. IsWalkTo paths.now.lowers paths.now.arcs node nodes.items)) }
    ensures once { IfOk result (λ found. IfSome found (λ nodes. HasNoNodeTwice nodes.items)) }
    ensures longer { IfOk result
        (λ found. IfSome found
        (λ nodes. upper < walk_length paths.now.lowers paths.now.arcs nodes.items)) }
{
    if paths.length(node) <= upper {
        return Ok(None);
    }
    Ok(Some(paths.walk(node)?))
}
