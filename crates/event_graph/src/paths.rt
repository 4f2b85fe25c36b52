ghost use Rattle.std.specs.Prelude.{◌≡◌, ◌++◌, ℕ, All, take, OnOk, OnErr};
ghost use Rattle.incremental_paths.specs.Walks.{WalksAreShort};
ghost use Rattle.incremental_paths.specs.Network.{IsNode};
ghost use Rattle.timed_paths.specs.Timed.{network_of};

use disp_model::Memory;
use incremental_paths::Arc;
use timed_paths::TimedPaths;

/// Adds arcs behind the others, or none of them.
pub(crate) fn add_all(paths: &mut TimedPaths, arcs: &[Arc]) -> Result<(), Memory>
    requires nodes { All (λ arc. IsNode (network_of paths.old) arc.from) arcs.now }
    requires ends { All (λ arc. IsNode (network_of paths.old) arc.to) arcs.now }
    requires short { (k : ℕ) → WalksAreShort paths.old.lowers (paths.old.arcs ++ take k arcs.now) }
    ensures lowers { paths.new.lowers ≡ paths.old.lowers }
    ensures uppers { paths.new.uppers ≡ paths.old.uppers }
    ensures ok { OnOk result (paths.new.arcs ≡ paths.old.arcs ++ arcs.now) }
    ensures err { OnErr result (paths.new.arcs ≡ paths.old.arcs) }
{
    for (count, arc) in arcs.iter().enumerate() {
        if paths.add(arc.from, arc.to, arc.length).is_err() {
            paths.withdraw(count);
            return Err(Memory);
        }
    }
    Ok(())
}
