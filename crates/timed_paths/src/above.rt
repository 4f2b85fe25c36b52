ghost use Rattle.std.specs.Prelude.{◌≡◌, ◌↔◌, List, IsTrue, All, length};
ghost use Rattle.incremental_paths.specs.Network.{Network, IsNode, TellsChanged};
ghost use Rattle.timed_paths.specs.Above.{IsAboveUpper, TellsAbove, TellsAmong, TellsBelow};

use incremental_paths::Paths;

/// Whether a node's length is above its upper.
fn is_above(paths: &Paths, uppers: &[Option<u64>], node: u32) -> bool
    requires nodes { length uppers.now ≡ length paths.now.lowers }
    requires node { IsNode paths.now node }
    ensures { IsTrue result ↔ IsAboveUpper paths.now.lowers paths.now.arcs uppers.now node }
{
    match uppers[node as usize] {
        Some(upper) => upper < paths.length(node),
        None => false,
    }
}

/// The first of these nodes whose length is above its upper.
pub(crate) fn above_among(paths: &Paths, uppers: &[Option<u64>], nodes: &[u32]) -> Option<u32>
    requires nodes { length uppers.now ≡ length paths.now.lowers }
    requires there { All (IsNode paths.now) nodes.now }
    ensures { TellsAmong nodes.now paths.now.lowers paths.now.arcs uppers.now result }
{
    nodes
        .iter()
        .copied()
        .find(|node| is_above(paths, uppers, *node))
}

/// The first of `count` nodes, which are all, whose length is above its upper.
pub(crate) fn first_above(paths: &Paths, uppers: &[Option<u64>], count: u32) -> Option<u32>
    requires nodes { length uppers.now ≡ length paths.now.lowers }
    requires all { count ≡ length paths.now.lowers }
    ensures { TellsBelow count paths.now.lowers paths.now.arcs uppers.now result }
{
    for node in 0..count {
        if is_above(paths, uppers, node) {
            return Some(node);
        }
    }
    None
}

/// A node whose length is above its upper, where that was told before lengths changed.
pub(crate) fn above_now(before: Option<u32>, paths: &Paths, uppers: &[Option<u64>]) -> Option<u32>
    requires nodes { length uppers.now ≡ length paths.now.lowers }
    ensures { (old : Network) → TellsChanged old paths.now
        → TellsAbove old.lowers old.arcs uppers.now before
        → TellsAbove paths.now.lowers paths.now.arcs uppers.now result }
{
    let changed = paths.changed();
    match before {
        Some(node) => Some(node),
        None => above_among(paths, uppers, changed),
    }
}
