ghost use Rattle.std.specs.Prelude.{◌≡◌, ◌<◌, ◌++◌, All, Some, IfOk, OnOk, OnErr, length, map, slice_get};
ghost use Rattle.disp_model.specs.Node.{Node};
ghost use Rattle.event_graph.specs.Joined.{MayJoin, IsNamedOr, IsJoined};

use crate::faults::ExtendNo;
use crate::paths::add_all;
use disp_model::{List, Memory, Op};
use incremental_paths::Arc;
use std::alloc::Global;
use timed_paths::TimedPaths;

/// The operations of these numbers.
fn named(alloc: Global, ops: &[Op], numbers: &[u32]) -> Result<List<Op>, Memory>
    requires { All (λ n. n < length ops.now) numbers.now }
    ensures { IfOk result (λ named. map Some named ≡ map (slice_get ops.now) numbers.now) }
{
    let mut named = List::new(alloc);
    for number in numbers {
        named.push(ops[*number as usize])?;
    }
    Ok(named)
}

/// The refusal that names a cycle of these numbers.
fn closing(alloc: Global, ops: &[Op], numbers: &[u32]) -> ExtendNo
    requires { All (λ n. n < length ops.now) numbers.now }
    ensures { IsNamedOr (λ named. map Some named ≡ map (slice_get ops.now) numbers.now) result }
{
    match named(alloc, ops, numbers) {
        Ok(cycle) => ExtendNo::Cycle(cycle),
        Err(_) => ExtendNo::Memory,
    }
}

/// Adds arcs behind the others, or none where they close a cycle.
pub(crate) fn join(
    alloc: Global,
    paths: &mut TimedPaths,
    ops: &[Op],
    arcs: &[Arc],
) -> Result<(), ExtendNo>
    requires { (node : Node) × MayJoin node ops.now paths.old arcs.now }
    ensures lowers { paths.new.lowers ≡ paths.old.lowers }
    ensures uppers { paths.new.uppers ≡ paths.old.uppers }
    ensures ok { OnOk result (paths.new.arcs ≡ paths.old.arcs ++ arcs.now) }
    ensures err { OnErr result (paths.new.arcs ≡ paths.old.arcs) }
    ensures joined { (node : Node) → MayJoin node ops.now paths.old arcs.now
        → IsJoined node result }
{
    match paths.cycle_with(arcs) {
        Ok(Some(numbers)) => Err(closing(alloc, ops, &numbers)),
        Ok(None) => match add_all(paths, arcs) {
            Ok(()) => Ok(()),
            Err(_) => Err(ExtendNo::Memory),
        },
        Err(_) => Err(ExtendNo::Memory),
    }
}
