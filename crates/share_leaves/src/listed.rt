ghost use Rattle.std.specs.Prelude.{◌≡◌, ◌+◌, ◌<◌, ◌≤◌, ◌^◌, ℕ, IfOk, OnOk, length, slice_index};
ghost use Rattle.disp_model.specs.Shares.{IsBase};
ghost use Rattle.event_windows.specs.Operations.{HasOperation};
ghost use Rattle.share_leaves.specs.Listed.{AreLowBases, ShowsBases};

use cost_bound::longest_walk;
use disp_model::{List, Memory, Op};
use event_graph::Graph;
use std::alloc::Global;

/// Adds a walk to an operation, where it is forced and its base is to be shown.
fn add(
    alloc: Global,
    graph: &Graph,
    op: Op,
    bases: &[u64],
    walks: &mut List<List<Op>>,
) -> Result<(), Memory>
    requires there { HasOperation graph.now.problem op }
    requires within { op.op < length bases.now }
    requires low { (length : ℕ) × IsBase graph.now op length
        × (slice_index bases.now op.op ≤ length) }
    requires before { ShowsBases graph.now op.train op.op bases.now walks.old }
    ensures { OnOk result (ShowsBases graph.now op.train (op.op + 1) bases.now walks.new) }
{
    if bases[op.op as usize] == 0 {
        return Ok(());
    }
    if !graph.routes(op.train).forced(op.op) {
        return Ok(());
    }
    let walk = longest_walk(alloc, graph, op)?;
    walks.push(walk)?;
    Ok(())
}

/// Walks to operations of a train that it must run, which show these bases. There is room for so
/// many.
pub(crate) fn walks_to(
    alloc: Global,
    graph: &Graph,
    train: u32,
    bases: &[u64],
    room: usize,
) -> Result<List<List<Op>>, Memory>
    requires train { train < length graph.now.problem.trains }
    requires low { AreLowBases graph.now train bases.now }
    requires fits { length bases.now < 2 ^ 32 }
    ensures { IfOk result (ShowsBases graph.now train (length bases.now) bases.now) }
{
    let mut walks = List::from_vec(Vec::with_capacity(alloc, room)?);
    for number in 0..bases.len() {
        let op = Op {
            train,
            op: number as u32,
        };
        add(alloc, graph, op, bases, &mut walks)?;
    }
    Ok(walks)
}
