ghost use Rattle.std.specs.Prelude.{◌≡◌, ◌<◌, ◌≤◌, ◌^◌, IfOk, length};
ghost use Rattle.share_leaves.specs.Listed.{AreLengthsKept};

use disp_model::Memory;
use event_graph::Graph;
use std::alloc::Global;

/// A length, or 0 where it is not to be shown.
fn base_of(length: u64, is_kept: bool) -> u64
    ensures { result ≤ length }
{
    if is_kept { length } else { 0 }
}

/// Whether a train need not run an operation, or it is wanted.
fn is_kept(graph: &Graph, train: u32, op: u32, wanted: &[bool]) -> bool
    requires { train < length graph.now.problem.trains }
{
    if wanted.get(op as usize).copied() == Some(true) {
        return true;
    }
    !graph.routes(train).forced(op)
}

/// How many operations are wanted that a train must run.
pub(crate) fn count_wanted(graph: &Graph, train: u32, wanted: &[bool]) -> usize
    requires { train < length graph.now.problem.trains }
{
    let routes = graph.routes(train);
    let mut count: usize = 0;
    for (op, is_wanted) in wanted.iter().enumerate() {
        if let Ok(op) = u32::try_from(op) {
            if *is_wanted && routes.forced(op) {
                count = count.saturating_add(1);
            }
        }
    }
    count
}

/// The lengths of a train's operations, with 0 in the place of those that it must run and that are
/// not wanted.
pub(crate) fn kept(
    alloc: Global,
    graph: &Graph,
    train: u32,
    lengths: &[u64],
    wanted: &[bool],
) -> Result<Vec<u64>, Memory>
    requires train { train < length graph.now.problem.trains }
    requires fits { length lengths.now < 2 ^ 32 }
    ensures { IfOk result (λ kept. AreLengthsKept lengths.now kept.items) }
{
    let mut kept = Vec::with_capacity(alloc, lengths.len())?;
    for number in 0..lengths.len() {
        let is_kept = is_kept(graph, train, number as u32, wanted);
        kept.push(base_of(lengths[number], is_kept))?;
    }
    Ok(kept)
}
