ghost use Rattle.std.specs.Prelude.{◌≡◌, ◌<◌, ◌∷◌, ◌++◌, [], All, IfOk, OnOk, if◌then◌else◌};
ghost use Rattle.disp_model.specs.WellFormed.{operation_count};
ghost use Rattle.cost_bound.specs.Shortened.{is_end, AreEndsOver};

use disp_model::{List, Memory, Op};
use event_graph::Graph;
use std::alloc::Global;

/// Whether an operation does not stand between two others of its train.
fn is_end(before: Option<Op>, op: Op, next: Option<Op>) -> bool
    ensures { result ≡ is_end before op next }
{
    match (before, next) {
        (Some(before), Some(next)) => before.train != op.train || op.train != next.train,
        _ => true,
    }
}

/// Adds an operation, or not.
fn keep(ends: &mut List<Op>, op: Op, kept: bool) -> Result<(), Memory>
    ensures { OnOk result (ends.new ≡ (if kept then ends.old ++ op ∷ [] else ends.old)) }
{
    if kept {
        ends.push(op)?;
    }
    Ok(())
}

/// How many ends there is room for at first: as many as most walks have.
const ROOM: usize = 16;

/// The ends of a walk over these numbers.
fn ends_behind(alloc: Global, graph: &Graph, first: u32, rest: &[u32]) -> Result<List<Op>, Memory>
    requires first { first < operation_count graph.now.problem.trains }
    requires rest { All (λ n. n < operation_count graph.now.problem.trains) rest.now }
    ensures { IfOk result (AreEndsOver graph.now.problem (first ∷ rest.now)) }
{
    let mut ends = List::from_vec(Vec::with_capacity(alloc, ROOM)?);
    let mut before = None;
    let mut op = graph.operation(first);
    for number in rest {
        let next = graph.operation(*number);
        keep(&mut ends, op, is_end(before, op, Some(next)))?;
        before = Some(op);
        op = next;
    }
    ends.push(op)?;
    Ok(ends)
}

/// The operations of a walk over these numbers at which it enters a train or leaves one, in their
/// order.
pub(crate) fn ends_over(alloc: Global, graph: &Graph, numbers: &[u32]) -> Result<List<Op>, Memory>
    requires { All (λ n. n < operation_count graph.now.problem.trains) numbers.now }
    ensures { IfOk result (AreEndsOver graph.now.problem numbers.now) }
{
    match numbers {
        [] => Ok(List::new(alloc)),
        [first, rest @ ..] => ends_behind(alloc, graph, *first, rest),
    }
}
