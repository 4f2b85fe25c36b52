ghost use Rattle.std.specs.Prelude.{◌≡◌, ◌<◌, ◌≤◌, ◌+◌, IfOk, length, slice_range};
ghost use Rattle.disp_model.specs.WellFormed.{horizon};
ghost use Rattle.disp_model.specs.Valid.{train_at};
ghost use Rattle.disp_model.specs.Shares.{IsBase};
ghost use Rattle.event_windows.specs.Operations.{HasOperation};
ghost use Rattle.share_bound.specs.Bases.{AreBasesTo};

use disp_model::{Memory, Op};
use event_graph::Graph;
use std::alloc::Global;

/// The base of an operation: the length of its paths, which is its lower where it is not forced,
/// since no arc leads to it then.
pub fn base_of(graph: &Graph, op: Op) -> u64
    requires { HasOperation graph.now.problem op }
    ensures base { IsBase graph.now op result }
    ensures within { result ≤ horizon graph.now.problem.trains }
{
    let number = graph.number(op);
    graph.paths().length(number)
}

/// A part of a list.
fn part(all: &[u64], first: usize, count: usize) -> &[u64]
    requires { first + count ≤ length all.now }
    ensures { result.now ≡ slice_range all.now first (first + count) }
{
    &all[first..first + count]
}

/// The base of each of a train's operations, of which there are so many, where a graph keeps them:
/// they have numbers one behind another.
pub fn bases_in<'g>(graph: &'g Graph, train: u32, count: usize) -> &'g [u64]
    requires train { train < length graph.now.problem.trains }
    requires count { count ≡ length (train_at graph.now.problem train) }
    ensures { AreBasesTo graph.now train count result.now }
{
    let first = graph.number(Op { train, op: 0 });
    part(graph.paths().lengths(), first as usize, count)
}

/// The base of each of a train's operations, of which there are so many.
pub fn bases_of(alloc: Global, graph: &Graph, train: u32, count: usize) -> Result<Vec<u64>, Memory>
    requires train { train < length graph.now.problem.trains }
    requires count { count ≡ length (train_at graph.now.problem train) }
    ensures { IfOk result (λ bases. AreBasesTo graph.now train count bases.items) }
{
    Ok(Vec::from_slice(alloc, bases_in(graph, train, count))?)
}
