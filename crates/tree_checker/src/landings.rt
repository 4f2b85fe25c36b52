ghost use Rattle.std.specs.Prelude.{◌≡◌, ◌↔◌, Some, IfSome, ◌<◌, ◌≤◌, ◌^◌, ◌==◌, ℕ, IfOk, length};
ghost use Rattle.disp_model.specs.Walks.{lower_of, IsWalk};
ghost use Rattle.node_facts.specs.Orders.{AreKnown};
ghost use Rattle.tree_checker.specs.TrainCosts.{IsLanding, Raises, WasRaised, AreLowers};
ghost use Rattle.tree_checker.specs.KnownNodes.{node_here};

use crate::known::KnownNode;
use disp_model::{List, Memory, Op, Problem};
use node_facts::{FixingIndex, end_of, lower_of, walk_length};
use std::alloc::Global;

/// Where a walk ends on its train, and how long it is.
#[derive(Clone, Copy)]
pub(crate) struct Landing {
    pub(crate) operation: u32,
    pub(crate) total: u128,
}

/// How many operations there are.
fn count_of(operations: &[Op]) -> usize
    ensures { result ≡ length operations.now }
{
    operations.len()
}

/// How long a walk is; none where the list is no walk of the node.
fn length_of(here: KnownNode, walk: &[Op]) -> Option<u128>
    requires { AreKnown (node_here here) here.trains.now }
    ensures is { (n : ℕ) → (result ≡ Some n)
        ↔ IsWalk (node_here here.entry) walk.now n }
    ensures small { IfSome result (λ n. n ≤ 2 ^ 127) }
{
    let (first, rest) = walk.split_first()?;
    // that these are numbers of 64 bits bounds the length
    let _lower = lower_of(here.problem, here.fixings, *first);
    let _count = count_of(rest);
    walk_length(
        here.problem,
        here.fixings,
        here.decisions,
        here.trains,
        walk,
    )
}

/// Where a walk ends on a train, and how long it is; none where it is no walk that ends there.
fn landing_of(here: KnownNode, train: u32, walk: &[Op]) -> Option<Landing>
    requires { AreKnown (node_here here) here.trains.now }
    ensures { IsLanding (node_here here.entry) train walk.now result }
{
    let Some(end) = end_of(walk) else {
        return None;
    };
    if !(end.train == train) {
        return None;
    }
    match length_of(here, walk) {
        Some(total) => Some(Landing {
            operation: end.op,
            total,
        }),
        None => None,
    }
}

/// Raises the base of an operation to the length of a walk that ends there.
fn raise(bases: &mut Vec<u128>, landing: Landing)
    ensures { Raises landing.operation landing.total bases.old.items bases.new.items }
{
    let at = landing.operation as usize;
    if at < bases.len() {
        let base = bases[at].max(landing.total);
        bases[at] = base;
    }
}

/// Raises bases to the lengths of walks that end on a train; false where one is no such walk.
pub(crate) fn raise_all(
    bases: &mut Vec<u128>,
    here: KnownNode,
    train: u32,
    walks: &[List<Op>],
) -> bool
    requires { AreKnown (node_here here) here.trains.now }
    ensures { WasRaised (node_here here.entry) train walks.now
        bases.old.items bases.new.items result }
{
    for walk in walks {
        match landing_of(here, train, walk.as_slice()) {
            Some(landing) => raise(bases, landing),
            None => return false,
        }
    }
    true
}

/// The lower of each operation of a train.
pub(crate) fn lowers_of(
    alloc: Global,
    problem: &Problem,
    fixings: &FixingIndex,
    train: u32,
    count: usize,
) -> Result<Vec<u128>, Memory>
    requires { count < 2 ^ 32 }
    ensures { IfOk result (λ bases. AreLowers problem.now fixings.now train count bases.items) }
{
    let mut bases = Vec::with_capacity(alloc, count)?;
    for op in 0..count {
        let op = Op {
            train,
            op: op as u32,
        };
        bases.push(u128::from(lower_of(problem, fixings, op)))?;
    }
    Ok(bases)
}
