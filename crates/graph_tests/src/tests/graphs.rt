// Graphs of nodes, and the operations and decisions that tests speak of.
ghost use Rattle.std.specs.Prelude.{◌≡◌, length};

use disp_model::{Decision, Fixing, Op, Problem};
use event_graph::Graph;
use incremental_paths::Arc;
use std::alloc::Global;
use std::process::Abort;

/// The first operation of the first train, and of the second.
pub(super) const ENTRY: Op = Op { train: 0, op: 0 };

pub(super) const OTHER: Op = Op { train: 1, op: 0 };

/// The first train before the second, and the second before the first.
pub(super) const ENTRY_FIRST: Decision = Decision::First { a: ENTRY, b: OTHER };

pub(super) const OTHER_FIRST: Decision = Decision::First { a: OTHER, b: ENTRY };

/// The first train goes on from its first operation to 1, or to 2.
pub(super) const GO_1: Decision = Decision::Go { op: ENTRY, next: 1 };

pub(super) const GO_2: Decision = Decision::Go { op: ENTRY, next: 2 };

/// The first train runs its operation 1, or skips it.
pub(super) const RUN_1: Decision = Decision::Run(Op { train: 0, op: 1 });

pub(super) const SKIP_1: Decision = Decision::Skip(Op { train: 0, op: 1 });

/// The graph where nothing is fixed or decided.
pub(super) fn root<'p>(rt: &impl Abort, alloc: Global, problem: &'p Problem) -> Graph<'p>
    ensures { result.problem ≡ problem.now }
{
    match Graph::new(alloc, problem, &[]) {
        Ok(graph) => graph,
        Err(_) => panic!(rt; "there is no graph"),
    }
}

/// The graph where nothing is decided, and the first operation is not to start before 7.
pub(super) fn later<'p>(rt: &impl Abort, alloc: Global, problem: &'p Problem) -> Graph<'p>
    requires { length problem.now.trains ≡ 1 }
    ensures { result.problem ≡ problem.now }
{
    let fixing = Fixing::NotBefore {
        at_train: 0,
        at_op: 0,
        time: 7,
    };
    match Graph::new(alloc, problem, &[fixing]) {
        Ok(graph) => graph,
        Err(_) => panic!(rt; "there is no graph"),
    }
}

/// Adds a decision that is not refused.
pub(super) fn extend(rt: &impl Abort, graph: &mut Graph, decision: Decision)
    ensures { graph.new.problem ≡ graph.old.problem }
{
    let added = graph.extend(decision);
    assert!(rt; added.is_ok());
}

/// Adds a decision that is not refused, where there is one.
pub(super) fn extend_by(rt: &impl Abort, graph: &mut Graph, decision: Option<Decision>)
    ensures { graph.new.problem ≡ graph.old.problem }
{
    match decision {
        Some(decision) => extend(rt, graph, decision),
        None => {}
    }
}

/// Takes the last decision back.
pub(super) fn undo(rt: &impl Abort, graph: &mut Graph)
    ensures { graph.new.problem ≡ graph.old.problem }
{
    assert!(rt; graph.decisions().len() > 0);
    graph.undo();
}

/// Both calls find this bound.
pub(super) fn check_bound(rt: &impl Abort, found: (u64, u64), wanted: u64) {
    assert_eq!(rt; found, (wanted, wanted));
}

/// An arc: its two nodes and its length.
pub(super) type Step = (u32, u32, u64);

fn check_arc(rt: &impl Abort, arc: Arc, wanted: Step) {
    assert_eq!(rt; (arc.from, arc.to, arc.length), wanted);
}

/// The arcs are these.
pub(super) fn check_arcs(rt: &impl Abort, arcs: &[Arc], wanted: &[Step]) {
    assert!(rt; arcs.len() == wanted.len());
    for (arc, step) in arcs.iter().zip(wanted) {
        check_arc(rt, *arc, *step);
    }
}
