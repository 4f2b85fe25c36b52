// Two trains on one block: orders added, refused and taken back.
ghost use Rattle.std.specs.Prelude.{◌≡◌, ◌<◌, IsTrue, length};
ghost use Rattle.disp_model.specs.Valid.{train_at};

use super::graphs::{ENTRY, ENTRY_FIRST, OTHER, OTHER_FIRST, Step, check_arcs, extend, undo};
use super::rows::{Of, Shown, are_shown};
use disp_model::{Decision, Op, Problem};
use event_graph::{ExtendNo, Graph};
use std::process::Abort;

/// What a graph is asked, or how it is moved.
#[derive(Clone, Copy)]
pub(super) enum Move {
    /// The arcs are these.
    Arcs(&'static [Step]),
    /// The decision is added.
    Add(Decision),
    /// The decision is refused for this, and for this train, or 0.
    Refuse(Decision, &'static str, u32),
    /// The last decision is taken back.
    Undo,
    /// This operation is late.
    Late(Option<Op>),
    /// Whether the first train is put before the second, and the second before the first.
    Decided(bool, bool),
}

/// Which refusal it is, and of which train.
fn refusal(no: &ExtendNo) -> (&'static str, u32) {
    match no {
        ExtendNo::NoRoute(train) => ("no route", *train),
        ExtendNo::Cycle(_) => ("cycle", 0),
        ExtendNo::Memory => ("memory", 0),
    }
}

/// How the decision is refused.
fn refused(graph: &mut Graph, decision: Decision) -> (&'static str, u32)
    ensures { graph.new.problem ≡ graph.old.problem }
{
    match graph.extend(decision) {
        Ok(()) => ("added", 0),
        Err(no) => refusal(&no),
    }
}

/// The decision is refused so.
fn check_refused(rt: &impl Abort, graph: &mut Graph, decision: Decision, wanted: (&str, u32))
    ensures { graph.new.problem ≡ graph.old.problem }
{
    let refusal = refused(graph, decision);
    assert_eq!(rt; refusal, wanted);
}

fn check_late(rt: &impl Abort, graph: &Graph, wanted: Option<Op>) {
    assert_eq!(rt; graph.late(), wanted);
}

/// Whether there is such an operation.
fn is_there(problem: &Problem, op: Op) -> bool
    ensures { IsTrue result → (op.train < length problem.now.trains)
        × (op.op < length (train_at problem.now op.train)) }
{
    match problem.trains.as_slice().get(op.train as usize) {
        Some(train) => (op.op as usize) < train.len(),
        None => false,
    }
}

/// Whether the first train is put before the second, and the second before the first.
fn decided(rt: &impl Abort, problem: &Problem, graph: &Graph) -> (bool, bool)
    requires { graph.now.problem ≡ problem.now }
{
    assert!(rt; is_there(problem, ENTRY));
    assert!(rt; is_there(problem, OTHER));
    (
        graph.is_decided(ENTRY, OTHER),
        graph.is_decided(OTHER, ENTRY),
    )
}

fn check_decided(rt: &impl Abort, problem: &Problem, graph: &Graph, wanted: (bool, bool))
    requires { graph.now.problem ≡ problem.now }
{
    assert_eq!(rt; decided(rt, problem, graph), wanted);
}

fn check_move(rt: &impl Abort, problem: &Problem, graph: &mut Graph, next: Move)
    requires { graph.old.problem ≡ problem.now }
    ensures { graph.new.problem ≡ problem.now }
{
    match next {
        Move::Arcs(wanted) => check_arcs(rt, graph.paths().arcs(), wanted),
        Move::Add(decision) => extend(rt, graph, decision),
        Move::Refuse(decision, wanted, train) => {
            check_refused(rt, graph, decision, (wanted, train))
        }
        Move::Undo => undo(rt, graph),
        Move::Late(wanted) => check_late(rt, graph, wanted),
        Move::Decided(one, other) => check_decided(rt, problem, graph, (one, other)),
    }
}

/// So it is move by move.
pub(super) fn check_moves(rt: &impl Abort, problem: &Problem, graph: &mut Graph, moves: &[Move])
    requires { graph.old.problem ≡ problem.now }
{
    for next in moves {
        check_move(rt, problem, graph, *next);
    }
}

/// The arcs in no order, and where the first train goes first, or the second.
const NONE: &[Step] = &[(0, 1, 10), (2, 3, 4)];

const FIRST: &[Step] = &[(0, 1, 10), (2, 3, 4), (0, 2, 10), (1, 2, 0)];

const SECOND: &[Step] = &[(0, 1, 10), (2, 3, 4), (2, 0, 4), (3, 0, 0)];

const ADDED: &[Move] = &[
    Move::Arcs(NONE),
    Move::Refuse(Decision::Skip(OTHER), "no route", 1),
    Move::Add(ENTRY_FIRST),
    Move::Arcs(FIRST),
    Move::Refuse(OTHER_FIRST, "cycle", 0),
    Move::Arcs(FIRST),
];

#[test]
fn orders_are_added_and_refused(rt: HostRuntime) {
    are_shown(&rt, &[(Of::TwoTrainsUntil3, None, Shown::Moves(ADDED))]);
}

/// An order that is late, and is taken back, and then the other one.
const UNDONE: &[Move] = &[
    Move::Late(None),
    Move::Add(ENTRY_FIRST),
    Move::Late(Some(OTHER)),
    Move::Undo,
    Move::Late(None),
    Move::Add(OTHER_FIRST),
    Move::Arcs(SECOND),
];

#[test]
fn the_last_order_is_taken_back(rt: HostRuntime) {
    are_shown(&rt, &[(Of::TwoTrainsUntil3, None, Shown::Moves(UNDONE))]);
}

/// An order that is added is decided until it is taken back, and its reverse never is.
const DECIDED: &[Move] = &[
    Move::Decided(false, false),
    Move::Add(ENTRY_FIRST),
    Move::Decided(true, false),
    Move::Undo,
    Move::Decided(false, false),
];

#[test]
fn an_order_is_decided_until_it_is_taken_back(rt: HostRuntime) {
    are_shown(&rt, &[(Of::TwoTrainsUntil3, None, Shown::Moves(DECIDED))]);
}
