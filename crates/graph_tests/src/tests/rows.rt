// What is shown at nodes of the worked problems: tests have rows of it, and one helper, which makes
// each problem and each graph, goes through them.
ghost use Rattle.std.specs.Prelude.{◌≡◌};

use super::choices::{check_children, check_picked};
use super::costs::{check_cost, check_walk};
use super::graphs::{extend_by, later, root};
use super::leaves::check_short;
use super::nodes::check_leaves;
use super::orders::{Move, check_moves};
use super::overlaps::{check_kept, check_overlap, check_span};
use super::shares::check_share;
use disp_model::{Choice, Decision, Memory, Op, Problem, Rule};
use event_graph::Graph;
use std::alloc::Global;
use std::panic::Expect;
use std::process::Abort;
use worked_problems::{dear_fork, forked, no_trains, swap, two_trains, two_trains_until, windowed};

/// A worked problem. In the later ones the first operation is not to start before 7.
#[derive(Clone, Copy)]
pub(super) enum Of {
    TwoTrains,
    /// Two trains, whose first operations start until 3.
    TwoTrainsUntil3,
    Forked,
    ForkedLater,
    DearFork,
    DearForkLater,
    Swap,
    /// A train of one operation, which may start from 5 on, but until 4 only.
    Closed,
    NoTrains,
}

/// What is shown.
#[derive(Clone, Copy)]
pub(super) enum Shown {
    /// The bound under the fixed rule.
    Cost(u64),
    /// The one walk that shows it: its component, and its operations.
    Walk(u32, &'static [Op]),
    /// The bound under the free rule.
    Share(u64),
    /// The same, by a short leaf: by so many walks, and so many trains with so many walks together.
    Short(u64, usize, usize, usize),
    /// What is picked there, `None` where there is a plan.
    Picked(Option<Choice>),
    /// What a choice leaves.
    Children(Choice, &'static [Decision]),
    /// The kinds of the node's leaf by a rule, and of that where the first operation is skipped.
    Leaves(Rule, &'static str, &'static str),
    /// When an operation starts and ends.
    Span(Op, Option<(u64, u64)>),
    /// The first two that surely hold a resource at a time.
    Overlap(Option<(Op, Op)>),
    /// The same, and again behind a decision, and where it is taken back.
    Kept(Decision, Option<(Op, Op)>, Option<(Op, Op)>),
    /// What the graph says where it is moved.
    Moves(&'static [Move]),
}

/// A problem, what is decided there, if anything, and what is shown then.
pub(super) type Row = (Of, Option<Decision>, Shown);

pub(super) fn problem_of(alloc: Global, of: Of) -> Result<Problem, Memory> {
    match of {
        Of::TwoTrains => two_trains(alloc),
        Of::TwoTrainsUntil3 => two_trains_until(alloc, 3),
        Of::Forked | Of::ForkedLater => forked(alloc),
        Of::DearFork | Of::DearForkLater => dear_fork(alloc),
        Of::Swap => swap(alloc),
        Of::Closed => windowed(alloc, 5, Some(4), 0),
        Of::NoTrains => Ok(no_trains(alloc)),
    }
}

/// The graph where nothing is decided.
fn graph_of<'p>(rt: &impl Abort, alloc: Global, problem: &'p Problem, of: Of) -> Graph<'p>
    ensures { result.problem ≡ problem.now }
{
    match of {
        Of::ForkedLater | Of::DearForkLater => {
            assert!(rt; problem.trains.len() == 1);
            later(rt, alloc, problem)
        }
        _ => root(rt, alloc, problem),
    }
}

/// This is shown at the node of a graph.
fn check(rt: &impl Abort, alloc: Global, problem: &Problem, graph: &mut Graph, shown: Shown)
    requires { graph.old.problem ≡ problem.now }
{
    match shown {
        Shown::Cost(wanted) => check_cost(rt, alloc, problem, graph, wanted),
        Shown::Walk(component, ops) => check_walk(rt, alloc, problem, graph, component, ops),
        Shown::Share(wanted) => check_share(rt, alloc, problem, graph, wanted),
        Shown::Short(bound, walks, trains, beside) => {
            check_short(rt, alloc, problem, graph, (bound, walks, trains, beside))
        }
        Shown::Picked(wanted) => check_picked(rt, alloc, problem, graph, wanted),
        Shown::Children(choice, wanted) => check_children(rt, alloc, problem, choice, wanted),
        Shown::Leaves(rule, wanted, skipped) => {
            check_leaves(rt, alloc, problem, graph, rule, wanted, skipped)
        }
        Shown::Span(op, wanted) => check_span(rt, problem, graph, op, wanted),
        Shown::Overlap(wanted) => check_overlap(rt, alloc, problem, graph, wanted),
        Shown::Kept(decision, wanted, behind) => {
            check_kept(rt, alloc, problem, graph, decision, wanted, behind)
        }
        Shown::Moves(moves) => check_moves(rt, problem, graph, moves),
    }
}

/// This is shown where this is decided, if anything.
fn check_at(
    rt: &impl Abort,
    alloc: Global,
    problem: &Problem,
    of: Of,
    decision: Option<Decision>,
    shown: Shown,
) {
    let mut graph = graph_of(rt, alloc, problem, of);
    extend_by(rt, &mut graph, decision);
    check(rt, alloc, problem, &mut graph, shown);
}

fn check_row(rt: &impl Abort, alloc: Global, of: Of, decision: Option<Decision>, shown: Shown) {
    let problem = problem_of(alloc, of).expect(rt, "a problem");
    check_at(rt, alloc, &problem, of, decision, shown);
}

/// So it is for each row.
pub(super) fn are_shown(rt: &(impl Abort + AllocGlobal), rows: &[Row]) {
    for (of, decision, shown) in rows {
        check_row(rt, rt.alloc(), *of, *decision, *shown);
    }
}
