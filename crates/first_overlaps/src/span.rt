ghost use Rattle.std.specs.Prelude.{◌≡◌, ◌↔◌, ◌<◌, ◌^◌, IsTrue, MatchOption};
ghost use Rattle.disp_model.specs.Routes.{IsForced};
ghost use Rattle.disp_model.specs.Arcs.{min_of};
ghost use Rattle.disp_model.specs.Walks.{IsLongest};
ghost use Rattle.disp_model.specs.Choices.{IsEnd};
ghost use Rattle.first_overlaps.specs.Spans.{IsSpanOf};

use disp_model::{Op, Problem};
use event_graph::Graph;

/// From when and until when an operation runs at a node.
#[derive(Clone, Copy)]
pub struct Span {
    pub start: u64,
    pub end: u64,
}

/// Whether each allowed route of its train has the operation.
pub fn is_forced(problem: &Problem, graph: &Graph, op: Op) -> bool
    requires { graph.now.problem ≡ problem.now }
    ensures { IsTrue result ↔ IsForced graph.now op }
{
    if op.train as usize >= problem.trains.len() {
        return false;
    }
    graph.routes(op.train).forced(op.op)
}

/// When a forced operation starts.
fn start_of(graph: &Graph, op: Op) -> u64
    requires { IsForced graph.now op }
    ensures longest { IsLongest graph.now op result }
    ensures small { result < 2 ^ 53 }
{
    let number = graph.number(op);
    graph.paths().length(number)
}

/// How long an operation lasts at least.
fn min_of(problem: &Problem, op: Op) -> u32
    ensures { result ≡ min_of problem.now op }
{
    let Some(train) = problem.trains.as_slice().get(op.train as usize) else {
        return 0;
    };
    match train.as_slice().get(op.op as usize) {
        Some(operation) => operation.min,
        None => 0,
    }
}

/// When a forced operation ends that starts at a time: where its only next starts, or after its
/// duration.
fn end_of(problem: &Problem, graph: &Graph, op: Op, start: u64) -> u64
    requires problem { graph.now.problem ≡ problem.now }
    requires forced { IsForced graph.now op }
    requires start { IsLongest graph.now op start }
    requires small { start < 2 ^ 53 }
    ensures end { IsEnd graph.now op result }
    ensures small { result < 2 ^ 54 }
{
    let train = op.train;
    match graph.routes(train).only_next(op.op) {
        Some(next) => start_of(graph, Op { train, op: next }),
        None => start + u64::from(min_of(problem, op)),
    }
}

/// From when and until when an operation runs, where it is forced.
pub fn span_of(problem: &Problem, graph: &Graph, op: Op) -> Option<Span>
    requires { graph.now.problem ≡ problem.now }
    ensures { MatchOption result (IsForced graph.now op → ⊥)
        (λ span. IsSpanOf graph.now op span.start span.end × (span.end < 2 ^ 54)) }
{
    if !is_forced(problem, graph, op) {
        return None;
    }
    let start = start_of(graph, op);
    Some(Span {
        start,
        end: end_of(problem, graph, op, start),
    })
}
