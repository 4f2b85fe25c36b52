ghost use Rattle.std.specs.Prelude.{◌≡◌, IsTrue};
ghost use Rattle.disp_model.specs.Choices.{IsOpenOrder};

use crate::open_order::release_at;
use disp_model::{Op, Problem};
use event_graph::Graph;
use first_overlaps::span_of;

/// Whether two operations list a resource, neither ends before the other starts, and their order is
/// not decided, so that it is open.
pub(crate) fn is_open_touch(problem: &Problem, graph: &Graph, a: Op, b: Op, resource: u32) -> bool
    requires { graph.now.problem ≡ problem.now }
    ensures { IsTrue result → IsOpenOrder graph.now a b }
{
    if a.train >= b.train {
        return false;
    }
    let Some(first) = span_of(problem, graph, a) else {
        return false;
    };
    let Some(second) = span_of(problem, graph, b) else {
        return false;
    };
    let Some(_) = release_at(problem, a, resource) else {
        return false;
    };
    let Some(_) = release_at(problem, b, resource) else {
        return false;
    };
    if second.start > first.end {
        return false;
    }
    if first.start > second.end {
        return false;
    }
    if graph.is_decided(a, b) {
        return false;
    }
    !graph.is_decided(b, a)
}
