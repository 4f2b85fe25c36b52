ghost use Rattle.std.specs.Prelude.{◌≡◌, ◌↔◌, ◌+◌, ◌<◌, IsTrue, Some, IfSome};
ghost use Rattle.disp_model.specs.declared.settings.Rule.TheVariants.{Free};
ghost use Rattle.disp_model.specs.declared.decision.Choice.TheVariants.{Order};
ghost use Rattle.disp_model.specs.Earliest.{IsPicked};
ghost use Rattle.first_overlaps.specs.Spans.{IsListed};

use disp_model::{Op, Problem};
use event_graph::Graph;
use first_overlaps::span_of;
use problem_facts::listings_of;

/// The release time with which an operation lists a resource.
pub(crate) fn release_at(problem: &Problem, op: Op, resource: u32) -> Option<u32>
    ensures { IfSome result (IsListed problem.now op resource) }
{
    for listing in listings_of(problem, op) {
        if listing.resource == resource {
            return Some(listing.release);
        }
    }
    None
}

/// Whether a start is before an end and the release time behind it.
fn is_before(start: u64, end: u64, release: u32) -> bool
    ensures { IsTrue result ↔ (start < end + release) }
{
    start < end || start - end < u64::from(release)
}

/// Whether two operations hold a resource at a time, so that their order is open.
pub(crate) fn is_open_order(problem: &Problem, graph: &Graph, a: Op, b: Op, resource: u32) -> bool
    requires { graph.now.problem ≡ problem.now }
    ensures { IsTrue result → IsPicked graph.now Free (Some (Order a b)) }
{
    if a.train >= b.train {
        return false;
    }
    let Some(first) = span_of(problem, graph, a) else {
        return false;
    };
    let Some(second) = span_of(problem, graph, b) else {
        return false;
    };
    let Some(release) = release_at(problem, a, resource) else {
        return false;
    };
    let Some(other) = release_at(problem, b, resource) else {
        return false;
    };
    let _paths = graph.paths();
    if !is_before(second.start, first.end, release) {
        return false;
    }
    is_before(first.start, second.end, other)
}
