// Short leaves that show the bounds of nodes under the free rule.
ghost use Rattle.std.specs.Prelude.{◌≡◌};
ghost use Rattle.problem_facts.specs.Components.{AreOwnOf};
ghost use Rattle.share_bound.specs.Known.{HoldFor};

use super::rows::{Of, Row, Shown, are_shown};
use disp_model::Problem;
use event_graph::Graph;
use problem_facts::OwnComponents;
use share_bound::{FreeBound, KnownShares};
use share_leaves::short_bound;
use std::alloc::Global;
use std::panic::Expect;
use std::process::Abort;

/// A bound, by how many walks it is shown, and by how many trains with how many walks together.
type Counts = (u64, usize, usize, usize);

fn counted(bound: &FreeBound) -> Counts {
    let mut walks: usize = 0;
    for listed in bound.trains.as_slice() {
        walks = listed.walks.len().saturating_add(walks);
    }
    (bound.cost, bound.walks.len(), bound.trains.len(), walks)
}

/// How the bound is shown, where these are the components, and nothing else is known.
fn short(
    rt: &impl Abort,
    alloc: Global,
    problem: &Problem,
    components: &OwnComponents,
    graph: &Graph,
    known: &mut KnownShares,
) -> Counts
    requires node { graph.now.problem ≡ problem.now }
    requires own { AreOwnOf problem.now components.now }
    requires known { HoldFor graph.now known.old }
{
    let bound = short_bound(alloc, problem, components, graph, known).expect(rt, "a bound");
    counted(&bound)
}

fn counts(rt: &impl Abort, alloc: Global, problem: &Problem, graph: &Graph) -> Counts
    requires { graph.now.problem ≡ problem.now }
{
    let components = OwnComponents::of(alloc, problem).expect(rt, "components");
    let mut known = KnownShares::new(alloc, problem).expect(rt, "shares");
    short(rt, alloc, problem, &components, graph, &mut known)
}

/// The bound is shown so.
pub(super) fn check_short(
    rt: &impl Abort,
    alloc: Global,
    problem: &Problem,
    graph: &Graph,
    wanted: Counts,
)
    requires { graph.now.problem ≡ problem.now }
{
    assert_eq!(rt; counts(rt, alloc, problem, graph), wanted);
}

const SHORT: &[Row] = &[
    (Of::TwoTrains, None, Shown::Short(14, 2, 0, 0)),
    (Of::Forked, None, Shown::Short(3, 1, 0, 0)),
    (Of::DearFork, None, Shown::Short(7, 0, 1, 0)),
];

// A forced component is walked to. A train is listed where each of its routes costs more than what
// it must pay, without a walk where it is on time.
#[test]
fn leaves_of_shares_are_short(rt: HostRuntime) {
    are_shown(&rt, SHORT);
}
