// What many of these tests stand on: problems by name, the graph of an edition without fixings, and
// what a dive works with.
ghost use Rattle.std.specs.Prelude.{◌≡◌, []};
ghost use Rattle.disp_model.specs.Node.{Node, node_at};
ghost use Rattle.event_graph.specs.Joined.{IsOfEdition};
ghost use Rattle.node_leaves.specs.Reckoned.{ReckonsFor};
ghost use Rattle.share_bound.specs.Known.{HoldFor};
ghost use Rattle.tree_dives.specs.Guides.{GuidesIn};

use disp_model::{Fixing, Problem, Rule};
use event_graph::Graph;
use node_leaves::Reckoning;
use share_bound::KnownShares;
use std::alloc::Global;
use std::panic::Expect;
use std::process::Abort;
use train_insertion::Target;
use tree_dives::Guide;
use worked_problems::{forked, two_trains, two_trains_until};

/// A worked problem.
#[derive(Clone, Copy)]
pub(crate) enum Worked {
    Fork,
    Trains,
    /// Two trains that are to enter the block until 3.
    Until3,
    /// The same until 4.
    Until4,
}

/// The problem of that name.
pub(crate) fn problem_of(rt: &impl Abort, alloc: Global, worked: Worked) -> Problem {
    let problem = match worked {
        Worked::Fork => forked(alloc),
        Worked::Trains => two_trains(alloc),
        Worked::Until3 => two_trains_until(alloc, 3),
        Worked::Until4 => two_trains_until(alloc, 4),
    };
    problem.expect(rt, "a problem")
}

/// The graph where these fixings stand and nothing is decided.
pub(crate) fn graph_of<'p>(
    rt: &impl Abort,
    alloc: Global,
    problem: &'p Problem,
    fixings: &[Fixing],
) -> Graph<'p>
    requires { IsOfEdition (node_at problem.now fixings.now []) }
    ensures { result ≡ node_at problem.now fixings.now [] }
{
    match Graph::new(alloc, problem, fixings) {
        Ok(graph) => graph,
        Err(_) => panic!(rt; "there is no graph"),
    }
}

/// The graph where nothing is fixed or decided.
pub(crate) fn root<'p>(rt: &impl Abort, alloc: Global, problem: &'p Problem) -> Graph<'p>
    ensures root { result ≡ node_at problem.now [] [] }
    ensures edition { IsOfEdition result }
{
    graph_of(rt, alloc, problem, &[])
}

/// What a dive works with beside the graph.
#[derive(Drop)]
pub(crate) struct Means {
    pub(crate) reckoning: Reckoning,
    pub(crate) known: KnownShares,
    pub(crate) guide: Guide,
}

/// A guide that follows no target.
fn guide(rt: &impl Abort, alloc: Global, problem: &Problem) -> Guide
    ensures { GuidesIn problem.now result }
{
    Guide::new(alloc, problem, Target::none(alloc)).expect(rt, "a guide")
}

/// What a dive by a rule works with.
pub(crate) fn means_of(rt: &impl Abort, alloc: Global, problem: &Problem, rule: Rule) -> Means
    ensures rule { result.reckoning.rule ≡ rule }
    ensures reckons { ReckonsFor problem.now result.reckoning }
    ensures known { (node : Node) → node.problem ≡ problem.now → HoldFor node result.known }
    ensures guide { GuidesIn problem.now result.guide }
{
    let guide = guide(rt, alloc, problem);
    let known = KnownShares::new(alloc, problem).expect(rt, "shares");
    let reckoning = Reckoning::new(alloc, problem, rule).expect(rt, "a reckoning");
    Means {
        reckoning,
        known,
        guide,
    }
}
