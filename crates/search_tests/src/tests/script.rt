// Steps of a core on two trains on one block, as two searchers and a feed take them, with what it
// replies.
ghost use Rattle.std.specs.Prelude.{◌≡◌, ◌≤◌, [], All};
ghost use Rattle.disp_model.specs.History.{edition_of, newest};
ghost use Rattle.disp_model.specs.Node.{node_at};
ghost use Rattle.dispatch_core.specs.Asked.{MayStep};
ghost use Rattle.dispatch_core.specs.Replies.{Steps};
ghost use Rattle.event_graph.specs.Joined.{IsOfEdition};
ghost use Rattle.search_tests.specs.Scripts.{IsGrownAt, IsRun};

use super::parts::{graph_of, means_of};
use disp_model::{Change, Fixing, List, Mark, Plan, Problem, Reply, Rule, Verdict};
use dispatch_core::{Core, CoreEvent, CoreReply, StepNo};
use event_graph::Graph;
use open_nodes::{Fragment, Work};
use packed_nodes::PackedNode;
use search_workers::{Growth, grow};
use solution_verifier::Fault;
use std::alloc::Global;
use std::panic::Expect;
use std::process::Abort;

/// A reply as a text, as far as it comes here.
pub(super) fn shown(told: &CoreReply) -> &'static str {
    match told {
        CoreReply::Asked(Reply::Accepted(1)) => "accepted 1",
        CoreReply::Asked(Reply::Accepted(2)) => "accepted 2",
        CoreReply::Noted => "noted",
        CoreReply::FeedsOpen(1) => "one feed open",
        CoreReply::Over => "over",
        CoreReply::Ahead(1) => "ahead of 1",
        CoreReply::Newer(1) => "newer is 1",
        CoreReply::Closed(Mark::Optimal(24)) => "closed at 24",
        CoreReply::AllOut(1) => "one out",
        CoreReply::Gone(0) => "0 is gone",
        CoreReply::Grown(0) => "grown 0",
        CoreReply::Grown(1) => "grown 1",
        CoreReply::Invalid(Fault::FixingUnmet(1)) => "fixing 1 is unmet",
        CoreReply::NotBetter(24) => "not better than 24",
        CoreReply::Published(24) => "published 24",
        CoreReply::StillOpen { node: 1, bound: 24 } => "leaf 1 open for 24",
        CoreReply::StillOpen { node: 2, bound: 18 } => "leaf 2 open for 18",
        CoreReply::StillOpen { node: 2, bound: 0 } => "leaf 2 open for 0",
        CoreReply::NotSpent(0) => "0 spent",
        CoreReply::Settled(Verdict::Optimal(24)) => "optimal 24",
        _ => "another",
    }
}

/// Takes a step.
pub(super) fn step(rt: &impl Abort, alloc: Global, core: &mut Core, event: CoreEvent) -> CoreReply
    requires run { IsRun core.old }
    requires may { MayStep core.old event }
    ensures steps { Steps core.old event result core.new }
    ensures run { IsRun core.new }
{
    match core.step(alloc, event) {
        Ok(told) => told,
        Err(StepNo::Memory(_)) => panic!(rt; "no memory is left"),
    }
}

/// Takes a step whose reply is this.
pub(super) fn check(rt: &impl Abort, alloc: Global, core: &mut Core, event: CoreEvent, wanted: &str)
    requires run { IsRun core.old }
    requires may { MayStep core.old event }
    ensures run { IsRun core.new }
{
    let told = step(rt, alloc, core, event);
    assert_eq!(rt; shown(&told), wanted);
}

/// Takes a leaf for a searcher.
pub(super) fn taken(
    rt: &impl Abort,
    alloc: Global,
    core: &mut Core,
    searcher: u32,
    edition: u32,
    want: u32,
) -> Work
    requires run { IsRun core.old }
    ensures run { IsRun core.new }
{
    let event = CoreEvent::Take {
        searcher,
        edition,
        want,
    };
    match step(rt, alloc, core, event) {
        CoreReply::Taken(work) => work,
        _ => panic!(rt; "no leaf is taken"),
    }
}

/// Searcher 0 takes a leaf of an edition for one branch: its number, its allowance, its place in
/// the history and the best cost are these.
pub(super) fn taken_so(
    rt: &impl Abort,
    alloc: Global,
    core: &mut Core,
    edition: u32,
    wanted: (u128, u32, u64, Option<u64>),
) -> Work
    requires run { IsRun core.old }
    ensures run { IsRun core.new }
{
    let work = taken(rt, alloc, core, 0, edition, 1);
    let seen = (work.node, work.allowance, work.seen, work.best);
    assert_eq!(rt; seen, wanted);
    work
}

/// What grows at the node of a work, from the root of a graph.
fn growth(
    rt: &impl Abort,
    alloc: Global,
    problem: &Problem,
    graph: &mut Graph,
    work: &Work,
) -> (List<PackedNode>, List<u64>)
    requires problem { graph.old.problem ≡ problem.now }
    requires edition { IsOfEdition graph.old }
    ensures grown { IsGrownAt problem.now graph.old.fixings work.now result.0 result.1 }
{
    let mut means = means_of(rt, alloc, problem, Rule::Fixed);
    let grown = grow(
        alloc,
        problem,
        &means.reckoning,
        graph,
        &mut means.known,
        work,
        work.best,
        &mut means.guide,
    );
    drop(means);
    match grown {
        Ok(Growth::Subtree { nodes, bounds, .. }) => (nodes, bounds),
        _ => panic!(rt; "nothing grows"),
    }
}

/// The same from the root of these fixings.
fn growth_at(
    rt: &impl Abort,
    alloc: Global,
    problem: &Problem,
    work: &Work,
    fixings: &[Fixing],
) -> (List<PackedNode>, List<u64>)
    requires edition { IsOfEdition (node_at problem.now fixings.now []) }
    ensures grown { IsGrownAt problem.now fixings.now work.now result.0 result.1 }
{
    let mut graph = graph_of(rt, alloc, problem, fixings);
    let grown = growth(rt, alloc, problem, &mut graph, work);
    drop(graph);
    grown
}

/// What a searcher makes of the leaf of a work under these fixings.
fn grown(
    rt: &impl Abort,
    alloc: Global,
    problem: &Problem,
    work: Work,
    fixings: &[Fixing],
) -> Fragment
    requires edition { IsOfEdition (node_at problem.now fixings.now []) }
    ensures work { result.work ≡ work }
    ensures grown { IsGrownAt problem.now fixings.now result.work result.subtree result.bounds }
{
    let (subtree, bounds) = growth_at(rt, alloc, problem, &work, fixings);
    Fragment {
        work,
        subtree,
        bounds,
    }
}

/// What a searcher makes of the leaf of a work of the newest edition.
pub(super) fn grown_newest(rt: &impl Abort, alloc: Global, core: &Core, work: Work) -> Fragment
    ensures edition { result.work.edition ≡ newest core.now.history }
    ensures grown { IsGrownAt core.now.problem (edition_of core.now.history) result.work
        result.subtree result.bounds }
{
    assert_eq!(rt; work.edition, core.edition());
    let fixings = core.fixings(alloc).expect(rt, "fixings");
    grown(rt, alloc, core.problem(), work, fixings.as_slice())
}

/// What grows where nothing is fixed is handed in, whatever has been fixed since.
pub(super) fn check_first(rt: &impl Abort, alloc: Global, core: &mut Core, work: Work, wanted: &str)
    requires run { IsRun core.old }
    ensures run { IsRun core.new }
{
    assert!(rt; work.edition == 0);
    let fragment = grown(rt, alloc, core.problem(), work, &[]);
    let event = CoreEvent::Grow {
        searcher: 0,
        fragment,
    };
    check(rt, alloc, core, event, wanted);
}

/// What grows under the newest edition is handed in.
pub(super) fn check_newest(
    rt: &impl Abort,
    alloc: Global,
    core: &mut Core,
    work: Work,
    wanted: &str,
)
    requires run { IsRun core.old }
    ensures run { IsRun core.new }
{
    let fragment = grown_newest(rt, alloc, core, work);
    let event = CoreEvent::Grow {
        searcher: 0,
        fragment,
    };
    check(rt, alloc, core, event, wanted);
}

/// A plan is published, with this reply.
pub(super) fn check_plan(
    rt: &impl Abort,
    alloc: Global,
    core: &mut Core,
    edition: u32,
    plan: Plan,
    wanted: &str,
)
    requires run { IsRun core.old }
    requires plan { All (λ e. e.time ≤ 24) plan }
    ensures run { IsRun core.new }
{
    check(
        rt,
        alloc,
        core,
        CoreEvent::Publish { edition, plan },
        wanted,
    );
}

/// Searcher 1 wants a leaf of an edition, and gets this reply.
pub(super) fn check_take(
    rt: &impl Abort,
    alloc: Global,
    core: &mut Core,
    edition: u32,
    wanted: &str,
)
    requires run { IsRun core.old }
    ensures run { IsRun core.new }
{
    let take = CoreEvent::Take {
        searcher: 1,
        edition,
        want: 1,
    };
    check(rt, alloc, core, take, wanted);
}

/// Line by line a feed asks for a change.
pub(super) fn check_ask(
    rt: &impl Abort,
    alloc: Global,
    core: &mut Core,
    line: u64,
    change: Change,
    wanted: &str,
)
    requires run { IsRun core.old }
    ensures run { IsRun core.new }
{
    let ask = CoreEvent::Ask {
        feed: 0,
        line,
        change,
    };
    check(rt, alloc, core, ask, wanted);
}

/// A work comes back unexamined.
pub(super) fn check_back(rt: &impl Abort, alloc: Global, core: &mut Core, work: Work, wanted: &str)
    requires run { IsRun core.old }
    ensures run { IsRun core.new }
{
    let back = CoreEvent::GiveBack {
        work,
        examined: false,
    };
    check(rt, alloc, core, back, wanted);
}
