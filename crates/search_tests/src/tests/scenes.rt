// Two trains on one block, whose root is out when a train has started: what the core replies to two
// searchers and a feed, event by event.
ghost use Rattle.std.specs.Prelude.{◌≡◌, ◌≤◌, All};
ghost use Rattle.search_tests.specs.Scripts.{IsRun};

use super::parts::{Worked, problem_of};
use super::script::{
    check, check_ask, check_back, check_first, check_newest, check_plan, check_take, grown_newest,
    shown, step, taken, taken_so,
};
use disp_model::{Change, Copied, Event, Fixing, List, Plan, Rule, Settings};
use dispatch_core::{Core, CoreEvent};
use open_nodes::Work;
use std::alloc::Global;
use std::panic::Expect;
use std::process::Abort;

/// The start of an operation.
fn event(time: u64, train: u32, operation: u32) -> Event
    ensures { result.time ≡ time }
{
    Event {
        time,
        train,
        operation,
    }
}

/// The plan where train 1 goes first, which costs 18.
fn cheaper(rt: &impl Abort, alloc: Global) -> Plan
    ensures { All (λ e. e.time ≤ 24) result }
{
    let first = event(0, 1, 0);
    let second = event(4, 1, 1);
    let third = event(4, 0, 0);
    let last = event(14, 0, 1);
    let events = vec![in alloc; first, second, third, last];
    List::from_vec(events.expect(rt, "events"))
}

/// The plan where train 0 goes first, which costs 24.
fn dearer(rt: &impl Abort, alloc: Global) -> Plan
    ensures { All (λ e. e.time ≤ 24) result }
{
    let first = event(0, 0, 0);
    let second = event(10, 0, 1);
    let third = event(10, 1, 0);
    let last = event(14, 1, 1);
    let events = vec![in alloc; first, second, third, last];
    List::from_vec(events.expect(rt, "events"))
}

/// That train 0 has started on the block.
fn started() -> Change {
    Change::Fix(Fixing::Started {
        at_train: 0,
        at_op: 0,
        time: 0,
    })
}

/// The root goes out, a train starts meanwhile, and what grew of the root is still good.
fn check_change(rt: &impl Abort, alloc: Global, core: &mut Core)
    requires run { IsRun core.old }
    ensures run { IsRun core.new }
{
    let root = taken_so(rt, alloc, core, 0, (0, 1, 0, None));
    check_take(rt, alloc, core, 0, "one out");
    check_ask(rt, alloc, core, 1, started(), "accepted 1");
    check_first(rt, alloc, core, root, "grown 1");
    check_plan(rt, alloc, core, 0, cheaper(rt, alloc), "newer is 1");
    check_plan(rt, alloc, core, 1, cheaper(rt, alloc), "fixing 1 is unmet");
    check(
        rt,
        alloc,
        core,
        CoreEvent::Settle { edition: 1 },
        "leaf 1 open for 24",
    );
    check(rt, alloc, core, CoreEvent::Stop { edition: 1 }, "0 spent");
}

/// The other plan is published, and the last leaf that might be better is dead.
fn check_verdict(rt: &impl Abort, alloc: Global, core: &mut Core)
    requires run { IsRun core.old }
    ensures run { IsRun core.new }
{
    check_plan(rt, alloc, core, 1, dearer(rt, alloc), "published 24");
    check_plan(rt, alloc, core, 1, dearer(rt, alloc), "not better than 24");
    check(
        rt,
        alloc,
        core,
        CoreEvent::Settle { edition: 1 },
        "leaf 2 open for 18",
    );
    let leaf = taken_so(rt, alloc, core, 1, (2, 1, 3, Some(24)));
    check_newest(rt, alloc, core, leaf, "grown 0");
    check(
        rt,
        alloc,
        core,
        CoreEvent::Settle { edition: 1 },
        "optimal 24",
    );
    assert_eq!(rt; core.history().len(), 5);
}

/// The edition is closed, and a later one is not there; the feed ends, and nothing more comes.
fn check_end(rt: &impl Abort, alloc: Global, core: &mut Core)
    requires run { IsRun core.old }
    ensures run { IsRun core.new }
{
    check_take(rt, alloc, core, 1, "closed at 24");
    check_take(rt, alloc, core, 2, "ahead of 1");
    check(rt, alloc, core, CoreEvent::Next, "one feed open");
    check(rt, alloc, core, CoreEvent::FeedEnd { feed: 0 }, "noted");
    check(rt, alloc, core, CoreEvent::Next, "over");
}

/// The start is taken back, and the leaf that was dead by it may be better again.
fn check_withdrawal(rt: &impl Abort, alloc: Global, core: &mut Core)
    requires run { IsRun core.old }
    ensures run { IsRun core.new }
{
    check_ask(
        rt,
        alloc,
        core,
        2,
        Change::Withdraw { number: 1 },
        "accepted 2",
    );
    check(
        rt,
        alloc,
        core,
        CoreEvent::Settle { edition: 2 },
        "leaf 2 open for 0",
    );
    check_plan(rt, alloc, core, 2, dearer(rt, alloc), "not better than 24");
}

/// A work with the same fields.
fn same(rt: &impl Abort, work: &Work) -> Work {
    Work {
        node: work.node,
        bound: work.bound,
        edition: work.edition,
        decisions: work.decisions.copy().expect(rt, "decisions"),
        best: work.best,
        seen: work.seen,
        allowance: work.allowance,
    }
}

/// What is free of a budget of 3 goes out with the root, which comes back once.
fn check_root(rt: &impl Abort, alloc: Global, core: &mut Core)
    requires run { IsRun core.old }
    ensures run { IsRun core.new }
{
    let root = taken(rt, alloc, core, 0, 0, 32);
    assert!(rt; root.allowance == 3);
    let again = same(rt, &root);
    check_back(rt, alloc, core, root, "noted");
    check_back(rt, alloc, core, again, "0 is gone");
}

/// What may be grown at a leaf that a searcher takes.
fn allowance(rt: &impl Abort, alloc: Global, core: &mut Core, searcher: u32) -> u32
    requires run { IsRun core.old }
    ensures run { IsRun core.new }
{
    taken(rt, alloc, core, searcher, 0, 2).allowance
}

/// What is free is shared out between two leaves.
fn check_shares(rt: &impl Abort, alloc: Global, core: &mut Core)
    requires run { IsRun core.old }
    ensures run { IsRun core.new }
{
    check_root(rt, alloc, core);
    let root = taken(rt, alloc, core, 0, 0, 32);
    check_first(rt, alloc, core, root, "grown 1");
    let first = allowance(rt, alloc, core, 0);
    let second = allowance(rt, alloc, core, 1);
    assert_eq!(rt; (first, second), (2, 0));
}

/// A leaf whose node is dead by a start is handed in when that was taken back: it shows nothing.
fn check_late(rt: &impl Abort, alloc: Global, core: &mut Core)
    requires run { IsRun core.old }
    ensures run { IsRun core.new }
{
    let leaf = taken(rt, alloc, core, 0, 1, 1);
    let fragment = grown_newest(rt, alloc, core, leaf);
    let ask = CoreEvent::Ask {
        feed: 0,
        line: 2,
        change: Change::Withdraw { number: 1 },
    };
    let told = step(rt, alloc, core, ask);
    assert_eq!(rt; shown(&told), "accepted 2");
    let event = CoreEvent::Grow {
        searcher: 0,
        fragment,
    };
    check(rt, alloc, core, event, "grown 0");
    check(
        rt,
        alloc,
        core,
        CoreEvent::Settle { edition: 2 },
        "leaf 2 open for 0",
    );
}

/// A run of two trains on one block, with one feed and two searchers.
fn begun(rt: &impl Abort, alloc: Global, budget: u32) -> Core
    ensures { IsRun result }
{
    let problem = problem_of(rt, alloc, Worked::Trains);
    let settings = Settings {
        budget,
        rule: Rule::Fixed,
    };
    let core = Core::new(alloc, &problem, settings, 1, 2).expect(rt, "a core");
    drop(problem);
    core
}

/// How a run goes on behind a start, or from its begin.
#[derive(Clone, Copy)]
enum Scene {
    /// To a verdict, and to its end.
    End,
    /// To a verdict, behind which the start is taken back.
    Withdrawal,
    /// The start is taken back while a leaf is out.
    Late,
    /// A budget is shared out.
    Shares,
}

/// The run goes so.
fn play(rt: &impl Abort, alloc: Global, core: &mut Core, scene: Scene)
    requires { IsRun core.old }
{
    match scene {
        Scene::End => {
            check_change(rt, alloc, core);
            check_verdict(rt, alloc, core);
            check_end(rt, alloc, core);
        }
        Scene::Withdrawal => {
            check_change(rt, alloc, core);
            check_verdict(rt, alloc, core);
            check_withdrawal(rt, alloc, core);
        }
        Scene::Late => {
            check_change(rt, alloc, core);
            check_plan(rt, alloc, core, 1, dearer(rt, alloc), "published 24");
            check_late(rt, alloc, core);
        }
        Scene::Shares => check_shares(rt, alloc, core),
    }
}

/// A run with this budget goes so.
fn run(rt: &impl Abort, alloc: Global, budget: u32, scene: Scene) {
    let mut core = begun(rt, alloc, budget);
    play(rt, alloc, &mut core, scene);
    drop(core);
}

#[test]
fn a_train_starts_while_the_root_is_out(rt: HostRuntime) {
    run(&rt, rt.alloc(), 1, Scene::End);
}

#[test]
fn a_start_is_taken_back_behind_a_verdict(rt: HostRuntime) {
    run(&rt, rt.alloc(), 1, Scene::Withdrawal);
}

#[test]
fn a_start_is_taken_back_while_a_leaf_is_out(rt: HostRuntime) {
    run(&rt, rt.alloc(), 1, Scene::Late);
}

#[test]
fn a_budget_is_shared_out(rt: HostRuntime) {
    run(&rt, rt.alloc(), 3, Scene::Shares);
}
