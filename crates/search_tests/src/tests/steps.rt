// A run of a problem without trains, whose one plan has no events.
ghost use Rattle.std.specs.Prelude.{◌≡◌, []};
ghost use Rattle.dispatch_core.specs.declared.event.CoreEvent.TheVariants.{Take as TakeEvent, Publish as PublishEvent};
ghost use Rattle.dispatch_core.specs.Asked.{MayStep};

use disp_model::{Change, List, Refusal, Reply, Rule, Settings, Verdict};
use dispatch_core::{Core, CoreEvent, CoreReply, StepNo};
use open_nodes::Work;
use std::alloc::Global;
use std::panic::Expect;
use std::process::Abort;
use worked_problems::no_trains;

/// Takes a step.
fn step(rt: &impl Abort, alloc: Global, core: &mut Core, event: CoreEvent) -> CoreReply
    requires { MayStep core.old event }
{
    match core.step(alloc, event) {
        Ok(told) => told,
        Err(StepNo::Memory(_)) => panic!(rt; "no memory is left"),
    }
}

/// A reply as a text, as far as it comes here.
fn shown(told: &CoreReply) -> &'static str {
    match told {
        CoreReply::Asked(Reply::Refused(Refusal::NoSuchChange)) => "no such change",
        CoreReply::Noted => "noted",
        CoreReply::Work(0) => "work 0",
        CoreReply::FeedsOpen(1) => "one feed open",
        CoreReply::Over => "over",
        CoreReply::Ahead(0) => "ahead 0",
        CoreReply::Closed(_) => "closed",
        CoreReply::AllOut(1) => "one out",
        CoreReply::NotBetter(0) => "not better than 0",
        CoreReply::Published(0) => "published 0",
        CoreReply::StillOpen { node: 0, bound: 0 } => "leaf 0 open for 0",
        CoreReply::NotSpent(0) => "0 spent",
        CoreReply::Settled(Verdict::Optimal(0)) => "optimal 0",
        _ => "another",
    }
}

/// Takes a step whose reply is this.
fn check(rt: &impl Abort, alloc: Global, core: &mut Core, event: CoreEvent, wanted: &str)
    requires { MayStep core.old event }
{
    let told = step(rt, alloc, core, event);
    assert_eq!(rt; shown(&told), wanted);
}

/// Takes the only leaf for a searcher.
fn taken(rt: &impl Abort, alloc: Global, core: &mut Core) -> Work {
    let event = CoreEvent::Take {
        searcher: 0,
        edition: 0,
        want: 3,
    };
    match step(rt, alloc, core, event) {
        CoreReply::Taken(work) => work,
        _ => panic!(rt; "no leaf is taken"),
    }
}

fn take(edition: u32) -> CoreEvent
    ensures { result ≡ TakeEvent 1 edition 1 }
{
    CoreEvent::Take {
        searcher: 1,
        edition,
        want: 1,
    }
}

fn publish(alloc: Global) -> CoreEvent
    ensures { result ≡ PublishEvent 0 [] }
{
    CoreEvent::Publish {
        edition: 0,
        plan: List::new(alloc),
    }
}

/// The only leaf goes out and comes in again.
fn check_work(rt: &impl Abort, alloc: Global, core: &mut Core) {
    check(rt, alloc, core, CoreEvent::Next, "work 0");
    let work = taken(rt, alloc, core);
    assert_eq!(rt; (work.node, work.allowance, work.seen), (0, 1, 0));
    check(rt, alloc, core, take(0), "one out");
    check(rt, alloc, core, take(1), "ahead 0");
    let examined = false;
    check(
        rt,
        alloc,
        core,
        CoreEvent::GiveBack { work, examined },
        "noted",
    );
}

/// The plan is published, and is the best.
fn check_plan(rt: &impl Abort, alloc: Global, core: &mut Core) {
    check(
        rt,
        alloc,
        core,
        CoreEvent::Settle { edition: 0 },
        "leaf 0 open for 0",
    );
    check(rt, alloc, core, CoreEvent::Stop { edition: 0 }, "0 spent");
    check(rt, alloc, core, publish(alloc), "published 0");
    check(rt, alloc, core, publish(alloc), "not better than 0");
    check(
        rt,
        alloc,
        core,
        CoreEvent::Settle { edition: 0 },
        "optimal 0",
    );
    check(rt, alloc, core, CoreEvent::Settle { edition: 0 }, "closed");
    check(rt, alloc, core, CoreEvent::Next, "one feed open");
}

/// No change is there to be taken back.
fn check_change(rt: &impl Abort, alloc: Global, core: &mut Core) {
    let event = CoreEvent::Ask {
        feed: 0,
        line: 1,
        change: Change::Withdraw { number: 1 },
    };
    check(rt, alloc, core, event, "no such change");
    assert_eq!(rt; core.history().len(), 3);
}

#[test]
fn the_empty_plan_is_optimal(rt: HostRuntime) {
    let alloc = rt.alloc();
    let settings = Settings {
        budget: 1,
        rule: Rule::Fixed,
    };
    let mut core = Core::new(alloc, &no_trains(alloc), settings, 1, 2).expect(&rt, "a core");
    check_work(&rt, alloc, &mut core);
    check_plan(&rt, alloc, &mut core);
    check_change(&rt, alloc, &mut core);
    drop(core);
}
