// Searches of a fork, and of two trains on one block, on one thread.
use super::parts::{Worked, problem_of};
use disp_model::{Entry, Op, Problem, Rule, Settings, Verdict};
use dispatch_core::Core;
use search_workers::search_alone;
use std::alloc::Global;
use std::panic::Expect;
use std::process::Abort;
use train_insertion::{Target, target};

/// An entry of a search as a text.
fn shown(rt: &impl Abort, alloc: Global, entry: &Entry) -> String {
    let text = match entry {
        Entry::Grown { splits, .. } => format!(in alloc; "grown {}\n", splits.len()),
        Entry::Published { cost, .. } => format!(in alloc; "published {cost}\n"),
        Entry::Settled {
            verdict: Verdict::Optimal(cost),
            ..
        } => format!(in alloc; "optimal {cost}\n"),
        Entry::Settled { .. } => String::from_str(alloc, "infeasible\n"),
        Entry::Stopped { spent, bound, .. } => format!(in alloc; "stopped {spent} {bound}\n"),
        _ => String::from_str(alloc, "another\n"),
    };
    text.expect(rt, "a text")
}

/// The entries of a search as a text.
fn shown_all(rt: &impl Abort, alloc: Global, entries: &[Entry]) -> String {
    let mut text = String::new(alloc);
    for entry in entries {
        text.push_str(shown(rt, alloc, entry).as_str())
            .expect(rt, "a text");
    }
    text
}

/// What a search with this budget leaves.
fn searched(rt: &impl Abort, alloc: Global, problem: &Problem, rule: Rule, budget: u32) -> Core {
    let settings = Settings { budget, rule };
    let mut core = Core::new(alloc, problem, settings, 1, 1).expect(rt, "a core");
    search_alone(alloc, problem, settings, &mut core).expect(rt, "a search");
    core
}

/// A search with this budget makes these entries.
fn check(rt: &impl Abort, alloc: Global, problem: &Problem, rule: Rule, budget: u32, wanted: &str) {
    let core = searched(rt, alloc, problem, rule, budget);
    let text = shown_all(rt, alloc, core.history());
    drop(core);
    assert_eq!(rt; text.as_str(), wanted);
}

const FOUND: &str = "published 5\ngrown 1\noptimal 5\n";

/// The rule, the budget, and the entries that a search makes.
const SEARCHES: &[(Rule, u32, &str)] = &[
    (Rule::Fixed, 0, "grown 0\nstopped 0 3\n"),
    (Rule::Fixed, 1, FOUND),
    (Rule::Free, 0, "grown 0\nstopped 0 3\n"),
    (Rule::Free, 1, FOUND),
];

/// So it is for each row.
fn check_rows(rt: &impl Abort, alloc: Global, problem: &Problem, rows: &[(Rule, u32, &str)]) {
    for (rule, budget, wanted) in rows {
        check(rt, alloc, problem, *rule, *budget, wanted);
    }
}

#[test]
fn the_fork_is_searched(rt: HostRuntime) {
    let problem = problem_of(&rt, rt.alloc(), Worked::Fork);
    check_rows(&rt, rt.alloc(), &problem, SEARCHES);
    drop(problem);
}

/// When a train starts its first operation in the target.
fn start(target: &Target, train: u32) -> Option<u64> {
    target.start_of(Op { train, op: 0 })
}

/// Whether some train has no run in the target.
fn leaves_one_out(rt: &impl Abort, alloc: Global, problem: &Problem) -> bool {
    let target = target(alloc, problem, &[], 100, &mut Vec::new(alloc)).expect(rt, "a target");
    start(&target, 0).is_none() || start(&target, 1).is_none()
}

/// The last entry of a search with ample budget.
fn last(rt: &impl Abort, alloc: Global, problem: &Problem, rule: Rule) -> String {
    let core = searched(rt, alloc, problem, rule, 9);
    let text = shown(rt, alloc, core.history().last().expect(rt, "an entry"));
    drop(core);
    text
}

/// So ends a search with ample budget, where the target leaves a train out.
fn check_last(rt: &impl Abort, alloc: Global, worked: Worked, rule: Rule, wanted: &str) {
    let problem = problem_of(rt, alloc, worked);
    assert!(rt; leaves_one_out(rt, alloc, &problem));
    let text = last(rt, alloc, &problem, rule);
    drop(problem);
    assert_eq!(rt; text.as_str(), wanted);
}

// A target keeps trains one unit of time apart. Where the block is to be entered until 4, one train
// finds no time then, and yet there is a plan without such a gap; until 3 there is none at all.
#[test]
fn a_target_that_does_not_fit_changes_no_verdict(rt: HostRuntime) {
    check_last(&rt, rt.alloc(), Worked::Until4, Rule::Free, "optimal 18\n");
    check_last(&rt, rt.alloc(), Worked::Until3, Rule::Fixed, "infeasible\n");
}
