// Nogoods: which are met, and what they prompt.
use super::parts::{Worked, problem_of, root};
use conflict_reasons::{Nogoods, Past, Reasons};
use disp_model::{Choice, Decision, Op};
use std::alloc::Global;
use std::panic::Expect;
use std::process::Abort;

/// The decisions that are taken, one behind the other.
const FIRST: Decision = Decision::Run(Op { train: 0, op: 1 });

const SECOND: Decision = Decision::Skip(Op { train: 0, op: 2 });

const THIRD: Decision = Decision::Go {
    op: Op { train: 0, op: 0 },
    next: 1,
};

/// Nogoods with one: that the first and the third decision close a node, as the branch at place 7
/// shows.
fn learned(rt: &impl Abort, alloc: Global) -> Nogoods {
    let problem = problem_of(rt, alloc, Worked::Fork);
    let graph = root(rt, alloc, &problem);
    let mut past = Past::new(alloc, &problem, &[], &graph).expect(rt, "a past");
    past.push(FIRST).expect(rt, "a decision");
    past.push(SECOND).expect(rt, "a decision");
    past.push(THIRD).expect(rt, "a decision");
    let reasons = Reasons::marked(alloc, &[true, false, true]).expect(rt, "reasons");
    let mut nogoods = Nogoods::new(alloc);
    nogoods
        .add(alloc, &past, &reasons, 7)
        .expect(rt, "a nogood");
    nogoods.give_all_back();
    drop(reasons);
    drop(past);
    drop(graph);
    drop(problem);
    nogoods
}

/// The place and the branch of a nogood that is met as a decision is taken at a place.
fn met(
    rt: &impl Abort,
    alloc: Global,
    nogoods: &mut Nogoods,
    decision: Decision,
    place: usize,
) -> Option<(usize, usize)> {
    let met = nogoods.take(alloc, decision, place).expect(rt, "a step")?;
    let first = met.reasons.places().first().copied()?;
    Some((first, met.branch))
}

#[test]
fn a_nogood_is_met_when_the_last_of_its_decisions_is_taken(rt: HostRuntime) {
    let alloc = rt.alloc();
    let mut nogoods = learned(&rt, alloc);
    assert_eq!(rt; met(&rt, alloc, &mut nogoods, FIRST, 0), None);
    assert_eq!(rt; met(&rt, alloc, &mut nogoods, SECOND, 1), None);
    assert_eq!(rt; met(&rt, alloc, &mut nogoods, THIRD, 2), Some((0, 7)));
    nogoods.give_back(THIRD);
    nogoods.give_back(SECOND);
    nogoods.give_back(FIRST);
    assert_eq!(rt; met(&rt, alloc, &mut nogoods, THIRD, 2), None);
    drop(nogoods);
}

#[test]
fn a_nogood_prompts_the_choice_of_the_only_decision_that_is_not_taken(rt: HostRuntime) {
    let alloc = rt.alloc();
    let mut nogoods = learned(&rt, alloc);
    let none = nogoods.prompts(alloc).expect(&rt, "prompts");
    assert!(rt; none.is_empty());
    assert_eq!(rt; met(&rt, alloc, &mut nogoods, FIRST, 0), None);
    let one = nogoods.prompts(alloc).expect(&rt, "prompts");
    assert_eq!(rt;
        one.first().copied(),
        Some(Choice::Route(Op { train: 0, op: 0 }))
    );
    assert_eq!(rt; one.len(), 1);
    drop(one);
    drop(none);
    drop(nogoods);
}
