// Targets of two trains on one block, and of a train that may go two ways.
use disp_model::{Event, Fixing, Memory, Op, Problem};
use std::alloc::Global;
use std::panic::Expect;
use std::process::Abort;
use train_insertion::{Target, target};
use worked_problems::{plain_fork, two_trains, two_trains_until};

/// When each of two trains starts in the block.
type Starts = (Option<u64>, Option<u64>);

/// When a train starts an operation.
fn start(target: &Target, train: u32, op: u32) -> Option<u64> {
    target.start_of(Op { train, op })
}

/// When each of two trains starts its first operation in the target after so many insertions.
fn starts(
    alloc: Global,
    problem: &Problem,
    fixings: &[Fixing],
    insertions: u32,
) -> Result<Starts, Memory> {
    let found = target(alloc, problem, fixings, insertions, &mut Vec::new(alloc))?;
    Ok((start(&found, 0, 0), start(&found, 1, 0)))
}

/// Asserts the starts of each row: fixings, insertions, and when both trains start.
fn check_starts(
    rt: &impl Abort,
    alloc: Global,
    problem: &Problem,
    rows: &[(&[Fixing], u32, Starts)],
) {
    for (fixings, insertions, wanted) in rows {
        let got = starts(alloc, problem, fixings, *insertions).expect(rt, "a target");
        assert_eq!(rt; got, *wanted);
    }
}

/// The order that costs less is found, a start is kept and comes first, and a train waits as long
/// as it must.
const TWO_TRAINS: &[(&[Fixing], u32, Starts)] = &[
    (&[], 0, (Some(0), Some(11))),
    (&[], 100, (Some(5), Some(0))),
    (
        &[Fixing::Started {
            at_train: 0,
            at_op: 0,
            time: 1,
        }],
        100,
        (Some(1), Some(12)),
    ),
    (
        &[Fixing::NotBefore {
            at_train: 1,
            at_op: 0,
            time: 30,
        }],
        100,
        (Some(0), Some(30)),
    ),
];

#[test]
fn two_trains_take_turns(rt: HostRuntime) {
    let problem = two_trains(rt.alloc()).expect(&rt, "a problem");
    check_starts(&rt, rt.alloc(), &problem, TWO_TRAINS);
}

const TOO_LATE: &[(&[Fixing], u32, Starts)] = &[(
    &[Fixing::NotBefore {
        at_train: 1,
        at_op: 0,
        time: 5,
    }],
    100,
    (Some(0), None),
)];

#[test]
fn a_train_that_finds_no_route_is_left_out(rt: HostRuntime) {
    let problem = two_trains_until(rt.alloc(), 4).expect(&rt, "a problem");
    check_starts(&rt, rt.alloc(), &problem, TOO_LATE);
}

/// What follows the entry of a train with two ways in the target that these fixings make.
fn way(alloc: Global, problem: &Problem, fixings: &[Fixing]) -> Result<Option<u32>, Memory> {
    let found = target(alloc, problem, fixings, 10, &mut Vec::new(alloc))?;
    Ok(found.next_of(Op { train: 0, op: 0 }))
}

/// The shorter way is taken, unless the other one is fixed.
const WAYS: &[(&[Fixing], u32)] = &[
    (&[], 2),
    (
        &[Fixing::Chosen {
            at_train: 0,
            at_op: 0,
            next: 1,
        }],
        1,
    ),
    (
        &[Fixing::Started {
            at_train: 0,
            at_op: 1,
            time: 7,
        }],
        1,
    ),
];

/// Asserts the way of each row.
fn check_ways(rt: &impl Abort, alloc: Global, problem: &Problem) {
    for (fixings, wanted) in WAYS {
        let next = way(alloc, problem, fixings).expect(rt, "a target");
        assert_eq!(rt; next, Some(*wanted));
    }
}

#[test]
fn a_train_goes_the_shorter_way(rt: HostRuntime) {
    let problem = plain_fork(rt.alloc()).expect(&rt, "a problem");
    check_ways(&rt, rt.alloc(), &problem);
}

const PLAN: &[Event] = &[
    Event {
        time: 0,
        train: 1,
        operation: 0,
    },
    Event {
        time: 2,
        train: 0,
        operation: 0,
    },
    Event {
        time: 4,
        train: 1,
        operation: 1,
    },
];

/// Asserts what a target of that plan says, which has both operations of one train and one of the
/// other.
fn check_plan(rt: &impl Abort, target: &Target) {
    let ways = (
        target.next_of(Op { train: 1, op: 0 }),
        target.next_of(Op { train: 1, op: 1 }),
    );
    assert_eq!(rt; ways, (Some(1), None));
    let starts = (
        start(target, 1, 1),
        start(target, 0, 0),
        start(target, 7, 0),
    );
    assert_eq!(rt; starts, (Some(4), Some(2), None));
}

#[test]
fn a_plan_is_a_target(rt: HostRuntime) {
    let problem = two_trains(rt.alloc()).expect(&rt, "a problem");
    let target = Target::of_plan(rt.alloc(), &problem, PLAN).expect(&rt, "a target");
    check_plan(&rt, &target);
}

#[test]
fn no_target_says_nothing(rt: HostRuntime) {
    let target = Target::none(rt.alloc());
    assert_eq!(rt; start(&target, 0, 0), None);
}
