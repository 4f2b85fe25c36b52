// Each fault comes first where it should, and a valid plan is answered with its cost.
use disp_model::{Event, Fixing, List, Plan, Problem};
use solution_verifier::{Fault, verify};
use std::alloc::Global;
use std::panic::Expect;
use std::process::Abort;
use worked_problems::{no_trains, swap, two_trains, two_trains_released, windowed};

/// An event: its time, train and operation.
type Start = (u64, u32, u32);

/// What is answered to a plan of events.
fn answer(
    rt: &impl Abort,
    alloc: Global,
    problem: &Problem,
    fixings: &[Fixing],
    events: &[Start],
    stated: Option<u64>,
) -> Result<u128, Fault> {
    let mut plan: Plan = List::new(alloc);
    for (time, train, operation) in events {
        let event = Event {
            time: *time,
            train: *train,
            operation: *operation,
        };
        plan.push(event).expect(rt, "room");
    }
    verify(problem, fixings, &plan, stated)
}

/// Events, and what is answered to a plan of them.
type Row = (&'static [Start], Result<u128, Fault>);

/// This is answered to a plan without fixings or a stated cost.
fn check(
    rt: &impl Abort,
    alloc: Global,
    problem: &Problem,
    events: &[Start],
    wanted: Result<u128, Fault>,
) {
    assert_eq!(rt; answer(rt, alloc, problem, &[], events, None), wanted);
}

/// The same for each row of a table.
fn check_all(rt: &impl Abort, alloc: Global, problem: &Problem, rows: &[Row]) {
    for (events, wanted) in rows {
        check(rt, alloc, problem, events, *wanted);
    }
}

const EVENTS: &[Row] = &[
    (&[(0, 2, 0)], Err(Fault::UnknownTrain(0))),
    (&[(0, 0, 2)], Err(Fault::UnknownOperation(0))),
    (&[(4, 1, 0), (0, 0, 0)], Err(Fault::TimeBackwards(1))),
    (&[(0, 0, 1)], Err(Fault::NotEntry(0))),
    (&[(0, 0, 0), (10, 0, 0)], Err(Fault::NotSuccessor(1))),
    (&[(0, 0, 0), (9, 0, 1)], Err(Fault::TooShort(1))),
];

#[test]
fn an_event_is_judged_by_its_train(rt: HostRuntime) {
    let two = two_trains(rt.alloc()).expect(&rt, "two trains");
    check_all(&rt, rt.alloc(), &two, EVENTS);
}

const WINDOWS: &[Row] = &[
    (&[(4, 0, 0)], Err(Fault::TooEarly(0))),
    (&[(5, 0, 0)], Err(Fault::TooLate(0))),
];

#[test]
fn an_event_is_judged_by_its_window(rt: HostRuntime) {
    let one = windowed(rt.alloc(), 5, Some(4), 0).expect(&rt, "a train");
    check_all(&rt, rt.alloc(), &one, WINDOWS);
}

#[test]
fn an_upper_itself_is_in_time(rt: HostRuntime) {
    let one = windowed(rt.alloc(), 4, Some(4), 1).expect(&rt, "a train");
    check(&rt, rt.alloc(), &one, &[(4, 0, 0)], Ok(4));
}

const HELD: &[Row] = &[(&[(0, 0, 0), (4, 1, 0)], Err(Fault::Held(0, 1, 0)))];

#[test]
fn a_resource_is_held_until_its_train_goes_on(rt: HostRuntime) {
    let two = two_trains(rt.alloc()).expect(&rt, "two trains");
    check_all(&rt, rt.alloc(), &two, HELD);
}

const NOT_RELEASED: &[Row] = &[(
    &[(0, 0, 0), (10, 0, 1), (12, 1, 0), (16, 1, 1)],
    Err(Fault::Held(0, 2, 0)),
)];

#[test]
fn a_resource_is_held_until_its_release(rt: HostRuntime) {
    let released = two_trains_released(rt.alloc(), 3).expect(&rt, "two trains");
    check_all(&rt, rt.alloc(), &released, NOT_RELEASED);
}

const SWAPPED: &[Row] = &[(
    &[
        (0, 0, 0),
        (0, 1, 0),
        (10, 0, 1),
        (10, 1, 1),
        (10, 0, 2),
        (10, 1, 2),
    ],
    Err(Fault::Held(1, 2, 1)),
)];

#[test]
fn resources_are_not_swapped_at_once(rt: HostRuntime) {
    let two = swap(rt.alloc()).expect(&rt, "a swap");
    check_all(&rt, rt.alloc(), &two, SWAPPED);
}

const EXITS: &[Row] = &[
    (&[(0, 0, 0), (10, 0, 1)], Err(Fault::Incomplete(1))),
    (&[(0, 0, 0), (10, 0, 1), (10, 1, 0), (14, 1, 1)], Ok(24)),
];

#[test]
fn each_train_reaches_its_exit(rt: HostRuntime) {
    let two = two_trains(rt.alloc()).expect(&rt, "two trains");
    check_all(&rt, rt.alloc(), &two, EXITS);
}

/// The plan with the fast train first, under these fixings and with this stated cost.
fn check_fast(
    rt: &impl Abort,
    alloc: Global,
    two: &Problem,
    fixings: &[Fixing],
    stated: Option<u64>,
    wanted: Result<u128, Fault>,
) {
    let events = [(0, 1, 0), (4, 1, 1), (4, 0, 0), (14, 0, 1)];
    let found = answer(rt, alloc, two, fixings, &events, stated);
    assert_eq!(rt; found, wanted);
}

fn check_stated(rt: &impl Abort, alloc: Global, two: &Problem) {
    let wrong = Err(Fault::WrongCost(17, 18));
    check_fast(rt, alloc, two, &[], Some(17), wrong);
    check_fast(rt, alloc, two, &[], Some(18), Ok(18));
    check_fast(rt, alloc, two, &[], None, Ok(18));
}

/// The first operation of a train starts at 0.
fn started(at_train: u64) -> Fixing {
    Fixing::Started {
        at_train,
        at_op: 0,
        time: 0,
    }
}

fn not_before(at_op: u64, time: u64) -> Fixing {
    Fixing::NotBefore {
        at_train: 0,
        at_op,
        time,
    }
}

fn check_starts(rt: &impl Abort, alloc: Global, two: &Problem) {
    let onward = Fixing::Chosen {
        at_train: 1,
        at_op: 0,
        next: 1,
    };
    let unmet = Err(Fault::FixingUnmet(1));
    check_fast(rt, alloc, two, &[started(0)], None, unmet);
    check_fast(rt, alloc, two, &[started(1), onward], None, Ok(18));
    let unmet = Err(Fault::FixingUnmet(2));
    check_fast(rt, alloc, two, &[started(1), started(0)], None, unmet);
}

#[test]
fn a_valid_plan_has_its_cost(rt: HostRuntime) {
    let two = two_trains(rt.alloc()).expect(&rt, "two trains");
    check_stated(&rt, rt.alloc(), &two);
    check_starts(&rt, rt.alloc(), &two);
}

fn check_not_before(rt: &impl Abort, alloc: Global, two: &Problem) {
    check_fast(rt, alloc, two, &[not_before(0, 4)], None, Ok(18));
    let fixings = [not_before(0, 4), not_before(0, 5)];
    check_fast(rt, alloc, two, &fixings, None, Err(Fault::FixingUnmet(2)));
    check_fast(rt, alloc, two, &[not_before(7, 5)], None, Ok(18));
}

#[test]
fn an_operation_starts_no_sooner_or_is_not_run(rt: HostRuntime) {
    let two = two_trains(rt.alloc()).expect(&rt, "two trains");
    check_not_before(&rt, rt.alloc(), &two);
}

#[test]
fn no_trains_cost_nothing(rt: HostRuntime) {
    check(&rt, rt.alloc(), &no_trains(rt.alloc()), &[], Ok(0));
}

#[test]
fn a_cost_may_pass_64_bits(rt: HostRuntime) {
    let one = windowed(rt.alloc(), 0, None, 2147483647).expect(&rt, "a train");
    let events = [(4611686018427387904, 0, 0)];
    let cost = 9903520309671356180765605888;
    check(&rt, rt.alloc(), &one, &events, Ok(cost));
}

/// This is the text of a fault, behind what stands there.
fn check_text(rt: &impl Abort, alloc: Global, problem: &Problem, fault: Fault, wanted: &str) {
    let mut text = String::from_str(alloc, "- ").expect(rt, "a text");
    fault.write(problem, &mut text).expect(rt, "a text");
    assert_eq!(rt; text.as_str(), wanted);
}

const TEXTS: &[(Fault, &str)] = &[
    (Fault::UnknownTrain(0), "- UnknownTrain 0"),
    (Fault::Held(0, 1, 0), "- Held 0 1 \"r\""),
    (Fault::Incomplete(1), "- Incomplete 1"),
    (Fault::FixingUnmet(1), "- FixingUnmet 1"),
    (Fault::WrongCost(17, 18), "- WrongCost 17 18"),
];

#[test]
fn a_fault_is_written_with_its_numbers(rt: HostRuntime) {
    let two = two_trains(rt.alloc()).expect(&rt, "two trains");
    for (fault, wanted) in TEXTS {
        check_text(&rt, rt.alloc(), &two, *fault, wanted);
    }
}
