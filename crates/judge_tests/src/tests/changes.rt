// Each reply comes where it should, and only an accepted fixing is kept.
use disp_model::{Change, Fixing, Refusal, Reply};
use fixing_editions::Editions;
use std::panic::Expect;
use std::process::Abort;
use worked_problems::{forked, two_trains, windowed};

/// A change: a train, an operation, and a time or a next operation; or the number of a change.
#[derive(Clone, Copy)]
enum Ask {
    Started(u64, u64, u64),
    Chosen(u64, u64, u64),
    NotBefore(u64, u64, u64),
    Withdraw(u64),
}

fn change_of(ask: Ask) -> Change {
    match ask {
        Ask::Started(at_train, at_op, time) => Change::Fix(Fixing::Started {
            at_train,
            at_op,
            time,
        }),
        Ask::Chosen(at_train, at_op, next) => Change::Fix(Fixing::Chosen {
            at_train,
            at_op,
            next,
        }),
        Ask::NotBefore(at_train, at_op, time) => Change::Fix(Fixing::NotBefore {
            at_train,
            at_op,
            time,
        }),
        Ask::Withdraw(number) => Change::Withdraw { number },
    }
}

/// What is asked for, and what is answered.
type Row = (Ask, Reply);

/// Changes that are asked for, one after the other, are answered so.
fn ask_all(rt: &impl Abort, editions: &mut Editions, rows: &[Row]) {
    for (ask, wanted) in rows {
        let reply = editions.ask(change_of(*ask)).expect(rt, "a reply");
        assert_eq!(rt; reply, *wanted);
    }
}

/// The changes are these.
fn check_changes(rt: &impl Abort, changes: &[Change], wanted: &[Ask]) {
    assert_eq!(rt; changes.len(), wanted.len());
    for (change, ask) in changes.iter().zip(wanted) {
        assert_eq!(rt; *change, change_of(*ask));
    }
}

/// The fixings are these.
fn check_fixings(rt: &impl Abort, fixings: &[Fixing], wanted: &[Ask]) {
    assert_eq!(rt; fixings.len(), wanted.len());
    for (fixing, ask) in fixings.iter().zip(wanted) {
        assert_eq!(rt; Change::Fix(*fixing), change_of(*ask));
    }
}

const ONCE: &[Row] = &[
    (Ask::Started(2, 0, 0), Reply::Refused(Refusal::NoTrain)),
    (Ask::Started(0, 2, 0), Reply::Refused(Refusal::NoOperation)),
    (Ask::Chosen(0, 1, 0), Reply::Refused(Refusal::NoSuccessor)),
    (
        Ask::Started(0, 0, 2147483648),
        Reply::Refused(Refusal::TooLarge),
    ),
    (Ask::Chosen(0, 0, 1), Reply::Accepted(1)),
    (Ask::Chosen(0, 0, 1), Reply::Known(1)),
    (Ask::Started(0, 0, 0), Reply::Accepted(2)),
    (Ask::Started(0, 0, 0), Reply::Known(2)),
    (Ask::Started(0, 0, 7), Reply::Refused(Refusal::StartedAt(0))),
    (Ask::Started(1, 0, 7), Reply::Accepted(3)),
    (Ask::Started(0, 0, 0), Reply::Known(2)),
];

const ACCEPTED: &[Ask] = &[
    Ask::Chosen(0, 0, 1),
    Ask::Started(0, 0, 0),
    Ask::Started(1, 0, 7),
];

#[test]
fn fixings_are_accepted_once(rt: HostRuntime) {
    let problem = two_trains(rt.alloc()).expect(&rt, "two trains");
    let mut editions = Editions::new(rt.alloc(), &problem).expect(&rt, "editions");
    ask_all(&rt, &mut editions, ONCE);
    check_changes(&rt, editions.changes(), ACCEPTED);
}

const NO_SOONER: &[Row] = &[
    (
        Ask::NotBefore(0, 0, 2147483648),
        Reply::Refused(Refusal::TooLarge),
    ),
    (Ask::NotBefore(1, 0, 20), Reply::Accepted(1)),
    (Ask::NotBefore(1, 0, 20), Reply::Known(1)),
    (Ask::NotBefore(1, 0, 7), Reply::Accepted(2)),
    (
        Ask::Started(1, 0, 5),
        Reply::Refused(Refusal::EarliestIs(20)),
    ),
    (Ask::Started(1, 0, 20), Reply::Accepted(3)),
    (
        Ask::NotBefore(1, 0, 30),
        Reply::Refused(Refusal::StartedAt(20)),
    ),
];

#[test]
fn an_operation_starts_no_sooner(rt: HostRuntime) {
    let problem = two_trains(rt.alloc()).expect(&rt, "two trains");
    let mut editions = Editions::new(rt.alloc(), &problem).expect(&rt, "editions");
    ask_all(&rt, &mut editions, NO_SOONER);
}

const TAKEN_BACK: &[Row] = &[
    (Ask::Withdraw(0), Reply::Refused(Refusal::NoSuchChange)),
    (Ask::Withdraw(1), Reply::Refused(Refusal::NoSuchChange)),
    (Ask::Started(0, 0, 0), Reply::Accepted(1)),
    (Ask::NotBefore(1, 0, 20), Reply::Accepted(2)),
    (Ask::NotBefore(1, 0, 7), Reply::Accepted(3)),
    (Ask::Withdraw(2), Reply::Accepted(4)),
    (Ask::Withdraw(2), Reply::Refused(Refusal::Withdrawn(4))),
    (Ask::Withdraw(4), Reply::Refused(Refusal::NoSuchChange)),
    (Ask::Withdraw(5), Reply::Refused(Refusal::NoSuchChange)),
    (
        Ask::Started(1, 0, 5),
        Reply::Refused(Refusal::EarliestIs(7)),
    ),
    (Ask::NotBefore(1, 0, 20), Reply::Accepted(5)),
    (Ask::NotBefore(1, 0, 20), Reply::Known(5)),
];

const STANDING: &[Ask] = &[
    Ask::Started(0, 0, 0),
    Ask::NotBefore(1, 0, 7),
    Ask::NotBefore(1, 0, 20),
];

#[test]
fn fixings_are_taken_back(rt: HostRuntime) {
    let problem = two_trains(rt.alloc()).expect(&rt, "two trains");
    let mut editions = Editions::new(rt.alloc(), &problem).expect(&rt, "editions");
    ask_all(&rt, &mut editions, TAKEN_BACK);
    check_fixings(&rt, editions.fixings(), STANDING);
}

const WINDOW: &[Row] = &[
    (
        Ask::Started(0, 0, 4),
        Reply::Refused(Refusal::BelowLower(5)),
    ),
    (
        Ask::Started(0, 0, 5),
        Reply::Refused(Refusal::AboveUpper(4)),
    ),
    (
        Ask::Started(0, 0, 4294967296),
        Reply::Refused(Refusal::TooLarge),
    ),
];

#[test]
fn times_lie_in_the_window(rt: HostRuntime) {
    let problem = windowed(rt.alloc(), 5, Some(4), 0).expect(&rt, "a train");
    let mut editions = Editions::new(rt.alloc(), &problem).expect(&rt, "editions");
    ask_all(&rt, &mut editions, WINDOW);
}

const ROUTES: &[Row] = &[
    (Ask::Started(0, 3, 9), Reply::Accepted(1)),
    (Ask::Chosen(0, 0, 2), Reply::Accepted(2)),
    (Ask::Chosen(0, 0, 1), Reply::Refused(Refusal::ChosenIs(2))),
    (Ask::Started(0, 1, 4), Reply::Refused(Refusal::NoRoute)),
    (Ask::Chosen(0, 1, 3), Reply::Refused(Refusal::NoRoute)),
    (Ask::Started(0, 2, 4), Reply::Accepted(3)),
    (Ask::Chosen(0, 2, 3), Reply::Accepted(4)),
];

#[test]
fn some_route_is_left(rt: HostRuntime) {
    let problem = forked(rt.alloc()).expect(&rt, "a fork");
    let mut editions = Editions::new(rt.alloc(), &problem).expect(&rt, "editions");
    ask_all(&rt, &mut editions, ROUTES);
}
