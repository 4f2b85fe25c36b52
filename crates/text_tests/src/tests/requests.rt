// Lines of feeds as they are read.
use disp_model::{Change, Fixing};
use fixing_lines::{Request, read_request};
use std::process::Abort;

fn started(at_train: u64, at_op: u64, time: u64) -> Request {
    Request::Ask(Change::Fix(Fixing::Started {
        at_train,
        at_op,
        time,
    }))
}

fn chosen(at_train: u64, at_op: u64, next: u64) -> Request {
    Request::Ask(Change::Fix(Fixing::Chosen {
        at_train,
        at_op,
        next,
    }))
}

fn not_before(at_train: u64, at_op: u64, time: u64) -> Request {
    Request::Ask(Change::Fix(Fixing::NotBefore {
        at_train,
        at_op,
        time,
    }))
}

fn withdraw(number: u64) -> Request {
    Request::Ask(Change::Withdraw { number })
}

/// Asserts what a line is read as.
fn expect(rt: &impl Abort, line: &str, wanted: Request) {
    assert_eq!(rt; read_request(line.as_bytes()), wanted, "{line}");
}

const STARTED: &[(&str, u64, u64, u64)] = &[
    ("started 0 0 0", 0, 0, 0),
    ("started 12 345 6789", 12, 345, 6789),
    (
        "started 0 0 18446744073709551615",
        0,
        0,
        18446744073709551615,
    ),
    ("started 4294967296 0 0", 4294967296, 0, 0),
];

const WITHDRAWN: &[(&str, u64)] = &[
    ("withdraw 0", 0),
    ("withdraw 12", 12),
    ("withdraw 18446744073709551615", 18446744073709551615),
];

#[test]
fn lines_ask_for_starts(rt: HostRuntime) {
    for (line, at_train, at_op, time) in STARTED {
        expect(&rt, line, started(*at_train, *at_op, *time));
    }
}

#[test]
fn lines_take_changes_back(rt: HostRuntime) {
    for (line, number) in WITHDRAWN {
        expect(&rt, line, withdraw(*number));
    }
}

#[test]
fn lines_ask_for_other_changes_or_a_look(rt: HostRuntime) {
    expect(&rt, "show", Request::Show);
    expect(&rt, "chosen 0 0 1", chosen(0, 0, 1));
    expect(&rt, "notbefore 1 0 20", not_before(1, 0, 20));
}

const UNREADABLE: &[&str] = &[
    "",
    "started 0 0",
    "started 00 0 0",
    "started 0 0 0 ",
    "started 0 0 0 0",
    "started  0 0 0",
    "started 0 0 18446744073709551616",
    "started 0 18446744073709551616 0",
    "started 0 0 -1",
    "chosen 0 0",
    "notbefore 1 0",
    "not before 1 0 20",
    "withdraw",
    "withdraw 01",
    "withdraw 1 ",
    "withdraw 1 2",
    "withdraw 18446744073709551616",
    "Show",
    " show",
    "show ",
    "show\r",
];

#[test]
fn other_lines_are_unreadable(rt: HostRuntime) {
    for line in UNREADABLE {
        expect(&rt, line, Request::Unreadable);
    }
}
