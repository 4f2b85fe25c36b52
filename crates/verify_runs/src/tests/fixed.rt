// What `verify` prints where the plan is to meet fixings.
use super::judged::{SECOND, TWO};
use super::runs::{ends, place_counted};
use outside_in_memory::MemShelf;
use std::process::Abort;
use std::sync::Wait;
use std::thread::Threads;

const VERIFY: [&str; 5] = ["verify", "p", "s", "--fixings", "f"];

// The solution of cost 18 is judged so with a file of fixings.
fn row(
    rt: &(impl Threads + Wait + Sync + Abort + AllocGlobal),
    fixings: &[u8],
    status: u8,
    line: &str,
) {
    let mut shelf = MemShelf::new(rt.alloc());
    place_counted(rt, &mut shelf, "p", TWO.as_bytes());
    place_counted(rt, &mut shelf, "s", SECOND.as_bytes());
    place_counted(rt, &mut shelf, "f", fixings);
    ends(rt, &mut shelf, &VERIFY, status, line);
}

// Fixings, the status, and the line.
type Row = (&'static str, u8, &'static str);

// So it is in each row.
fn rows(rt: &(impl Threads + Wait + Sync + Abort + AllocGlobal), rows: &[Row]) {
    for (fixings, status, line) in rows {
        row(rt, fixings.as_bytes(), *status, line);
    }
}

const MET_OR_NOT: &[Row] = &[
    ("", 0, "valid 18\n"),
    ("started 0 0 0\n", 1, "FixingUnmet 1\n"),
    ("started 1 0 0\n", 0, "valid 18\n"),
    ("started 1 0 0\r\n", 0, "valid 18\n"),
    ("started 1 0 0", 0, "valid 18\n"),
    (
        "started 1 0 0\nstarted 1 0 0\nchosen 0 0 1\n",
        0,
        "valid 18\n",
    ),
];

#[test]
fn fixings_are_met_or_not(rt: HostRuntime) {
    rows(&rt, MET_OR_NOT);
}

const NO_SOONER: &[Row] = &[
    ("notbefore 0 0 4\n", 0, "valid 18\n"),
    ("notbefore 0 0 5\n", 1, "FixingUnmet 1\n"),
    ("notbefore 1 0 20\nnotbefore 1 0 20\n", 1, "FixingUnmet 1\n"),
    (
        "notbefore 1 0 20\nstarted 1 0 5\n",
        2,
        "fixings line 2: refused EarliestIs 20\n",
    ),
    (
        "started 1 0 20\nnotbefore 1 0 30\n",
        2,
        "fixings line 2: refused StartedAt 20\n",
    ),
    (
        "notbefore 0 0 2147483648\n",
        2,
        "fixings line 1: refused TooLarge\n",
    ),
];

#[test]
fn an_operation_starts_no_sooner(rt: HostRuntime) {
    rows(&rt, NO_SOONER);
}

const TAKEN_BACK: &[Row] = &[
    ("started 0 0 0\nwithdraw 1\n", 0, "valid 18\n"),
    ("withdraw 1\n", 2, "fixings line 1: refused NoSuchChange\n"),
    (
        "started 0 0 0\nwithdraw 1\nwithdraw 1\n",
        2,
        "fixings line 3: refused Withdrawn 2\n",
    ),
    (
        "started 0 0 0\nwithdraw 1\nwithdraw 2\n",
        2,
        "fixings line 3: refused NoSuchChange\n",
    ),
];

#[test]
fn a_fixing_is_taken_back(rt: HostRuntime) {
    rows(&rt, TAKEN_BACK);
}

const NOT_TAKEN: &[Row] = &[
    (
        "started 0 0 0\nstarted 0 0 7\n",
        2,
        "fixings line 2: refused StartedAt 0\n",
    ),
    ("show\n", 2, "fixings line 1: unreadable\n"),
    ("\n", 2, "fixings line 1: unreadable\n"),
    ("started 0 0\n", 2, "fixings line 1: unreadable\n"),
    ("started 00 0 0\n", 2, "fixings line 1: unreadable\n"),
    ("started 0 0 0 \n", 2, "fixings line 1: unreadable\n"),
    (
        "started 0 0 18446744073709551616\n",
        2,
        "fixings line 1: unreadable\n",
    ),
    ("chosen 0 1 0\n", 2, "fixings line 1: refused NoSuccessor\n"),
    (
        "started 0 0 2147483648\n",
        2,
        "fixings line 1: refused TooLarge\n",
    ),
    ("started 2 0 0\n", 2, "fixings line 1: refused NoTrain\n"),
];

#[test]
fn a_line_that_is_not_taken_is_told(rt: HostRuntime) {
    rows(&rt, NOT_TAKEN);
    let long = [b'x'; 257];
    row(&rt, &long[1..], 2, "fixings line 1: unreadable\n");
    row(&rt, &long, 2, "fixings line 1: long\n");
}

#[test]
fn fixings_that_cannot_be_read_are_told(rt: HostRuntime) {
    let mut shelf = MemShelf::new(rt.alloc());
    place_counted(&rt, &mut shelf, "p", TWO.as_bytes());
    ends(&rt, &mut shelf, &VERIFY, 4, "fixings: Failed\n");
    assert_eq!(rt; (shelf.faults("f"), shelf.faults("s")), (1, 0));
}
