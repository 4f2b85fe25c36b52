// Each call of the outside fails in turn, for `verify`, `report` and `check`: the status is 4, what
// was written is a front of the answer, or the line for what was not read, and no feed is left
// open.
use super::runs::{SECOND, TREE, TWO, place_counted, run};
use outside_in_memory::{BrokenWrite, MemShelf, MemSink};
use std::panic::Expect;
use std::process::Abort;
use std::sync::Wait;
use std::thread::Threads;

const FIXINGS: &str = "started 1 0 0\n";

/// The call that fails.
#[derive(Clone, Copy, Debug)]
enum Failing {
    /// The first reading of this name, which holds this text, or the opening of its feed.
    Reading(&'static str, &'static str),
    /// This call of the feed of fixings.
    Line(u64),
    /// This write, behind so many bytes.
    Writing(u64, usize),
}

/// The files; the call of the shelf fails, if it is one of it.
fn fill(rt: &impl Abort, shelf: &mut MemShelf, failing: Failing) {
    place_counted(rt, shelf, "p", TWO.as_bytes());
    place_counted(rt, shelf, "f", FIXINGS.as_bytes());
    place_counted(rt, shelf, "t", TREE.as_bytes());
    place_counted(rt, shelf, "s", SECOND.as_bytes());
    match failing {
        Failing::Reading(name, text) => {
            shelf
                .place(name, text.as_bytes(), &[1])
                .expect(rt, "a file");
        }
        Failing::Line(call) => shelf.break_lines("f", &[call]).expect(rt, "a call"),
        Failing::Writing(_, _) => {}
    }
}

/// The write that fails, if one does.
fn broken_write(failing: Failing) -> BrokenWrite {
    match failing {
        Failing::Writing(call, sent) => BrokenWrite { call, sent },
        _ => BrokenWrite { call: 0, sent: 0 },
    }
}

/// The status is 4, this was written, and no feed is open.
fn is_so(rt: &impl Abort, failing: Failing, ended: (u8, u64), written: &[u8], wanted: &str) {
    assert_eq!(rt;
        (ended, written),
        ((4, 0), wanted.as_bytes()),
        "{failing:?}"
    );
}

/// Where the call fails, the words write this.
fn row(
    rt: &(impl Threads + Wait + Sync + Abort + AllocGlobal),
    words: &[&str],
    failing: Failing,
    written: &str,
) {
    let mut shelf = MemShelf::new(rt.alloc());
    fill(rt, &mut shelf, failing);
    let broken = [broken_write(failing)];
    let mut out = MemSink::new(rt.alloc(), &broken).expect(rt, "a sink");
    let (status, _) = run(rt, &mut shelf, words, &mut out);
    let ended = (status, shelf.open_feeds());
    is_so(rt, failing, ended, out.written(), written);
}

/// So it is in each row.
fn rows(
    rt: &(impl Threads + Wait + Sync + Abort + AllocGlobal),
    words: &[&str],
    rows: &[(Failing, &str)],
) {
    for (failing, written) in rows {
        row(rt, words, *failing, written);
    }
}

const JUDGING: &[(Failing, &str)] = &[
    (Failing::Reading("p", TWO), "problem: Failed\n"),
    (Failing::Reading("f", FIXINGS), "fixings: Failed\n"),
    (Failing::Line(1), "fixings: Failed\n"),
    (Failing::Line(2), "fixings: Failed\n"),
    (Failing::Reading("s", SECOND), "solution: Failed\n"),
    (Failing::Writing(1, 3), "val"),
];

#[test]
fn each_call_of_a_judging_fails_in_turn(rt: HostRuntime) {
    rows(&rt, &["verify", "p", "s", "--fixings", "f"], JUDGING);
}

const REPORT: &[(Failing, &str)] = &[
    (Failing::Reading("p", TWO), "problem: Failed\n"),
    (Failing::Reading("f", FIXINGS), "fixings: Failed\n"),
    (Failing::Line(2), "fixings: Failed\n"),
    (Failing::Reading("s", SECOND), "solution: Failed\n"),
    (Failing::Writing(1, 6), " train"),
    (
        Failing::Writing(2, 0),
        " train        start          end        delay         cost\n",
    ),
];

#[test]
fn each_call_of_a_report_fails_in_turn(rt: HostRuntime) {
    rows(&rt, &["report", "p", "s", "--fixings", "f"], REPORT);
}

const CHECK: &[(Failing, &str)] = &[
    (Failing::Reading("p", TWO), "problem: Failed\n"),
    (Failing::Reading("f", FIXINGS), "fixings: Failed\n"),
    (Failing::Line(1), "fixings: Failed\n"),
    (Failing::Line(2), "fixings: Failed\n"),
    (Failing::Reading("t", TREE), "tree: Failed\n"),
    (Failing::Reading("s", SECOND), "plan: Failed\n"),
    (Failing::Writing(1, 9), "accepted "),
];

#[test]
fn each_call_of_a_check_fails_in_turn(rt: HostRuntime) {
    let words = ["check", "p", "t", "--plan", "s", "--fixings", "f"];
    rows(&rt, &words, CHECK);
}
