// Each call of the outside fails in turn, for `roll` with two feeds and trees: the status is 4,
// what was written is a front of the journal, or the line for what was not read, and no feed is
// left open.
use super::rolled::{ONE_BLOCK, has_lines, run, shelf_of, text_of};
use disp_outside::OpenGate;
use outside_in_memory::{BrokenWrite, MemShelf, MemSink};
use std::panic::Expect;
use std::process::Abort;
use std::sync::Wait;
use std::thread::Threads;

const FIRST: &str = "started 0 0 0\nbogus\n";

const SECOND: &str = "bogus\n";

/// The problem and the feeds.
const FILES: &[(&str, &str)] = &[("p", ONE_BLOCK), ("a", FIRST), ("b", SECOND)];

const ROLL: &[&str] = &["roll", "p", "a", "b", "--trees", "t"];

/// The call that fails.
#[derive(Clone, Copy, Debug)]
enum Failing {
    /// The first reading of this name, which holds this text, or the opening of its feed.
    Reading(&'static str, &'static str),
    /// This call of the feed of this name.
    Line(&'static str, u64),
    /// This putting.
    Putting(u64),
    /// This write, behind none of its bytes.
    Writing(u64),
}

/// What is written then.
#[derive(Clone, Copy)]
enum Written {
    /// This alone.
    Alone(&'static str),
    /// Lines that answer the first feed so, and the second.
    Answers(&'static [&'static str], &'static [&'static str]),
    /// So many lines, and nothing behind them.
    Lines(u64),
    /// No line of a verdict.
    NoVerdict,
}

/// The call of the shelf fails, if it is one of it.
fn break_shelf(rt: &impl Abort, shelf: &mut MemShelf, failing: Failing) {
    match failing {
        Failing::Reading(name, text) => {
            shelf.place(name, text.as_bytes(), &[1]).expect(rt, "room");
        }
        Failing::Line(name, call) => shelf.break_lines(name, &[call]).expect(rt, "room"),
        Failing::Putting(call) => shelf.break_puts(&[call]).expect(rt, "room"),
        Failing::Writing(_) => {}
    }
}

/// The write that fails, if one does.
fn broken_write(failing: Failing) -> BrokenWrite {
    match failing {
        Failing::Writing(call) => BrokenWrite { call, sent: 0 },
        _ => BrokenWrite { call: 0, sent: 0 },
    }
}

/// How many lines the text has.
fn count(text: &str) -> u64 {
    let mut count = 0_u64;
    for byte in text.as_bytes() {
        if *byte == b'\n' {
            count = count.saturating_add(1);
        }
    }
    count
}

/// The text is what is written.
fn is_written(text: &str, written: Written) -> bool {
    match written {
        Written::Alone(line) => text == line,
        Written::Answers(first, second) => {
            has_lines(text, "feed 0 ", first) && has_lines(text, "feed 1 ", second)
        }
        Written::Lines(lines) => {
            count(text) == lines && (text.is_empty() || text.ends_with("\n"))
        }
        Written::NoVerdict => has_lines(text, "settled ", &[]),
    }
}

/// A run ended with the status 4 and no open feed, and what it wrote, this text, is right.
fn is_so(rt: &impl Abort, failing: Failing, ended: (u8, u64), told: bool, text: &str) {
    assert_eq!(rt; (ended, told), ((4, 0), true), "{failing:?} {text}");
}

/// These bytes are what is written then.
fn has_told(
    rt: &(impl Abort + AllocGlobal),
    failing: Failing,
    ended: (u8, u64),
    bytes: &[u8],
    written: Written,
) {
    let text = text_of(rt, bytes);
    let told = is_written(text.as_str(), written);
    is_so(rt, failing, ended, told, text.as_str());
}

/// Where the call fails, this is written.
fn fails(
    rt: &(impl Threads + Wait + Sync + Abort + AllocGlobal),
    failing: Failing,
    written: Written,
) {
    let mut shelf = shelf_of(rt, FILES);
    break_shelf(rt, &mut shelf, failing);
    let mut out = MemSink::new(rt.alloc(), &[broken_write(failing)]).expect(rt, "room");
    let status = run(rt, &mut shelf, ROLL, &mut out, &OpenGate);
    let ended = (status, shelf.open_feeds());
    has_told(rt, failing, ended, out.written(), written);
}

/// So it is for each row.
fn all_fail(rt: &(impl Threads + Wait + Sync + Abort + AllocGlobal), rows: &[(Failing, Written)]) {
    for (failing, written) in rows {
        fails(rt, *failing, *written);
    }
}

const READINGS: &[(Failing, Written)] = &[
    (
        Failing::Reading("p", ONE_BLOCK),
        Written::Alone("problem: Failed\n"),
    ),
    (
        Failing::Reading("a", FIRST),
        Written::Alone("feed 0: Failed\n"),
    ),
    (
        Failing::Reading("b", SECOND),
        Written::Alone("feed 1: Failed\n"),
    ),
];

#[test]
fn each_reading_fails_in_turn(rt: HostRuntime) {
    all_fail(&rt, READINGS);
}

/// The answers to the first feed, and to the second.
const BOTH: &[&str] = &[
    "feed 0 line 1 started 0 0 0 accepted 1",
    "feed 0 line 2 unreadable",
];

const ONE: &[&str] = &["feed 0 line 1 started 0 0 0 accepted 1"];

const OTHER: &[&str] = &["feed 1 line 1 unreadable"];

const FEED_LINES: &[(Failing, Written)] = &[
    (Failing::Line("a", 1), Written::Answers(&[], OTHER)),
    (Failing::Line("a", 2), Written::Answers(ONE, OTHER)),
    (Failing::Line("a", 3), Written::Answers(BOTH, OTHER)),
    (Failing::Line("b", 1), Written::Answers(BOTH, &[])),
    (Failing::Line("b", 2), Written::Answers(BOTH, OTHER)),
];

#[test]
fn each_line_of_a_feed_fails_in_turn(rt: HostRuntime) {
    all_fail(&rt, FEED_LINES);
}

const WRITES: &[(Failing, Written)] = &[
    (Failing::Writing(1), Written::Lines(0)),
    (Failing::Writing(2), Written::Lines(1)),
    (Failing::Writing(3), Written::Lines(2)),
    (Failing::Writing(4), Written::Lines(3)),
];

// The lines before the one that is not written, and nothing of it or behind it.
#[test]
fn each_write_fails_in_turn(rt: HostRuntime) {
    all_fail(&rt, WRITES);
}

// No line of a verdict is written whose tree is not put.
#[test]
fn a_putting_fails(rt: HostRuntime) {
    fails(&rt, Failing::Putting(1), Written::NoVerdict);
}
