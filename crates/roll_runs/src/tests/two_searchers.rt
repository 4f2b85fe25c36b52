// Two searchers share the tree of one problem.
use super::holds::Sign;
use super::rolled::steady_of;
use disp_model::Entry;
use disp_outside::{Gate, Point};
use dispatch_cli::dispatch;
use outside_in_memory::SteadySink;
use std::panic::Expect;
use std::process::Abort;
use std::sync::Wait;
use std::sync::atomic::AtomicU64;
use std::sync::atomic::Ordering::SeqCst;
use std::thread::Threads;
use word_lists::words_of;

/// The two searchers, as callers.
const FIRST: u32 = 256;

const SECOND: u32 = 257;

/// How far a searcher has come.
#[derive(Drop)]
struct Progress {
    works: AtomicU64,
    has_two: Sign,
}

impl Progress {
    /// It has had no work.
    fn new() -> Progress {
        Progress {
            works: AtomicU64::new(0),
            has_two: Sign::new(),
        }
    }

    /// It has one work more. With its third it is held until the other has two.
    fn go_on(&self, other: &Progress) {
        match self.works.fetch_add(1, SeqCst) {
            1 => self.has_two.give(),
            2 => other.has_two.wait(),
            _ => {}
        }
    }
}

/// Holds each searcher with its third work until the other has had two.
#[derive(Drop)]
struct Sharing {
    first: Progress,
    second: Progress,
}

impl Gate for Sharing {
    fn reach(&self, point: Point, caller: u32) {
        match (point, caller) {
            (Point::Fragment, FIRST) => self.first.go_on(&self.second),
            (Point::Fragment, SECOND) => self.second.go_on(&self.first),
            _ => {}
        }
    }
}

/// Eight trains on one block, for 10 each: what one of them costs by itself says little of what all
/// cost, so that much is to be branched.
const EIGHT: &str =
    r#"{"trains":[[{"min_duration":10,"resources":[{"resource":"r"}],"successors":[1]},{}],[{"min_duration":10,"resources":[{"resource":"r"}],"successors":[1]},{}],[{"min_duration":10,"resources":[{"resource":"r"}],"successors":[1]},{}],[{"min_duration":10,"resources":[{"resource":"r"}],"successors":[1]},{}],[{"min_duration":10,"resources":[{"resource":"r"}],"successors":[1]},{}],[{"min_duration":10,"resources":[{"resource":"r"}],"successors":[1]},{}],[{"min_duration":10,"resources":[{"resource":"r"}],"successors":[1]},{}],[{"min_duration":10,"resources":[{"resource":"r"}],"successors":[1]},{}]],"objective":[{"type":"op_delay","train":0,"operation":1,"coeff":1},{"type":"op_delay","train":1,"operation":1,"coeff":1},{"type":"op_delay","train":2,"operation":1,"coeff":1},{"type":"op_delay","train":3,"operation":1,"coeff":1},{"type":"op_delay","train":4,"operation":1,"coeff":1},{"type":"op_delay","train":5,"operation":1,"coeff":1},{"type":"op_delay","train":6,"operation":1,"coeff":1},{"type":"op_delay","train":7,"operation":1,"coeff":1}]}"#;

/// The searcher has an entry for what it grew.
fn has_grown(journal: &[Entry], number: u32) -> bool {
    for entry in journal {
        if let Entry::Grown { searcher, .. } = entry {
            if *searcher == number {
                return true;
            }
        }
    }
    false
}

/// The words of `solve` with two searchers and a budget of 500.
const SOLVE: &[&str] = &["solve", "p", "--workers", "2", "--budget", "500"];

/// They are run on that problem: whether the first and the second searcher have grown the tree.
fn run(rt: &(impl Threads + Wait + Sync + Abort + AllocGlobal), gate: &Sharing) -> (bool, bool) {
    let alloc = rt.alloc();
    let words = words_of(alloc, SOLVE).expect(rt, "words");
    let mut shelf = steady_of(rt, &[("p", EIGHT)]);
    let mut out = SteadySink::new(alloc);
    let done = dispatch(rt, alloc, &words, &mut shelf, &mut out, gate);
    let journal = done.journal.as_slice();
    (has_grown(journal, 0), has_grown(journal, 1))
}

/// Each searcher came in time for the other, and has grown the tree.
fn is_shared(rt: &impl Abort, gate: &Sharing, grown: (bool, bool)) {
    let seen = (
        gate.first.has_two.was_seen(),
        gate.second.has_two.was_seen(),
    );
    assert_eq!(rt;
        (seen, grown),
        ((true, true), (true, true)),
        "in time, grown"
    );
}

#[test]
fn each_of_two_searchers_grows_the_tree(rt: HostRuntime) {
    let gate = Sharing {
        first: Progress::new(),
        second: Progress::new(),
    };
    let grown = run(&rt, &gate);
    is_shared(&rt, &gate, grown);
}
