// A searcher works while a feed changes the problem.
use super::holds::Sign;
use super::rolled::{ONE_BLOCK, goes_first, run, steady_of};
use disp_outside::{Gate, Point};
use outside_in_memory::SteadySink;
use std::process::Abort;

/// The first feed and the first searcher, as callers.
pub(crate) const FEED: u32 = 0;

pub(crate) const SEARCHER: u32 = 256;

/// What is written of the best plan where nothing is fixed, and then of the feed's line.
const BEST: &str =
    "plan 0 18 {\"events\":[{\"operation\":0,\"time\":0,\"train\":1},{\"operation\":1,\"time\":4,\"train\":1},{\"operation\":0,\"time\":4,\"train\":0},{\"operation\":1,\"time\":14,\"train\":0}],\"objective_value\":18}\nfeed 0 line 1 started 0 0 0 accepted 1\n";

/// Holds the feed before its line until the searcher has a work, and the searcher with that work
/// until the line is answered.
#[derive(Drop)]
struct Crossing {
    has_work: Sign,
    is_answered: Sign,
}

impl Gate for Crossing {
    fn reach(&self, point: Point, caller: u32) {
        match (point, caller) {
            (Point::Line, FEED) => self.has_work.wait(),
            (Point::Answered, FEED) => self.is_answered.give(),
            (Point::Fragment, SEARCHER) => {
                self.has_work.give();
                self.is_answered.wait();
            }
            _ => {}
        }
    }
}

/// The feed has seen that the searcher has a work, and the searcher that the line is answered.
fn crossed(rt: &impl Abort, gate: &Crossing) {
    let seen = (gate.has_work.was_seen(), gate.is_answered.was_seen());
    assert_eq!(rt; seen, (true, true), "the feed or the searcher gave up");
}

// One searcher, and a feed of one line.
#[test]
fn a_line_is_answered_while_a_searcher_has_a_work(rt: HostRuntime) {
    let gate = Crossing {
        has_work: Sign::new(),
        is_answered: Sign::new(),
    };
    let mut shelf = steady_of(&rt, &[("p", ONE_BLOCK), ("a", "started 0 0 0\n")]);
    let mut out = SteadySink::new(rt.alloc());
    let status = run(&rt, &mut shelf, &["roll", "p", "a"], &mut out, &gate);
    crossed(&rt, &gate);
    goes_first(&rt, status, out.written(), 0, BEST);
}
