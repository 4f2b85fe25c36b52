// Feeds in memory.
use super::callers::{begin, check_first_line, check_first_lines};
use super::steady_shelf;
use disp_outside::{Feed, FeedLine, FeedNo, LineBuf, Shelf};
use outside_in_memory::{MemFeed, MemShelf, SteadyFeed};
use std::alloc::Global;
use std::panic::Expect;
use std::process::Abort;

const LINES: &[&str] = &["show", "second", "", "r\rr\r", "", "last\r"];

/// Asserts that a feed gives these lines, and answers twice that there is none any more.
fn check_lines(rt: &impl Abort, feed: &mut SteadyFeed, wanted: &[&str]) {
    let mut line = LineBuf::new();
    for want in wanted {
        let told = feed.line(&mut line);
        assert_eq!(rt; (told, line.as_slice()), (FeedLine::Got, want.as_bytes()));
    }
    let ends = (feed.line(&mut line), feed.line(&mut line));
    assert_eq!(rt; ends, (FeedLine::End, FeedLine::End));
}

#[test]
fn lines_lack_their_ends(rt: HostRuntime) {
    let bytes = b"show\r\nsecond\n\nr\rr\r\r\n\r\nlast\r";
    let mut feed = SteadyFeed::new(rt.alloc(), "a", bytes).expect(&rt, "a feed");
    check_lines(&rt, &mut feed, LINES);
}

/// The bytes of each line, and what stands behind them.
const LONG_LINES: &[(u64, &str)] = &[(256, "\n"), (257, "\nnext\n"), (256, "\r\n")];

/// The lines of the table.
fn long_lines(rt: &impl Abort, alloc: Global) -> Vec<u8> {
    let mut bytes = Vec::new(alloc);
    for (count, end) in LONG_LINES {
        for _ in 0..*count {
            bytes.push(b'a').expect(rt, "room");
        }
        bytes.extend_from_slice(end.as_bytes()).expect(rt, "room");
    }
    bytes
}

const COUNTS: &[(FeedLine, usize)] = &[
    (FeedLine::Got, 256),
    (FeedLine::Long, 256),
    (FeedLine::Got, 4),
    (FeedLine::Long, 4),
    (FeedLine::End, 4),
];

/// Asserts what a feed of those lines answers, and how many bytes the line has then.
fn check_counts(rt: &impl Abort, feed: &mut SteadyFeed) {
    let mut line = LineBuf::new();
    for row in COUNTS {
        let told = feed.line(&mut line);
        assert_eq!(rt; (told, line.as_slice().len()), *row);
    }
}

#[test]
fn a_line_past_256_bytes_is_skipped(rt: HostRuntime) {
    let bytes = long_lines(&rt, rt.alloc());
    let mut feed = SteadyFeed::new(rt.alloc(), "a", &bytes).expect(&rt, "a feed");
    check_counts(&rt, &mut feed);
}

const ANSWERS: &[FeedLine] = &[
    FeedLine::Got,
    FeedLine::Failed,
    FeedLine::End,
    FeedLine::End,
];

/// Asserts what a feed answers.
fn check_answers(rt: &impl Abort, feed: &mut MemFeed) {
    let mut line = LineBuf::new();
    for want in ANSWERS {
        assert_eq!(rt; feed.line(&mut line), *want);
    }
}

#[test]
fn a_feed_ends_once_it_has_failed(rt: HostRuntime) {
    let bytes = b"one\ntwo\nthree\n";
    let mut feed = MemFeed::new(rt.alloc(), "a", bytes, &[3, 2]).expect(&rt, "a feed");
    check_answers(&rt, &mut feed);
}

/// What the first two lines of a name come to.
fn two_lines(alloc: Global, shelf: &mut MemShelf, name: &str) -> Option<(FeedLine, FeedLine)> {
    let Ok(mut feed) = shelf.feed(alloc, name) else {
        return None;
    };
    let mut line = LineBuf::new();
    let answers = (feed.line(&mut line), feed.line(&mut line));
    shelf.close(feed);
    Some(answers)
}

const REFUSED: &[(&str, Result<FeedLine, FeedNo>, u64)] = &[
    ("a", Err(FeedNo::Failed), 2),
    ("none", Err(FeedNo::Failed), 1),
];

/// Asserts the faults of feeds of `a`, one after the other, and that there is no `none`.
fn check_faults(rt: &impl Abort, alloc: Global, shelf: &mut MemShelf) {
    let got = ("a", Ok(FeedLine::Got), 0);
    check_first_line(rt, alloc, shelf, got);
    let second = two_lines(alloc, shelf, "a");
    let failed = Some((FeedLine::Got, FeedLine::Failed));
    assert_eq!(rt; (second, shelf.faults("a")), (failed, 1));
    check_first_lines(rt, alloc, shelf, REFUSED);
    assert!(rt; shelf.faults("a") == 2);
}

#[test]
fn a_fault_of_a_feed_counts_when_it_is_closed(rt: HostRuntime) {
    let mut shelf = MemShelf::new(rt.alloc());
    shelf.place("a", b"one\n", &[3]).expect(&rt, "room");
    shelf.break_lines("a", &[2]).expect(&rt, "room");
    check_faults(&rt, rt.alloc(), &mut shelf);
}

#[test]
fn a_steady_shelf_has_feeds(rt: HostRuntime) {
    let mut shelf = steady_shelf(&rt, rt.alloc(), b"one\n");
    let there = begin(rt.alloc(), &mut shelf, "a", &mut LineBuf::new());
    let none = begin(rt.alloc(), &mut shelf, "none", &mut LineBuf::new());
    assert_eq!(rt; (there, none), (Ok(FeedLine::Got), Ok(FeedLine::End)));
}
