// Feeds of files of the system, and of a reader that halts.
ghost use Rattle.std.specs.Prelude.{◌≡◌};

use super::file_shelves::path_of;
use disp_outside::{Feed, FeedLine, FeedNo, FileFeed, FileShelf, LineBuf, Shelf};
use fault_counts::Ticket;
use std::alloc::Global;
use std::io::{ErrorKind, Read};
use std::panic::Expect;
use std::process::Abort;
use std::{fs, io};

/// Asserts what a feed answers, and its lines where one is named.
fn check_lines<F: Feed>(rt: &impl Abort, feed: &mut F, rows: &[(FeedLine, Option<&str>)])
    ensures { F.name feed.new ≡ F.name feed.old }
{
    let mut line = LineBuf::new();
    for (told, text) in rows {
        assert_eq!(rt; feed.line(&mut line), *told);
        if let Some(text) = text {
            assert_eq!(rt; line.as_slice(), text.as_bytes());
        }
    }
}

/// The bytes of a file whose second line is longer than one read.
fn lines(rt: &impl Abort, alloc: Global) -> Vec<u8> {
    let mut bytes = Vec::new(alloc);
    bytes.extend_from_slice(b"one\r\n").expect(rt, "room");
    for _ in 0..9000 {
        bytes.push(b'a').expect(rt, "room");
    }
    bytes.extend_from_slice(b"\n\nlast\r").expect(rt, "room");
    bytes
}

const LINES: &[(FeedLine, Option<&str>)] = &[
    (FeedLine::Got, Some("one")),
    (FeedLine::Long, None),
    (FeedLine::Got, Some("")),
    (FeedLine::Got, Some("last\r")),
    (FeedLine::End, None),
    (FeedLine::End, None),
];

/// Asserts these answers of a feed of the name.
fn check_feed(
    rt: &impl Abort,
    alloc: Global,
    shelf: &mut impl Shelf,
    name: &str,
    rows: &[(FeedLine, Option<&str>)],
) {
    let mut feed = shelf.feed(alloc, name).expect(rt, "a feed");
    check_lines(rt, &mut feed, rows);
    shelf.close(feed);
}

#[test]
fn a_file_is_read_line_by_line(rt: HostRuntime) {
    let path = path_of(&rt, "feed").expect(&rt, "a path");
    let bytes = lines(&rt, rt.alloc());
    fs::write(&rt, path.as_str(), bytes.as_slice()).expect(&rt, "a file");
    let mut shelf = FileShelf::new(rt.alloc(), &rt);
    check_feed(&rt, rt.alloc(), &mut shelf, path.as_str(), LINES);
    fs::remove_file(&rt, path.as_str()).expect(&rt, "no file");
    assert_eq!(rt; shelf.faults(path.as_str()), 0);
}

#[test]
fn a_file_that_is_not_there_has_no_feed(rt: HostRuntime) {
    let path = path_of(&rt, "none").expect(&rt, "a path");
    let mut shelf = FileShelf::new(rt.alloc(), &rt);
    let refused = shelf.feed(rt.alloc(), path.as_str()).err();
    assert_eq!(rt;
        (refused, shelf.faults(path.as_str())),
        (Some(FeedNo::Failed), 1)
    );
}

const BROKEN: &[(FeedLine, Option<&str>)] = &[(FeedLine::Failed, None), (FeedLine::End, None)];

// A folder opens as a file, and no read of it works.
#[test]
fn a_fault_of_a_file_counts_when_its_feed_is_closed(rt: HostRuntime) {
    let path = path_of(&rt, "folder").expect(&rt, "a path");
    fs::create_dir(&rt, path.as_str()).expect(&rt, "a folder");
    let mut shelf = FileShelf::new(rt.alloc(), &rt);
    let mut feed = shelf.feed(rt.alloc(), path.as_str()).expect(&rt, "a feed");
    fs::remove_dir(&rt, path.as_str()).expect(&rt, "no folder");
    check_lines(&rt, &mut feed, BROKEN);
    assert_eq!(rt; shelf.faults(path.as_str()), 0);
    shelf.close(feed);
    assert_eq!(rt; shelf.faults(path.as_str()), 1);
}

// Gives one byte at a time, is interrupted before each second one, and breaks at its end.
#[derive(Drop)]
struct Halting<'a> {
    bytes: &'a [u8],
    reads: u32,
}

impl Read for Halting<'_> {
    fn read(&mut self, buf: &mut [u8]) -> io::Result<usize> {
        self.reads = self.reads.saturating_add(1);
        if self.reads.is_multiple_of(2) {
            return Err(io::Error::from(ErrorKind::Interrupted));
        }
        match (self.bytes, buf) {
            ([first, rest @ ..], [place, ..]) => {
                *place = *first;
                self.bytes = rest;
                Ok(1)
            }
            _ => Err(io::Error::from(ErrorKind::BrokenPipe)),
        }
    }
}

const PARTS: &[(FeedLine, Option<&str>)] = &[
    (FeedLine::Got, Some("ab")),
    (FeedLine::Got, Some("")),
    (FeedLine::Failed, None),
    (FeedLine::End, None),
];

#[test]
fn a_line_comes_in_parts(rt: HostRuntime) {
    let ticket = Ticket::new(rt.alloc(), "parts").expect(&rt, "room");
    let reader = Halting {
        bytes: b"ab\r\n\nc",
        reads: 0,
    };
    check_lines(&rt, &mut FileFeed::new(ticket, reader), PARTS);
}
