// A caller that is generic over the traits, and says by their ghost members what it does.
ghost use Rattle.std.specs.Prelude.{◌≡◌, ◌≢◌, ◌<◌, ◌↔◌, ◌⊎◌, List, ℕ, [], Ok, Err, OnOk, IfSome, IsErrOf};
ghost use Rattle.std.specs.Io.KnownBytes.{append_known};
ghost use Rattle.disp_outside.specs.Lines.{feed_lines};

use super::steady_shelf;
use disp_outside::{
    Feed, FeedLine, FeedNo, FetchNo, FileShelf, Gate, LineBuf, OpenGate, Point, Shelf, Sink,
    StandardOutput, WriteNo,
};
use outside_in_memory::{BrokenWrite, MemShelf, MemSink, SteadyShelf, SteadySink};
use std::alloc::Global;
use std::panic::Expect;
use std::process::Abort;
use std::thread;

#[derive(Clone, Copy, Debug, PartialEq)]
enum PrintNo {
    Fetch(FetchNo),
    Write(WriteNo),
}

// Writes what the name holds to the sink.
fn print_file<S: Shelf, O: Sink>(
    alloc: Global,
    shelf: &mut S,
    out: &mut O,
    name: &str,
) -> Result<(), PrintNo>
    ensures printed { OnOk result
        (IfSome ((S.state shelf.old).holds name.now) (λ file. IfSome file (λ bytes.
        (O.state out.new).written ≡ append_known (O.state out.old).written bytes))) }
    ensures fetch { IsErrOf result (PrintNo.Fetch FetchNo.Failed)
        ↔ ((S.state shelf.old).reading name.now < (S.state shelf.new).reading name.now) }
    ensures write { IsErrOf result (PrintNo.Write WriteNo.Failed)
        ↔ ((O.state out.old).faults < (O.state out.new).faults) }
    ensures others { (other : List ℕ) → other ≢ name.now → (S.state shelf.new).reading other
        ≡ (S.state shelf.old).reading other }
{
    let bytes = match shelf.fetch(alloc, name, 9) {
        Ok(bytes) => bytes,
        Err(no) => return Err(PrintNo::Fetch(no)),
    };
    match out.write(&bytes) {
        Ok(()) => Ok(()),
        Err(no) => Err(PrintNo::Write(no)),
    }
}

// No fault is told of doubles that never fail.
fn print_steadily(
    alloc: Global,
    shelf: &mut SteadyShelf,
    out: &mut SteadySink,
) -> Result<(), PrintNo>
    ensures fetch { ¬ IsErrOf result (PrintNo.Fetch FetchNo.Failed) }
    ensures write { ¬ IsErrOf result (PrintNo.Write WriteNo.Failed) }
{
    print_file(alloc, shelf, out, "a")
}

// What the first line of the name comes to.
pub fn begin<S: Shelf>(
    alloc: Global,
    shelf: &mut S,
    name: &str,
    into: &mut LineBuf,
) -> Result<FeedLine, FeedNo>
    ensures failed { ((result ≡ Err FeedNo.Failed) ⊎ (result ≡ Ok FeedLine.Failed))
        ↔ ((S.state shelf.old).reading name.now < (S.state shelf.new).reading name.now) }
    ensures end { result ≡ Ok FeedLine.End
        → IfSome ((S.state shelf.old).holds name.now)
        (λ file. IfSome file (λ bytes. feed_lines bytes ≡ [])) }
    ensures others { (other : List ℕ) → other ≢ name.now → (S.state shelf.new).reading other
        ≡ (S.state shelf.old).reading other }
    ensures held { (other : List ℕ) → (S.state shelf.new).holds other
        ≡ (S.state shelf.old).holds other }
{
    let mut feed = shelf.feed(alloc, name)?;
    let answer = feed.line(into);
    shelf.close(feed);
    Ok(answer)
}

const FIRST_LINES: &[(&str, Result<FeedLine, FeedNo>, u64)] = &[
    ("a", Ok(FeedLine::Got), 0),
    ("b", Ok(FeedLine::Failed), 1),
    ("none", Err(FeedNo::Failed), 1),
];

/// Asserts what the first line of a name comes to, and how often its readings have failed then.
pub fn check_first_line(
    rt: &impl Abort,
    alloc: Global,
    shelf: &mut MemShelf,
    row: (&str, Result<FeedLine, FeedNo>, u64),
) {
    let told = begin(alloc, shelf, row.0, &mut LineBuf::new());
    assert_eq!(rt; (row.0, told, shelf.faults(row.0)), row);
}

/// The same for each row of a table.
pub fn check_first_lines(
    rt: &impl Abort,
    alloc: Global,
    shelf: &mut MemShelf,
    rows: &[(&str, Result<FeedLine, FeedNo>, u64)],
) {
    for row in rows {
        check_first_line(rt, alloc, shelf, *row);
    }
}

#[test]
fn a_caller_sees_each_fault_of_a_feed(rt: HostRuntime) {
    let mut shelf = MemShelf::new(rt.alloc());
    shelf.place("a", b"one\n", &[]).expect(&rt, "room");
    shelf.place("b", b"one\n", &[]).expect(&rt, "room");
    shelf.break_lines("b", &[1]).expect(&rt, "room");
    check_first_lines(&rt, rt.alloc(), &mut shelf, FIRST_LINES);
}

const PRINTS: &[(&str, Result<(), PrintNo>, &str)] = &[
    ("a", Ok(()), "abc"),
    ("a", Err(PrintNo::Fetch(FetchNo::Failed)), "abc"),
    ("a", Err(PrintNo::Write(WriteNo::Failed)), "abcab"),
    ("long", Err(PrintNo::Fetch(FetchNo::TooLong)), "abcab"),
    ("none", Err(PrintNo::Fetch(FetchNo::Failed)), "abcab"),
    ("a", Ok(()), "abcababc"),
];

/// Asserts what each printing of the table answers, and what is written then.
fn check_prints(rt: &impl Abort, alloc: Global, shelf: &mut MemShelf, out: &mut MemSink) {
    for (name, want, written) in PRINTS {
        let told = print_file(alloc, shelf, out, name);
        let wanted = (*name, *want, written.as_bytes());
        assert_eq!(rt; (*name, told, out.written()), wanted);
    }
}

/// Asserts which faults there are then.
fn check_faults(rt: &impl Abort, shelf: &MemShelf, out: &MemSink) {
    let (short, long) = (shelf.faults("a"), shelf.faults("long"));
    let faults = (short, long, shelf.faults("none"), out.faults());
    assert_eq!(rt; faults, (1, 0, 1, 1));
}

#[test]
fn a_caller_sees_each_fault(rt: HostRuntime) {
    let mut shelf = MemShelf::new(rt.alloc());
    shelf.place("a", b"abc", &[2]).expect(&rt, "room");
    shelf.place("long", b"0123456789", &[]).expect(&rt, "room");
    let broken = [BrokenWrite { call: 2, sent: 2 }];
    let mut out = MemSink::new(rt.alloc(), &broken).expect(&rt, "a sink");
    check_prints(&rt, rt.alloc(), &mut shelf, &mut out);
    check_faults(&rt, &shelf, &out);
}

/// Asserts that doubles that never fail print `a`, and nothing of `b`.
fn check_steady(rt: &impl Abort, alloc: Global, shelf: &mut SteadyShelf, out: &mut SteadySink) {
    let first = print_steadily(alloc, shelf, out);
    let second = print_file(alloc, shelf, out, "b");
    assert_eq!(rt; (first, second), (Ok(()), Ok(())));
    let held = (out.written(), shelf.file("a"), shelf.file("b"));
    let wanted = (b"abc".as_slice(), b"abc".as_slice(), b"".as_slice());
    assert_eq!(rt; held, wanted);
}

#[test]
fn steady_doubles_never_fail(rt: HostRuntime) {
    let mut shelf = steady_shelf(&rt, rt.alloc(), b"abc");
    let mut out = SteadySink::new(rt.alloc());
    check_steady(&rt, rt.alloc(), &mut shelf, &mut out);
}

// Two threads share a gate, and each has shelves and sinks of its own.
#[test]
fn threads_share_a_gate(rt: HostRuntime) {
    let alloc = rt.alloc();
    let gate = OpenGate;
    let (mut steady, mut memory) = (SteadyShelf::new(alloc), MemShelf::new(alloc));
    let mut files = FileShelf::new(alloc, rt);
    let mut told = MemSink::new(alloc, &[]).expect(&rt, "a sink");
    let mut kept = SteadySink::new(alloc);
    let mut printed = StandardOutput::new(rt.stdout());
    let answers = thread::join(
        &rt,
        || {
            gate.reach(Point::Line, 0);
            let first = print_file(alloc, &mut steady, &mut printed, "a");
            (first, print_file(alloc, &mut memory, &mut kept, "a"))
        },
        || {
            gate.reach(Point::Fragment, 256);
            print_file(alloc, &mut files, &mut told, "none/a")
        },
    );
    let failed = Err(PrintNo::Fetch(FetchNo::Failed));
    assert_eq!(rt; answers, ((Ok(()), failed), failed));
}
