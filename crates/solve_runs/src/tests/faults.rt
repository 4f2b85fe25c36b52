// What is printed where the outside fails, and the status.
use super::doubles::{ClosedShelf, breaks, ends, shelf_of};
use outside_in_memory::{BrokenWrite, MemShelf};
use std::panic::Expect;
use std::process::Abort;
use std::sync::Wait;
use std::thread::Threads;

const PROBLEM: &str =
    r#"{"trains":[[{"min_duration":5,"successors":[1]},{}]],"objective":[{"type":"op_delay","train":0,"operation":1,"threshold":3,"coeff":2,"increment":1}]}"#;

const PLAN: &str =
    "{\"events\":[{\"operation\":0,\"time\":0,\"train\":0},{\"operation\":1,\"time\":5,\"train\":0}],\"objective_value\":5}\n";

/// `solve p`.
const SOLVE: &[&str] = &["solve", "p"];

/// `solve p`, with a name for its plan.
const PLANNED: &[&str] = &["solve", "p", "--plan", "out"];

/// A shelf on which the problem is there, and cannot be read the first time.
fn unread(rt: &(impl Abort + AllocGlobal)) -> MemShelf {
    let mut shelf = MemShelf::new(rt.alloc());
    let placed = shelf.place("p", PROBLEM.as_bytes(), &[1]);
    placed.expect(rt, "room");
    shelf
}

/// The problem cannot be read, which is told once.
fn is_failed(rt: &(impl Threads + Wait + Sync + Abort + AllocGlobal), mut shelf: MemShelf) {
    ends(rt, &mut shelf, SOLVE, 4, "problem: Failed\n");
    assert!(rt; shelf.faults("p") == 1);
}

/// A closed shelf gives this status and this line.
fn is_refused(
    rt: &(impl Threads + Wait + Sync + Abort + AllocGlobal),
    all_too_long: bool,
    status: u8,
    line: &str,
) {
    let mut shelf = ClosedShelf { all_too_long };
    ends(rt, &mut shelf, SOLVE, status, line);
}

#[test]
fn a_file_that_cannot_be_had_is_told(rt: HostRuntime) {
    is_failed(&rt, MemShelf::new(rt.alloc()));
    is_failed(&rt, unread(&rt));
    is_refused(&rt, true, 2, "problem: TooLong\n");
    is_refused(&rt, false, 5, "memory\n");
}

/// Calls of the sink, with how many bytes of each are written, and what is written in all.
const BROKEN: &[(u64, usize, &str)] = &[
    (1, 0, ""),
    (1, 4, "edit"),
    (2, 3, "edition 0\nopt"),
    (3, 1, "edition 0\noptimal 5\n{"),
];

/// Where this write breaks, `solve p` ends so, and this is written.
fn is_broken(
    rt: &(impl Threads + Wait + Sync + Abort + AllocGlobal),
    write: BrokenWrite,
    problem: &str,
    status: u8,
    want: &str,
) -> u64 {
    let mut shelf = shelf_of(rt, &[("p", problem)]);
    breaks(rt, &mut shelf, &[write], SOLVE, status, want)
}

/// Each write that breaks ends the output so, and is told once.
fn end_the_output(
    rt: &(impl Threads + Wait + Sync + Abort + AllocGlobal),
    rows: &[(u64, usize, &str)],
) {
    for (call, sent, want) in rows {
        let write = BrokenWrite {
            call: *call,
            sent: *sent,
        };
        let faults = is_broken(rt, write, PROBLEM, 4, want);
        assert!(rt; faults == 1, "{want}");
    }
}

#[test]
fn a_write_that_breaks_ends_the_output(rt: HostRuntime) {
    end_the_output(&rt, BROKEN);
}

// A refusal keeps its status where its line breaks.
#[test]
fn a_refusal_that_breaks_keeps_its_status(rt: HostRuntime) {
    is_broken(&rt, BrokenWrite { call: 1, sent: 7 }, "{", 2, "problem");
}

// The name's file is there, with these bytes.
fn holds(shelf: &MemShelf, name: &str, bytes: &[u8]) -> bool {
    match shelf.file(name) {
        Some(file) => file == bytes,
        None => false,
    }
}

// Where the plan cannot be put, nothing is written, and the journal is whole.
#[test]
fn a_plan_that_cannot_be_put_ends_the_run(rt: HostRuntime) {
    let mut shelf = shelf_of(&rt, &[("p", PROBLEM), ("out", "old")]);
    shelf.break_puts(&[1]).expect(&rt, "room");
    let entries = ends(&rt, &mut shelf, PLANNED, 4, "");
    assert_eq!(rt; (entries, shelf.put_faults("out")), (3, 1));
}

#[test]
fn a_plan_is_put_before_the_answer_is_printed(rt: HostRuntime) {
    let mut shelf = shelf_of(&rt, &[("p", PROBLEM)]);
    breaks(
        &rt,
        &mut shelf,
        &[BrokenWrite { call: 1, sent: 0 }],
        PLANNED,
        4,
        "",
    );
    assert!(rt; holds(&shelf, "out", PLAN.as_bytes()));
}

/// A problem whose train starts too late.
const LATE: &str = r#"{"trains":[[{"start_lb":5,"start_ub":4}]],"objective":[]}"#;

#[test]
fn no_plan_is_put_where_there_is_none(rt: HostRuntime) {
    let mut shelf = shelf_of(&rt, &[("p", LATE), ("out", "old")]);
    let entries = ends(&rt, &mut shelf, PLANNED, 1, "edition 0\ninfeasible\n");
    assert!(rt; entries == 2);
    assert!(rt; holds(&shelf, "out", b"old"));
}
