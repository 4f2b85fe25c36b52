// Runs of the program on files in memory, and what they are to end with.
use disp_outside::{OpenGate, Shelf, Sink};
use dispatch_cli::dispatch;
use outside_in_memory::{MemShelf, SteadyShelf, SteadySink};
use std::panic::Expect;
use std::process::Abort;
use std::sync::Wait;
use std::thread::Threads;
use word_lists::words_of;

// Two trains that share r: one holds it for 10, the other for 4. Each costs the start of its second
// operation.
pub(crate) const TWO: &str =
    r#"{"trains":[[{"min_duration":10,"resources":[{"resource":"r"}],"successors":[1]},{}],[{"min_duration":4,"resources":[{"resource":"r"}],"successors":[1]},{}]],"objective":[{"type":"op_delay","train":0,"operation":1,"coeff":1},{"type":"op_delay","train":1,"operation":1,"coeff":1}]}"#;

// A branch on the order of the two, with leaves of the costs 24 and 18.
pub(crate) const TREE: &str =
    "displib-tree 1\nverdict optimal 18\norder 0 0 1 0\ncosts 2\nwalk 0 0 0 0 1\nwalk 1 0 0 0 1 1 0 1 1\ncosts 2\nwalk 0 1 0 1 1 0 0 0 1\nwalk 1 1 0 1 1\nend\n";

// Its plan of cost 18.
pub(crate) const SECOND: &str =
    r#"{"events":[{"operation":0,"time":0,"train":1},{"operation":1,"time":4,"train":1},{"operation":0,"time":4,"train":0},{"operation":1,"time":14,"train":0}],"objective_value":18}"#;

// The status that the words end with, and whether the journal is empty.
pub(crate) fn run(
    rt: &(impl Threads + Wait + Sync + Abort + AllocGlobal),
    shelf: &mut impl Shelf,
    words: &[&str],
    out: &mut impl Sink,
) -> (u8, bool) {
    let words = words_of(rt.alloc(), words).expect(rt, "words");
    let done = dispatch(rt, rt.alloc(), &words, shelf, out, &OpenGate);
    (done.status, done.journal.is_empty())
}

// A run ended with this status and an empty journal, and wrote these lines.
fn is_so(rt: &impl Abort, ended: (u8, bool), written: &[u8], status: u8, lines: &str) {
    assert_eq!(rt;
        (ended, written),
        ((status, true), lines.as_bytes()),
        "{lines}"
    );
}

// The words end with this status and these lines, and the journal is empty.
pub(crate) fn ends(
    rt: &(impl Threads + Wait + Sync + Abort + AllocGlobal),
    shelf: &mut impl Shelf,
    words: &[&str],
    status: u8,
    lines: &str,
) {
    let mut out = SteadySink::new(rt.alloc());
    let ended = run(rt, shelf, words, &mut out);
    is_so(rt, ended, out.written(), status, lines);
}

// The shelf has this file.
pub(crate) fn place(rt: &impl Abort, shelf: &mut SteadyShelf, name: &str, text: &str) {
    shelf.place(name, text.as_bytes()).expect(rt, "a file");
}

// The shelf that counts faults has this file.
pub(crate) fn place_counted(rt: &impl Abort, shelf: &mut MemShelf, name: &str, bytes: &[u8]) {
    shelf.place(name, bytes, &[]).expect(rt, "a file");
}

// The file has this text still.
fn is_kept(rt: &impl Abort, file: &[u8], text: &str, lines: &str) {
    assert_eq!(rt; file, text.as_bytes(), "{lines}");
}

// The words give this status and these lines, for these files; nothing is put, and the journal is
// empty.
pub(crate) fn row(
    rt: &(impl Threads + Wait + Sync + Abort + AllocGlobal),
    words: &[&str],
    problem: &str,
    tree: &str,
    fixings: &str,
    plan: &str,
    status: u8,
    lines: &str,
) {
    let mut shelf = SteadyShelf::new(rt.alloc());
    place(rt, &mut shelf, "p", problem);
    place(rt, &mut shelf, "t", tree);
    place(rt, &mut shelf, "f", fixings);
    place(rt, &mut shelf, "s", plan);
    ends(rt, &mut shelf, words, status, lines);
    is_kept(rt, shelf.file("s"), plan, lines);
}
