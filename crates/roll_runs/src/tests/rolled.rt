// Runs of `roll` on files and feeds in memory, and what to find in what they wrote.
use disp_outside::{Gate, OpenGate, Shelf, Sink};
use dispatch_cli::dispatch;
use outside_in_memory::{MemShelf, SteadyShelf, SteadySink};
use std::panic::Expect;
use std::process::Abort;
use std::sync::Wait;
use std::thread::Threads;
use word_lists::words_of;

/// Two trains on one block, for 10 and for 4.
pub(crate) const ONE_BLOCK: &str =
    r#"{"trains":[[{"min_duration":10,"resources":[{"resource":"r"}],"successors":[1]},{}],[{"min_duration":4,"resources":[{"resource":"r"}],"successors":[1]},{}]],"objective":[{"type":"op_delay","train":0,"operation":1,"coeff":1},{"type":"op_delay","train":1,"operation":1,"coeff":1}]}"#;

/// The plan of that problem where the train of 10 has started first, as it is written.
const STARTED_PLAN: &str =
    "plan 1 24 {\"events\":[{\"operation\":0,\"time\":0,\"train\":0},{\"operation\":1,\"time\":10,\"train\":0},{\"operation\":0,\"time\":10,\"train\":1},{\"operation\":1,\"time\":14,\"train\":1}],\"objective_value\":24}";

/// What is written of its verdict.
const STARTED_VERDICT: &str = "settled 1 optimal 24";

/// How many searchers there are, in turn.
pub(crate) const WORKERS: &[&str] = &["1", "2", "4"];

/// The words are run on the shelf and the sink, and threads ask the gate: the status.
pub(crate) fn run<S: Shelf, O: Sink, G: Gate>(
    rt: &(impl Threads + Wait + Sync + Abort + AllocGlobal),
    shelf: &mut S,
    words: &[&str],
    out: &mut O,
    gate: &G,
) -> u8 {
    let alloc = rt.alloc();
    let words = words_of(alloc, words).expect(rt, "words");
    let done = dispatch(rt, alloc, &words, shelf, out, gate);
    done.status
}

/// A shelf with these texts under these names.
pub(crate) fn shelf_of(rt: &(impl Abort + AllocGlobal), files: &[(&str, &str)]) -> MemShelf {
    let mut shelf = MemShelf::new(rt.alloc());
    for (name, text) in files {
        shelf.place(name, text.as_bytes(), &[]).expect(rt, "room");
    }
    shelf
}

/// Such a shelf that never fails.
pub(crate) fn steady_of(rt: &(impl Abort + AllocGlobal), files: &[(&str, &str)]) -> SteadyShelf {
    let mut shelf = SteadyShelf::new(rt.alloc());
    for (name, text) in files {
        shelf.place(name, text.as_bytes()).expect(rt, "room");
    }
    shelf
}

/// What was written, as a text.
pub(crate) fn text_of(rt: &(impl Abort + AllocGlobal), written: &[u8]) -> String {
    let bytes = written.to_vec(rt.alloc()).expect(rt, "room");
    String::from_utf8(bytes).expect(rt, "a text")
}

/// A run ended with this status, and wrote this.
fn is_so(rt: &impl Abort, got: u8, written: &[u8], status: u8, want: &str) {
    assert_eq!(rt; (got, written), (status, want.as_bytes()), "{want}");
}

/// The words end on the shelf with this status, and this is written.
pub(crate) fn ends(
    rt: &(impl Threads + Wait + Sync + Abort + AllocGlobal),
    shelf: &mut MemShelf,
    words: &[&str],
    status: u8,
    want: &str,
) {
    let mut out = SteadySink::new(rt.alloc());
    let got = run(rt, shelf, words, &mut out, &OpenGate);
    is_so(rt, got, out.written(), status, want);
}

/// The words are run on the shelf: the status, and what is written.
pub(crate) fn rolled(
    rt: &(impl Threads + Wait + Sync + Abort + AllocGlobal),
    shelf: &mut MemShelf,
    words: &[&str],
) -> (u8, String) {
    let mut out = SteadySink::new(rt.alloc());
    let status = run(rt, shelf, words, &mut out, &OpenGate);
    (status, text_of(rt, out.written()))
}

/// A run ended with this status, and what it wrote, this text, is right.
pub(crate) fn is_told(rt: &impl Abort, got: (u8, bool), status: u8, text: String) {
    assert_eq!(rt; got, (status, true), "{text}");
}

/// The words end on the shelf with this status, the feeds are answered so, and this is settled
/// last.
pub(crate) fn answers(
    rt: &(impl Threads + Wait + Sync + Abort + AllocGlobal),
    shelf: &mut MemShelf,
    words: &[&str],
    status: u8,
    lines: &[&str],
    settled: &str,
) {
    let (got, text) = rolled(rt, shelf, words);
    let told = has_lines(text.as_str(), "feed ", lines) && settles(text.as_str(), settled);
    is_told(rt, (got, told), status, text);
}

/// A run ended with this status, and wrote this and then that the train of 10 goes first.
pub(crate) fn goes_first(
    rt: &(impl Abort + AllocGlobal),
    got: u8,
    written: &[u8],
    status: u8,
    want: &str,
) {
    let whole = format!(in rt.alloc(); "{want}{STARTED_PLAN}\n{STARTED_VERDICT}\n").expect(
        rt, "a text",
    );
    is_so(rt, got, written, status, whole.as_str());
}

/// The text has that plan, no other of its edition, and that verdict last.
pub(crate) fn has_gone_first(text: &str) -> bool {
    has_lines(text, "plan 1 ", &[STARTED_PLAN]) && settles(text, STARTED_VERDICT)
}

/// The line is this one, or begins so where what is wanted ends with a space.
fn is_line(line: &str, wanted: &str) -> bool {
    line == wanted || (wanted.ends_with(" ") && line.starts_with(wanted))
}

/// The lines that begin with a word are these, in this order, and there are no others of it.
pub(crate) fn has_lines(text: &str, word: &str, wanted: &[&str]) -> bool {
    let mut count = 0;
    for line in text.split('\n') {
        if line.starts_with(word) {
            if count >= wanted.len() || !is_line(line, wanted[count]) {
                return false;
            }
            count += 1;
        }
    }
    count == wanted.len()
}

/// The last line that settles or stops an edition is this one.
pub(crate) fn settles(text: &str, wanted: &str) -> bool {
    let mut found = false;
    for line in text.split('\n') {
        if line.starts_with("settled ") || line.starts_with("stopped ") {
            found = line == wanted;
        }
    }
    found
}
