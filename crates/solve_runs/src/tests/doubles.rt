// Runs on files in memory, with what they end with, and a shelf that always refuses.
use disp_outside::{FeedNo, FetchNo, OpenGate, PutNo, Shelf, Sink};
use dispatch_cli::dispatch;
use outside_in_memory::{BrokenWrite, MemShelf, MemSink, SteadyFeed, SteadyShelf, SteadySink};
use std::alloc::Global;
use std::panic::Expect;
use std::process::Abort;
use std::sync::Wait;
use std::thread::Threads;
use word_lists::words_of;

/// The words are run on the shelf and the sink: the status, and how many entries the journal has.
fn run<S: Shelf, O: Sink>(
    rt: &(impl Threads + Wait + Sync + Abort + AllocGlobal),
    words: &[&str],
    shelf: &mut S,
    out: &mut O,
) -> (u8, usize) {
    let alloc = rt.alloc();
    let words = words_of(alloc, words).expect(rt, "words");
    let done = dispatch(rt, alloc, &words, shelf, out, &OpenGate);
    (done.status, done.journal.len())
}

/// The words end on the shelf with this status, and this is written. Told is how many entries the
/// journal has.
pub(crate) fn ends<S: Shelf>(
    rt: &(impl Threads + Wait + Sync + Abort + AllocGlobal),
    shelf: &mut S,
    words: &[&str],
    status: u8,
    want: &str,
) -> usize {
    let mut out = SteadySink::new(rt.alloc());
    let (got, entries) = run(rt, words, shelf, &mut out);
    assert_eq!(rt; (got, out.written()), (status, want.as_bytes()), "{want}");
    entries
}

/// The words end on the shelf with this status, and what is written begins so.
pub(crate) fn begins<S: Shelf>(
    rt: &(impl Threads + Wait + Sync + Abort + AllocGlobal),
    shelf: &mut S,
    words: &[&str],
    status: u8,
    front: &str,
) {
    let mut out = SteadySink::new(rt.alloc());
    let (got, _) = run(rt, words, shelf, &mut out);
    let begins = out.written().starts_with(front.as_bytes());
    assert_eq!(rt; (got, begins), (status, true), "{front}");
}

/// The words end on the shelf with the status 2 and no entry in the journal, and what is written is
/// a text that has this.
pub(crate) fn tells(
    rt: &(impl Threads + Wait + Sync + Abort + AllocGlobal),
    shelf: &mut SteadyShelf,
    words: &[&str],
    text: &str,
) {
    let alloc = rt.alloc();
    let mut out = SteadySink::new(alloc);
    let ended = run(rt, words, shelf, &mut out);
    let bytes = out.written().to_vec(alloc).expect(rt, "room");
    let told = String::from_utf8(bytes).expect(rt, "a text");
    let has = told.as_str().contains(text);
    assert_eq!(rt; (ended, has), ((2, 0), true), "{text}");
}

/// Where these writes break, the words end on the shelf with this status, and this is written. Told
/// is how often a write failed.
pub(crate) fn breaks(
    rt: &(impl Threads + Wait + Sync + Abort + AllocGlobal),
    shelf: &mut MemShelf,
    writes: &[BrokenWrite],
    words: &[&str],
    status: u8,
    want: &str,
) -> u64 {
    let mut out = MemSink::new(rt.alloc(), writes).expect(rt, "room");
    let (got, _) = run(rt, words, shelf, &mut out);
    assert_eq!(rt; (got, out.written()), (status, want.as_bytes()), "{want}");
    out.faults()
}

/// A shelf on which p holds these bytes.
pub(crate) fn steady(rt: &(impl Abort + AllocGlobal), bytes: &[u8]) -> SteadyShelf {
    let mut shelf = SteadyShelf::new(rt.alloc());
    shelf.place("p", bytes).expect(rt, "room");
    shelf
}

/// Such a shelf, where this name holds a text too.
pub(crate) fn steady_beside(
    rt: &(impl Abort + AllocGlobal),
    problem: &str,
    name: &str,
    text: &str,
) -> SteadyShelf {
    let mut shelf = steady(rt, problem.as_bytes());
    shelf.place(name, text.as_bytes()).expect(rt, "room");
    shelf
}

/// A shelf with these texts under these names.
pub(crate) fn shelf_of(rt: &(impl Abort + AllocGlobal), files: &[(&str, &str)]) -> MemShelf {
    let mut shelf = MemShelf::new(rt.alloc());
    for (name, text) in files {
        shelf.place(name, text.as_bytes(), &[]).expect(rt, "room");
    }
    shelf
}

/// `solve p`, where p holds these bytes, ends with this status, and this is written.
pub(crate) fn solves(
    rt: &(impl Threads + Wait + Sync + Abort + AllocGlobal),
    bytes: &[u8],
    status: u8,
    want: &str,
) {
    let mut shelf = steady(rt, bytes);
    ends(rt, &mut shelf, &["solve", "p"], status, want);
}

/// The name's file is there, and begins so.
pub(crate) fn has_front(shelf: &MemShelf, name: &str, front: &str) -> bool {
    match shelf.file(name) {
        Some(file) => file.starts_with(front.as_bytes()),
        None => false,
    }
}

// No file is given: each is too long, or there is never room for one.
#[derive(Drop)]
pub(crate) struct ClosedShelf {
    pub(crate) all_too_long: bool,
}

impl Shelf for ClosedShelf {
    type Feed = SteadyFeed;

    ghost use Rattle.std.specs.Prelude.{None, ⊤};

    ghost knows = { λ _ _. ⊤ };

    ghost state = { λ _. record {
      holds = λ _. None;
      reading = λ _. 0;
      putting = λ _. 0;
    } };

    ghost open_feeds = { λ _. 0 };

    fn fetch(&mut self, _alloc: Global, _name: &str, _limit: u64) -> Result<Vec<u8>, FetchNo> {
        if self.all_too_long {
            return Err(FetchNo::TooLong);
        }
        Err(FetchNo::Memory)
    }

    fn put(&mut self, _alloc: Global, _name: &str, _bytes: &[u8]) -> Result<(), PutNo> {
        Err(PutNo::Memory)
    }

    fn feed(&mut self, _alloc: Global, _name: &str) -> Result<SteadyFeed, FeedNo> {
        Err(FeedNo::Memory)
    }

    fn close(&mut self, _feed: SteadyFeed) {}
}
