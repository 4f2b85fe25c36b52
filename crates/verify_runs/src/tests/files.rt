// What `check` prints where files are refused or cannot be read: the first one decides.
use super::runs::{TREE, TWO, ends, place_counted, row};
use disp_outside::{FeedNo, FetchNo, PutNo, Shelf};
use outside_in_memory::{MemShelf, SteadyFeed};
use std::alloc::Global;

const ALL: [&str; 7] = ["check", "p", "t", "--plan", "s", "--fixings", "f"];

// A problem, a tree, fixings, and the line, where the plan is refused too.
const REFUSED: &[(&str, &str, &str, &str)] = &[
    ("{", "", "show\n", "problem: NotJson\n"),
    (TWO, "", "show\n", "fixings line 1: unreadable\n"),
    (TWO, "", "", "tree: Truncated\n"),
    (TWO, TREE, "", "plan: NotJson\n"),
];

#[test]
fn the_first_file_that_is_refused_decides(rt: HostRuntime) {
    for (problem, tree, fixings, line) in REFUSED {
        row(&rt, &ALL, problem, tree, fixings, "{", 2, line);
    }
}

#[test]
fn the_first_file_that_cannot_be_read_is_told(rt: HostRuntime) {
    let mut shelf = MemShelf::new(rt.alloc());
    ends(&rt, &mut shelf, &ALL, 4, "problem: Failed\n");
    place_counted(&rt, &mut shelf, "p", TWO.as_bytes());
    ends(&rt, &mut shelf, &ALL, 4, "fixings: Failed\n");
    place_counted(&rt, &mut shelf, "f", b"");
    ends(&rt, &mut shelf, &ALL, 4, "tree: Failed\n");
    place_counted(&rt, &mut shelf, "t", TREE.as_bytes());
    ends(&rt, &mut shelf, &ALL, 4, "plan: Failed\n");
    let first = (shelf.faults("p"), shelf.faults("f"));
    let last = (shelf.faults("t"), shelf.faults("s"));
    assert_eq!(rt; (first, last), ((1, 1), (1, 1)));
}

// The two trains under each name and their tree under "t", but one file is too long.
#[derive(Drop)]
struct LongShelf {
    long: &'static str,
}

impl Shelf for LongShelf {
    type Feed = SteadyFeed;

    ghost use Rattle.std.specs.Prelude.{None, ⊤};

    ghost knows = { λ _ _. ⊤ };

    ghost state = { λ _. record {
      holds = λ _. None;
      reading = λ _. 0;
      putting = λ _. 0;
    } };

    ghost open_feeds = { λ _. 0 };

    fn fetch(&mut self, alloc: Global, name: &str, limit: u64) -> Result<Vec<u8>, FetchNo> {
        let text = if name == "t" { TREE } else { TWO };
        if name == self.long || text.len() as u64 > limit {
            return Err(FetchNo::TooLong);
        }
        Ok(text.as_bytes().to_vec(alloc)?)
    }

    fn put(&mut self, _alloc: Global, _name: &str, _bytes: &[u8]) -> Result<(), PutNo> {
        Err(PutNo::Memory)
    }

    fn feed(&mut self, _alloc: Global, _name: &str) -> Result<SteadyFeed, FeedNo> {
        Err(FeedNo::Memory)
    }

    fn close(&mut self, _feed: SteadyFeed) {}
}

// The file that is too long, and the line.
const TOO_LONG: &[(&str, &str)] = &[
    ("p", "problem: TooLong\n"),
    ("t", "tree: TooLong\n"),
    ("s", "plan: TooLong\n"),
];

#[test]
fn a_file_that_is_too_long_is_told(rt: HostRuntime) {
    let words = ["check", "p", "t", "--plan", "s"];
    for (long, line) in TOO_LONG {
        let mut shelf = LongShelf { long };
        ends(&rt, &mut shelf, &words, 2, line);
    }
}
