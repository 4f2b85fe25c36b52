// Files in memory, taken line by line.
ghost use Rattle.std.specs.Prelude.{◌≡◌, []};

use disp_model::{Fixing, List, Memory, Operation, Problem, Refusal};
use fixing_editions::Editions;
use fixing_files::{FileNo, LineNo, take_fixings};
use outside_in_memory::MemFeed;
use std::alloc::Global;
use std::panic::Expect;
use std::process::Abort;

/// One train of one operation.
fn one_operation(alloc: Global) -> Result<Problem, Memory> {
    let operation = Operation {
        lower: 0,
        upper: None,
        min: 0,
        listings: List::new(alloc),
        next: List::new(alloc),
    };
    let train = List::from_vec(vec![in alloc; operation]?);
    Ok(Problem {
        trains: List::from_vec(vec![in alloc; train]?),
        components: List::new(alloc),
        names: List::new(alloc),
    })
}

/// The editions of that train before any change.
fn editions(rt: &impl Abort, alloc: Global) -> Editions
    ensures { result.changes ≡ [] }
{
    let problem = one_operation(alloc).expect(rt, "a problem");
    Editions::new(alloc, &problem).expect(rt, "editions")
}

const NONE: &[Fixing] = &[];

/// The start of its operation, at 7 and at 8.
const STARTED_AT_7: &[Fixing] = &[Fixing::Started {
    at_train: 0,
    at_op: 0,
    time: 7,
}];

const STARTED_AT_8: &[Fixing] = &[Fixing::Started {
    at_train: 0,
    at_op: 0,
    time: 8,
}];

/// Asserts what is answered to a file of these bytes, whose calls of these numbers break, and the
/// fixings that stand then.
fn expect(
    rt: &impl Abort,
    alloc: Global,
    bytes: &[u8],
    broken: &[u64],
    answer: Result<(), FileNo>,
    wanted: &[Fixing],
) {
    let mut editions = editions(rt, alloc);
    let mut asked = Vec::new(alloc);
    let mut feed = MemFeed::new(alloc, "fixings", bytes, broken).expect(rt, "a feed");
    let told = take_fixings(&mut feed, &mut editions, &mut asked);
    let found = (bytes, told, editions.fixings());
    assert_eq!(rt; found, (bytes, answer, wanted));
}

/// How many changes are noted of a file of these bytes.
fn noted(rt: &impl Abort, alloc: Global, bytes: &[u8]) -> usize {
    let mut editions = editions(rt, alloc);
    let mut asked = Vec::new(alloc);
    let mut feed = MemFeed::new(alloc, "fixings", bytes, &[]).expect(rt, "a feed");
    take_fixings(&mut feed, &mut editions, &mut asked).expect(rt, "taken");
    asked.len()
}

#[test]
fn each_line_is_noted(rt: HostRuntime) {
    let bytes = b"started 0 0 7\nstarted 0 0 7\nwithdraw 1\n";
    assert_eq!(rt; noted(&rt, rt.alloc(), bytes), 3);
}

#[test]
fn each_line_asks_for_a_change(rt: HostRuntime) {
    let alloc = rt.alloc();
    expect(&rt, alloc, b"", &[], Ok(()), NONE);
    let twice = b"started 0 0 7\r\nstarted 0 0 7";
    expect(&rt, alloc, twice, &[], Ok(()), STARTED_AT_7);
    let again = b"started 0 0 7\nwithdraw 1\nstarted 0 0 8";
    expect(&rt, alloc, again, &[], Ok(()), STARTED_AT_8);
}

/// A file, the number of the first other line, and what is wrong with it.
const OTHER_LINES: &[(&str, u64, LineNo)] = &[
    ("\nstarted 0 0 7\n", 1, LineNo::Unreadable),
    ("started 0 0 7\nshow\nbogus\n", 2, LineNo::Unreadable),
    ("started 0 0 7\r", 1, LineNo::Unreadable),
    ("withdraw 1\n", 1, LineNo::Refused(Refusal::NoSuchChange)),
    (
        "started 0 0 7\nstarted 0 0 7\nstarted 0 0 8\n\n",
        3,
        LineNo::Refused(Refusal::StartedAt(7)),
    ),
];

#[test]
fn the_first_other_line_is_named(rt: HostRuntime) {
    for (bytes, number, why) in OTHER_LINES {
        let answer = Err(FileNo::Line(*number, *why));
        let wanted = if *number > 1 { STARTED_AT_7 } else { NONE };
        expect(&rt, rt.alloc(), bytes.as_bytes(), &[], answer, wanted);
    }
}

#[test]
fn a_long_line_and_a_fault_end_it(rt: HostRuntime) {
    let mut bytes = [b'a'; 258];
    bytes[256] = b'\r';
    bytes[257] = b'\n';
    let long = Err(FileNo::Line(1, LineNo::Long));
    expect(&rt, rt.alloc(), &bytes, &[], long, NONE);
    let failed = Err(FileNo::Failed);
    let lines = b"started 0 0 7\n\n";
    expect(&rt, rt.alloc(), lines, &[2], failed, STARTED_AT_7);
}
