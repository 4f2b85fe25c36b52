// Problems at the limits of what is read.
use super::doubles::{begins, solves, steady};
use std::alloc::Global;
use std::panic::Expect;
use std::process::Abort;

/// A problem of trains of one operation, or of one train of operations, each after a comma but the
/// first.
fn problem_of(
    rt: &impl Abort,
    alloc: Global,
    first: &str,
    next: &str,
    count: u32,
    end: &str,
) -> String {
    let mut text = String::from_str(alloc, "{\"trains\":[").expect(rt, "a text");
    text.push_str(first).expect(rt, "a text");
    for _ in 1..count {
        text.push_str(next).expect(rt, "a text");
    }
    text.push_str(end).expect(rt, "a text");
    text.push_str(",\"objective\":[]}").expect(rt, "a text");
    text
}

#[test]
fn so_many_trains_are_taken(rt: HostRuntime) {
    let alloc = rt.alloc();
    let text = problem_of(&rt, alloc, "[{}]", ",[{}]", 65535, "]");
    let mut shelf = steady(&rt, text.as_bytes());
    let front = "edition 0\noptimal 0\n{\"events\":[";
    begins(&rt, &mut shelf, &["solve", "p"], 0, front);
    let text = problem_of(&rt, alloc, "[{}]", ",[{}]", 65536, "]");
    solves(&rt, text.as_bytes(), 2, "problem: TooMany trains 65536\n");
}

#[test]
fn so_many_operations_are_refused(rt: HostRuntime) {
    let text = problem_of(&rt, rt.alloc(), "[{}", ",{}", 1048576, "]]");
    let line = "problem: TooMany operations 1048576\n";
    solves(&rt, text.as_bytes(), 2, line);
}
