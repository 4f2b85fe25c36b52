// What is printed for texts and words that are refused.
use super::doubles::{solves, tells};
use outside_in_memory::SteadyShelf;
use std::process::Abort;
use std::sync::Wait;
use std::thread::Threads;

/// Problems that break a rule, each with the line for it.
const BROKEN: &[(&str, &str)] = &[
    (r#"[]"#, "problem: Shape /\n"),
    (r#"{"trains":[]}"#, "problem: Shape /objective\n"),
    (
        r#"{"trains":[[null]],"objective":[]}"#,
        "problem: Shape /trains/0/0\n",
    ),
    (
        r#"{"trains":[[{"start_lb":2147483648}],[{"min_duration":"5"}]],"objective":[]}"#,
        "problem: Shape /trains/1/0/min_duration\n",
    ),
    (
        r#"{"trains":[[{"start_lb":2147483648}]],"objective":[]}"#,
        "problem: TooLarge /trains/0/0/start_lb\n",
    ),
    (
        r#"{"trains":[[{"start_lb":5.0}]],"objective":[]}"#,
        "problem: NotWhole /trains/0/0/start_lb\n",
    ),
    (
        r#"{"trains":[[{"successors":[1]},{"successors":[2,3]},{"successors":[1]},{}]],"objective":[]}"#,
        "problem: Loop 0 1\n",
    ),
    (
        r#"{"trains":[[{"successors":[0]}]],"objective":[]}"#,
        "problem: NotOneEntry 0 0\n",
    ),
    (
        r#"{"trains":[[]],"objective":[]}"#,
        "problem: NotOneEntry 0 0\n",
    ),
    (
        r#"{"trains":[[{},{}]],"objective":[]}"#,
        "problem: NotOneEntry 0 2\n",
    ),
    (
        r#"{"trains":[[{"successors":[1,2]},{},{}]],"objective":[]}"#,
        "problem: NotOneExit 0 2\n",
    ),
    (
        r#"{"trains":[[{}]],"objective":[{"type":"op_delay","train":0,"operation":0,"coeff":2147483647},{"type":"op_delay","train":0,"operation":0,"coeff":2147483647},{"type":"op_delay","train":0,"operation":0,"coeff":2147483647}]}"#,
        "problem: TooCostly 13835058042397261827\n",
    ),
    (
        r#"{"trains":[[{}]],"objective":[{"type":"delay","train":0,"operation":0}]}"#,
        "problem: UnknownObjective 0\n",
    ),
    (
        r#"{"trains":[[{}]],"objective":[{"type":"op_delay","train":0,"operation":1}]}"#,
        "problem: BadIndex /objective/0/operation\n",
    ),
];

/// Each text is refused by the line behind it.
fn are_refused(rt: &(impl Threads + Wait + Sync + Abort + AllocGlobal), rows: &[(&str, &str)]) {
    for (problem, line) in rows {
        solves(rt, problem.as_bytes(), 2, line);
    }
}

#[test]
fn what_breaks_a_rule_is_refused(rt: HostRuntime) {
    are_refused(&rt, BROKEN);
}

/// What is no JSON, as it is no text or ends too early or too late, or is too deep.
const NO_JSON: &[&[u8]] = &[
    b"",
    b"{\"trains\":[[{\"min_d",
    b"{\"trains\":[],\"objective\":[]}]",
    b"\xff",
    &[b'['; 200],
];

/// Each of these is refused as no JSON.
fn are_no_json(rt: &(impl Threads + Wait + Sync + Abort + AllocGlobal), rows: &[&[u8]]) {
    for bytes in rows {
        solves(rt, bytes, 2, "problem: NotJson\n");
    }
}

#[test]
fn what_is_no_json_is_refused(rt: HostRuntime) {
    are_no_json(&rt, NO_JSON);
}

/// Words that are not read, each with what clap's text has.
const OTHER: &[(&[&str], &str)] = &[
    (&[], "Usage"),
    (&["solve"], "<PROBLEM>"),
    (&["solve", "p", "q"], "'q'"),
    (&["solve", "p", "--budget", "-1"], "'-1'"),
    (&["solve", "p", "--budget", "x"], "'x'"),
    (&["solve", "p", "--budget", "4294967296"], "4294967296"),
    (&["solve", "p", "--workers", "0"], "0 is not in 1..=64"),
    (&["solve", "p", "--workers", "65"], "65 is not in 1..=64"),
    (&["--help"], "Usage: dispatch"),
    (&["fly", "p"], "'fly'"),
];

/// The words get clap's text, in which this stands.
fn is_told(rt: &(impl Threads + Wait + Sync + Abort + AllocGlobal), words: &[&str], text: &str) {
    let mut shelf = SteadyShelf::new(rt.alloc());
    tells(rt, &mut shelf, words, text);
}

/// The words of each row get clap's text.
fn are_told(rt: &(impl Threads + Wait + Sync + Abort + AllocGlobal), rows: &[(&[&str], &str)]) {
    for (words, text) in rows {
        is_told(rt, words, text);
    }
}

#[test]
fn other_words_are_refused(rt: HostRuntime) {
    are_told(&rt, OTHER);
}
