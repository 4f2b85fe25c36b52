use super::expect;
use solution_text::SolutionNo;
use std::alloc::{AllocError, Global};
use std::error::Error;
use std::panic::Expect;
use std::process::Abort;

/// Asserts what is printed for each text of a table.
fn expect_all(rt: &impl Abort, alloc: Global, rows: &[(&str, &str)]) {
    for (text, wanted) in rows {
        expect(rt, alloc, text, wanted);
    }
}

const RULES: &[(&str, &str)] = &[
    (r#"{"events":["#, "NotJson"),
    ("[]", "Shape /"),
    ("{}", "Shape /events"),
    (r#"{"events":null}"#, "Shape /events"),
    (r#"{"events":{}}"#, "Shape /events"),
    (r#"{"events":[null]}"#, "Shape /events/0"),
    (
        r#"{"events":[],"objective_value":"18"}"#,
        "Shape /objective_value",
    ),
    (
        r#"{"events":[],"objective_value":18.0}"#,
        "NotWhole /objective_value",
    ),
    (
        r#"{"events":[],"objective_value":9223372036854775808}"#,
        "TooLarge /objective_value",
    ),
];

#[test]
fn each_rule_has_its_refusal(rt: HostRuntime) {
    expect_all(&rt, rt.alloc(), RULES);
}

const EVENTS: &[(&str, &str)] = &[
    (
        r#"{"events":[{"time":0,"train":0,"operation":0},{}]}"#,
        "Shape /events/1/operation",
    ),
    (
        r#"{"events":[{"train":0,"operation":0}]}"#,
        "Shape /events/0/time",
    ),
    (
        r#"{"events":[{"time":0,"operation":0,"train":null}]}"#,
        "Shape /events/0/train",
    ),
    (
        r#"{"events":[{"time":-1,"train":0,"operation":0}]}"#,
        "NotWhole /events/0/time",
    ),
    (
        r#"{"events":[{"time":4611686018427387905,"train":0,"operation":0}]}"#,
        "TooLarge /events/0/time",
    ),
    (
        r#"{"events":[{"time":0,"train":2147483648,"operation":0}]}"#,
        "TooLarge /events/0/train",
    ),
    (
        r#"{"events":[{"time":0,"train":0,"operation":2147483648}]}"#,
        "TooLarge /events/0/operation",
    ),
];

#[test]
fn an_event_has_three_numbers(rt: HostRuntime) {
    expect_all(&rt, rt.alloc(), EVENTS);
}

const ORDER: &[(&str, &str)] = &[
    (
        r#"{"events":[{"time":0,"train":2147483648,"operation":0},{"time":0.5,"train":0,"operation":0},{"time":[],"train":0,"operation":0}]}"#,
        "Shape /events/2/time",
    ),
    (
        r#"{"events":[{"time":0,"train":2147483648,"operation":0}],"objective_value":1e3}"#,
        "NotWhole /objective_value",
    ),
];

#[test]
fn earlier_rules_go_before_later_ones(rt: HostRuntime) {
    expect_all(&rt, rt.alloc(), ORDER);
}

/// A text of one event more than so many.
fn repeated(rt: &impl Abort, alloc: Global, count: u32) -> String {
    let event = r#"{"operation":0,"time":0,"train":0}"#;
    let mut text = String::from_str(alloc, r#"{"events":["#).expect(rt, "a text");
    for _ in 0..count {
        text.push_str(event).expect(rt, "a text");
        text.push_str(",").expect(rt, "a text");
    }
    text.push_str(event).expect(rt, "a text");
    text.push_str("]}").expect(rt, "a text");
    text
}

#[test]
fn there_are_at_most_1048575_events(rt: HostRuntime) {
    let text = repeated(&rt, rt.alloc(), 1048575);
    expect(&rt, rt.alloc(), text.as_str(), "TooMany 1048576");
}

/// The message of an error, by the bound that programs have.
fn message<E: Error>(alloc: Global, error: &E) -> Result<String, AllocError> {
    format!(in alloc; "{error}")
}

/// Want of memory as an error, by the bounds that `?` has.
fn starved<E: From<AllocError> + From<disp_model::Memory>>(in_model: bool) -> E {
    if in_model {
        E::from(disp_model::Memory)
    } else {
        E::from(AllocError)
    }
}

#[test]
fn refusals_are_errors(rt: HostRuntime) {
    let text = message(rt.alloc(), &SolutionNo::TooMany(1048576)).expect(&rt, "a text");
    assert_eq!(rt; text.as_str(), "too many events: 1048576");
    let starved = (starved::<SolutionNo>(true), starved::<SolutionNo>(false));
    assert_eq!(rt; starved, (SolutionNo::Memory, SolutionNo::Memory));
}

#[test]
fn refusals_are_added_to_a_text(rt: HostRuntime) {
    let mut printed = String::from_str(rt.alloc(), "solution: ").expect(&rt, "a text");
    SolutionNo::Memory.write(&mut printed).expect(&rt, "a text");
    assert_eq!(rt; printed.as_str(), "solution: Memory");
}
