use super::expect;
use disp_model::Event;
use solution_text::read_solution;
use std::alloc::Global;
use std::panic::Expect;
use std::process::Abort;

/// An event: its train, operation and time.
type Start = (u32, u32, u64);

/// The events are these.
fn check_events(rt: &impl Abort, events: &[Event], wanted: &[Start]) {
    assert_eq!(rt; events.len(), wanted.len());
    for (event, start) in events.iter().zip(wanted) {
        assert_eq!(rt; (event.train, event.operation, event.time), *start);
    }
}

#[test]
fn a_solution_is_read_with_its_events_in_order(rt: HostRuntime) {
    let text =
        r#"{"events":[{"operation":0,"time":0,"train":1},{"operation":1,"time":4,"train":1},{"operation":0,"time":4,"train":0},{"operation":1,"time":14,"train":0}],"objective_value":18}"#;
    let (plan, stated) = read_solution(rt.alloc(), text.as_bytes()).expect(&rt, "a solution");
    assert_eq!(rt; stated, Some(18));
    let wanted = [(1, 0, 0), (1, 1, 4), (0, 0, 4), (0, 1, 14)];
    check_events(&rt, plan.as_slice(), &wanted);
}

/// Asserts what a text without events states.
fn expect_stated(rt: &impl Abort, alloc: Global, text: &str, wanted: Option<u64>) {
    let (plan, stated) = read_solution(alloc, text.as_bytes()).expect(rt, "a solution");
    assert_eq!(rt; (plan.as_slice().len(), stated), (0, wanted), "{text}");
}

const STATED: &[(&str, Option<u64>)] = &[
    (r#"{"events":[]}"#, None),
    (r#"{"events":[],"objective_value":null}"#, None),
    (r#"{"note":[{}],"objective_value":0,"events":[]}"#, Some(0)),
    (
        r#"{"events":[],"objective_value":9223372036854775807}"#,
        Some(9223372036854775807),
    ),
];

#[test]
fn an_objective_value_may_be_absent(rt: HostRuntime) {
    for (text, wanted) in STATED {
        expect_stated(&rt, rt.alloc(), text, *wanted);
    }
}

#[test]
fn numbers_at_their_limits_are_read(rt: HostRuntime) {
    expect(
        &rt,
        rt.alloc(),
        r#"{"events":[{"time":4611686018427387904,"train":2147483647,"operation":2147483647}]}"#,
        "accepted",
    );
}
