use super::expect_all;

const RULES: &[(&str, &str)] = &[
    (r#"{"trains":["#, "NotJson"),
    ("[]", "Shape /"),
    ("{}", "Shape /trains"),
    (r#"{"trains":[]}"#, "Shape /objective"),
    (r#"{"trains":[],"objective":[]}"#, "accepted"),
    (r#"{"trains":[[]],"objective":[]}"#, "NotOneEntry 0 0"),
    (r#"{"trains":[[{},{}]],"objective":[]}"#, "NotOneEntry 0 2"),
    (
        r#"{"trains":[[{"successors":[0]}]],"objective":[]}"#,
        "NotOneEntry 0 0",
    ),
    (
        r#"{"trains":[[{}],[{"successors":[1,2]},{},{}]],"objective":[]}"#,
        "NotOneExit 1 2",
    ),
    (
        r#"{"trains":[[{"successors":[1]},{"successors":[2,3]},{"successors":[1]},{}]],"objective":[]}"#,
        "Loop 0 1",
    ),
    (
        r#"{"trains":[[{}]],"objective":[{"type":"op_delay","train":0,"operation":0},{"type":"other","train":0,"operation":0}]}"#,
        "UnknownObjective 1",
    ),
];

#[test]
fn each_rule_has_its_refusal(rt: HostRuntime) {
    expect_all(&rt, rt.alloc(), RULES);
}

const ORDER: &[(&str, &str)] = &[
    // A wrong kind late, and a number that is too large early.
    (
        r#"{"trains":[[{"start_lb":2147483648}]],"objective":[{"type":7}]}"#,
        "Shape /objective/0/type",
    ),
    // A number that is not whole behind one that is too large.
    (
        r#"{"trains":[[{"start_lb":2147483648,"min_duration":5.0}]],"objective":[]}"#,
        "NotWhole /trains/0/0/min_duration",
    ),
    // A bad index before a train without entry.
    (
        r#"{"trains":[[],[{"successors":[1]}]],"objective":[]}"#,
        "BadIndex /trains/1/0/successors/0",
    ),
    // All trains are judged for entries before any is for exits.
    (
        r#"{"trains":[[{"successors":[1,2]},{},{}],[]],"objective":[]}"#,
        "NotOneEntry 1 0",
    ),
    // An unknown type whose train is wrong too.
    (
        r#"{"trains":[[]],"objective":[{"type":"other","train":0,"operation":0}]}"#,
        "BadIndex /objective/0/operation",
    ),
    (
        r#"{"trains":[[{},{}]],"objective":[{"type":"other","train":0,"operation":0}]}"#,
        "NotOneEntry 0 2",
    ),
];

#[test]
fn earlier_rules_go_before_later_ones(rt: HostRuntime) {
    expect_all(&rt, rt.alloc(), ORDER);
}

const NUMBERS: &[(&str, &str)] = &[
    (
        r#"{"trains":[[{"min_duration":-1}]],"objective":[]}"#,
        "NotWhole /trains/0/0/min_duration",
    ),
    (
        r#"{"trains":[[{"min_duration":-0}]],"objective":[]}"#,
        "NotWhole /trains/0/0/min_duration",
    ),
    (
        r#"{"trains":[[{"min_duration":1e3}]],"objective":[]}"#,
        "NotWhole /trains/0/0/min_duration",
    ),
    (
        r#"{"trains":[[{"min_duration":18446744073709551616}]],"objective":[]}"#,
        "NotWhole /trains/0/0/min_duration",
    ),
    (
        r#"{"trains":[[{"start_lb":2147483647}]],"objective":[]}"#,
        "accepted",
    ),
    (
        r#"{"trains":[[{"start_lb":2147483648}]],"objective":[]}"#,
        "TooLarge /trains/0/0/start_lb",
    ),
    (
        r#"{"trains":[[{"start_lb":5.0}]],"objective":[]}"#,
        "NotWhole /trains/0/0/start_lb",
    ),
];

#[test]
fn only_whole_numbers_within_the_limit_are_taken(rt: HostRuntime) {
    expect_all(&rt, rt.alloc(), NUMBERS);
}
