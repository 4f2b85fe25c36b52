use super::{chained, expect, expect_all};

const CYCLES: &[(&str, &str)] = &[
    // An operation that goes on to itself.
    (
        r#"{"trains":[[{"successors":[1]},{"successors":[2,1]},{}]],"objective":[]}"#,
        "Loop 0 1",
    ),
    // The way comes to the cycle of 3 and 4 first, and then to that of 1 and 2.
    (
        r#"{"trains":[[{"successors":[3]},{"successors":[2]},{"successors":[1,6]},{"successors":[4]},{"successors":[3,5]},{"successors":[1]},{}]],"objective":[]}"#,
        "Loop 0 1",
    ),
    // Operation 1 stands between the cycle of 2 and 3 and that of 4 and 5.
    (
        r#"{"trains":[[{"successors":[2]},{"successors":[4]},{"successors":[3]},{"successors":[2,1]},{"successors":[5]},{"successors":[4,6]},{}]],"objective":[]}"#,
        "Loop 0 2",
    ),
    // The entry itself has number 4, and the cycle goes over 3, 1 and 2.
    (
        r#"{"trains":[[{}],[{},{"successors":[2]},{"successors":[3,0]},{"successors":[1]},{"successors":[3]}]],"objective":[]}"#,
        "Loop 1 1",
    ),
];

#[test]
fn the_least_operation_on_a_cycle_is_named(rt: HostRuntime) {
    expect_all(&rt, rt.alloc(), CYCLES);
}

const TWO_WAYS: &[(&str, &str)] = &[
    (
        r#"{"trains":[[{"successors":[1,2]},{"successors":[3]},{"successors":[3,1]},{}]],"objective":[]}"#,
        "accepted",
    ),
    (
        r#"{"trains":[[{"successors":[1,2]},{"successors":[3]},{"successors":[3]},{"successors":[2,4]},{}]],"objective":[]}"#,
        "Loop 0 2",
    ),
];

#[test]
fn two_ways_to_an_operation_make_no_cycle(rt: HostRuntime) {
    expect_all(&rt, rt.alloc(), TWO_WAYS);
}

// A search from each operation in turn would take hours.
#[test]
fn a_late_cycle_in_a_long_train_is_found(rt: HostRuntime) {
    let tail = r#"{"successors":[499999,499997]},{}]],"objective":[]}"#;
    let text = chained(&rt, rt.alloc(), 499999, tail);
    expect(&rt, rt.alloc(), text.as_str(), "Loop 0 499997");
}
