use super::{chained, expect};
use std::alloc::Global;
use std::panic::Expect;
use std::process::Abort;

/// A text of so many pieces, with a comma between each two.
fn repeated(
    rt: &impl Abort,
    alloc: Global,
    head: &str,
    piece: &str,
    count: usize,
    tail: &str,
) -> String {
    let mut text = String::from_str(alloc, head).expect(rt, "a text");
    for k in 0..count {
        if k > 0 {
            text.push_str(",").expect(rt, "a text");
        }
        text.push_str(piece).expect(rt, "a text");
    }
    text.push_str(tail).expect(rt, "a text");
    text
}

/// Asserts what is printed for so many trains of one operation.
fn expect_trains(rt: &impl Abort, alloc: Global, count: usize, wanted: &str) {
    let tail = r#"],"objective":[]}"#;
    let text = repeated(rt, alloc, r#"{"trains":["#, "[{}]", count, tail);
    expect(rt, alloc, text.as_str(), wanted);
}

/// The same for so many components of one train.
fn expect_components(rt: &impl Abort, alloc: Global, component: &str, count: usize, wanted: &str) {
    let head = r#"{"trains":[[{}]],"objective":["#;
    let text = repeated(rt, alloc, head, component, count, "]}");
    expect(rt, alloc, text.as_str(), wanted);
}

#[test]
fn costs_are_limited_at_the_horizon(rt: HostRuntime) {
    let component = r#"{"type":"op_delay","train":0,"operation":0,"coeff":2147483647}"#;
    let costly = "TooCostly 13835058042397261827";
    expect_components(&rt, rt.alloc(), component, 2, "accepted");
    expect_components(&rt, rt.alloc(), component, 3, costly);
}

#[test]
fn there_are_at_most_65535_trains(rt: HostRuntime) {
    expect_trains(&rt, rt.alloc(), 65535, "accepted");
    expect_trains(&rt, rt.alloc(), 65536, "TooMany trains 65536");
}

#[test]
fn there_are_at_most_1048575_operations(rt: HostRuntime) {
    // Over all trains: the first one has one of them.
    let head = r#"{"trains":[[{}],["#;
    let tail = r#"]],"objective":[]}"#;
    let text = repeated(&rt, rt.alloc(), head, "{}", 1048575, tail);
    expect(&rt, rt.alloc(), text.as_str(), "TooMany operations 1048576");
}

#[test]
fn a_train_of_a_million_operations_is_read(rt: HostRuntime) {
    let text = chained(&rt, rt.alloc(), 1000000, r#"{}]],"objective":[]}"#);
    expect(&rt, rt.alloc(), text.as_str(), "accepted");
}

#[test]
fn there_are_at_most_1048575_components(rt: HostRuntime) {
    let component = r#"{"type":"op_delay","train":0,"operation":0}"#;
    let wanted = "TooMany components 1048576";
    expect_components(&rt, rt.alloc(), component, 1048576, wanted);
}
