// What claims on a value answer, and what is read of it.
use json_claims::{
    Rule, Unread, Want, allow, array_or_empty, field, index_at, index_or, members_at, need,
    number_at, optional_index, optional_number, read_json, text_at,
};
use serde_json::Value;
use std::panic::Expect;
use std::process::Abort;

const TEXT: &[u8] = br#"{"name":"a","number":7,"half":0.5,"none":null,"list":[1,null]}"#;

/// What is claimed of the shape of a value.
fn check_shape(rt: &impl Abort, value: &Value) {
    let answers = (
        need(Rule::Shape, 'r', Want::Object, Some(value)),
        need(Rule::Shape, 'n', Want::Text, field(value, "number")),
        need(Rule::Shape, 'a', Want::Text, None),
        allow(Rule::Shape, 'a', Want::Text, None),
    );
    assert_eq!(rt; answers, (Ok(()), Err('n'), Err('a'), Ok(())));
}

/// What is claimed of its numbers.
fn check_numbers(rt: &impl Abort, value: &Value) {
    let number = field(value, "number");
    let few = Want::Index { count: 7, limit: 9 };
    let answers = (
        need(Rule::Whole, 'h', Want::Number(9), field(value, "half")),
        need(Rule::Limit, 'n', Want::Number(6), number),
        need(Rule::Limit, 'n', Want::Number(7), number),
        need(Rule::Index, 'n', few, number),
    );
    assert_eq!(rt; answers, (Err('h'), Err('n'), Ok(()), Err('n')));
}

#[test]
fn the_first_rule_that_is_broken_names_the_place(rt: HostRuntime) {
    let value = read_json(rt.alloc(), TEXT).expect(&rt, "a value");
    check_shape(&rt, &value);
    check_numbers(&rt, &value);
}

/// What is read of parts that are there.
fn check_parts(rt: &impl Abort, value: &Value) {
    let parts = (
        text_at(value, "name"),
        number_at(value, "number", 7),
        index_at(value, "number", 6),
    );
    assert_eq!(rt; parts, (Some("a"), Some(7), None));
}

/// What is read of parts that may be absent.
fn check_optional(rt: &impl Abort, value: &Value) {
    let parts = (
        index_or(value, "none", 9, 4),
        optional_index(value, "none", 9),
        optional_number(value, "half", 9),
    );
    assert_eq!(rt; parts, (Some(4), Some(None), None));
}

/// What is read of arrays.
fn check_arrays(rt: &impl Abort, value: &Value) {
    let counts = (
        members_at(value, "list").len(),
        members_at(value, "name").len(),
    );
    assert_eq!(rt; counts, (2, 0));
    let there = (
        array_or_empty(value, "none").is_some(),
        array_or_empty(value, "name").is_some(),
    );
    assert_eq!(rt; there, (true, false));
}

#[test]
fn parts_are_read(rt: HostRuntime) {
    let value = read_json(rt.alloc(), TEXT).expect(&rt, "a value");
    check_parts(&rt, &value);
    check_optional(&rt, &value);
    check_arrays(&rt, &value);
}

#[test]
fn what_is_no_json_is_not_read(rt: HostRuntime) {
    let unread = read_json(rt.alloc(), b"{").err();
    assert_eq!(rt; unread, Some(Unread::Nothing));
}
