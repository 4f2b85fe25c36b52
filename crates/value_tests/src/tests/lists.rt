// Copies are equal to what they are copied from.
use plain_values::{Copied, List, Memory, Text, push_text};
use std::panic::Expect;

#[test]
fn a_list_is_copied(rt: HostRuntime) {
    let mut list = List::new(rt.alloc());
    list.push(4u32).expect(&rt, "room");
    list.push(6).expect(&rt, "room");
    let copy = list.copy().expect(&rt, "a copy");
    assert_eq!(rt; (copy.len(), copy.as_slice()), (2, [4, 6].as_slice()));
    let again = List::from_vec(copy.into_vec());
    assert_eq!(rt; again.as_slice(), list.as_slice());
}

#[test]
fn a_text_is_copied(rt: HostRuntime) {
    let text = String::from_str(rt.alloc(), "platform 1").expect(&rt, "a text");
    let copy = Text::from_string(text).copy().expect(&rt, "a copy");
    assert_eq!(rt; copy.as_str(), "platform 1");
}

#[test]
fn texts_grow(rt: HostRuntime) {
    let mut grown = String::from_str(rt.alloc(), "platform").expect(&rt, "a text");
    push_text(&mut grown, " 2").expect(&rt, "a text");
    assert_eq!(rt; grown.as_str(), "platform 2");
}

#[test]
fn want_of_memory_has_a_text(rt: HostRuntime) {
    let text = format!(in rt.alloc(); "{Memory}").expect(&rt, "a text");
    assert_eq!(rt; text.as_str(), "out of memory");
}
