use super::expect_all;

const KINDS: &[(&str, &str)] = &[
    (r#"{"trains":7,"objective":[]}"#, "Shape /trains"),
    (r#"{"trains":[null],"objective":[]}"#, "Shape /trains/0"),
    (
        r#"{"trains":[[],[{},0]],"objective":[]}"#,
        "Shape /trains/1/1",
    ),
    (
        r#"{"trains":[[{"start_lb":"0"}]],"objective":[]}"#,
        "Shape /trains/0/0/start_lb",
    ),
    (
        r#"{"trains":[[{"start_ub":[]}]],"objective":[]}"#,
        "Shape /trains/0/0/start_ub",
    ),
    (
        r#"{"trains":[[{"min_duration":true}]],"objective":[]}"#,
        "Shape /trains/0/0/min_duration",
    ),
    (
        r#"{"trains":[[{"resources":{}}]],"objective":[]}"#,
        "Shape /trains/0/0/resources",
    ),
    (
        r#"{"trains":[[{"successors":1}]],"objective":[]}"#,
        "Shape /trains/0/0/successors",
    ),
    (
        r#"{"trains":[[{"successors":[0,null]}]],"objective":[]}"#,
        "Shape /trains/0/0/successors/1",
    ),
];

#[test]
fn a_wrong_kind_is_named_by_its_place(rt: HostRuntime) {
    expect_all(&rt, rt.alloc(), KINDS);
}

const PLACES: &[(&str, &str)] = &[
    (
        r#"{"trains":[[{"resources":[{"resource":"r"},"r"]}]],"objective":[]}"#,
        "Shape /trains/0/0/resources/1",
    ),
    (
        r#"{"trains":[[{"resources":[{"resource":null}]}]],"objective":[]}"#,
        "Shape /trains/0/0/resources/0/resource",
    ),
    (
        r#"{"trains":[[{"resources":[{"resource":"r","release_time":"1"}]}]],"objective":[]}"#,
        "Shape /trains/0/0/resources/0/release_time",
    ),
    (r#"{"trains":[],"objective":[[]]}"#, "Shape /objective/0"),
    (
        r#"{"trains":[],"objective":[{"train":0,"operation":0}]}"#,
        "Shape /objective/0/type",
    ),
    (
        r#"{"trains":[],"objective":[{"type":"op_delay","operation":0}]}"#,
        "Shape /objective/0/train",
    ),
    (
        r#"{"trains":[],"objective":[{"type":"op_delay","train":0}]}"#,
        "Shape /objective/0/operation",
    ),
];

#[test]
fn listings_and_components_are_named_by_their_places(rt: HostRuntime) {
    expect_all(&rt, rt.alloc(), PLACES);
}

const KEYS: &[(&str, &str)] = &[
    (
        r#"{"trains":[[{}]],"objective":[{"type":"op_delay","train":0,"operation":0,"threshold":-1}]}"#,
        "NotWhole /objective/0/threshold",
    ),
    (
        r#"{"trains":[[{}]],"objective":[{"type":"op_delay","train":0,"operation":0,"increment":2147483648}]}"#,
        "TooLarge /objective/0/increment",
    ),
    (
        r#"{"trains":[[{}]],"objective":[{"type":"op_delay","train":0,"operation":0,"coeff":{}}]}"#,
        "Shape /objective/0/coeff",
    ),
    (
        r#"{"trains":[[{}]],"objective":[{"type":"op_delay","train":1,"operation":0}]}"#,
        "BadIndex /objective/0/train",
    ),
    (
        r#"{"trains":[[{}]],"objective":[{"type":"op_delay","train":0,"operation":1}]}"#,
        "BadIndex /objective/0/operation",
    ),
];

#[test]
fn costs_of_components_are_named_by_their_keys(rt: HostRuntime) {
    expect_all(&rt, rt.alloc(), KEYS);
}
