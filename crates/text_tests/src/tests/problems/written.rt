use disp_model::List;
use displib_reader::read_problem;
use problem_text::write_problem;
use std::alloc::Global;
use std::panic::Expect;
use std::process::Abort;

/// The text of the problem that a text is read as.
fn written(rt: &impl Abort, alloc: Global, text: &[u8]) -> List<u8> {
    let problem = read_problem(alloc, text).expect(rt, "a problem");
    write_problem(alloc, &problem).expect(rt, "a text")
}

/// Asserts the text of a problem that is read, which is its own.
fn expect(rt: &impl Abort, alloc: Global, text: &str, wanted: &str) {
    let first = written(rt, alloc, text.as_bytes());
    assert_eq!(rt; first.as_slice(), wanted.as_bytes());
    let again = written(rt, alloc, first.as_slice());
    assert_eq!(rt; again.as_slice(), wanted.as_bytes());
}

const TEXTS: &[(&str, &str)] = &[
    (
        r#"{"trains":[[{"min_duration":10,"resources":[{"resource":"r"}],"successors":[1]},{}],[{"min_duration":4,"resources":[{"resource":"r"}],"successors":[1]},{}]],"objective":[{"type":"op_delay","train":0,"operation":1,"coeff":1},{"type":"op_delay","train":1,"operation":1,"coeff":1}]}"#,
        r#"{"objective":[{"coeff":1,"increment":0,"operation":1,"threshold":0,"train":0,"type":"op_delay"},{"coeff":1,"increment":0,"operation":1,"threshold":0,"train":1,"type":"op_delay"}],"trains":[[{"min_duration":10,"resources":[{"release_time":0,"resource":"r"}],"start_lb":0,"successors":[1]},{"min_duration":0,"resources":[],"start_lb":0,"successors":[]}],[{"min_duration":4,"resources":[{"release_time":0,"resource":"r"}],"start_lb":0,"successors":[1]},{"min_duration":0,"resources":[],"start_lb":0,"successors":[]}]]}"#,
    ),
    (
        r#"{"trains":[],"objective":[]}"#,
        r#"{"objective":[],"trains":[]}"#,
    ),
    (
        r#"{"trains":[[{"start_lb":3,"start_ub":7,"resources":[{"resource":"a\"b","release_time":2},{"resource":"c"}],"successors":[2,1]},{"successors":[2]},{}]],"objective":[{"type":"op_delay","train":0,"operation":2,"threshold":9,"increment":4}]}"#,
        r#"{"objective":[{"coeff":0,"increment":4,"operation":2,"threshold":9,"train":0,"type":"op_delay"}],"trains":[[{"min_duration":0,"resources":[{"release_time":2,"resource":"a\"b"},{"release_time":0,"resource":"c"}],"start_lb":3,"start_ub":7,"successors":[2,1]},{"min_duration":0,"resources":[],"start_lb":0,"successors":[2]},{"min_duration":0,"resources":[],"start_lb":0,"successors":[]}]]}"#,
    ),
];

#[test]
fn a_problem_is_written_with_all_its_keys_in_order(rt: HostRuntime) {
    for (text, wanted) in TEXTS {
        expect(&rt, rt.alloc(), text, wanted);
    }
}
