// The worked examples of the format, each refusal with its place and its printed text, and the
// order of the rules.
use displib_reader::read_problem;
use std::alloc::Global;
use std::panic::Expect;
use std::process::Abort;

mod accepted;
mod cycles;
mod limits;
mod places;
mod printed;
mod refusals;
mod written;

/// Asserts what is printed for the refusal of a text; `accepted` where it is taken.
fn expect(rt: &impl Abort, alloc: Global, text: &str, wanted: &str) {
    let mut why = String::new(alloc);
    match read_problem(alloc, text.as_bytes()) {
        Ok(_) => why.push_str("accepted").expect(rt, "a text"),
        Err(no) => no.write(&mut why).expect(rt, "a text"),
    }
    assert_eq!(rt; why.as_str(), wanted, "{text}");
}

/// The same for each text of a table.
fn expect_all(rt: &impl Abort, alloc: Global, rows: &[(&str, &str)]) {
    for (text, wanted) in rows {
        expect(rt, alloc, text, wanted);
    }
}

/// A train whose operations go on one to the next, up to this one, and then this text.
fn chained(rt: &impl Abort, alloc: Global, last: u32, tail: &str) -> String {
    let mut text = String::from_str(alloc, r#"{"trains":[["#).expect(rt, "a text");
    for next in 1..last {
        write!(text, "{{\"successors\":[{next}]}},").expect(rt, "a text");
    }
    text.push_str(tail).expect(rt, "a text");
    text
}
