// What is written, what is read and what is refused, with the places and the printed texts.
use solution_text::read_solution;
use std::alloc::Global;
use std::panic::Expect;
use std::process::Abort;

mod read;
mod refused;
mod written;

/// Asserts what is printed for the refusal of a text; `accepted` where it is taken.
fn expect(rt: &impl Abort, alloc: Global, text: &str, wanted: &str) {
    let mut why = String::new(alloc);
    match read_solution(alloc, text.as_bytes()) {
        Ok(_) => why.push_str("accepted").expect(rt, "a text"),
        Err(no) => no.write(&mut why).expect(rt, "a text"),
    }
    assert_eq!(rt; why.as_str(), wanted, "{text}");
}
