// What `verify` prints of solutions.
use super::runs::{ends, place, place_counted, run};
use outside_in_memory::{MemShelf, SteadyShelf, SteadySink};
use std::panic::Expect;
use std::process::Abort;
use std::sync::Wait;
use std::thread::Threads;

// Two trains that share r: one holds it for 10, the other for 4. Each costs the start of its second
// operation.
pub(crate) const TWO: &str =
    r#"{"trains":[[{"min_duration":10,"resources":[{"resource":"r"}],"successors":[1]},{}],[{"min_duration":4,"resources":[{"resource":"r"}],"successors":[1]},{}]],"objective":[{"type":"op_delay","train":0,"operation":1,"coeff":1},{"type":"op_delay","train":1,"operation":1,"coeff":1}]}"#;

// Its solution of cost 18.
pub(crate) const SECOND: &str =
    r#"{"events":[{"operation":0,"time":0,"train":1},{"operation":1,"time":4,"train":1},{"operation":0,"time":4,"train":0},{"operation":1,"time":14,"train":0}],"objective_value":18}"#;

// The same with a release time of 3.
const RELEASED: &str =
    r#"{"trains":[[{"min_duration":10,"resources":[{"resource":"r","release_time":3}],"successors":[1]},{}],[{"min_duration":4,"resources":[{"resource":"r","release_time":3}],"successors":[1]},{}]],"objective":[]}"#;

// Two trains that swap r1 and r2.
const SWAP: &str =
    r#"{"trains":[[{"min_duration":10,"resources":[{"resource":"r1"}],"successors":[1]},{"resources":[{"resource":"r2"}],"successors":[2]},{}],[{"min_duration":10,"resources":[{"resource":"r2"}],"successors":[1]},{"resources":[{"resource":"r1"}],"successors":[2]},{}]],"objective":[]}"#;

// One operation that may start at no time.
const NEVER: &str = r#"{"trains":[[{"start_lb":5,"start_ub":4}]],"objective":[]}"#;

const NONE: &str = r#"{"trains":[],"objective":[]}"#;

const COSTLY: &str =
    r#"{"trains":[[{}]],"objective":[{"type":"op_delay","train":0,"operation":0,"coeff":2147483647}]}"#;

// An event, as time, train and operation.
type When = (u64, u32, u32);

// The text of a solution with these events, and what is stated.
fn solution(rt: &(impl Abort + AllocGlobal), events: &[When], stated: &str) -> String {
    let mut text = String::from_str(rt.alloc(), "{\"events\":[").expect(rt, "a text");
    let mut between = "";
    for (time, train, operation) in events {
        write!(
            text,
            "{between}{{\"operation\":{operation},\"time\":{time},\"train\":{train}}}"
        )
        .expect(rt, "a text");
        between = ",";
    }
    write!(text, "]{stated}}}").expect(rt, "a text");
    text
}

const VERIFY: [&str; 3] = ["verify", "p", "s"];

// The solution is judged so, on a problem.
fn verifies(
    rt: &(impl Threads + Wait + Sync + Abort + AllocGlobal),
    problem: &str,
    solution: &str,
    status: u8,
    line: &str,
) {
    let mut shelf = SteadyShelf::new(rt.alloc());
    place(rt, &mut shelf, "p", problem);
    place(rt, &mut shelf, "s", solution);
    ends(rt, &mut shelf, &VERIFY, status, line);
}

// A problem, events, what is stated, the status, and the line.
type Row = (
    &'static str,
    &'static [When],
    &'static str,
    u8,
    &'static str,
);

// The events of each row are judged so, on its problem, with what is stated.
fn rows(rt: &(impl Threads + Wait + Sync + Abort + AllocGlobal), rows: &[Row]) {
    for (problem, events, stated, status, line) in rows {
        let solution = solution(rt, events, stated);
        verifies(rt, problem, solution.as_str(), *status, line);
    }
}

const FAULTS: &[Row] = &[
    (TWO, &[(0, 2, 0)], "", 1, "UnknownTrain 0\n"),
    (TWO, &[(0, 0, 2)], "", 1, "UnknownOperation 0\n"),
    (TWO, &[(4, 1, 0), (0, 0, 0)], "", 1, "TimeBackwards 1\n"),
    (TWO, &[(0, 0, 1)], "", 1, "NotEntry 0\n"),
    (TWO, &[(0, 0, 0), (10, 0, 0)], "", 1, "NotSuccessor 1\n"),
    (NEVER, &[(4, 0, 0)], "", 1, "TooEarly 0\n"),
    (NEVER, &[(5, 0, 0)], "", 1, "TooLate 0\n"),
    (TWO, &[(0, 0, 0), (9, 0, 1)], "", 1, "TooShort 1\n"),
    (TWO, &[(0, 0, 0), (4, 1, 0)], "", 1, "Held 0 1 \"r\"\n"),
    (
        RELEASED,
        &[(0, 0, 0), (10, 0, 1), (12, 1, 0), (16, 1, 1)],
        "",
        1,
        "Held 0 2 \"r\"\n",
    ),
    (TWO, &[(0, 0, 0), (10, 0, 1)], "", 1, "Incomplete 1\n"),
    (
        SWAP,
        &[
            (0, 0, 0),
            (0, 1, 0),
            (10, 0, 1),
            (10, 1, 1),
            (10, 0, 2),
            (10, 1, 2),
        ],
        "",
        1,
        "Held 1 2 \"r2\"\n",
    ),
];

#[test]
fn the_first_fault_is_told(rt: HostRuntime) {
    rows(&rt, FAULTS);
}

// The events where the first train goes first, and where it goes second.
const TRAIN_FIRST: &[When] = &[(0, 0, 0), (10, 0, 1), (10, 1, 0), (14, 1, 1)];

const TRAIN_SECOND: &[When] = &[(0, 1, 0), (4, 1, 1), (4, 0, 0), (14, 0, 1)];

const VALID: &[Row] = &[
    (TWO, TRAIN_FIRST, "", 0, "valid 24\n"),
    (
        TWO,
        TRAIN_SECOND,
        ",\"objective_value\":17",
        1,
        "WrongCost 17 18\n",
    ),
    (
        TWO,
        TRAIN_SECOND,
        ",\"objective_value\":18",
        0,
        "valid 18\n",
    ),
    (
        TWO,
        TRAIN_SECOND,
        ",\"objective_value\":null",
        0,
        "valid 18\n",
    ),
    (TWO, TRAIN_SECOND, "", 0, "valid 18\n"),
    (NONE, &[], "", 0, "valid 0\n"),
    (
        COSTLY,
        &[(4611686018427387904, 0, 0)],
        "",
        0,
        "valid 9903520309671356180765605888\n",
    ),
];

#[test]
fn a_valid_plan_has_its_cost(rt: HostRuntime) {
    rows(&rt, VALID);
}

const NO_SOLUTIONS: &[Row] = &[
    (
        COSTLY,
        &[(4611686018427387905, 0, 0)],
        "",
        2,
        "solution: TooLarge /events/0/time\n",
    ),
    (
        TWO,
        &[],
        ",\"objective_value\":9223372036854775808",
        2,
        "solution: TooLarge /objective_value\n",
    ),
    (
        TWO,
        &[],
        ",\"objective_value\":18.0",
        2,
        "solution: NotWhole /objective_value\n",
    ),
];

#[test]
fn what_is_no_solution_is_refused(rt: HostRuntime) {
    rows(&rt, NO_SOLUTIONS);
    verifies(&rt, TWO, "[]", 2, "solution: Shape /\n");
    verifies(&rt, TWO, "{", 2, "solution: NotJson\n");
    verifies(&rt, "{}", "{", 2, "problem: Shape /trains\n");
}

// The problem whose plan is put costs 5.
const LATE: &str =
    r#"{"trains":[[{"min_duration":5,"successors":[1]},{}]],"objective":[{"type":"op_delay","train":0,"operation":1,"threshold":3,"coeff":2,"increment":1}]}"#;

#[test]
fn a_plan_that_was_put_is_valid(rt: HostRuntime) {
    let mut shelf = SteadyShelf::new(rt.alloc());
    place(&rt, &mut shelf, "p", LATE);
    let words = ["solve", "p", "--budget", "0", "--plan", "out"];
    let mut out = SteadySink::new(rt.alloc());
    let (status, _) = run(&rt, &mut shelf, &words, &mut out);
    let has_cost = shelf.file("out").ends_with(b"5}\n".as_slice());
    assert_eq!(rt; (status, has_cost), (0, true));
    ends(&rt, &mut shelf, &["verify", "p", "out"], 0, "valid 5\n");
}

#[test]
fn a_solution_that_cannot_be_read_is_told(rt: HostRuntime) {
    let mut shelf = MemShelf::new(rt.alloc());
    place_counted(&rt, &mut shelf, "p", NONE.as_bytes());
    ends(&rt, &mut shelf, &VERIFY, 4, "solution: Failed\n");
    assert_eq!(rt; (shelf.faults("p"), shelf.faults("s")), (0, 1));
}
