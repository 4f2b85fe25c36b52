// What `report` prints of solutions.
use super::judged::{SECOND, TWO};
use super::runs::{ends, place};
use outside_in_memory::SteadyShelf;
use std::process::Abort;
use std::sync::Wait;
use std::thread::Threads;

const REPORT: [&str; 5] = ["report", "p", "s", "--fixings", "f"];

/// `report p s --fixings f` of these files ends with this status and these lines.
fn row(
    rt: &(impl Threads + Wait + Sync + Abort + AllocGlobal),
    solution: &str,
    fixings: &str,
    status: u8,
    lines: &str,
) {
    let mut shelf = SteadyShelf::new(rt.alloc());
    place(rt, &mut shelf, "p", TWO);
    place(rt, &mut shelf, "s", solution);
    place(rt, &mut shelf, "f", fixings);
    ends(rt, &mut shelf, &REPORT, status, lines);
}

const TABLE: &str =
    " train        start          end        delay         cost\n     0            4           14           14           14\n     1            0            4            4            4\ntotal 18\n";

#[test]
fn a_valid_solution_has_its_table(rt: HostRuntime) {
    row(&rt, SECOND, "started 1 0 0\n", 0, TABLE);
}

/// A solution, fixings, the status, and the line.
const FAULTS: &[(&str, &str, u8, &str)] = &[
    (SECOND, "started 0 0 0\n", 1, "FixingUnmet 1\n"),
    (
        r#"{"events":[{"operation":0,"time":0,"train":0},{"operation":0,"time":4,"train":1}]}"#,
        "",
        1,
        "Held 0 1 \"r\"\n",
    ),
    ("{", "", 2, "solution: NotJson\n"),
];

#[test]
fn a_fault_has_no_table(rt: HostRuntime) {
    for (solution, fixings, status, line) in FAULTS {
        row(&rt, solution, fixings, *status, line);
    }
}
