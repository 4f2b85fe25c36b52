// What is printed for problems without choices that have a plan, and for those that have none.
use super::doubles::solves;
use std::process::Abort;
use std::sync::Wait;
use std::thread::Threads;

/// Problems, each with what is written of it.
const SOLVED: &[(&str, &str)] = &[
    (
        r#"{"trains":[],"objective":[]}"#,
        "edition 0\noptimal 0\n{\"events\":[],\"objective_value\":0}\n",
    ),
    (
        r#"{"trains":[[{"min_duration":5,"successors":[1]},{}]],"objective":[{"type":"op_delay","train":0,"operation":1,"threshold":3,"coeff":2,"increment":1}]}"#,
        "edition 0\noptimal 5\n{\"events\":[{\"operation\":0,\"time\":0,\"train\":0},{\"operation\":1,\"time\":5,\"train\":0}],\"objective_value\":5}\n",
    ),
    (
        r#"{"trains":[[{"min_duration":5,"successors":[1]},{}]],"objective":[{"type":"op_delay","train":0,"operation":1,"threshold":5,"coeff":2,"increment":1}]}"#,
        "edition 0\noptimal 1\n{\"events\":[{\"operation\":0,\"time\":0,\"train\":0},{\"operation\":1,\"time\":5,\"train\":0}],\"objective_value\":1}\n",
    ),
    (
        r#"{"trains":[[{"start_ub":null,"successors":[1,1]},{}]],"objective":[],"note":5}"#,
        "edition 0\noptimal 0\n{\"events\":[{\"operation\":0,\"time\":0,\"train\":0},{\"operation\":1,\"time\":0,\"train\":0}],\"objective_value\":0}\n",
    ),
    (
        r#"{"trains":[[{"start_lb":2147483647}]],"objective":[]}"#,
        "edition 0\noptimal 0\n{\"events\":[{\"operation\":0,\"time\":2147483647,\"train\":0}],\"objective_value\":0}\n",
    ),
    (
        r#"{"trains":[[{"start_lb":9,"successors":[1]},{}],[{"start_lb":4,"min_duration":5,"successors":[1]},{"start_lb":2}]],"objective":[]}"#,
        "edition 0\noptimal 0\n{\"events\":[{\"operation\":0,\"time\":4,\"train\":1},{\"operation\":0,\"time\":9,\"train\":0},{\"operation\":1,\"time\":9,\"train\":0},{\"operation\":1,\"time\":9,\"train\":1}],\"objective_value\":0}\n",
    ),
];

/// Each problem is solved, and what stands behind it is written.
fn are_solved(rt: &(impl Threads + Wait + Sync + Abort + AllocGlobal), rows: &[(&str, &str)]) {
    for (problem, want) in rows {
        solves(rt, problem.as_bytes(), 0, want);
    }
}

#[test]
fn problems_without_choices_are_solved(rt: HostRuntime) {
    are_solved(&rt, SOLVED);
}

#[test]
fn a_start_that_is_too_late_is_infeasible(rt: HostRuntime) {
    solves(
        &rt,
        br#"{"trains":[[{"start_lb":5,"start_ub":4}]],"objective":[]}"#,
        1,
        "edition 0\ninfeasible\n",
    );
}

/// Two components of the most that one may cost.
const COSTLY: &str =
    r#"{"trains":[[{}]],"objective":[{"type":"op_delay","train":0,"operation":0,"coeff":2147483647},{"type":"op_delay","train":0,"operation":0,"coeff":2147483647}]}"#;

// Two such components fit, three do not.
#[test]
fn the_cost_limit_is_met(rt: HostRuntime) {
    solves(
        &rt,
        COSTLY.as_bytes(),
        0,
        "edition 0\noptimal 0\n{\"events\":[{\"operation\":0,\"time\":0,\"train\":0}],\"objective_value\":0}\n",
    );
}
