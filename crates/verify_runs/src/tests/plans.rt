// What `check` prints of plans.
use super::runs::{SECOND, TREE, TWO, row};
use std::process::Abort;
use std::sync::Wait;
use std::thread::Threads;

const WITH_PLAN: [&str; 5] = ["check", "p", "t", "--plan", "s"];

// A plan, the status, and the lines.
type Row = (&'static str, u8, &'static str);

// Each plan is judged so behind the tree of the two trains.
fn plans(rt: &(impl Threads + Wait + Sync + Abort + AllocGlobal), rows: &[Row]) {
    for (plan, status, lines) in rows {
        row(rt, &WITH_PLAN, TWO, TREE, "", plan, *status, lines);
    }
}

const COSTS: &[Row] = &[
    (SECOND, 0, "accepted optimal 18\n"),
    (
        r#"{"events":[{"operation":0,"time":0,"train":1},{"operation":1,"time":4,"train":1},{"operation":0,"time":4,"train":0},{"operation":1,"time":14,"train":0}]}"#,
        0,
        "accepted optimal 18\n",
    ),
    (
        r#"{"events":[{"operation":0,"time":0,"train":0},{"operation":1,"time":10,"train":0},{"operation":0,"time":10,"train":1},{"operation":1,"time":14,"train":1}],"objective_value":24}"#,
        1,
        "accepted optimal 18\nplan: WrongCost 18 24\n",
    ),
    (
        r#"{"events":[{"operation":0,"time":0,"train":0},{"operation":1,"time":10,"train":0},{"operation":0,"time":10,"train":1},{"operation":1,"time":14,"train":1}],"objective_value":18}"#,
        1,
        "accepted optimal 18\nplan: WrongCost 18 24\n",
    ),
    (
        r#"{"events":[{"operation":0,"time":0,"train":1},{"operation":1,"time":4,"train":1},{"operation":0,"time":4,"train":0},{"operation":1,"time":14,"train":0}],"objective_value":17}"#,
        1,
        "accepted optimal 18\nplan: WrongCost 17 18\n",
    ),
    (
        r#"{"events":[{"operation":0,"time":0,"train":0},{"operation":0,"time":4,"train":1}],"objective_value":24}"#,
        1,
        "accepted optimal 18\nplan: Held 0 1 \"r\"\n",
    ),
];

#[test]
fn a_plan_costs_what_the_verdict_says(rt: HostRuntime) {
    plans(&rt, COSTS);
}

const NEVER: &str = r#"{"trains":[[{"start_lb":5,"start_ub":4}]],"objective":[]}"#;

const NO_EVENTS: &str = r#"{"events":[]}"#;

#[test]
fn no_plan_is_wanted_where_none_is_valid(rt: HostRuntime) {
    let tree = "displib-tree 1\nverdict infeasible\nlate 0 0\nend\n";
    let without = ["check", "p", "t"];
    let line = "accepted infeasible\n";
    row(&rt, &without, NEVER, tree, "", "", 0, line);
    let lines = "accepted infeasible\nplan: NoPlanWanted\n";
    row(&rt, &WITH_PLAN, NEVER, tree, "", NO_EVENTS, 1, lines);
}

#[test]
fn a_refused_tree_is_told_alone(rt: HostRuntime) {
    let tree = "displib-tree 1\nverdict optimal 18\nnoroute\nend\n";
    let line = "refused 0 HasRoute\n";
    row(&rt, &WITH_PLAN, TWO, tree, "", NO_EVENTS, 1, line);
}

const NO_PLANS: &[Row] = &[("{", 2, "plan: NotJson\n"), ("[]", 2, "plan: Shape /\n")];

#[test]
fn what_is_no_plan_is_refused(rt: HostRuntime) {
    plans(&rt, NO_PLANS);
}
