use disp_model::Event;
use solution_text::write_solution;
use std::alloc::Global;
use std::panic::Expect;
use std::process::Abort;

/// A plan with a cost is written so.
fn expect_written(rt: &impl Abort, alloc: Global, plan: &[Event], cost: u64, wanted: &[u8]) {
    let text = write_solution(alloc, plan, cost).expect(rt, "a text");
    assert_eq!(rt; text.as_slice(), wanted);
}

const PLAN: &[Event] = &[
    Event {
        time: 0,
        train: 1,
        operation: 0,
    },
    Event {
        time: 4,
        train: 0,
        operation: 0,
    },
];

#[test]
fn a_solution_is_written_with_its_keys_in_order(rt: HostRuntime) {
    expect_written(
        &rt,
        rt.alloc(),
        PLAN,
        18,
        br#"{"events":[{"operation":0,"time":0,"train":1},{"operation":0,"time":4,"train":0}],"objective_value":18}"#,
    );
    expect_written(
        &rt,
        rt.alloc(),
        &[],
        0,
        b"{\"events\":[],\"objective_value\":0}",
    );
}
