use disp_model::{Component, Operation, Text};
use displib_reader::read_problem;
use std::panic::Expect;
use std::process::Abort;

/// The operations of the first train of the first test.
fn check_operations(rt: &impl Abort, train: &[Operation]) {
    assert_eq!(rt; train.len(), 2);
    let (first, second) = (&train[0], &train[1]);
    let one = (first.lower, first.upper, first.min);
    let other = (second.lower, second.upper, second.min);
    assert_eq!(rt; (one, other), ((7, None, 5), (0, Some(9), 0)));
    assert_eq!(rt; first.next.as_slice(), [1].as_slice());
}

/// Its one component.
fn check_components(rt: &impl Abort, components: &[Component]) {
    assert_eq!(rt; components.len(), 1);
    let component = components[0];
    let place = (component.train, component.operation);
    let costs = (component.threshold, component.increment, component.coeff);
    assert_eq!(rt; (place, costs), ((0, 1), (3, 1, 2)));
}

#[test]
fn a_problem_is_read_with_its_numbers_and_defaults(rt: HostRuntime) {
    let text =
        r#"{"note":1,"trains":[[{"start_lb":7,"min_duration":5,"successors":[1,1]},{"start_ub":9,"resources":null}],[{}]],"objective":[{"type":"op_delay","train":0,"operation":1,"threshold":3,"increment":1,"coeff":2}]}"#;
    let problem = read_problem(rt.alloc(), text.as_bytes()).expect(&rt, "a problem");
    let trains = problem.trains.as_slice();
    assert_eq!(rt; trains.len(), 2);
    check_operations(&rt, trains[0].as_slice());
    check_components(&rt, problem.components.as_slice());
}

/// The names of the resources of the second test.
fn check_names(rt: &impl Abort, names: &[Text]) {
    assert_eq!(rt; names.len(), 2);
    assert_eq!(rt; (names[0].as_str(), names[1].as_str()), ("b", "a"));
}

/// A train of one operation has these two listings: the resource and release time of each.
fn check_listings(rt: &impl Abort, train: &[Operation], first: (u32, u32), second: (u32, u32)) {
    assert_eq!(rt; train.len(), 1);
    let listings = train[0].listings.as_slice();
    assert_eq!(rt; listings.len(), 2);
    let one = (listings[0].resource, listings[0].release);
    let other = (listings[1].resource, listings[1].release);
    assert_eq!(rt; (one, other), (first, second));
}

#[test]
fn resources_are_numbered_by_first_appearance(rt: HostRuntime) {
    let text =
        r#"{"trains":[[{"resources":[{"resource":"b","release_time":1},{"resource":"b","release_time":3}]}],[{"resources":[{"resource":"a"},{"resource":"b"}]}]],"objective":[]}"#;
    let problem = read_problem(rt.alloc(), text.as_bytes()).expect(&rt, "a problem");
    check_names(&rt, problem.names.as_slice());
    let trains = problem.trains.as_slice();
    assert_eq!(rt; trains.len(), 2);
    check_listings(&rt, trains[0].as_slice(), (0, 1), (0, 3));
    check_listings(&rt, trains[1].as_slice(), (1, 0), (0, 0));
}
