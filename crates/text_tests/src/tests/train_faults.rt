// Faults of small trains, and the greatest cost. What a reader finds by these calls is tested
// there.
use disp_model::{Component, GREATEST_NUMBER, List, Operation, Train};
use std::alloc::Global;
use std::panic::Expect;
use std::process::Abort;
use train_graphs::{first_loop, first_not_entered, first_not_left, greatest_sum};

/// An operation without successors.
fn exit(alloc: Global) -> Operation {
    Operation {
        lower: 0,
        upper: None,
        min: 5,
        listings: List::new(alloc),
        next: List::new(alloc),
    }
}

/// A train of two exits.
fn two_exits(rt: &impl Abort, alloc: Global) -> Train {
    let operations = vec![in alloc; exit(alloc), exit(alloc)];
    List::from_vec(operations.expect(rt, "operations"))
}

#[test]
fn a_train_with_two_exits_is_found(rt: HostRuntime) {
    let train = two_exits(&rt, rt.alloc());
    let trains = vec![in rt.alloc(); train].expect(&rt, "trains");
    assert_eq!(rt; first_not_left(trains.as_slice()), Some((0, 2)));
}

#[test]
fn no_train_has_no_fault(rt: HostRuntime) {
    let entered = first_not_entered(rt.alloc(), &[]).expect(&rt, "an answer");
    assert_eq!(rt; entered, None);
    let loops = first_loop(rt.alloc(), &[]).expect(&rt, "an answer");
    assert_eq!(rt; loops, None);
}

#[test]
fn a_component_costs_most_at_the_horizon(rt: HostRuntime) {
    let component = Component {
        train: 0,
        operation: 0,
        threshold: 0,
        increment: 7,
        coeff: 2,
    };
    let most = 2 * u128::from(GREATEST_NUMBER) + 7;
    assert_eq!(rt; greatest_sum(&[], &[component]), most);
}
