// Bounds that are set place by place, the least of them, and what is found below a limit.
use least_bounds::LeastBounds;
use std::alloc::Global;
use std::panic::Expect;
use std::process::Abort;

// These bounds, one place after the other.
fn bounds_of(rt: &impl Abort, alloc: Global, bounds: &[Option<u64>]) -> LeastBounds {
    let mut least = LeastBounds::new(alloc);
    for bound in bounds {
        let place = least.len();
        least.push_none().expect(rt, "room");
        least.set(place, *bound);
    }
    least
}

fn expect_least(rt: &impl Abort, alloc: Global, bounds: &[Option<u64>], wanted: Option<u64>) {
    let least = bounds_of(rt, alloc, bounds);
    assert_eq!(rt; (least.len(), least.least()), (bounds.len(), wanted));
}

// A limit, and the first place whose bound is below it.
fn expect_found(rt: &impl Abort, least: &LeastBounds, rows: &[(Option<u64>, Option<usize>)]) {
    for (limit, place) in rows {
        assert_eq!(rt; least.find_below(*limit), *place);
    }
}

const FIVE: &[Option<u64>] = &[Some(7), None, Some(3), Some(9), Some(4)];

#[test]
fn the_least_bound_is_that_of_a_place(rt: HostRuntime) {
    let alloc = rt.alloc();
    expect_least(&rt, alloc, &[], None);
    expect_least(&rt, alloc, &[None, None, None], None);
    expect_least(&rt, alloc, &[Some(u64::MAX)], Some(u64::MAX));
    expect_least(&rt, alloc, FIVE, Some(3));
}

const FOUND: &[(Option<u64>, Option<usize>)] = &[
    (None, Some(0)),
    (Some(8), Some(0)),
    (Some(7), Some(2)),
    (Some(4), Some(2)),
    (Some(3), None),
    (Some(0), None),
];

#[test]
fn a_bound_at_the_limit_is_not_found(rt: HostRuntime) {
    let least = bounds_of(&rt, rt.alloc(), FIVE);
    expect_found(&rt, &least, FOUND);
}

#[test]
fn a_bound_that_is_taken_away_is_not_found(rt: HostRuntime) {
    let mut least = bounds_of(&rt, rt.alloc(), FIVE);
    assert_eq!(rt; least.len(), 5);
    least.set(2, None);
    assert_eq!(rt; least.least(), Some(4));
    expect_found(&rt, &least, &[(Some(5), Some(4)), (Some(4), None)]);
}
