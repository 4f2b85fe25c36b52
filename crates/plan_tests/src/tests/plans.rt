// The plans of two trains of two operations each, the first of which last 10 and 4, under arcs that
// order them. What they list does not matter here.
ghost use Rattle.std.specs.Prelude.{◌≡◌, ◌<◌, ◌^◌, [], ◌∷◌, IfOk, All, length};

use disp_model::{Event, List, Memory, Plan};
use incremental_paths::{AddNo, Paths};
use plan_builder::earliest;
use std::alloc::Global;
use std::panic::Expect;
use std::process::Abort;
use worked_problems::two_trains;

/// Each train's one route.
fn both_routes(alloc: Global) -> Result<Vec<List<u32>>, Memory>
    ensures { IfOk result (λ routes. routes.items ≡ (0 ∷ 1 ∷ []) ∷ (0 ∷ 1 ∷ []) ∷ []) }
{
    let first = List::from_vec(Vec::from_slice(alloc, &[0, 1])?);
    let second = List::from_vec(Vec::from_slice(alloc, &[0, 1])?);
    Ok(vec![in alloc; first, second]?)
}

/// Adds an arc.
fn add(rt: &impl Abort, paths: &mut Paths, from: u32, to: u32, by: u32) -> Result<(), AddNo>
    requires nodes { length paths.old.lowers ≡ 4 }
    requires lowers { All (λ lower. lower < 2 ^ 32) paths.old.lowers }
    requires lengths { All (λ arc. arc.length < 2 ^ 32) paths.old.arcs }
    ensures nodes { length paths.new.lowers ≡ 4 }
    ensures lowers { All (λ lower. lower < 2 ^ 32) paths.new.lowers }
    ensures lengths { All (λ arc. arc.length < 2 ^ 32) paths.new.arcs }
{
    let kept = paths.arcs().len();
    assert!(rt; kept < 1000);
    assert!(rt; from < 4 && to < 4);
    paths.add(from, to, u64::from(by))
}

/// Four nodes, and these arcs between them.
fn paths_of(rt: &impl Abort, alloc: Global, arcs: &[(u32, u32, u32)]) -> Paths
    ensures { length result.lowers ≡ 4 }
{
    let mut paths = Paths::new(alloc, &[0, 0, 0, 0]).expect(rt, "paths");
    for (from, to, length) in arcs {
        add(rt, &mut paths, *from, *to, *length).expect(rt, "an arc");
    }
    paths
}

/// An arc: its two nodes and its length.
type Step = (u32, u32, u32);

/// An event: its time, train and operation.
type Start = (u64, u32, u32);

/// The plan under these arcs.
fn plan_of(rt: &impl Abort, alloc: Global, arcs: &[Step]) -> Result<Plan, Memory> {
    let problem = two_trains(alloc)?;
    let routes = both_routes(alloc)?;
    let paths = paths_of(rt, alloc, arcs);
    earliest(alloc, &problem, &routes, &paths)
}

/// The events are these.
fn check_events(rt: &impl Abort, events: &[Event], wanted: &[Start]) {
    assert_eq!(rt; events.len(), wanted.len());
    for (event, start) in events.iter().zip(wanted) {
        assert_eq!(rt; (event.time, event.train, event.operation), *start);
    }
}

/// The plan under these arcs is this one.
fn compare(rt: &impl Abort, alloc: Global, arcs: &[Step], wanted: &[Start]) {
    let plan = plan_of(rt, alloc, arcs).expect(rt, "a plan");
    check_events(rt, plan.as_slice(), wanted);
}

const ROWS: &[(&[Step], &[Start])] = &[
    // Without an order of the trains.
    (
        &[(0, 1, 10), (2, 3, 4)],
        &[(0, 0, 0), (0, 1, 0), (4, 1, 1), (10, 0, 1)],
    ),
    // The fast train first: at time 4 its end stands before the other's start.
    (
        &[(0, 1, 10), (2, 3, 4), (2, 0, 4), (3, 0, 0)],
        &[(0, 1, 0), (4, 1, 1), (4, 0, 0), (14, 0, 1)],
    ),
    // The slow train first.
    (
        &[(0, 1, 10), (2, 3, 4), (0, 2, 10), (1, 2, 0)],
        &[(0, 0, 0), (10, 0, 1), (10, 1, 0), (14, 1, 1)],
    ),
    // All at one time: the second train overtakes the first; an arc may stand twice.
    (
        &[(3, 0, 0), (0, 1, 0), (2, 3, 0), (3, 0, 0)],
        &[(0, 1, 0), (0, 1, 1), (0, 0, 0), (0, 0, 1)],
    ),
];

#[test]
fn events_come_by_time_train_and_arcs(rt: HostRuntime) {
    for (arcs, plan) in ROWS {
        compare(&rt, rt.alloc(), arcs, plan);
    }
}
