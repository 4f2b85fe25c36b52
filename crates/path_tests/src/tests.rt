// Arcs that are added and withdrawn, and lowers that are raised.
ghost use Rattle.std.specs.Prelude.{◌≡◌, ◌<◌, ◌≤◌, ◌+◌, ◌^◌, length, All};

mod witnesses;

use incremental_paths::{AddNo, Arc, OrderedPaths, Paths, Steps};
use std::alloc::Global;
use std::marker::Brand;
use std::panic::Expect;
use std::process::Abort;
use std::sync::ledger::{Blank, Ledger};
use std::test::Fail;

// One call, and for an arc whether it is taken.
#[derive(Clone, Copy)]
enum Step {
    Add(u32, u32, u32),
    Closes(u32, u32, u32),
    Withdraw(u32),
    Raise(u32, u32),
}

// A step, the lengths of all nodes after it, and the nodes that it changed.
type Row = (Step, &'static [u64], &'static [u32]);

fn add(
    rt: &impl Abort,
    paths: &mut Paths,
    nodes: usize,
    from: u32,
    to: u32,
    by: u32,
) -> Result<(), AddNo>
    requires nodes { length paths.old.lowers ≡ nodes }
    requires lowers { All (λ lower. lower < 2 ^ 32) paths.old.lowers }
    requires lengths { All (λ arc. arc.length < 2 ^ 32) paths.old.arcs }
    ensures nodes { length paths.new.lowers ≡ nodes }
    ensures lowers { All (λ lower. lower < 2 ^ 32) paths.new.lowers }
    ensures lengths { All (λ arc. arc.length < 2 ^ 32) paths.new.arcs }
{
    let kept = paths.arcs().len();
    assert!(rt; kept < 1000);
    assert!(rt; (from as usize) < nodes);
    assert!(rt; (to as usize) < nodes);
    paths.add(from, to, u64::from(by))
}

fn raise(rt: &impl Abort, paths: &mut Paths, nodes: usize, node: u32, lower: u32)
    requires nodes { length paths.old.lowers ≡ nodes }
    requires lowers { All (λ lower. lower < 2 ^ 32) paths.old.lowers }
    requires lengths { All (λ arc. arc.length < 2 ^ 32) paths.old.arcs }
    ensures nodes { length paths.new.lowers ≡ nodes }
    ensures lowers { All (λ lower. lower < 2 ^ 32) paths.new.lowers }
    ensures lengths { All (λ arc. arc.length < 2 ^ 32) paths.new.arcs }
{
    let kept = paths.arcs().len();
    assert!(rt; kept < 1000);
    assert!(rt; (node as usize) < nodes);
    paths.raise(node, u64::from(lower));
}

fn take(rt: &impl Abort, paths: &mut Paths, nodes: usize, step: Step)
    requires nodes { length paths.old.lowers ≡ nodes }
    requires lowers { All (λ lower. lower < 2 ^ 32) paths.old.lowers }
    requires lengths { All (λ arc. arc.length < 2 ^ 32) paths.old.arcs }
    ensures nodes { length paths.new.lowers ≡ nodes }
    ensures lowers { All (λ lower. lower < 2 ^ 32) paths.new.lowers }
    ensures lengths { All (λ arc. arc.length < 2 ^ 32) paths.new.arcs }
{
    match step {
        Step::Add(from, to, by) => {
            let taken = add(rt, paths, nodes, from, to, by);
            assert_eq!(rt; taken, Ok(()));
        }
        Step::Closes(from, to, by) => {
            let refused = add(rt, paths, nodes, from, to, by);
            assert_eq!(rt; refused, Err(AddNo::Closes { from, to }));
        }
        Step::Withdraw(k) => {
            let kept = paths.arcs().len();
            assert!(rt; k as usize <= kept);
            paths.withdraw(k);
        }
        Step::Raise(node, lower) => raise(rt, paths, nodes, node, lower),
    }
}

// The lengths of all nodes are these.
fn compare(rt: &impl Abort, paths: &Paths, lengths: &[u64])
    requires nodes { length paths.now.lowers ≡ length lengths.now }
    requires few { length lengths.now < 1000 }
{
    for (node, want) in lengths.iter().enumerate() {
        let found = paths.length(node as u32);
        assert_eq!(rt; found, *want, "at {node}");
    }
}

// The nodes that have changed are these, in any order.
fn compare_changed(rt: &impl Abort, paths: &Paths, changed: &[u32]) {
    let found = paths.changed();
    assert_eq!(rt; found.len(), changed.len());
    assert!(rt; changed.iter().all(|node| found.contains(node)));
}

// What these rows leave, from these lowers on.
fn run(rt: &impl Abort, alloc: Global, lowers: &[u64], rows: &[Row]) -> Paths
    ensures nodes { length result.lowers ≡ length lowers.now }
    ensures lowers { All (λ lower. lower < 2 ^ 32) result.lowers }
    ensures lengths { All (λ arc. arc.length < 2 ^ 32) result.arcs }
{
    let nodes = lowers.len();
    assert!(rt; nodes < 1000);
    assert!(rt; lowers.iter().all(|lower| *lower < 1000));
    let mut paths = Paths::new(alloc, lowers).expect(rt, "paths");
    for (step, lengths, changed) in rows {
        take(rt, &mut paths, nodes, *step);
        assert_eq!(rt; lengths.len(), nodes);
        compare(rt, &paths, lengths);
        compare_changed(rt, &paths, changed);
    }
    paths
}

// The same where nothing more is asked of the paths.
fn check(rt: &impl Abort, alloc: Global, lowers: &[u64], rows: &[Row]) {
    run(rt, alloc, lowers, rows);
}

const COME_AND_GO: &[Row] = &[
    (Step::Add(0, 1, 10), &[0, 10], &[1]),
    (Step::Closes(1, 0, 0), &[0, 10], &[]),
    (Step::Withdraw(1), &[0, 0], &[]),
    (Step::Raise(0, 5), &[5, 0], &[0]),
    (Step::Raise(0, 3), &[5, 0], &[]),
];

const RAISED_BETWEEN: &[Row] = &[
    (Step::Add(0, 1, 10), &[0, 10, 0], &[1]),
    (Step::Add(1, 2, 10), &[0, 10, 20], &[2]),
    (Step::Raise(1, 15), &[0, 15, 25], &[1, 2]),
    (Step::Withdraw(1), &[0, 15, 0], &[]),
    (Step::Withdraw(1), &[0, 15, 0], &[]),
    (Step::Add(0, 1, 20), &[0, 20, 0], &[1]),
];

#[test]
fn lengths_follow_arcs_that_come_and_go(rt: HostRuntime) -> Result<(), Fail> {
    check(&rt, rt.alloc(), &[0, 0], COME_AND_GO);
    check(&rt, rt.alloc(), &[0, 0, 0], RAISED_BETWEEN);
    Ok(())
}

const AGAINST_THE_ORDER: &[Row] = &[
    (Step::Add(2, 1, 3), &[0, 3, 0], &[1]),
    (Step::Add(1, 0, 4), &[7, 3, 0], &[0]),
    (Step::Closes(0, 2, 0), &[7, 3, 0], &[]),
];

#[test]
fn an_arc_against_the_order_of_the_numbers(rt: HostRuntime) -> Result<(), Fail> {
    check(&rt, rt.alloc(), &[0, 0, 0], AGAINST_THE_ORDER);
    Ok(())
}

const GROWN_TWICE: &[Row] = &[
    (Step::Add(1, 3, 5), &[0, 0, 0, 5], &[3]),
    (Step::Add(1, 2, 3), &[0, 0, 3, 5], &[2]),
    (Step::Add(2, 3, 4), &[0, 0, 3, 7], &[3]),
    (Step::Add(0, 1, 10), &[0, 10, 13, 17], &[1, 2, 3]),
    (Step::Raise(2, 13), &[0, 10, 13, 17], &[]),
];

#[test]
fn a_node_that_grows_twice_is_told_once(rt: HostRuntime) -> Result<(), Fail> {
    check(&rt, rt.alloc(), &[0, 0, 0, 0], GROWN_TWICE);
    Ok(())
}

const TWO_ARCS: &[Row] = &[
    (Step::Add(0, 1, 3), &[0, 3], &[1]),
    (Step::Add(0, 1, 9), &[0, 9], &[1]),
    (Step::Withdraw(1), &[0, 3], &[]),
    (Step::Closes(0, 0, 5), &[0, 3], &[]),
];

#[test]
fn the_longer_of_two_arcs_counts(rt: HostRuntime) -> Result<(), Fail> {
    check(&rt, rt.alloc(), &[0, 0], TWO_ARCS);
    Ok(())
}

// The longest walk to a node has these nodes.
fn compare_walk(rt: &impl Abort, paths: &Paths, node: u32, wanted: &[u32])
    requires { length paths.now.lowers ≡ 4 }
{
    assert!(rt; node < 4);
    let walk = paths.walk(node).expect(rt, "a walk");
    assert_eq!(rt; walk.as_slice(), wanted);
}

// Whether there is a way between two nodes, which then has these nodes.
fn has_way(rt: &impl Abort, paths: &Paths, from: u32, to: u32, wanted: &[u32]) -> bool
    requires { length paths.now.lowers ≡ 4 }
{
    assert!(rt; from < 4);
    assert!(rt; to < 4);
    match paths.between(from, to).expect(rt, "an answer") {
        Some(way) => {
            assert_eq!(rt; way.as_slice(), wanted);
            true
        }
        None => false,
    }
}

// The walks and ways of the four nodes of the test below.
fn compare_walks(rt: &impl Abort, paths: &Paths)
    requires { length paths.now.lowers ≡ 4 }
{
    compare_walk(rt, paths, 0, &[3, 1, 0]);
    compare_walk(rt, paths, 2, &[2]);
    assert!(rt; has_way(rt, paths, 3, 0, &[3, 1, 0]));
    assert!(rt; has_way(rt, paths, 2, 2, &[2]));
    assert!(rt; !has_way(rt, paths, 0, 3, &[]));
}

const FROM_LAST_TO_FIRST: &[Row] = &[
    (Step::Add(3, 1, 2), &[1, 2, 0, 0], &[1]),
    (Step::Add(1, 0, 5), &[7, 2, 0, 0], &[0]),
    (Step::Add(2, 0, 6), &[7, 2, 0, 0], &[]),
];

#[test]
fn walks_and_ways_are_given_from_their_beginning(rt: HostRuntime) -> Result<(), Fail> {
    let paths = run(&rt, rt.alloc(), &[1, 0, 0, 0], FROM_LAST_TO_FIRST);
    compare_walks(&rt, &paths);
    Ok(())
}

// A chain that leads from the last node to the first, made from its end to its beginning.
fn chain(rt: &impl Abort, alloc: Global, nodes: u32) -> Paths
    requires some { 0 < nodes }
    requires few { nodes ≤ 1000 }
    ensures nodes { length result.lowers ≡ nodes }
    ensures lowers { All (λ lower. lower < 2 ^ 32) result.lowers }
    ensures lengths { All (λ arc. arc.length < 2 ^ 32) result.arcs }
{
    let lowers = vec![in alloc; 0u64; nodes as usize].expect(rt, "lowers");
    let mut paths = Paths::new(alloc, &lowers).expect(rt, "paths");
    for node in 0..nodes - 1 {
        add(rt, &mut paths, nodes as usize, node + 1, node, 1).expect(rt, "an arc");
    }
    paths
}

// The chain is not closed.
fn compare_chain(rt: &impl Abort, paths: &mut Paths)
    requires nodes { length paths.old.lowers ≡ 1000 }
    requires lowers { All (λ lower. lower < 2 ^ 32) paths.old.lowers }
    requires lengths { All (λ arc. arc.length < 2 ^ 32) paths.old.arcs }
{
    assert_eq!(rt; (paths.length(0), paths.changed().len()), (999, 999));
    let refused = add(rt, paths, 1000, 0, 999, 0);
    let wanted = Err(AddNo::Closes { from: 0, to: 999 });
    assert_eq!(rt; (refused, paths.changed().len()), (wanted, 0));
}

#[test]
fn a_chain_is_as_long_as_its_arcs_and_not_closed(rt: HostRuntime) -> Result<(), Fail> {
    let mut paths = chain(&rt, rt.alloc(), 1000);
    compare_chain(&rt, &mut paths);
    Ok(())
}

// Adds an arc that is along the order and raises no length. That takes at most four steps.
fn add_along<L: Ledger>(
    rt: &impl Abort,
    paths: &mut OrderedPaths,
    nodes: usize,
    arc: Arc,
    steps: &mut Steps<L>,
) -> Result<(), AddNo>
    requires nodes { length paths.old.network.lowers ≡ nodes }
    requires lowers { All (λ lower. lower < 2 ^ 32) paths.old.network.lowers }
    requires lengths { All (λ arc. arc.length < 2 ^ 32) paths.old.network.arcs }
    ensures steps { steps.new ≤ steps.old + 4 }
{
    let kept = paths.arcs().len();
    assert!(rt; kept < 1000);
    assert!(rt; (arc.from as usize) < nodes);
    assert!(rt; (arc.to as usize) < nodes);
    let order = paths.order();
    let low = order.place(arc.from);
    let high = order.place(arc.to);
    assert!(rt; low < high);
    let start = paths.length(arc.from);
    let end = paths.length(arc.to);
    assert!(rt; start < 1000);
    assert!(rt; arc.length < 1000);
    assert!(rt; start + arc.length <= end);
    paths.add_counted(arc.from, arc.to, arc.length, steps)
}

// Beside arcs from 2 to 1 to 0, one from 2 to 0 that is as long as both.
fn add_beside<L: Ledger>(rt: &impl Abort, paths: Paths, blank: Blank)
    requires name { blank.name ≡ L.name }
    requires parts { blank.parts ≡ L.parts }
    requires some { 0 < blank.parts }
    requires nodes { length paths.lowers ≡ 3 }
    requires lowers { All (λ lower. lower < 2 ^ 32) paths.lowers }
    requires lengths { All (λ arc. arc.length < 2 ^ 32) paths.arcs }
{
    let mut paths = paths.into_ordered();
    let mut steps = Steps::<L>::new(blank);
    let arc = Arc {
        from: 2,
        to: 0,
        length: 15,
    };
    add_along(rt, &mut paths, 3, arc, &mut steps).expect(rt, "an arc");
    assert_eq!(rt; (paths.changed().len(), paths.arcs().len()), (0, 3));
}

const TWO_IN_A_ROW: &[Row] = &[
    (Step::Add(2, 1, 10), &[0, 10, 0], &[1]),
    (Step::Add(1, 0, 5), &[15, 10, 0], &[0]),
];

#[test]
fn an_arc_that_raises_nothing_takes_four_steps(rt: HostRuntime) -> Result<(), Fail> {
    let paths = run(&rt, rt.alloc(), &[0, 0, 0], TWO_IN_A_ROW);
    add_beside::<Brand>(&rt, paths, Blank::new(1));
    Ok(())
}

const WITHDRAWN_TOGETHER: &[Row] = &[
    (Step::Add(0, 1, 10), &[0, 10, 0], &[1]),
    (Step::Raise(2, 7), &[0, 10, 7], &[2]),
    (Step::Add(1, 2, 10), &[0, 10, 20], &[2]),
    (Step::Add(0, 2, 30), &[0, 10, 30], &[2]),
    (Step::Withdraw(2), &[0, 10, 7], &[]),
    (Step::Withdraw(1), &[0, 0, 7], &[]),
];

#[test]
fn a_raise_stays_where_arcs_are_withdrawn_together(rt: HostRuntime) -> Result<(), Fail> {
    check(&rt, rt.alloc(), &[0, 0, 0], WITHDRAWN_TOGETHER);
    Ok(())
}

// How many nodes the cycle has that these arcs would close, and 0 where there is none.
fn cycle_nodes(rt: &impl Abort, paths: &mut Paths, more: &[Arc]) -> usize
    requires { length paths.old.lowers ≡ 3 }
    ensures { length paths.new.lowers ≡ 3 }
{
    assert!(rt; more.iter().all(|arc| arc.from < 3 && arc.to < 3));
    match paths.cycle_with(more).expect(rt, "an answer") {
        Some(cycle) => cycle.len(),
        None => 0,
    }
}

// The cycle that these arcs would close has so many nodes, and 0 says that there is none. The one
// arc is kept, and no node has changed.
fn compare_cycle(rt: &impl Abort, paths: &mut Paths, more: &[Arc], nodes: usize)
    requires { length paths.old.lowers ≡ 3 }
    ensures { length paths.new.lowers ≡ 3 }
{
    let found = cycle_nodes(rt, paths, more);
    let (kept, changed) = (paths.arcs().len(), paths.changed().len());
    assert_eq!(rt; (found, kept, changed), (nodes, 1, 0));
}

// An arc of length 1.
fn arc(from: u32, to: u32) -> Arc {
    Arc {
        from,
        to,
        length: 1,
    }
}

// The cycles that arcs would close beside that of the test below.
fn compare_cycles(rt: &impl Abort, paths: &mut Paths)
    requires { length paths.old.lowers ≡ 3 }
{
    compare_cycle(rt, paths, &[arc(1, 2), arc(2, 0)], 3);
    compare_cycle(rt, paths, &[arc(1, 2), arc(0, 2)], 0);
    compare_cycle(rt, paths, &[arc(1, 0)], 2);
    compare_cycle(rt, paths, &[arc(2, 1), arc(1, 2)], 2);
    compare_cycle(rt, paths, &[arc(2, 2)], 1);
    compare_cycle(rt, paths, &[], 0);
}

#[test]
fn several_arcs_close_a_cycle_together(rt: HostRuntime) -> Result<(), Fail> {
    let mut paths = Paths::new(rt.alloc(), &[0, 0, 0]).expect(&rt, "paths");
    add(&rt, &mut paths, 3, 0, 1, 7).expect(&rt, "an arc");
    compare_cycles(&rt, &mut paths);
    Ok(())
}
