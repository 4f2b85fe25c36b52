// Cycles that refused arcs would close, and walks that are longer than an upper.
ghost use Rattle.std.specs.Prelude.{◌≡◌, ◌<◌, ◌^◌, length, All};

use super::add;
use cycle_witness::{cycle, late};
use incremental_paths::{AddNo, Paths};
use std::alloc::Global;
use std::panic::Expect;
use std::process::Abort;
use std::test::Fail;

// Adds arcs to new nodes of lower 0.
fn linked(rt: &impl Abort, alloc: Global, nodes: usize, arcs: &[(u32, u32, u32)]) -> Paths
    requires { nodes < 1000 }
    ensures nodes { length result.lowers ≡ nodes }
    ensures lowers { All (λ lower. lower < 2 ^ 32) result.lowers }
    ensures lengths { All (λ arc. arc.length < 2 ^ 32) result.arcs }
{
    let lowers = vec![in alloc; 0u64; nodes].expect(rt, "lowers");
    let mut paths = Paths::new(alloc, &lowers).expect(rt, "paths");
    for (from, to, by) in arcs {
        add(rt, &mut paths, nodes, *from, *to, *by).expect(rt, "an arc");
    }
    paths
}

// The cycle that an arc of length 0 would close.
fn refused(rt: &impl Abort, paths: &mut Paths, nodes: usize, from: u32, to: u32) -> Vec<u32>
    requires nodes { length paths.old.lowers ≡ nodes }
    requires lowers { All (λ lower. lower < 2 ^ 32) paths.old.lowers }
    requires lengths { All (λ arc. arc.length < 2 ^ 32) paths.old.arcs }
{
    let kept = paths.arcs().len();
    assert!(rt; kept < 1000);
    assert!(rt; (from as usize) < nodes);
    assert!(rt; (to as usize) < nodes);
    let added = paths.add(from, to, 0);
    assert_eq!(rt; added, Err(AddNo::Closes { from, to }));
    cycle(paths, from, to).expect(rt, "a cycle")
}

// An arc between these nodes would close this cycle.
fn compare_refused(rt: &impl Abort, alloc: Global, from: u32, to: u32, wanted: &[u32]) {
    let mut paths = linked(rt, alloc, 4, &[(2, 1, 3), (1, 0, 4), (2, 3, 1)]);
    let nodes = refused(rt, &mut paths, 4, from, to);
    assert_eq!(rt; nodes.as_slice(), wanted);
}

#[test]
fn a_refused_arc_has_a_cycle(rt: HostRuntime) -> Result<(), Fail> {
    compare_refused(&rt, rt.alloc(), 0, 2, &[2, 1, 0]);
    compare_refused(&rt, rt.alloc(), 1, 2, &[2, 1]);
    compare_refused(&rt, rt.alloc(), 3, 3, &[3]);
    Ok(())
}

// Whether a walk to a node is longer than the upper, which then has these nodes.
fn is_late(rt: &impl Abort, paths: &Paths, node: u32, upper: u64, wanted: &[u32]) -> bool
    requires { length paths.now.lowers ≡ 3 }
{
    assert!(rt; node < 3);
    match late(paths, node, upper).expect(rt, "an answer") {
        Some(walk) => {
            assert_eq!(rt; walk.as_slice(), wanted);
            true
        }
        None => false,
    }
}

#[test]
fn a_walk_is_late_where_it_is_longer_than_the_upper(rt: HostRuntime) -> Result<(), Fail> {
    let paths = linked(&rt, rt.alloc(), 3, &[(2, 1, 3), (1, 0, 4), (2, 0, 5)]);
    assert!(rt; is_late(&rt, &paths, 0, 6, &[2, 1, 0]));
    assert!(rt; !is_late(&rt, &paths, 0, 7, &[]));
    assert!(rt; !is_late(&rt, &paths, 2, 0, &[]));
    Ok(())
}
