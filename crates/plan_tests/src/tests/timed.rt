// Two nodes, of which the second may be reached until 5.
ghost use Rattle.std.specs.Prelude.{◌≡◌, IfOk, length};

use std::alloc::Global;
use std::test::Fail;
use timed_paths::TimedPaths;

/// An arc of a length leads to the second node from the first, which is reached at 2.
fn reached(alloc: Global, by: u32) -> Result<TimedPaths, Fail>
    ensures { IfOk result (λ timed. let arcs = timed.arcs in length arcs ≡ 1) }
{
    let uppers = vec![in alloc; None, Some(5)]?;
    let mut timed = TimedPaths::new(alloc, &[2, 0], uppers)?;
    timed.add(0, 1, u64::from(by))?;
    Ok(timed)
}

#[test]
fn a_node_is_late_while_an_arc_is_kept(rt: HostRuntime) -> Result<(), Fail> {
    assert_eq!(rt; reached(rt.alloc(), 3)?.late(), None);
    let mut timed = reached(rt.alloc(), 4)?;
    assert_eq!(rt; timed.late(), Some(1));
    timed.withdraw(1);
    assert_eq!(rt; timed.late(), None);
    Ok(())
}

#[test]
fn a_node_is_late_without_arcs(rt: HostRuntime) -> Result<(), Fail> {
    let uppers = vec![in rt.alloc(); Some(4)]?;
    let timed = TimedPaths::new(rt.alloc(), &[5], uppers)?;
    assert_eq!(rt; timed.late(), Some(0));
    Ok(())
}
