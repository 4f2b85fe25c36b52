ghost use Rattle.std.specs.Prelude.{◌≡◌, ◌↔◌, ◌++◌, ◌∷◌, [], IsTrue, IfOk, map, if◌then◌else◌};
ghost use Rattle.disp_model.specs.Node.{node_at};
ghost use Rattle.event_arcs.specs.Listed.{AreLowersOf};
ghost use Rattle.event_windows.specs.Operations.{AreOperationsOf};
ghost use Rattle.event_windows.specs.Windows.{AreWindowsOf};
ghost use Rattle.event_graph.specs.Late.{open_until, AreUppersOf, IsWindowClosed, AreClosedOf};

use disp_model::{Fixing, Memory, Op, Problem};
use event_windows::Window;
use std::alloc::Global;
use timed_paths::TimedPaths;

/// The times from which windows are open.
fn lowers(alloc: Global, windows: &[Window]) -> Result<Vec<u64>, Memory>
    ensures { IfOk result (λ lowers. lowers.items ≡ map (λ w. w.lower) windows.now) }
{
    let mut lowers = Vec::with_capacity(alloc, windows.len())?;
    for window in windows {
        lowers.push(window.lower)?;
    }
    Ok(lowers)
}

/// Until when a window is open, where it is open at all and has such a time.
fn upper(window: Window) -> Option<u64>
    ensures { result ≡ open_until window }
{
    match window.upper {
        Some(upper) if upper < window.lower => None,
        other => other,
    }
}

/// Until when windows are open.
fn uppers(alloc: Global, windows: &[Window]) -> Result<Vec<Option<u64>>, Memory>
    ensures { IfOk result (λ uppers. uppers.items ≡ map open_until windows.now) }
{
    let mut uppers = Vec::with_capacity(alloc, windows.len())?;
    for window in windows {
        uppers.push(upper(*window))?;
    }
    Ok(uppers)
}

/// Whether a window is never open.
fn is_closed(window: Window) -> bool
    ensures { IsTrue result ↔ IsWindowClosed window }
{
    match window.upper {
        Some(upper) => upper < window.lower,
        None => false,
    }
}

/// Adds an operation behind the others, where it is kept.
fn keep(ops: &mut Vec<Op>, op: Op, kept: bool) -> Result<(), Memory>
    ensures { IfOk result
        (λ _. ops.new.items ≡ (if kept then ops.old.items ++ op ∷ [] else ops.old.items)) }
{
    if kept {
        ops.push(op)?;
    }
    Ok(())
}

/// The operations whose windows are never open.
pub(crate) fn closed(
    alloc: Global,
    problem: &Problem,
    fixings: &[Fixing],
    ops: &[Op],
    windows: &[Window],
) -> Result<Vec<Op>, Memory>
    requires ops_are { AreOperationsOf problem.now ops.now }
    requires windows { AreWindowsOf problem.now fixings.now windows.now }
    ensures { IfOk result (λ closed. AreClosedOf problem.now fixings.now closed.items) }
{
    let mut closed = Vec::new(alloc);
    for (n, op) in ops.iter().enumerate() {
        keep(&mut closed, *op, is_closed(windows[n]))?;
    }
    Ok(closed)
}

/// The paths before any arc is added.
pub(crate) fn paths_without_arcs(
    alloc: Global,
    problem: &Problem,
    fixings: &[Fixing],
    windows: &[Window],
) -> Result<TimedPaths, Memory>
    requires { AreWindowsOf problem.now fixings.now windows.now }
    ensures arcs { IfOk result (λ paths. paths.arcs ≡ []) }
    ensures lowers { IfOk result
        (λ paths. AreLowersOf (node_at problem.now fixings.now []) paths.lowers) }
    ensures uppers { IfOk result
        (λ paths. AreUppersOf problem.now fixings.now paths.uppers) }
{
    let lowers = lowers(alloc, windows)?;
    let uppers = uppers(alloc, windows)?;
    TimedPaths::new(alloc, &lowers, uppers)
}
