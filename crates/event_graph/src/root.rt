ghost use Rattle.std.specs.Prelude.{◌≡◌, [], IfOk, IfErr};
ghost use Rattle.disp_model.specs.Node.{node_at};
ghost use Rattle.event_windows.specs.Windows.{AreWindowsOf};
ghost use Rattle.event_arcs.specs.Placed.{ArePlaced};
ghost use Rattle.event_graph.specs.Joined.{IsOfEdition, IsCycleOr};
ghost use Rattle.event_windows.specs.Operations.{AreOperationsOf};
ghost use Rattle.event_graph.specs.Late.{AreUppersOf};
ghost use Rattle.event_graph.specs.Kept.{MayDecide, IsRefusedAt};
ghost use Rattle.event_graph.specs.Known.{KeepsOwnRoutes};
ghost use Rattle.event_graph.specs.Roots.{ArePathsOf};

use crate::faults::ExtendNo;
use crate::join::join;
use crate::known::KnownRoutes;
use crate::opening::paths_without_arcs;
use crate::orders::Orders;
use crate::parts::Parts;
use disp_model::{Fixing, Memory, Op, Problem};
use event_arcs::{Placed, Placing, listed, owns_of, placing_of};
use event_windows::Window;
use std::alloc::Global;
use timed_paths::TimedPaths;

/// The paths over the arcs of the trains.
fn paths_of(
    alloc: Global,
    problem: &Problem,
    fixings: &[Fixing],
    ops: &[Op],
    windows: &[Window],
    each: &[Placed],
) -> Result<TimedPaths, ExtendNo>
    requires edition { IsOfEdition (node_at problem.now fixings.now []) }
    requires ops_are { AreOperationsOf problem.now ops.now }
    requires windows { AreWindowsOf problem.now fixings.now windows.now }
    requires placed { ArePlaced (node_at problem.now fixings.now []) each.now }
    ensures ok { IfOk result (ArePathsOf (node_at problem.now fixings.now [])) }
    ensures uppers { IfOk result
        (λ paths. AreUppersOf problem.now fixings.now paths.uppers) }
    ensures err { IfErr result (IsCycleOr (node_at problem.now fixings.now [])) }
{
    let arcs = listed(alloc, problem, each, &[])?;
    let mut paths = paths_without_arcs(alloc, problem, fixings, windows)?;
    join(alloc, &mut paths, ops, &arcs)?;
    Ok(paths)
}

/// What is kept where nothing is decided.
pub(crate) fn parts_of(
    alloc: Global,
    problem: &Problem,
    fixings: &[Fixing],
    ops: &[Op],
    windows: &[Window],
) -> Result<Parts, ExtendNo>
    requires edition { IsOfEdition (node_at problem.now fixings.now []) }
    requires ops_are { AreOperationsOf problem.now ops.now }
    requires windows { AreWindowsOf problem.now fixings.now windows.now }
    ensures ok { IfOk result (MayDecide (node_at problem.now fixings.now []) ops.now) }
    ensures uppers { IfOk result
        (λ parts. AreUppersOf problem.now fixings.now parts.paths.uppers) }
    ensures known { IfOk result (λ parts. KeepsOwnRoutes problem.now parts.known) }
    ensures err { IfErr result (IsRefusedAt (node_at problem.now fixings.now [])) }
{
    let owns = owns_of(alloc, problem.trains.len(), fixings, &[])?;
    match placing_of(alloc, problem, &owns)? {
        Placing::Each(each) => {
            let paths = paths_of(alloc, problem, fixings, ops, windows, &each)?;
            let orders = Orders::new(alloc, ops.len())?;
            let known = KnownRoutes::new(alloc, problem.trains.len())?;
            Ok(Parts {
                owns,
                each,
                orders,
                paths,
                known,
            })
        }
        Placing::NoRoute(train) => Err(ExtendNo::NoRoute(train)),
    }
}
