ghost use Rattle.std.specs.Prelude.{◌≡◌, List, length, IfOk};
ghost use Rattle.disp_model.specs.declared.fixing.Fixing.{Fixing};
ghost use Rattle.disp_model.specs.declared.decision.Decision.{Decision};
ghost use Rattle.disp_model.specs.WellFormed.{operation_count};
ghost use Rattle.disp_model.specs.Node.{node_at};
ghost use Rattle.disp_model.specs.Earliest.{IsEarliest};
ghost use Rattle.plan_builder.specs.Shown.{FitTrains, AreOnlyRoutes, ShowsNode};

use crate::arrange::arrange;
use crate::order::events_of;
use crate::stops::stops_of;
use disp_model::{List, Memory, Plan, Problem};
use incremental_paths::Paths;
use std::alloc::Global;

/// The plan of earliest starts. `routes` is a route for each train, by the numbers that its
/// operations have in the train. Node k of the paths is the k-th operation of the problem, counted
/// from 0, trains in order.
///
/// The plan is that of each node of the search at which every train has that route alone, and whose
/// arcs and lengths the paths show. It takes the time of a sort of the events, and of one look at
/// each arc between them. Events of one time that wait for each other in turn are looked at again
/// and again, at worst as often as there are pairs of them.
///
/// # Errors
///
/// `Memory` where memory runs out.
pub fn earliest(
    alloc: Global,
    problem: &Problem,
    routes: &[List<u32>],
    paths: &Paths,
) -> Result<Plan, Memory>
    requires routes { FitTrains problem.now.trains routes.now }
    requires nodes { length paths.now.lowers ≡ operation_count problem.now.trains }
    ensures { IfOk result (λ plan. (fixings : List Fixing) (decisions : List Decision)
        → AreOnlyRoutes (node_at problem.now fixings decisions) routes.now
        → ShowsNode (node_at problem.now fixings decisions) paths.now
        → IsEarliest (node_at problem.now fixings decisions) plan) }
{
    let stops = stops_of(alloc, problem, routes, paths)?;
    let plan = arrange(alloc, stops, paths)?;
    let events = events_of(alloc, &plan)?;
    Ok(List::from_vec(events))
}
