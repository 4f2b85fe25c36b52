ghost use Rattle.std.specs.Prelude.{◌≡◌, ◌↔◌, ◌+◌, ◌<◌, ◌^◌, ◌++◌, ℕ, List, All, IfOk, IfSome, OnOk, IsTrue, Some, length, option_map, slice_get};
ghost use Rattle.incremental_paths.specs.declared.arc.Arc.{Arc};
ghost use Rattle.disp_model.specs.Node.{Node, node_at};
ghost use Rattle.disp_model.specs.Numbers.{number_of};
ghost use Rattle.disp_model.specs.declared.fixing.Fixing.{Fixing};
ghost use Rattle.disp_model.specs.declared.decision.Decision.{Decision};
ghost use Rattle.disp_model.specs.Routes.{IsForced};
ghost use Rattle.disp_model.specs.Arcs.{IsTrainArc};
ghost use Rattle.route_sets.specs.Sets.{op_of_train, AreRoutesOf};
ghost use Rattle.event_arcs.specs.Listed.{AreArcsOf};
ghost use Rattle.event_arcs.specs.Placed.{IsPlaced, ArePlaced};
ghost use Rattle.event_arcs.specs.Chained.{LeadsAlong, LeadsOnceGrown, IsGivenBy, IsOrderGiven, IsChained, AddsChain, AddsChains};

use crate::placed::Placed;
use disp_model::{Memory, Problem};
use incremental_paths::Arc;
use route_sets::Routes;

/// Whether two operations are the same length apart.
fn is_same(one: Option<u64>, other: Option<u64>) -> bool
    ensures { IsTrue result ↔ (one ≡ other) }
{
    one == other
}

/// Whether the routes before, where they are given, had the arc from one operation to the other.
fn had(old: Option<&Routes>, before: u32, op: u32, sum: Option<u64>) -> bool
    ensures { (node : Node) (t least : ℕ) (given : List Arc)
        → IsGivenBy node t (option_map (λ r. r.now) old.entry) given → sum ≡ Some least
        → IsTrue result
        → LeadsAlong node given (op_of_train t before) (op_of_train t op) least }
{
    match old {
        Some(routes) => is_same(routes.least_between(before, op), sum),
        None => false,
    }
}

/// Adds the arc from an operation of a train to one that stands behind it on each route, unless the
/// routes before had it.
fn join(
    arcs: &mut Vec<Arc>,
    old: Option<&Routes>,
    routes: &Routes,
    first: u32,
    before: u32,
    op: u32,
) -> Result<(), Memory>
    requires from { first + before < 2 ^ 32 }
    requires to { first + op < 2 ^ 32 }
    ensures { (node : Node) (t sum : ℕ) (given : List Arc)
        → IsGivenBy node t (option_map (λ r. r.now) old.entry) given → AreRoutesOf node t routes.now
        → first ≡ number_of node.problem (op_of_train t 0)
        → IsForced node (op_of_train t before) → IsForced node (op_of_train t op)
        → IsTrainArc node (op_of_train t before) (op_of_train t op) sum
        → OnOk result (LeadsOnceGrown node (op_of_train t before) (op_of_train t op) sum
        (given ++ arcs.old.items) (given ++ arcs.new.items)) }
{
    let sum = routes.least_between(before, op);
    if had(old, before, op, sum) {
        return Ok(());
    }
    if let Some(length) = sum {
        arcs.push(Arc {
            from: first + before,
            to: first + op,
            length,
        })?;
    }
    Ok(())
}

/// Goes on to an operation of the order, and gives the last forced one so far.
fn step(
    arcs: &mut Vec<Arc>,
    old: Option<&Routes>,
    routes: &Routes,
    first: u32,
    last: Option<u32>,
    op: u32,
) -> Result<Option<u32>, Memory>
    requires from { IfSome last (λ before. first + before < 2 ^ 32) }
    requires to { first + op < 2 ^ 32 }
    ensures fits { IfOk result (λ next. IfSome next (λ before. first + before < 2 ^ 32)) }
    ensures chained { (node : Node) (t : ℕ) (order : List ℕ) (place : ℕ) (given base : List Arc)
        → IsGivenBy node t (option_map (λ r. r.now) old.entry) given
        → IsOrderGiven node t routes.now order first → slice_get order place ≡ Some op
        → IsChained node t order (place + 1) base (given ++ arcs.old.items) last
        → IfOk result (IsChained node t order place base (given ++ arcs.new.items)) }
{
    if !routes.forced(op) {
        return Ok(last);
    }
    if let Some(before) = last {
        join(arcs, old, routes, first, before, op)?;
    }
    Ok(Some(op))
}

/// Adds an arc from each operation that each route has to the next such one, along an order of the
/// train from the exit back. An arc that the routes before had is left out, where they are given.
fn chain(
    arcs: &mut Vec<Arc>,
    old: Option<&Routes>,
    routes: &Routes,
    order: &[u32],
    first: u32,
) -> Result<(), Memory>
    requires { All (λ op. first + op < 2 ^ 32) order.now }
    ensures { (node : Node) (t : ℕ) (given : List Arc)
        → IsGivenBy node t (option_map (λ r. r.now) old.entry) given
        → IsOrderGiven node t routes.now order.now first
        → OnOk result (AddsChain node t (given ++ arcs.old.items) (given ++ arcs.new.items)) }
{
    let mut last = None;
    for place in (0..order.len()).rev() {
        last = step(arcs, old, routes, first, last, order[place])?;
    }
    Ok(())
}

/// Adds the arcs of a train, along the order that its routes keep.
pub fn add_chain(
    arcs: &mut Vec<Arc>,
    problem: &Problem,
    train: usize,
    placed: &Placed,
) -> Result<(), Memory>
    requires there { train < length problem.now.trains }
    requires placed { (fixings : List Fixing) × (decisions : List Decision)
        × IsPlaced (node_at problem.now fixings decisions) train placed.now }
    ensures { (fixings : List Fixing) (decisions : List Decision)
        → IsPlaced (node_at problem.now fixings decisions) train placed.now
        → OnOk result (AddsChain (node_at problem.now fixings decisions) train
        arcs.old.items arcs.new.items) }
{
    let order = placed.routes.order();
    chain(arcs, None, &placed.routes, order, placed.first)
}

/// Adds the arcs of a train whose routes have changed, but for those that its routes before had.
/// Behind a list that stands for the arcs of the node before, they are all that the train needs.
pub fn add_chain_anew(
    arcs: &mut Vec<Arc>,
    problem: &Problem,
    train: usize,
    old: &Placed,
    placed: &Placed,
) -> Result<(), Memory>
    requires there { train < length problem.now.trains }
    requires placed { (fixings : List Fixing) × (decisions : List Decision)
        × IsPlaced (node_at problem.now fixings decisions) train placed.now }
    ensures { (fixings : List Fixing) (before decisions : List Decision) (given : List Arc)
        → IsPlaced (node_at problem.now fixings before) train old.now
        → AreArcsOf (node_at problem.now fixings before) given
        → IsPlaced (node_at problem.now fixings decisions) train placed.now
        → OnOk result (AddsChain (node_at problem.now fixings decisions) train
        (given ++ arcs.old.items) (given ++ arcs.new.items)) }
{
    let order = placed.routes.order();
    chain(arcs, Some(&old.routes), &placed.routes, order, placed.first)
}

/// Adds the arcs of each train.
pub fn add_chains(arcs: &mut Vec<Arc>, problem: &Problem, each: &[Placed]) -> Result<(), Memory>
    requires { (fixings : List Fixing) × (decisions : List Decision)
        × ArePlaced (node_at problem.now fixings decisions) each.now }
    ensures { (fixings : List Fixing) (decisions : List Decision)
        → ArePlaced (node_at problem.now fixings decisions) each.now
        → OnOk result (AddsChains (node_at problem.now fixings decisions) (length each.now)
        arcs.old.items arcs.new.items) }
{
    for train in 0..each.len() {
        add_chain(arcs, problem, train, &each[train])?;
    }
    Ok(())
}
