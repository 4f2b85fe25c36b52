ghost use Rattle.std.specs.Prelude.{◌≡◌, ◌++◌, List, OnOk, MatchOption, Some, slice_get};
ghost use Rattle.disp_model.specs.declared.fixing.Fixing.{Fixing};
ghost use Rattle.disp_model.specs.declared.decision.Decision.{Decision};
ghost use Rattle.disp_model.specs.Valid.{train_at};
ghost use Rattle.disp_model.specs.Node.{Node, node_at};
ghost use Rattle.disp_model.specs.Routes.{IsForced};
ghost use Rattle.event_windows.specs.Operations.{HasOperation};
ghost use Rattle.event_arcs.specs.Placed.{IsPlaced, ArePlaced};
ghost use Rattle.event_arcs.specs.Ordering.{IsNextNumber, IsNoOrder, IsOrdered, arcs_of_order, AddsOrder, AddsOrders};

use crate::placed::Placed;
use disp_model::{Decision, Memory, Op, Operation, Problem};
use incremental_paths::Arc;
use problem_facts::release_between;

/// An order of two operations, by their numbers: how long the first lasts, how long it holds after
/// its end what the second lists too, and what it goes on to, where that is known.
#[derive(Clone, Copy)]
struct KnownOrder {
    from: u32,
    next: Option<u32>,
    to: u32,
    min: u32,
    release: u32,
}

/// The operation of a name.
fn operation<'a>(problem: &'a Problem, op: Op) -> &'a Operation
    requires { HasOperation problem.now op }
    ensures { slice_get (train_at problem.now op.train) op.op ≡ Some result.now }
{
    &problem.trains.as_slice()[op.train as usize].as_slice()[op.op as usize]
}

/// The number of what follows a forced operation of a train on each route.
fn next_number(placed: &Placed, op: Op) -> Option<u32>
    requires { (node : Node) × IsPlaced node op.train placed.now }
    ensures { (node : Node) → IsPlaced node op.train placed.now → IsForced node op
        → IsNextNumber node op result }
{
    match placed.routes.only_next(op.op) {
        Some(next) => Some(placed.first + next),
        None => None,
    }
}

/// The order of two forced operations that conflict.
fn known_order(problem: &Problem, each: &[Placed], a: Op, b: Op) -> Option<KnownOrder>
    requires { (fixings : List Fixing) × (decisions : List Decision)
        × ArePlaced (node_at problem.now fixings decisions) each.now }
    ensures { (fixings : List Fixing) (decisions : List Decision)
        → ArePlaced (node_at problem.now fixings decisions) each.now
        → MatchOption result (IsNoOrder (node_at problem.now fixings decisions) a b)
        (IsOrdered (node_at problem.now fixings decisions) a b) }
{
    let before = each.get(a.train as usize)?;
    let behind = each.get(b.train as usize)?;
    if !before.routes.forced(a.op) {
        return None;
    }
    if !behind.routes.forced(b.op) {
        return None;
    }
    let release = release_between(problem, a, b)?;
    Some(KnownOrder {
        from: before.first + a.op,
        next: next_number(before, a),
        to: behind.first + b.op,
        min: operation(problem, a).min,
        release,
    })
}

/// Adds the arcs of an order.
fn add_ordered(arcs: &mut Vec<Arc>, order: KnownOrder) -> Result<(), Memory>
    ensures { OnOk result (arcs.new.items ≡ arcs.old.items ++ arcs_of_order order) }
{
    arcs.push(Arc {
        from: order.from,
        to: order.to,
        length: u64::from(order.min) + u64::from(order.release),
    })?;
    if let Some(next) = order.next {
        arcs.push(Arc {
            from: next,
            to: order.to,
            length: u64::from(order.release),
        })?;
    }
    Ok(())
}

/// Adds the arcs of one order that is decided.
pub fn add_order(
    arcs: &mut Vec<Arc>,
    problem: &Problem,
    each: &[Placed],
    decision: &Decision,
) -> Result<(), Memory>
    requires { (fixings : List Fixing) × (decisions : List Decision)
        × ArePlaced (node_at problem.now fixings decisions) each.now }
    ensures { (fixings : List Fixing) (decisions : List Decision)
        → ArePlaced (node_at problem.now fixings decisions) each.now
        → OnOk result (AddsOrder (node_at problem.now fixings decisions) decision.now
        arcs.old.items arcs.new.items) }
{
    let Decision::First { a, b } = *decision else {
        return Ok(());
    };
    if let Some(order) = known_order(problem, each, a, b) {
        add_ordered(arcs, order)?;
    }
    Ok(())
}

/// Adds the arcs of the orders that are decided.
pub fn add_orders(
    arcs: &mut Vec<Arc>,
    problem: &Problem,
    each: &[Placed],
    decisions: &[Decision],
) -> Result<(), Memory>
    requires { (fixings : List Fixing) × (others : List Decision)
        × ArePlaced (node_at problem.now fixings others) each.now }
    ensures { (fixings : List Fixing)
        → ArePlaced (node_at problem.now fixings decisions.now) each.now
        → OnOk result (AddsOrders (node_at problem.now fixings decisions.now) decisions.now
        arcs.old.items arcs.new.items) }
{
    for decision in decisions {
        add_order(arcs, problem, each, decision)?;
    }
    Ok(())
}
