ghost use Rattle.std.specs.Prelude.{◌≡◌, ◌<◌, ◌+◌, ℕ, List, Some, IsFalse, IfOk, OnOk, length};
ghost use Rattle.incremental_paths.specs.declared.arc.Arc.{Arc};
ghost use Rattle.disp_model.specs.declared.fixing.Fixing.{Fixing};
ghost use Rattle.disp_model.specs.declared.decision.Decision.{Decision};
ghost use Rattle.disp_model.specs.Valid.{train_at};
ghost use Rattle.disp_model.specs.WellFormed.{operation_count};
ghost use Rattle.disp_model.specs.Node.{Node, node_at, with_decision};
ghost use Rattle.route_sets.specs.Sets.{op_of_train, AreRoutesOf};
ghost use Rattle.event_arcs.specs.Listed.{AreArcsOf};
ghost use Rattle.event_arcs.specs.Placed.{IsPlaced, ArePlaced};
ghost use Rattle.event_arcs.specs.Owned.{train_of_decision};
ghost use Rattle.event_graph.specs.Touched.{StaysAs, AddsChanged};
ghost use Rattle.event_graph.specs.States.{AreOrdersOf, AddsTrain};

use crate::orders::Orders;
use disp_model::{Memory, Problem};
use event_arcs::{Placed, add_chain_anew};
use incremental_paths::Arc;
use route_sets::Routes;
use std::alloc::Global;

/// Whether orders of the operation may ask more than before: it is forced now, and was not, or what
/// follows it is known now, and was not.
fn is_touched(old: &Routes, new: &Routes, op: u32) -> bool
    ensures { (before node : Node) (t : ℕ) → AreRoutesOf before t old.now
        → AreRoutesOf node t new.now → IsFalse result → StaysAs before node (op_of_train t op) }
{
    new.forced(op) && (!old.forced(op) || old.only_next(op) != new.only_next(op))
}

/// Adds the arcs of the orders of an operation of a train, where it is touched.
fn add_of(
    arcs: &mut Vec<Arc>,
    problem: &Problem,
    each: &[Placed],
    orders: &Orders,
    old: &Placed,
    train: usize,
    op: u32,
) -> Result<(), Memory>
    requires there { train < length problem.now.trains }
    requires within { op < length (train_at problem.now train) }
    requires placed { (fixings : List Fixing) × (decisions : List Decision)
        × ArePlaced (node_at problem.now fixings decisions) each.now }
    requires size { orders.now.size ≡ operation_count problem.now.trains }
    ensures { (before : Node) (fixings : List Fixing) (decisions : List Decision) (base : List Arc)
        → IsPlaced before train old.now → ArePlaced (node_at problem.now fixings decisions) each.now
        → AddsChanged before (node_at problem.now fixings decisions) train op orders.now.pairs
        base arcs.old.items
        → OnOk result (AddsChanged before (node_at problem.now fixings decisions) train (op + 1)
        orders.now.pairs base arcs.new.items) }
{
    let placed = &each[train];
    if !is_touched(&old.routes, &placed.routes, op) {
        return Ok(());
    }
    orders.add_touching(arcs, problem, each, placed.first + op)
}

/// Adds the arcs of the orders of those operations of a train that are touched.
fn add_changed(
    arcs: &mut Vec<Arc>,
    problem: &Problem,
    each: &[Placed],
    orders: &Orders,
    old: &Placed,
    train: usize,
) -> Result<(), Memory>
    requires there { train < length problem.now.trains }
    requires placed { (fixings : List Fixing) × (decisions : List Decision)
        × ArePlaced (node_at problem.now fixings decisions) each.now }
    requires size { orders.now.size ≡ operation_count problem.now.trains }
    ensures { (before : Node) (fixings : List Fixing) (decisions : List Decision)
        → IsPlaced before train old.now
        → ArePlaced (node_at problem.now fixings decisions) each.now
        → OnOk result (AddsChanged before (node_at problem.now fixings decisions) train
        (length (train_at problem.now train)) orders.now.pairs arcs.old.items arcs.new.items) }
{
    let operations = problem.trains.as_slice()[train].len();
    for op in 0..operations {
        add_of(arcs, problem, each, orders, old, train, op as u32)?;
    }
    Ok(())
}

/// The arcs that a decision about a train's routes adds, with what was kept of them before: those
/// of the train that its routes before had not, and those of orders that are touched.
pub(crate) fn arcs_of_train(
    alloc: Global,
    problem: &Problem,
    each: &[Placed],
    orders: &Orders,
    old: &Placed,
    train: usize,
) -> Result<Vec<Arc>, Memory>
    requires there { train < length problem.now.trains }
    requires placed { (fixings : List Fixing) × (decisions : List Decision)
        × ArePlaced (node_at problem.now fixings decisions) each.now }
    requires size { orders.now.size ≡ operation_count problem.now.trains }
    ensures { (fixings : List Fixing) (decisions : List Decision) (decision : Decision)
        (given : List Arc) → train_of_decision decision ≡ Some train
        → IsPlaced (node_at problem.now fixings decisions) train old.now
        → ArePlaced (with_decision (node_at problem.now fixings decisions) decision) each.now
        → AreOrdersOf (node_at problem.now fixings decisions) orders.now.pairs
        → AreArcsOf (node_at problem.now fixings decisions) given
        → IfOk result (λ arcs.
        AddsTrain (node_at problem.now fixings decisions) decision train given arcs.items) }
{
    let mut arcs = Vec::new(alloc);
    add_chain_anew(&mut arcs, problem, train, old, &each[train])?;
    add_changed(&mut arcs, problem, each, orders, old, train)?;
    Ok(arcs)
}
