ghost use Rattle.std.specs.Prelude.{◌≡◌, ◌↔◌, List, IsTrue, MatchOption, OnErr};
ghost use Rattle.disp_model.specs.declared.fixing.Fixing.{Fixing};
ghost use Rattle.disp_model.specs.declared.decision.Decision.{Decision as DecisionOf};
ghost use Rattle.disp_model.specs.declared.decision.Decision.TheVariants.{First};
ghost use Rattle.disp_model.specs.Numbers.{number_of};
ghost use Rattle.disp_model.specs.Node.{node_at, with_decision};
ghost use Rattle.event_windows.specs.Operations.{HasOperation};
ghost use Rattle.event_arcs.specs.Placed.{ArePlaced};
ghost use Rattle.event_graph.specs.States.{pair_of};
ghost use Rattle.event_graph.specs.Kept.{state_of, MayDecide, MayAddOrder, AddsArcs, AnswersAt};

use crate::changes::Change;
use crate::faults::ExtendNo;
use crate::join::join;
use crate::orders::Pair;
use crate::parts::Parts;
use disp_model::{Decision, Op, Problem};
use event_arcs::{Placed, add_order};
use std::alloc::Global;
use timed_paths::TimedPaths;

/// Whether there is such an operation.
fn is_there(problem: &Problem, op: Op) -> bool
    ensures { IsTrue result ↔ HasOperation problem.now op }
{
    match problem.trains.as_slice().get(op.train as usize) {
        Some(train) => (op.op as usize) < train.len(),
        None => false,
    }
}

/// The number of an operation, where it is there.
fn number_at(problem: &Problem, each: &[Placed], op: Op) -> Option<u32>
    requires { (fixings : List Fixing) × (decisions : List DecisionOf)
        × ArePlaced (node_at problem.now fixings decisions) each.now }
    ensures { MatchOption result (HasOperation problem.now op → ⊥)
        (λ number. HasOperation problem.now op × (number ≡ number_of problem.now op)) }
{
    if !is_there(problem, op) {
        return None;
    }
    Some(each[op.train as usize].first + op.op)
}

/// An order of two operations with their numbers, where both are there.
fn pair_of(problem: &Problem, each: &[Placed], a: Op, b: Op) -> Option<Pair>
    requires { (fixings : List Fixing) × (decisions : List DecisionOf)
        × ArePlaced (node_at problem.now fixings decisions) each.now }
    ensures { MatchOption result (HasOperation problem.now a → HasOperation problem.now b → ⊥)
        (λ pair. HasOperation problem.now a × HasOperation problem.now b
        × (pair ≡ pair_of problem.now a b)) }
{
    Some(Pair {
        first: a,
        second: b,
        from: number_at(problem, each, a)?,
        to: number_at(problem, each, b)?,
    })
}

/// Adds the arcs of an order, and gives how many there are.
fn join_order(
    alloc: Global,
    problem: &Problem,
    ops: &[Op],
    each: &[Placed],
    paths: &mut TimedPaths,
    decision: Decision,
) -> Result<usize, ExtendNo>
    requires { (fixings : List Fixing) × (decisions : List DecisionOf)
        × MayAddOrder (node_at problem.now fixings decisions) ops.now each.now paths.old decision }
    ensures lowers { paths.new.lowers ≡ paths.old.lowers }
    ensures uppers { paths.new.uppers ≡ paths.old.uppers }
    ensures err { OnErr result (paths.new.arcs ≡ paths.old.arcs) }
    ensures added { (fixings : List Fixing) (decisions : List DecisionOf)
        → MayAddOrder (node_at problem.now fixings decisions) ops.now each.now paths.old decision
        → AddsArcs (with_decision (node_at problem.now fixings decisions) decision)
        paths.old.arcs paths.new.arcs result }
{
    let mut arcs = Vec::new(alloc);
    let Ok(()) = add_order(&mut arcs, problem, each, &decision) else {
        return Err(ExtendNo::Memory);
    };
    match join(alloc, paths, ops, &arcs) {
        Ok(()) => Ok(arcs.len()),
        Err(no) => Err(no),
    }
}

/// Adds the order of two operations.
pub(crate) fn decide_order(
    alloc: Global,
    problem: &Problem,
    ops: &[Op],
    parts: &mut Parts,
    a: Op,
    b: Op,
) -> Result<Change, ExtendNo>
    requires { (fixings : List Fixing) × (decisions : List DecisionOf)
        × MayDecide (node_at problem.now fixings decisions) ops.now parts.old }
    ensures lowers { parts.new.paths.lowers ≡ parts.old.paths.lowers }
    ensures uppers { parts.new.paths.uppers ≡ parts.old.paths.uppers }
    ensures size { parts.new.orders.size ≡ parts.old.orders.size }
    ensures known { parts.new.known ≡ parts.old.known }
    ensures decided { (fixings : List Fixing) (decisions : List DecisionOf)
        → MayDecide (node_at problem.now fixings decisions) ops.now parts.old
        → AnswersAt (with_decision (node_at problem.now fixings decisions) (First a b))
        (state_of parts.old) (state_of parts.new) result }
{
    let Some(pair) = pair_of(problem, &parts.each, a, b) else {
        return Ok(Change::Nothing);
    };
    let Ok(()) = parts.orders.push(pair) else {
        return Err(ExtendNo::Memory);
    };
    let decision = Decision::First { a, b };
    match join_order(alloc, problem, ops, &parts.each, &mut parts.paths, decision) {
        Ok(arcs) => Ok(Change::Order { arcs }),
        Err(no) => {
            parts.orders.pop();
            Err(no)
        }
    }
}
