ghost use Rattle.std.specs.Prelude.{◌≡◌, List, Some};
ghost use Rattle.disp_model.specs.declared.fixing.Fixing.{Fixing};
ghost use Rattle.disp_model.specs.declared.decision.Decision.{Decision as DecisionOf};
ghost use Rattle.disp_model.specs.Node.{node_at, with_decision};
ghost use Rattle.event_arcs.specs.Owned.{train_of_decision};
ghost use Rattle.event_graph.specs.Kept.{state_of, MayDecide, AnswersAt};
ghost use Rattle.event_graph.specs.Known.{KeepsOwnRoutes};

use crate::changes::Change;
use crate::decide_order::decide_order;
use crate::decide_train::decide_train;
use crate::faults::ExtendNo;
use crate::parts::Parts;
use disp_model::{Decision, Op, Problem};
use std::alloc::Global;

/// Adds a decision about the routes of a train, where the train is there.
fn decide_routes(
    alloc: Global,
    problem: &Problem,
    ops: &[Op],
    parts: &mut Parts,
    decision: Decision,
    train: u32,
) -> Result<Change, ExtendNo>
    requires about { train_of_decision decision ≡ Some train }
    requires may { (fixings : List Fixing) × (decisions : List DecisionOf)
        × MayDecide (node_at problem.now fixings decisions) ops.now parts.old }
    requires known { KeepsOwnRoutes problem.now parts.old.known }
    ensures lowers { parts.new.paths.lowers ≡ parts.old.paths.lowers }
    ensures uppers { parts.new.paths.uppers ≡ parts.old.paths.uppers }
    ensures size { parts.new.orders.size ≡ parts.old.orders.size }
    ensures known { KeepsOwnRoutes problem.now parts.new.known }
    ensures decided { (fixings : List Fixing) (decisions : List DecisionOf)
        → MayDecide (node_at problem.now fixings decisions) ops.now parts.old
        → AnswersAt (with_decision (node_at problem.now fixings decisions) decision)
        (state_of parts.old) (state_of parts.new) result }
{
    if train as usize >= problem.trains.len() {
        return Ok(Change::Nothing);
    }
    decide_train(alloc, problem, ops, parts, decision, train as usize)
}

/// Adds a decision.
pub(crate) fn decide(
    alloc: Global,
    problem: &Problem,
    ops: &[Op],
    parts: &mut Parts,
    decision: Decision,
) -> Result<Change, ExtendNo>
    requires may { (fixings : List Fixing) × (decisions : List DecisionOf)
        × MayDecide (node_at problem.now fixings decisions) ops.now parts.old }
    requires known { KeepsOwnRoutes problem.now parts.old.known }
    ensures lowers { parts.new.paths.lowers ≡ parts.old.paths.lowers }
    ensures uppers { parts.new.paths.uppers ≡ parts.old.paths.uppers }
    ensures size { parts.new.orders.size ≡ parts.old.orders.size }
    ensures known { KeepsOwnRoutes problem.now parts.new.known }
    ensures decided { (fixings : List Fixing) (decisions : List DecisionOf)
        → MayDecide (node_at problem.now fixings decisions) ops.now parts.old
        → AnswersAt (with_decision (node_at problem.now fixings decisions) decision)
        (state_of parts.old) (state_of parts.new) result }
{
    match decision {
        Decision::First { a, b } => decide_order(alloc, problem, ops, parts, a, b),
        Decision::Go { op, .. } => decide_routes(alloc, problem, ops, parts, decision, op.train),
        Decision::Run(op) => decide_routes(alloc, problem, ops, parts, decision, op.train),
        Decision::Skip(op) => decide_routes(alloc, problem, ops, parts, decision, op.train),
    }
}
