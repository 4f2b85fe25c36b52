ghost use Rattle.std.specs.Prelude.{◌≡◌, ◌<◌, ◌++◌, ◌∷◌, [], List, Some, IfOk, OnErr, length};
ghost use Rattle.disp_model.specs.declared.fixing.Fixing.{Fixing};
ghost use Rattle.disp_model.specs.declared.decision.Decision.{Decision as DecisionOf};
ghost use Rattle.disp_model.specs.Node.{Node, node_at, with_decision};
ghost use Rattle.disp_model.specs.Routes.{HasRoute};
ghost use Rattle.route_sets.specs.Sets.{AreRoutesOf};
ghost use Rattle.event_arcs.specs.Owned.{train_of_decision};
ghost use Rattle.event_graph.specs.Kept.{state_of, MayDecide, MayAddTrain, AddsArcs, AnswersAt};
ghost use Rattle.event_graph.specs.Known.{AreOwnRoutes, KeepsOwnRoutes, IsFor};

use crate::changes::Change;
use crate::faults::ExtendNo;
use crate::join::join;
use crate::known::{Known, KnownRoutes};
use crate::orders::Orders;
use crate::parts::Parts;
use crate::touched::arcs_of_train;
use disp_model::{Copied, Decision, Memory, Op, Problem};
use event_arcs::{Own, Placed};
use route_sets::Routes;
use std::alloc::Global;
use std::mem;
use timed_paths::TimedPaths;

/// A train's fixings and decisions, with one decision more.
fn own_with(own: &Own, decision: Decision) -> Result<Own, Memory>
    ensures { IfOk result (λ more. more
        ≡ record { fixings = own.now.fixings; decisions = own.now.decisions ++ decision ∷ [] }) }
{
    let fixings = own.fixings.copy()?;
    let mut decisions = own.decisions.copy()?;
    decisions.push(decision)?;
    Ok(Own { fixings, decisions })
}

/// A train's fixings and decisions with one decision more, and the routes that they allow, which may
/// be known.
fn routes_with(
    problem: &Problem,
    train: usize,
    own: &Own,
    routes: &Routes,
    known: &mut KnownRoutes,
    decision: Decision,
) -> Result<Known, Memory>
    requires there { train < length problem.now.trains }
    requires routes { (node : Node) × (node.problem ≡ problem.now)
        × AreRoutesOf node train routes.now × HasRoute node train }
    requires known { KeepsOwnRoutes problem.now known.old }
    ensures left { KeepsOwnRoutes problem.now known.new }
    ensures known { IfOk result (AreOwnRoutes problem.now) }
    ensures made { IfOk result (IsFor train own.now decision) }
{
    if let Some(found) = known.take(train, own, decision) {
        return Ok(found);
    }
    let own = own_with(own, decision)?;
    let (fixings, decisions) = (own.fixings.as_slice(), own.decisions.as_slice());
    let routes = routes.others(problem, train as u32, fixings, decisions)?;
    Ok(Known { train, own, routes })
}

/// Adds the arcs of a train whose routes have changed, and of orders of its operations, and gives
/// how many there are.
fn join_train(
    alloc: Global,
    problem: &Problem,
    ops: &[Op],
    each: &[Placed],
    orders: &Orders,
    paths: &mut TimedPaths,
    before: &Placed,
    train: usize,
) -> Result<usize, ExtendNo>
    requires { (fixings : List Fixing) × (decisions : List DecisionOf) × (decision : DecisionOf)
        × MayAddTrain (node_at problem.now fixings decisions) decision ops.now each.now orders.now
        paths.old before.now train }
    ensures lowers { paths.new.lowers ≡ paths.old.lowers }
    ensures uppers { paths.new.uppers ≡ paths.old.uppers }
    ensures err { OnErr result (paths.new.arcs ≡ paths.old.arcs) }
    ensures added { (fixings : List Fixing) (decisions : List DecisionOf) (decision : DecisionOf)
        → MayAddTrain (node_at problem.now fixings decisions) decision ops.now each.now orders.now
        paths.old before.now train
        → AddsArcs (with_decision (node_at problem.now fixings decisions) decision)
        paths.old.arcs paths.new.arcs result }
{
    let Ok(arcs) = arcs_of_train(alloc, problem, each, orders, before, train) else {
        return Err(ExtendNo::Memory);
    };
    match join(alloc, paths, ops, &arcs) {
        Ok(()) => Ok(arcs.len()),
        Err(no) => Err(no),
    }
}

/// Adds a decision about the routes of a train.
pub(crate) fn decide_train(
    alloc: Global,
    problem: &Problem,
    ops: &[Op],
    parts: &mut Parts,
    decision: Decision,
    train: usize,
) -> Result<Change, ExtendNo>
    requires there { train < length problem.now.trains }
    requires about { train_of_decision decision ≡ Some train }
    requires may { (fixings : List Fixing) × (decisions : List DecisionOf)
        × MayDecide (node_at problem.now fixings decisions) ops.now parts.old }
    requires known { KeepsOwnRoutes problem.now parts.old.known }
    ensures lowers { parts.new.paths.lowers ≡ parts.old.paths.lowers }
    ensures uppers { parts.new.paths.uppers ≡ parts.old.paths.uppers }
    ensures size { parts.new.orders.size ≡ parts.old.orders.size }
    ensures known { KeepsOwnRoutes problem.now parts.new.known }
    ensures decided { (fixings : List Fixing) (decisions : List DecisionOf)
        → MayDecide (node_at problem.now fixings decisions) ops.now parts.old
        → AnswersAt (with_decision (node_at problem.now fixings decisions) decision)
        (state_of parts.old) (state_of parts.new) result }
{
    let Ok(made) = routes_with(
        problem,
        train,
        &parts.owns[train],
        &parts.each[train].routes,
        &mut parts.known,
        decision,
    ) else {
        return Err(ExtendNo::Memory);
    };
    let Known { own, routes, .. } = made;
    if routes.none_left() {
        return Err(ExtendNo::NoRoute(train as u32));
    }
    let first = parts.each[train].first;
    let before = mem::replace(&mut parts.each[train], Placed { first, routes });
    match join_train(
        alloc,
        problem,
        ops,
        &parts.each,
        &parts.orders,
        &mut parts.paths,
        &before,
        train,
    ) {
        Ok(arcs) => {
            let own = mem::replace(&mut parts.owns[train], own);
            Ok(Change::Train {
                train,
                own,
                placed: before,
                arcs,
            })
        }
        Err(no) => {
            parts.each[train] = before;
            Err(no)
        }
    }
}
