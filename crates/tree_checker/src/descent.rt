ghost use Rattle.std.specs.Prelude.{◌≡◌, ◌++◌, All, IfOk, OnOk, drop, length};
ghost use Rattle.disp_model.specs.Node.{node_at};
ghost use Rattle.node_facts.specs.Orders.{AreKnown};
ghost use Rattle.tree_checker.specs.Places.{decisions_at, last_decision};
ghost use Rattle.tree_checker.specs.Descents.{Notes, Covers, RenewsOne, AreRenewed};
ghost use Rattle.decision_paths.specs.Kept.{train_about};

use crate::places::{Place, go_to};
use decision_paths::DecisionPath;
use disp_model::{Decision, Memory, Problem};
use node_facts::{FixingIndex, KnownTrains, TrainKnowledge};
use std::alloc::Global;

/// The train of whose routes a decision speaks, if it speaks of routes.
fn train_about(decision: &Decision) -> Option<u32>
    ensures { result ≡ train_about decision.now }
{
    match *decision {
        Decision::Go { op, .. } => Some(op.train),
        Decision::First { .. } => None,
        Decision::Run(op) => Some(op.train),
        Decision::Skip(op) => Some(op.train),
    }
}

/// Notes the train of whose routes a decision speaks.
fn note(changed: &mut Vec<u32>, decision: &Decision) -> Result<(), Memory>
    ensures { OnOk result (Notes decision.now changed.old.items changed.new.items) }
{
    if let Some(train) = train_about(decision) {
        changed.push(train)?;
    }
    Ok(())
}

/// The train of whose routes a decision speaks, if there is one.
fn begun(alloc: Global, decision: Option<Decision>) -> Result<Vec<u32>, Memory>
    ensures { IfOk result (λ changed. All (λ decision. Covers decision changed.items)
        (last_decision decision)) }
{
    let mut changed = Vec::new(alloc);
    let Some(decision) = decision else {
        return Ok(changed);
    };
    note(&mut changed, &decision)?;
    Ok(changed)
}

/// The trains of whose routes those decisions speak that are taken back or taken on the way to a
/// place.
fn changed_by(alloc: Global, path: &[Decision], place: Place) -> Result<Vec<u32>, Memory>
    ensures { IfOk result (λ changed. All (λ decision. Covers decision changed.items)
        (drop place.depth path.now ++ last_decision place.decision)) }
{
    let mut changed = begun(alloc, place.decision)?;
    for at in place.depth..path.len() {
        note(&mut changed, &path[at])?;
    }
    Ok(changed)
}

/// Makes what is known of a train anew, if there is such a train.
fn renew_one(
    alloc: Global,
    problem: &Problem,
    fixings: &FixingIndex,
    decisions: &DecisionPath,
    trains: &mut KnownTrains,
    train: u32,
) -> Result<(), Memory>
    requires { length trains.old ≡ length problem.now.trains }
    ensures { OnOk result (RenewsOne (node_at problem.now fixings.now decisions.now) train
        trains.old trains.new) }
{
    if train as usize >= trains.len() {
        return Ok(());
    }
    let known = TrainKnowledge::of(alloc, problem, train, fixings, decisions)?;
    trains.replace(train, known);
    Ok(())
}

/// Makes what is known of some trains anew.
fn renew(
    alloc: Global,
    problem: &Problem,
    fixings: &FixingIndex,
    decisions: &DecisionPath,
    trains: &mut KnownTrains,
    changed: &[u32],
) -> Result<(), Memory>
    requires { length trains.old ≡ length problem.now.trains }
    ensures { OnOk result (AreRenewed (node_at problem.now fixings.now decisions.now) changed.now
        trains.old trains.new) }
{
    for train in changed {
        renew_one(alloc, problem, fixings, decisions, trains, *train)?;
    }
    Ok(())
}

/// Goes on to a place: the decisions become those that lead to it, and what is known of trains is
/// made anew where a decision on their routes is taken back or taken.
pub(crate) fn descend(
    alloc: Global,
    problem: &Problem,
    fixings: &FixingIndex,
    path: &mut DecisionPath,
    trains: &mut KnownTrains,
    place: Place,
) -> Result<(), Memory>
    requires { AreKnown (node_at problem.now fixings.now path.old) trains.old }
    ensures path { OnOk result (path.new ≡ decisions_at path.old place) }
    ensures known { OnOk result
        (AreKnown (node_at problem.now fixings.now path.new) trains.new) }
{
    let changed = changed_by(alloc, path.as_slice(), place)?;
    go_to(path, place)?;
    renew(alloc, problem, fixings, path, trains, changed.as_slice())?;
    Ok(())
}
