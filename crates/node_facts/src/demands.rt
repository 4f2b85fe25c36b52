ghost use Rattle.std.specs.Prelude.{◌≡◌, ◌↔◌, ◌++◌, All, IfOk, OnOk, IsTrue, slice_index};
ghost use Rattle.disp_model.specs.Routes.{AgreesWithFixing, AgreesWithDecision};
ghost use Rattle.node_facts.specs.Demands.{fixing_demand, decision_demand, as_demands, AreDemandsFor, AreDemands, IsNotPast, IsFollowed, Allows};

use disp_model::{Decision, Fixing, List, Memory};
use std::alloc::Global;

/// What a fixing or a decision asks of the routes of its train.
#[derive(Clone, Copy)]
pub(crate) enum Demand {
    /// The route has the operation.
    Has(u64),
    /// The route does not have the operation.
    Lacks(u64),
    /// The route has `op`, and `next` follows it.
    Goes { op: u64, next: u64 },
    /// Where the route has `op`, `next` follows it.
    Follows { op: u64, next: u64 },
}

/// What a fixing asks of the routes of a train.
fn demand_of_fixing(train: u32, fixing: &Fixing) -> Option<Demand>
    ensures { result ≡ fixing_demand train fixing.now }
{
    let (at_train, demand) = match *fixing {
        Fixing::Started {
            at_train,
            at_op,
            ..
        } => (at_train, Demand::Has(at_op)),
        Fixing::Chosen {
            at_train,
            at_op,
            next,
        } => (at_train, Demand::Goes { op: at_op, next }),
        Fixing::NotBefore { .. } => return None,
    };
    if at_train == u64::from(train) {
        Some(demand)
    } else {
        None
    }
}

/// What a decision asks of the routes of a train.
fn demand_of_decision(train: u32, decision: &Decision) -> Option<Demand>
    ensures { result ≡ decision_demand train decision.now }
{
    let (op, demand) = match *decision {
        Decision::Go { op, next } => (
            op,
            Demand::Follows {
                op: u64::from(op.op),
                next: u64::from(next),
            },
        ),
        Decision::First { .. } => return None,
        Decision::Run(op) => (op, Demand::Has(u64::from(op.op))),
        Decision::Skip(op) => (op, Demand::Lacks(u64::from(op.op))),
    };
    if op.train == train {
        Some(demand)
    } else {
        None
    }
}

/// Adds a demand, if there is one.
fn add(demands: &mut Vec<Demand>, demand: Option<Demand>) -> Result<(), Memory>
    ensures { OnOk result (demands.new.items ≡ demands.old.items ++ as_demands demand) }
{
    if let Some(demand) = demand {
        demands.push(demand)?;
    }
    Ok(())
}

/// What fixings ask of the routes of a train.
fn demands_of_fixings(alloc: Global, train: u32, fixings: &[Fixing]) -> Result<Vec<Demand>, Memory>
    ensures { IfOk result (λ demands.
        AreDemandsFor (λ route. All (AgreesWithFixing train route) fixings.now) demands.items) }
{
    let mut demands = Vec::new(alloc);
    for fixing in fixings {
        add(&mut demands, demand_of_fixing(train, fixing))?;
    }
    Ok(demands)
}

/// What the fixings and the decisions ask of the routes of a train.
pub(crate) fn demands_of(
    alloc: Global,
    train: u32,
    fixings: &[Fixing],
    decisions: &[Decision],
) -> Result<Vec<Demand>, Memory>
    ensures { IfOk result (λ demands.
        AreDemands train fixings.now decisions.now demands.items) }
{
    let mut demands = demands_of_fixings(alloc, train, fixings)?;
    for decision in decisions {
        add(&mut demands, demand_of_decision(train, decision))?;
    }
    Ok(demands)
}

/// The place of an operation, or 0 where there is none.
pub(crate) fn place_at(places: &[usize], op: u32) -> usize
    ensures { result ≡ slice_index places.now op }
{
    match places.get(op as usize) {
        Some(place) => *place,
        None => 0,
    }
}

/// Whether a step from an operation, or an end there, does not lead past one that is wanted.
fn is_not_past(places: &[usize], wanted: u64, op: u32, next: Option<u32>) -> bool
    ensures { IsTrue result ↔ IsNotPast places.now wanted op next }
{
    let Some(place) = places.get(wanted as usize) else {
        return false;
    };
    match next {
        Some(next) => place_at(places, op) <= *place || *place <= place_at(places, next),
        None => true,
    }
}

/// Whether a step from an operation, or an end there, is the one that is asked for.
fn is_followed(from: u64, to: u64, op: u32, next: Option<u32>) -> bool
    ensures { IsTrue result ↔ IsFollowed from to op next }
{
    if u64::from(op) != from {
        return true;
    }
    match next {
        Some(next) => u64::from(next) == to,
        None => false,
    }
}

/// Whether a route may go on from an operation to one, or end there, by what is asked.
fn allows(places: &[usize], op: u32, next: Option<u32>, demand: &Demand) -> bool
    ensures { IsTrue result ↔ Allows places.now op next demand.now }
{
    match *demand {
        Demand::Has(wanted) => is_not_past(places, wanted, op, next),
        Demand::Lacks(unwanted) => u64::from(op) != unwanted,
        Demand::Goes { op: from, next: to } => {
            is_not_past(places, from, op, next) && is_followed(from, to, op, next)
        }
        Demand::Follows { op: from, next: to } => is_followed(from, to, op, next),
    }
}

/// Whether a route may go on from an operation to one, or end there, by all that is asked.
pub(crate) fn may_go(places: &[usize], demands: &[Demand], op: u32, next: Option<u32>) -> bool
    ensures { IsTrue result ↔ All (Allows places.now op next) demands.now }
{
    demands
        .iter()
        .all(|demand| allows(places, op, next, demand))
}
