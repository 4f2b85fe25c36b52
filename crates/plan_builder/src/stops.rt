ghost use Rattle.std.specs.Prelude.{◌≡◌, ℕ, ◌+◌, ◌<◌, ◌^◌, ◌++◌, List, All, length, map, take, sum_by, IfOk, OnOk};
ghost use Rattle.disp_model.specs.declared.train.Operation.{Operation};
ghost use Rattle.disp_model.specs.declared.problem.Problem.{Problem};
ghost use Rattle.disp_model.specs.WellFormed.{operation_count};
ghost use Rattle.disp_model.specs.Earliest.{op_of};
ghost use Rattle.incremental_paths.specs.Walks.{IsLongestLength};
ghost use Rattle.plan_builder.specs.Shown.{FitTrains};
ghost use Rattle.plan_builder.specs.Stops.{IsStop, op_on, ops_from};

use crate::stop::Stop;
use disp_model::{Event, List, Memory, Problem};
use incremental_paths::Paths;
use std::alloc::Global;

/// The stop of an operation, whose train's first node is `first`.
fn stop_of(train: u32, first: u32, operation: u32, paths: &Paths) -> Stop
    requires few { length paths.now.lowers < 2 ^ 32 }
    requires node { first + operation < length paths.now.lowers }
    ensures op { op_of result.event ≡ op_on train operation }
    ensures node { result.node ≡ first + operation }
    ensures longest { IsLongestLength paths.now.lowers paths.now.arcs
        result.node result.event.time }
{
    let node = first + operation;
    Stop {
        event: Event {
            time: paths.length(node),
            train,
            operation,
        },
        node,
    }
}

/// Adds the stops of a train, in the order of its route.
fn push_stops(
    stops: &mut Vec<Stop>,
    train: u32,
    first: u32,
    route: &[u32],
    paths: &Paths,
) -> Result<(), Memory>
    requires few { length paths.now.lowers < 2 ^ 32 }
    requires nodes { All (λ o. first + o < length paths.now.lowers) route.now }
    ensures ops { OnOk result (map (λ s. op_of s.event) stops.new.items
        ≡ map (λ s. op_of s.event) stops.old.items ++ map (op_on train) route.now) }
    ensures each { OnOk result ((problem : Problem)
        → sum_by (λ operations. length operations) (take train problem.trains) ≡ first
        → All (IsStop problem paths.now) stops.old.items
        → All (IsStop problem paths.now) stops.new.items) }
{
    for operation in route {
        stops.push(stop_of(train, first, *operation, paths))?;
    }
    Ok(())
}

/// The stops of all trains, train by train.
pub(crate) fn stops_of(
    alloc: Global,
    problem: &Problem,
    routes: &[List<u32>],
    paths: &Paths,
) -> Result<Vec<Stop>, Memory>
    requires routes { FitTrains problem.now.trains routes.now }
    requires nodes { length paths.now.lowers ≡ operation_count problem.now.trains }
    ensures ops { IfOk result
        (λ stops. map (λ s. op_of s.event) stops.items ≡ ops_from 0 routes.now) }
    ensures each { IfOk result (λ stops. All (IsStop problem.now paths.now) stops.items) }
{
    let mut stops = Vec::new(alloc);
    let mut first = 0;
    for (train, operations) in problem.trains.as_slice().iter().enumerate() {
        push_stops(
            &mut stops,
            train as u32,
            first,
            routes[train].as_slice(),
            paths,
        )?;
        first += operations.len() as u32;
    }
    Ok(stops)
}
