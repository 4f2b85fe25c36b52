ghost use Rattle.std.specs.Prelude.{◌≡◌, ◌^◌, ◌<◌, ◌≤◌};
ghost use Rattle.disp_model.specs.WellFormed.{IsComponent};
ghost use Rattle.disp_model.specs.Cost.{cost_at, cost_in, cost_of};

use crate::fixings::start_of;
use disp_model::{Component, Event, Problem};

/// What a component costs where its operation starts at a time.
fn cost_at(component: &Component, time: u64) -> u128
    requires coeff { component.now.coeff < 2 ^ 31 }
    requires increment { component.now.increment < 2 ^ 31 }
    ensures value { result ≡ cost_at component.now time }
    ensures small { result ≤ 2 ^ 96 }
{
    let threshold = u64::from(component.threshold);
    let late = u128::from(time.saturating_sub(threshold));
    let increment = if threshold <= time {
        u128::from(component.increment)
    } else {
        0
    };
    u128::from(component.coeff) * late + increment
}

/// What a component costs.
fn cost_in(events: &[Event], component: &Component) -> u128
    requires coeff { component.now.coeff < 2 ^ 31 }
    requires increment { component.now.increment < 2 ^ 31 }
    ensures value { result ≡ cost_in events.now component.now }
    ensures small { result ≤ 2 ^ 96 }
{
    let train = u64::from(component.train);
    let operation = u64::from(component.operation);
    match start_of(events, train, operation) {
        Some(time) => cost_at(component, time),
        None => 0,
    }
}

/// The cost of a plan.
pub(crate) fn cost_of(problem: &Problem, events: &[Event]) -> u128
    ensures { result ≡ cost_of problem.now.components events.now }
{
    let mut total = 0;
    for component in problem.components.as_slice() {
        total += cost_in(events, component);
    }
    total
}
