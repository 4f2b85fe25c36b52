// What is told of a train.
ghost use Rattle.std.specs.Prelude.{◌≡◌, ◌+◌, ◌^◌, ◌<◌, ◌≤◌};
ghost use Rattle.disp_model.specs.Train.{duration_of};
ghost use Rattle.disp_model.specs.Plan.{start_of};
ghost use Rattle.disp_model.specs.Valid.{train_at};
ghost use Rattle.disp_model.specs.Cost.{cost_at, cost_in, cost_of};
ghost use Rattle.dispatch_reports.specs.Tables.{start_time, end_of_last, end_time, delay_in, of_train, delay_of, train_cost};

use disp_model::{Component, Event, Problem};

/// When the first event of a train is.
pub(crate) fn start_time(train: u64, events: &[Event]) -> u64
    ensures { result ≡ start_time train events.now }
{
    for event in events {
        if u64::from(event.train) == train {
            return event.time;
        }
    }
    0
}

/// How long the operation of an event lasts at least.
fn duration_of(problem: &Problem, event: &Event) -> u32
    ensures { result ≡ duration_of (train_at problem.now event.now.train) event.now.operation }
{
    let Some(train) = problem.trains.as_slice().get(event.train as usize) else {
        return 0;
    };
    match train.as_slice().get(event.operation as usize) {
        Some(operation) => operation.min,
        None => 0,
    }
}

/// When an event ends that none of its train follows.
fn end_of_last(problem: &Problem, event: &Event) -> u128
    ensures { result ≡ end_of_last problem.now event.now }
{
    u128::from(event.time) + u128::from(duration_of(problem, event))
}

/// When the last event of a train ends.
pub(crate) fn end_time(problem: &Problem, train: u64, events: &[Event]) -> u128
    ensures { result ≡ end_time problem.now train events.now }
{
    let mut end = 0;
    for event in events {
        if u64::from(event.train) == train {
            end = end_of_last(problem, event);
        }
    }
    end
}

/// When an operation starts, if it is run.
fn start_of(events: &[Event], train: u32, operation: u32) -> Option<u64>
    ensures { result ≡ start_of events.now train operation }
{
    for event in events {
        if event.train == train && event.operation == operation {
            return Some(event.time);
        }
    }
    None
}

/// How long behind its threshold a component's operation starts.
fn delay_in(events: &[Event], component: &Component) -> u64
    ensures { result ≡ delay_in events.now component.now }
{
    match start_of(events, component.train, component.operation) {
        Some(time) => time.saturating_sub(u64::from(component.threshold)),
        None => 0,
    }
}

/// What a component costs where its operation starts at a time.
fn cost_at(component: &Component, time: u64) -> u128
    ensures value { result ≡ cost_at component.now time }
    ensures small { result < 2 ^ 97 }
{
    let threshold = u64::from(component.threshold);
    let late = u128::from(time.saturating_sub(threshold));
    let increment = if threshold <= time {
        component.increment
    } else {
        0
    };
    u128::from(component.coeff) * late + u128::from(increment)
}

/// What a component costs.
fn cost_in(events: &[Event], component: &Component) -> u128
    ensures value { result ≡ cost_in events.now component.now }
    ensures small { result < 2 ^ 97 }
{
    match start_of(events, component.train, component.operation) {
        Some(time) => cost_at(component, time),
        None => 0,
    }
}

/// How late a component of the train is.
fn delay_for(train: u64, events: &[Event], component: &Component) -> u64
    ensures { result ≡ of_train train (delay_in events.now) component.now }
{
    if u64::from(component.train) == train {
        delay_in(events, component)
    } else {
        0
    }
}

/// How late a train is at its components together.
pub(crate) fn delay_of(problem: &Problem, train: u64, events: &[Event]) -> u128
    ensures { result ≡ delay_of problem.now events.now train }
{
    let mut total = 0;
    for component in problem.components.as_slice() {
        total += u128::from(delay_for(train, events, component));
    }
    total
}

/// What a component of the train costs.
fn cost_for(train: u64, events: &[Event], component: &Component) -> u128
    ensures value { result ≡ of_train train (cost_in events.now) component.now }
    ensures small { result < 2 ^ 97 }
{
    if u64::from(component.train) == train {
        cost_in(events, component)
    } else {
        0
    }
}

/// What a train's components cost together.
pub(crate) fn train_cost(problem: &Problem, train: u64, events: &[Event]) -> u128
    ensures { result ≡ train_cost problem.now events.now train }
{
    let mut total = 0;
    for component in problem.components.as_slice() {
        total += cost_for(train, events, component);
    }
    total
}

/// The cost of a plan.
pub(crate) fn cost_of(problem: &Problem, events: &[Event]) -> u128
    ensures { result ≡ cost_of problem.now.components events.now }
{
    let mut total = 0;
    for component in problem.components.as_slice() {
        total += cost_in(events, component);
    }
    total
}
