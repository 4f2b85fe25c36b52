ghost use Rattle.std.specs.Prelude.{◌≡◌, ℕ, ◌+◌, ◌<◌, ◌≤◌, ◌↔◌, IsTrue, IfSome, MatchOption, ⊤, option_map, Contains};
ghost use Rattle.std.specs.List.{Any};
ghost use Rattle.disp_model.specs.declared.plan.Event.{Event};
ghost use Rattle.disp_model.specs.Plan.{run_of};
ghost use Rattle.disp_model.specs.Train.{IsSuccessor, duration_of};
ghost use Rattle.disp_model.specs.Valid.{operation_of};
ghost use Rattle.solution_verifier.specs.Rules.{EndsWith};
ghost use Rattle.solution_verifier.specs.Judged.{IsLast, IsEventJudged};

use crate::fault::Fault;
use disp_model::{Event, Operation, Problem};

/// The operation that an event starts.
pub(crate) fn operation_of<'a>(problem: &'a Problem, event: &Event) -> Option<&'a Operation>
    ensures { option_map (λ o. o.now) result ≡ operation_of problem.now event.now }
{
    let train = problem.trains.as_slice().get(event.train as usize)?;
    train.as_slice().get(event.operation as usize)
}

/// The last event of a train.
pub(crate) fn last_of(events: &[Event], train: u32) -> Option<Event>
    ensures { IsLast (run_of train events.now) result }
{
    let mut left = events.len();
    while left > 0 {
        left -= 1;
        if events[left].train == train {
            return Some(events[left]);
        }
    }
    None
}

/// Whether an operation goes on to another.
fn goes_to(operation: &Operation, next: u32) -> bool
    ensures { IsTrue result ↔ Contains operation.now.next next }
{
    operation.next.as_slice().contains(&next)
}

/// Whether one of a train's operations goes on to this one, so that it is no entry.
fn is_reached(train: &[Operation], operation: u32) -> bool
    ensures { IsTrue result ↔ Any (λ p. Contains p.next operation) train.now }
{
    train.iter().any(|before| goes_to(before, operation))
}

/// Whether an operation is an entry of its train, or its train has an event before it.
fn starts_well(train: &[Operation], before: Option<Event>, operation: u32) -> bool
    ensures { IsTrue result
        ↔ MatchOption before (Any (λ p. Contains p.next operation) train.now → ⊥) (λ _. ⊤) }
{
    before.is_some() || !is_reached(train, operation)
}

/// Whether an operation may come next after its train's event before it, if there is one.
fn is_successor(train: &[Operation], before: Option<Event>, operation: u32) -> bool
    ensures { IsTrue result ↔ IfSome before (λ d. IsSuccessor train.now d.operation operation) }
{
    let Some(before) = before else {
        return true;
    };
    match train.get(before.operation as usize) {
        Some(before) => goes_to(before, operation),
        None => false,
    }
}

/// Whether its train's event before a time, if there is one, has lasted its operation's duration.
fn has_lasted(train: &[Operation], before: Option<Event>, time: u64) -> bool
    ensures { IsTrue result
        ↔ IfSome before (λ d. d.time + duration_of train.now d.operation ≤ time) }
{
    let Some(before) = before else {
        return true;
    };
    let min = match train.get(before.operation as usize) {
        Some(operation) => u64::from(operation.min),
        None => 0,
    };
    min <= time && before.time <= time - min
}

/// Whether an operation's upper, if there is one, is not before a time.
fn is_within_upper(operation: &Operation, time: u64) -> bool
    ensures { IsTrue result ↔ IfSome operation.now.upper (λ u. time ≤ u) }
{
    match operation.upper {
        Some(upper) => time <= u64::from(upper),
        None => true,
    }
}

/// Whether no event that stood is later than a time, where they stand in order of time.
fn is_in_order(stood: &[Event], time: u64) -> bool
    ensures { IsTrue result ↔ ((d : Event) → EndsWith stood.now d → d.time ≤ time) }
{
    match stood.last() {
        Some(last) => last.time <= time,
        None => true,
    }
}

/// Judges an event by the rules that it keeps by itself and with its own train. The events before
/// it are those that stood.
pub(crate) fn judge(problem: &Problem, stood: &[Event], event: &Event) -> Result<(), Fault>
    ensures { IsEventJudged problem.now stood.now event.now result }
{
    let at = stood.len() as u64;
    let Some(train) = problem.trains.as_slice().get(event.train as usize) else {
        return Err(Fault::UnknownTrain(at));
    };
    let train = train.as_slice();
    let Some(operation) = train.get(event.operation as usize) else {
        return Err(Fault::UnknownOperation(at));
    };
    if !is_in_order(stood, event.time) {
        return Err(Fault::TimeBackwards(at));
    }
    let before = last_of(stood, event.train);
    if !starts_well(train, before, event.operation) {
        return Err(Fault::NotEntry(at));
    }
    if !is_successor(train, before, event.operation) {
        return Err(Fault::NotSuccessor(at));
    }
    if event.time < u64::from(operation.lower) {
        return Err(Fault::TooEarly(at));
    }
    if !is_within_upper(operation, event.time) {
        return Err(Fault::TooLate(at));
    }
    if !has_lasted(train, before, event.time) {
        return Err(Fault::TooShort(at));
    }
    Ok(())
}
