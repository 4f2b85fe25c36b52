ghost use Rattle.std.specs.Prelude.{◌≡◌, ◌↔◌, IsTrue, MatchResult, All};
ghost use Rattle.disp_model.specs.Plan.{start_of, operations_of};
ghost use Rattle.disp_model.specs.Fixing.{after, IsMet};
ghost use Rattle.solution_verifier.specs.Unmet.{IsUnmetFault};

use crate::fault::Fault;
use disp_model::{Event, Fixing};

/// When an operation of a train starts, if it is run.
pub(crate) fn start_of(events: &[Event], train: u64, operation: u64) -> Option<u64>
    ensures { result ≡ start_of events.now train operation }
{
    for event in events {
        if u64::from(event.train) == train && u64::from(event.operation) == operation {
            return Some(event.time);
        }
    }
    None
}

/// The operation that a train goes on to from another, if it is run and another follows.
fn next_after(events: &[Event], train: u64, operation: u64) -> Option<u32>
    ensures { result ≡ after operation (operations_of train events.now) }
{
    let mut reached = false;
    for event in events {
        if u64::from(event.train) == train {
            if reached {
                return Some(event.operation);
            }
            reached = u64::from(event.operation) == operation;
        }
    }
    None
}

/// Whether the events meet a fixing.
fn is_met(events: &[Event], fixing: &Fixing) -> bool
    ensures { IsTrue result ↔ IsMet events.now fixing.now }
{
    match *fixing {
        Fixing::Started {
            at_train,
            at_op,
            time,
        } => start_of(events, at_train, at_op) == Some(time),
        Fixing::Chosen {
            at_train,
            at_op,
            next,
        } => match next_after(events, at_train, at_op) {
            Some(operation) => u64::from(operation) == next,
            None => false,
        },
        Fixing::NotBefore {
            at_train,
            at_op,
            time,
        } => match start_of(events, at_train, at_op) {
            Some(start) => time <= start,
            None => true,
        },
    }
}

/// Judges whether the events meet each fixing.
pub(crate) fn judge_fixings(fixings: &[Fixing], events: &[Event]) -> Result<(), Fault>
    ensures { MatchResult result (λ _. All (IsMet events.now) fixings.now)
        (IsUnmetFault fixings.now events.now) }
{
    for (place, fixing) in fixings.iter().enumerate() {
        if !is_met(events, fixing) {
            return Err(Fault::FixingUnmet(place as u64 + 1));
        }
    }
    Ok(())
}
