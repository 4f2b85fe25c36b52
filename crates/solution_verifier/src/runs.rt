ghost use Rattle.std.specs.Prelude.{◌≡◌, ℕ, ◌<◌, ◌≤◌, ◌↔◌, IsTrue, MatchOption, MatchResult, length};
ghost use Rattle.disp_model.specs.Train.{IsExit};
ghost use Rattle.solution_verifier.specs.Held.{IsEventSound};
ghost use Rattle.solution_verifier.specs.First.{IsComplete, IsFirstHeld};
ghost use Rattle.solution_verifier.specs.Answered.{KeepsEventRules, IsEventFault, IsOpenFault};

use crate::event::{judge, last_of};
use crate::fault::Fault;
use crate::held::first_clash;
use disp_model::{Event, Operation, Problem};

/// Judges whether events before a bound, which keep the rules by themselves, let each other pass.
fn judge_clashes(problem: &Problem, events: &[Event], bound: usize) -> Result<(), Fault>
    requires bound { bound ≤ length events.now }
    requires rules { (k : ℕ) → k < bound → KeepsEventRules problem.now events.now k }
    ensures { MatchResult result (λ _. (k : ℕ) → k < bound → IsEventSound problem.now events.now k)
        (IsEventFault problem.now events.now) }
{
    match first_clash(problem, events, bound) {
        Some(clash) => Err(Fault::Held(clash.holder as u64, clash.event as u64, clash.resource)),
        None => Ok(()),
    }
}

/// Judges each event by the events before it.
pub(crate) fn judge_events(problem: &Problem, events: &[Event]) -> Result<(), Fault>
    ensures { MatchResult result (λ _. (k : ℕ) → IsEventSound problem.now events.now k)
        (IsEventFault problem.now events.now) }
{
    for (place, event) in events.iter().enumerate() {
        if let Err(fault) = judge(problem, &events[..place], event) {
            judge_clashes(problem, events, place)?;
            return Err(fault);
        }
    }
    judge_clashes(problem, events, events.len())
}

/// Whether there is a last event, and it is an exit of the train.
fn ends_at_exit(train: &[Operation], last: Option<Event>) -> bool
    ensures { IsTrue result ↔ MatchOption last ⊥ (λ d. IsExit train.now d.operation) }
{
    let Some(last) = last else {
        return false;
    };
    match train.get(last.operation as usize) {
        Some(operation) => operation.next.as_slice().is_empty(),
        None => false,
    }
}

/// Judges whether each train's run ends at an exit.
pub(crate) fn judge_ends(problem: &Problem, events: &[Event]) -> Result<(), Fault>
    ensures { MatchResult result (λ _. (t : ℕ) → t < length problem.now.trains
        → IsComplete problem.now events.now t) (IsOpenFault problem.now events.now) }
{
    let trains = problem.trains.as_slice();
    for (place, train) in trains.iter().enumerate() {
        let number = place as u32;
        if !ends_at_exit(train.as_slice(), last_of(events, number)) {
            return Err(Fault::Incomplete(number));
        }
    }
    Ok(())
}
