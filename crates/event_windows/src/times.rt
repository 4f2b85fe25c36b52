ghost use Rattle.std.specs.Prelude.{◌≡◌, [], ◌∷◌, List, IfOk, length};
ghost use Rattle.disp_model.specs.declared.fixing.Fixing.{Fixing};
ghost use Rattle.disp_model.specs.WellFormed.{operation_count};
ghost use Rattle.event_windows.specs.Operations.{AreFirstNumbers};
ghost use Rattle.event_windows.specs.Windows.{train_fixed, operation_fixed, times_with, AreTimesOf};

use crate::numbers::{first_numbers, number};
use disp_model::{Fixing, Memory, Problem};
use std::alloc::Global;

/// What fixings say of the start of an operation.
#[derive(Clone, Copy)]
pub(crate) struct FixedTimes {
    /// When it starts, if that is fixed.
    pub start: Option<u64>,
    /// The greatest time before which it is not to start, or 0.
    pub not_before: u64,
}

/// What no fixing says.
const FREE: FixedTimes = FixedTimes {
    start: None,
    not_before: 0,
};

/// The train and the number in it of the operation that a fixing is of.
fn place_of(fixing: &Fixing) -> (u64, u64)
    ensures train { result.0 ≡ train_fixed fixing.now }
    ensures operation { result.1 ≡ operation_fixed fixing.now }
{
    match *fixing {
        Fixing::Started {
            at_train,
            at_op,
            ..
        } => (at_train, at_op),
        Fixing::Chosen {
            at_train,
            at_op,
            ..
        } => (at_train, at_op),
        Fixing::NotBefore {
            at_train,
            at_op,
            ..
        } => (at_train, at_op),
    }
}

/// What is said of an operation by a fixing of it and by the fixings behind that one.
fn with_fixing(times: FixedTimes, fixing: &Fixing) -> FixedTimes
    ensures { result ≡ times_with fixing.now times }
{
    match *fixing {
        Fixing::Started { time, .. } => FixedTimes {
            start: Some(time),
            not_before: times.not_before,
        },
        Fixing::Chosen { .. } => times,
        Fixing::NotBefore { time, .. } => FixedTimes {
            start: times.start,
            not_before: time.max(times.not_before),
        },
    }
}

/// Takes what a fixing says, before the fixings behind it.
#[tactic(auto, using(crate::proofs::Numbering::number_below, crate::proofs::Fixing::times_kept))]
fn note(times: &mut [FixedTimes], problem: &Problem, firsts: &[usize], fixing: &Fixing)
    requires firsts { AreFirstNumbers problem.now firsts.now }
    requires long { length times.old ≡ operation_count problem.now.trains }
    ensures { (rest : List Fixing) → AreTimesOf problem.now rest times.old
        → AreTimesOf problem.now (fixing.now ∷ rest) times.new }
{
    let (train, op) = place_of(fixing);
    if let Some(n) = number(problem, firsts, train, op) {
        times[n] = with_fixing(times[n], fixing);
    }
}

/// Takes what the fixings say, the last one first, so that of two the first counts.
fn note_all(times: &mut [FixedTimes], problem: &Problem, firsts: &[usize], fixings: &[Fixing])
    requires firsts { AreFirstNumbers problem.now firsts.now }
    requires free { AreTimesOf problem.now [] times.old }
    ensures { AreTimesOf problem.now fixings.now times.new }
{
    for fixing in fixings.iter().rev() {
        note(times, problem, firsts, fixing);
    }
}

/// What the fixings say of each of a problem's operations, by its number.
pub(crate) fn times_of(
    alloc: Global,
    problem: &Problem,
    count: usize,
    fixings: &[Fixing],
) -> Result<Vec<FixedTimes>, Memory>
    requires { count ≡ operation_count problem.now.trains }
    ensures { IfOk result (λ times. AreTimesOf problem.now fixings.now times.items) }
{
    let firsts = first_numbers(alloc, problem)?;
    let mut times = vec![in alloc; FREE; count]?;
    note_all(&mut times, problem, &firsts, fixings);
    Ok(times)
}
