ghost use Rattle.std.specs.Prelude.{◌≡◌};
ghost use Rattle.fixing_editions.specs.Own.{train_of, number_in, start_by, start_in, next_by, next_numbered, earliest_by, earliest_in, without};

use disp_model::{Fixing, List};

/// A fixing with the number of the change that it was accepted as.
#[derive(Clone, Copy)]
pub(crate) struct Numbered {
    pub(crate) number: u32,
    pub(crate) fixing: Fixing,
}

/// The train of a fixing.
pub(crate) fn train_of(fixing: &Fixing) -> u64
    ensures { result ≡ train_of fixing.now }
{
    match *fixing {
        Fixing::Started { at_train, .. } => at_train,
        Fixing::Chosen { at_train, .. } => at_train,
        Fixing::NotBefore { at_train, .. } => at_train,
    }
}

/// The number of a fixing, if it is among those of its train.
pub(crate) fn number_in(kept: &[Numbered], fixing: &Fixing) -> Option<u32>
    ensures { result ≡ number_in kept.now fixing.now }
{
    for numbered in kept {
        if numbered.fixing == *fixing {
            return Some(numbered.number);
        }
    }
    None
}

/// The time to which a fixing fixes an operation of its train, if it does.
fn start_by(fixing: &Fixing, op: u64) -> Option<u64>
    ensures { result ≡ start_by fixing.now op }
{
    match *fixing {
        Fixing::Started { at_op, time, .. } => { if at_op == op { Some(time) } else { None } }
        Fixing::Chosen { .. } => None,
        Fixing::NotBefore { .. } => None,
    }
}

/// The operation to which a fixing has an operation of its train go on, if it does.
fn next_by(fixing: &Fixing, op: u64) -> Option<u64>
    ensures { result ≡ next_by fixing.now op }
{
    match *fixing {
        Fixing::Started { .. } => None,
        Fixing::Chosen { at_op, next, .. } => { if at_op == op { Some(next) } else { None } }
        Fixing::NotBefore { .. } => None,
    }
}

/// The time before which a fixing has an operation of its train not start, or 0.
fn earliest_by(fixing: &Fixing, op: u64) -> u64
    ensures { result ≡ earliest_by fixing.now op }
{
    match *fixing {
        Fixing::Started { .. } => 0,
        Fixing::Chosen { .. } => 0,
        Fixing::NotBefore { at_op, time, .. } => { if at_op == op { time } else { 0 } }
    }
}

/// The time to which an operation of the train is fixed, if it is.
pub(crate) fn start_in(kept: &[Numbered], op: u64) -> Option<u64>
    ensures { result ≡ start_in kept.now op }
{
    for numbered in kept {
        if let Some(time) = start_by(&numbered.fixing, op) {
            return Some(time);
        }
    }
    None
}

/// The operation to which an operation of the train is fixed to go on, if it is.
pub(crate) fn next_in(kept: &[Numbered], op: u64) -> Option<u64>
    ensures { result ≡ next_numbered kept.now op }
{
    for numbered in kept {
        if let Some(next) = next_by(&numbered.fixing, op) {
            return Some(next);
        }
    }
    None
}

/// The greatest time before which an operation of the train is not to start, or 0.
pub(crate) fn earliest_in(kept: &[Numbered], op: u64) -> u64
    ensures { result ≡ earliest_in kept.now op }
{
    let mut earliest = 0;
    for numbered in kept {
        let time = earliest_by(&numbered.fixing, op);
        if earliest < time {
            earliest = time;
        }
    }
    earliest
}

/// Takes out the fixing of this number.
fn take_out(items: &mut Vec<Numbered>, number: u32)
    ensures { items.new.items ≡ without number items.old.items }
{
    items.retain(|numbered| numbered.number != number);
}

/// The fixings but the one of this number.
pub(crate) fn without(kept: List<Numbered>, number: u32) -> List<Numbered>
    ensures { result ≡ without number kept }
{
    let mut items = kept.into_vec();
    take_out(&mut items, number);
    List::from_vec(items)
}
