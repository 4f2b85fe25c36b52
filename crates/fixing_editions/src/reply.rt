ghost use Rattle.std.specs.Prelude.{◌≡◌, ◌≤◌, ◌<◌, ◌↔◌, ◌+◌, ◌-◌, Some, None, List, ℕ, MatchOption, IfOk, IfErr, IsTrue, Contains, length, slice_get};
ghost use Rattle.disp_model.specs.declared.limits.TheConstants.{MOST_CHANGES};
ghost use Rattle.disp_model.specs.declared.fixing.Change.TheVariants.{Fix};
ghost use Rattle.disp_model.specs.Valid.{train_at};
ghost use Rattle.disp_model.specs.Changes.{numbered_standing};
ghost use Rattle.disp_model.specs.Replies.{IsCounted, IsRouted, RepliesToStart, RepliesToChoice, RepliesToEarliest, IsReply};
ghost use Rattle.fixing_editions.specs.Own.{own_of, train_of, earliest_in};
ghost use Rattle.fixing_editions.specs.Edition.{AreOwn};
ghost use Rattle.fixing_editions.specs.Answers.{RepliesFromEarliest, RepliesInTime, IsFound, IsNotFound, IsBeyond, IsNotBeyond};

use crate::route_left::has_route;
use crate::train_fixings::{Numbered, earliest_in, next_in, number_in, start_in};
use disp_model::{
    Change, Fixing, GREATEST_NUMBER, List, MOST_CHANGES, Memory, Operation, Problem, Refusal,
    Reply, Train,
};
use std::alloc::Global;

/// The reply to a change that is refused for want of room alone.
pub(crate) fn counted(changes: &[Change]) -> Reply
    requires { length changes.now ≤ MOST_CHANGES }
    ensures { IsCounted changes.now result }
{
    if changes.len() == MOST_CHANGES as usize {
        return Reply::Refused(Refusal::Full(MOST_CHANGES));
    }
    Reply::Accepted(changes.len() as u32 + 1)
}

/// The reply to a fixing of a train that is not known and fixes nothing that is fixed.
fn reply_to_new(
    alloc: Global,
    problem: &Problem,
    changes: &[Change],
    kept: &[Numbered],
    at_train: u64,
    fixing: &Fixing,
) -> Result<Reply, Memory>
    requires there { at_train < length problem.now.trains }
    requires kept { kept.now ≡ own_of at_train (numbered_standing changes.now) }
    requires fits { length changes.now ≤ MOST_CHANGES }
    requires own { train_of fixing.now ≡ at_train }
    ensures { IfOk result (λ reply. IsRouted problem.now changes.now at_train fixing.now reply) }
{
    let has = has_route(alloc, problem, at_train, kept, fixing)?;
    if !has {
        return Ok(Reply::Refused(Refusal::NoRoute));
    }
    Ok(counted(changes))
}

/// The reply to a fixing that starts an operation which is not fixed to start, with the time before
/// which it is fixed not to.
fn reply_from_earliest(
    alloc: Global,
    problem: &Problem,
    changes: &[Change],
    kept: &[Numbered],
    at_train: u64,
    at_op: u64,
    time: u64,
) -> Result<Reply, Memory>
    requires there { at_train < length problem.now.trains }
    requires kept { kept.now ≡ own_of at_train (numbered_standing changes.now) }
    requires fits { length changes.now ≤ MOST_CHANGES }
    ensures { IfOk result (λ reply.
        RepliesFromEarliest problem.now changes.now at_train at_op time
        (earliest_in kept.now at_op) reply) }
{
    let earliest = earliest_in(kept, at_op);
    if time < earliest {
        return Ok(Reply::Refused(Refusal::EarliestIs(earliest)));
    }
    let fixing = Fixing::Started {
        at_train,
        at_op,
        time,
    };
    let reply = reply_to_new(alloc, problem, changes, kept, at_train, &fixing)?;
    Ok(reply)
}

/// The reply to a fixing that starts an operation at a time at which it may start.
fn reply_in_time(
    alloc: Global,
    problem: &Problem,
    changes: &[Change],
    kept: &[Numbered],
    at_train: u64,
    at_op: u64,
    time: u64,
) -> Result<Reply, Memory>
    requires there { at_train < length problem.now.trains }
    requires kept { kept.now ≡ own_of at_train (numbered_standing changes.now) }
    requires fits { length changes.now ≤ MOST_CHANGES }
    ensures { IfOk result (λ reply.
        RepliesInTime problem.now changes.now at_train at_op time reply) }
{
    let fixing = Fixing::Started {
        at_train,
        at_op,
        time,
    };
    if let Some(number) = number_in(kept, &fixing) {
        return Ok(Reply::Known(number));
    }
    if let Some(start) = start_in(kept, at_op) {
        return Ok(Reply::Refused(Refusal::StartedAt(start)));
    }
    let reply = reply_from_earliest(alloc, problem, changes, kept, at_train, at_op, time)?;
    Ok(reply)
}

/// The operation's upper, where the time is above it.
fn passed_upper(operation: &Operation, time: u64) -> Option<u32>
    ensures { MatchOption result (IsNotBeyond operation.now time) (λ upper.
        IsBeyond operation.now time upper) }
{
    match operation.upper {
        Some(upper) => {
            if time > u64::from(upper) {
                Some(upper)
            } else {
                None
            }
        }
        None => None,
    }
}

/// The reply to a fixing that starts an operation at a time.
fn reply_to_start(
    alloc: Global,
    problem: &Problem,
    changes: &[Change],
    kept: &[Numbered],
    at_train: u64,
    at_op: u64,
    time: u64,
    operation: &Operation,
) -> Result<Reply, Memory>
    requires there { at_train < length problem.now.trains }
    requires kept { kept.now ≡ own_of at_train (numbered_standing changes.now) }
    requires fits { length changes.now ≤ MOST_CHANGES }
    ensures { IfOk result (λ reply.
        RepliesToStart problem.now changes.now at_train at_op time operation.now reply) }
{
    if time > u64::from(GREATEST_NUMBER) {
        return Ok(Reply::Refused(Refusal::TooLarge));
    }
    if time < u64::from(operation.lower) {
        return Ok(Reply::Refused(Refusal::BelowLower(operation.lower)));
    }
    if let Some(upper) = passed_upper(operation, time) {
        return Ok(Reply::Refused(Refusal::AboveUpper(upper)));
    }
    let reply = reply_in_time(alloc, problem, changes, kept, at_train, at_op, time)?;
    Ok(reply)
}

/// Whether the operation may go on to the other.
fn is_successor(operation: &Operation, next: u64) -> bool
    ensures { IsTrue result ↔ Contains operation.now.next next }
{
    operation
        .next
        .as_slice()
        .iter()
        .any(|successor| u64::from(*successor) == next)
}

/// The reply to a fixing that has an operation go on to another.
fn reply_to_choice(
    alloc: Global,
    problem: &Problem,
    changes: &[Change],
    kept: &[Numbered],
    at_train: u64,
    at_op: u64,
    next: u64,
    operation: &Operation,
) -> Result<Reply, Memory>
    requires there { at_train < length problem.now.trains }
    requires kept { kept.now ≡ own_of at_train (numbered_standing changes.now) }
    requires fits { length changes.now ≤ MOST_CHANGES }
    requires operation { slice_get (train_at problem.now at_train) at_op ≡ Some operation.now }
    ensures { IfOk result (λ reply.
        RepliesToChoice problem.now changes.now at_train at_op next reply) }
{
    if !is_successor(operation, next) {
        return Ok(Reply::Refused(Refusal::NoSuccessor));
    }
    let fixing = Fixing::Chosen {
        at_train,
        at_op,
        next,
    };
    if let Some(number) = number_in(kept, &fixing) {
        return Ok(Reply::Known(number));
    }
    if let Some(next) = next_in(kept, at_op) {
        return Ok(Reply::Refused(Refusal::ChosenIs(next)));
    }
    let reply = reply_to_new(alloc, problem, changes, kept, at_train, &fixing)?;
    Ok(reply)
}

/// The reply to a fixing that has an operation not start before a time.
fn reply_to_earliest(
    changes: &[Change],
    kept: &[Numbered],
    at_train: u64,
    at_op: u64,
    time: u64,
) -> Reply
    requires kept { kept.now ≡ own_of at_train (numbered_standing changes.now) }
    requires fits { length changes.now ≤ MOST_CHANGES }
    ensures { RepliesToEarliest changes.now at_train at_op time result }
{
    if time > u64::from(GREATEST_NUMBER) {
        return Reply::Refused(Refusal::TooLarge);
    }
    let fixing = Fixing::NotBefore {
        at_train,
        at_op,
        time,
    };
    if let Some(number) = number_in(kept, &fixing) {
        return Reply::Known(number);
    }
    if let Some(start) = start_in(kept, at_op) {
        if start < time {
            return Reply::Refused(Refusal::StartedAt(start));
        }
    }
    counted(changes)
}

/// The operation of this name.
fn find(trains: &[Train], at_train: u64, at_op: u64) -> Result<&Operation, Refusal>
    ensures ok { IfOk result (λ operation. IsFound trains.now at_train at_op operation.now) }
    ensures err { IfErr result (λ why. IsNotFound trains.now at_train at_op why) }
{
    match trains.get(at_train as usize) {
        Some(train) => match train.as_slice().get(at_op as usize) {
            Some(operation) => Ok(operation),
            None => Err(Refusal::NoOperation),
        },
        None => Err(Refusal::NoTrain),
    }
}

/// The reply to a fixing, by each train's own fixings that stand.
pub(crate) fn reply_to(
    alloc: Global,
    problem: &Problem,
    changes: &[Change],
    by_train: &[List<Numbered>],
    fixing: Fixing,
) -> Result<Reply, Memory>
    requires long { length by_train.now ≡ length problem.now.trains }
    requires own { AreOwn changes.now by_train.now }
    requires fits { length changes.now ≤ MOST_CHANGES }
    ensures { IfOk result (λ reply. IsReply problem.now changes.now (Fix fixing) reply) }
{
    match fixing {
        Fixing::Started {
            at_train,
            at_op,
            time,
        } => match find(problem.trains.as_slice(), at_train, at_op) {
            Ok(operation) => {
                let kept = by_train[at_train as usize].as_slice();
                let reply = reply_to_start(
                    alloc, problem, changes, kept, at_train, at_op, time, operation,
                )?;
                Ok(reply)
            }
            Err(why) => Ok(Reply::Refused(why)),
        },
        Fixing::Chosen {
            at_train,
            at_op,
            next,
        } => match find(problem.trains.as_slice(), at_train, at_op) {
            Ok(operation) => {
                let kept = by_train[at_train as usize].as_slice();
                let reply = reply_to_choice(
                    alloc, problem, changes, kept, at_train, at_op, next, operation,
                )?;
                Ok(reply)
            }
            Err(why) => Ok(Reply::Refused(why)),
        },
        Fixing::NotBefore {
            at_train,
            at_op,
            time,
        } => match find(problem.trains.as_slice(), at_train, at_op) {
            Ok(_) => {
                let kept = by_train[at_train as usize].as_slice();
                Ok(reply_to_earliest(changes, kept, at_train, at_op, time))
            }
            Err(why) => Ok(Reply::Refused(why)),
        },
    }
}
