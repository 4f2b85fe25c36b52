ghost use Rattle.std.specs.Prelude.{◌≡◌, ◌+◌, ◌≤◌, ◌<◌, [], ◌∷◌, ◌++◌, false, IfOk, OnOk, OnErr, length, replicate};
ghost use Rattle.disp_model.specs.Changes.{standing_of};
ghost use Rattle.fixing_editions.specs.Own.{train_of};
ghost use Rattle.fixing_editions.specs.Edition.{AreWithdrawn, left_standing, IsAsBefore, EntersFixing, TakesBack, SettlesChanges};

use crate::train_fixings::{Numbered, train_of, without};
use disp_model::{Change, Fixing, List, Memory};
use std::alloc::Global;
use std::mem;

/// What is kept beside the accepted changes.
#[derive(Drop)]
pub(crate) struct Kept {
    /// For each change, by which change its fixing was taken back, if it was.
    pub(crate) withdrawn: Vec<Option<u32>>,
    /// For each train its own fixings that stand.
    pub(crate) by_train: Vec<List<Numbered>>,
    /// The fixings that stand, in order; where it is stale, maybe with some that were taken back.
    pub(crate) standing: Vec<Fixing>,
    /// Whether a fixing was taken back since they were put in order.
    pub(crate) stale: bool,
}

/// For each train a list without fixings.
pub(crate) fn without_fixings(alloc: Global, count: usize) -> Result<Vec<List<Numbered>>, Memory>
    ensures { IfOk result (λ by_train. by_train.items ≡ replicate count []) }
{
    let mut by_train = Vec::with_capacity(alloc, count)?;
    for _ in 0..count {
        by_train.push(List::new(alloc))?;
    }
    Ok(by_train)
}

/// Adds a fixing to those that stand, and to those of its train.
fn list(
    standing: &mut Vec<Fixing>,
    own: &mut List<Numbered>,
    number: u32,
    fixing: Fixing,
) -> Result<(), Memory>
    ensures standing { OnOk result (standing.new.items ≡ standing.old.items ++ fixing ∷ []) }
    ensures own { OnOk result
        (own.new ≡ own.old ++ record { number = number; fixing = fixing } ∷ []) }
    ensures standing_err { OnErr result (standing.new.items ≡ standing.old.items) }
    ensures own_err { OnErr result (own.new ≡ own.old) }
{
    standing.push(fixing)?;
    match own.push(Numbered { number, fixing }) {
        Ok(()) => Ok(()),
        Err(no) => {
            standing.pop();
            Err(no)
        }
    }
}

/// EntersFixing a fixing as the change of a number.
pub(crate) fn enter(kept: &mut Kept, number: u32, fixing: Fixing) -> Result<(), Memory>
    requires { train_of fixing < length kept.old.by_train.items }
    ensures ok { OnOk result (EntersFixing number fixing kept.old kept.new) }
    ensures err { OnErr result (IsAsBefore kept.old kept.new) }
{
    kept.withdrawn.push(None)?;
    let own = &mut kept.by_train[train_of(&fixing) as usize];
    match list(&mut kept.standing, own, number, fixing) {
        Ok(()) => Ok(()),
        Err(no) => {
            kept.withdrawn.pop();
            Err(no)
        }
    }
}

/// Takes back the fixing of a number, by the change of another number.
pub(crate) fn take_back(
    kept: &mut Kept,
    number: u32,
    taken: u32,
    fixing: Fixing,
) -> Result<(), Memory>
    requires train { train_of fixing < length kept.old.by_train.items }
    requires some { 0 < taken }
    requires within { taken ≤ length kept.old.withdrawn.items }
    ensures ok { OnOk result (TakesBack number taken fixing kept.old kept.new) }
    ensures err { OnErr result (IsAsBefore kept.old kept.new) }
{
    let alloc = *kept.withdrawn.allocator();
    kept.withdrawn.push(None)?;
    kept.withdrawn[taken as usize - 1] = Some(number);
    let own = &mut kept.by_train[train_of(&fixing) as usize];
    let all = mem::replace(own, List::new(alloc));
    *own = without(all, taken);
    kept.stale = true;
    Ok(())
}

/// The fixing that a change leaves standing, if it is taken back by this one or by none.
fn left_standing(change: &Change, by: Option<u32>) -> Option<Fixing>
    ensures { result ≡ left_standing change.now by }
{
    match *change {
        Change::Fix(fixing) => match by {
            Some(_) => None,
            None => Some(fixing),
        },
        Change::Withdraw { .. } => None,
    }
}

/// Puts the fixings that stand in order.
fn put_in_order(standing: &mut Vec<Fixing>, changes: &[Change], withdrawn: &[Option<u32>])
    requires withdrawn { AreWithdrawn changes.now withdrawn.now }
    requires room { length (standing_of changes.now) ≤ length standing.old.items }
    ensures { standing.new.items ≡ standing_of changes.now }
{
    let mut count = 0;
    for place in 0..changes.len() {
        if let Some(fixing) = left_standing(&changes[place], withdrawn[place]) {
            standing[count] = fixing;
            count += 1;
        }
    }
    standing.truncate(count);
}

/// Puts the fixings that stand in order, where some were taken back since that was done.
pub(crate) fn settle(kept: &mut Kept, changes: &[Change])
    requires withdrawn { AreWithdrawn changes.now kept.old.withdrawn.items }
    requires stands { kept.old.stale ≡ false → kept.old.standing.items ≡ standing_of changes.now }
    requires room { length (standing_of changes.now) ≤ length kept.old.standing.items }
    ensures { SettlesChanges changes.now kept.old kept.new }
{
    if kept.stale {
        put_in_order(&mut kept.standing, changes, &kept.withdrawn);
        kept.stale = false;
    }
}
