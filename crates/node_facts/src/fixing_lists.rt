ghost use Rattle.std.specs.Prelude.{◌≡◌, ◌-◌, ◌<◌, ◌++◌, ◌∷◌, [], List, OnOk, IfOk, length};
ghost use Rattle.disp_model.specs.declared.fixing.Fixing.{Fixing};
ghost use Rattle.node_facts.specs.Indexed.{own_list, fixing_train, AreFixedByTrain};

use disp_model::{Fixing, Memory};
use std::alloc::Global;

/// The train of which a fixing speaks.
fn train_fixed(fixing: &Fixing) -> u64
    ensures { result ≡ fixing_train fixing.now }
{
    match *fixing {
        Fixing::Started { at_train, .. } => at_train,
        Fixing::Chosen { at_train, .. } => at_train,
        Fixing::NotBefore { at_train, .. } => at_train,
    }
}

/// A list for each of so many trains, and one for all others.
fn no_lists(alloc: Global, trains: usize) -> Result<Vec<Vec<Fixing>>, Memory>
    ensures { IfOk result (λ lists. AreFixedByTrain [] lists.items) }
{
    let mut lists = Vec::new(alloc);
    lists.push(Vec::new(alloc))?;
    for _ in 0..trains {
        lists.push(Vec::new(alloc))?;
    }
    Ok(lists)
}

/// Which list is a train's: the last is of all trains that have none of their own.
pub(crate) fn own_list(lists: &[Vec<Fixing>], train: u64) -> usize
    requires { 0 < length lists.now }
    ensures { result ≡ own_list (length lists.now - 1) train }
{
    (train as usize).min(lists.len() - 1)
}

/// Puts a fixing behind those of its train's list.
fn note_fixing(lists: &mut Vec<Vec<Fixing>>, fixing: &Fixing) -> Result<(), Memory>
    requires { 0 < length lists.old.items }
    ensures { OnOk result ((fixings : List Fixing) → AreFixedByTrain fixings lists.old.items
        → AreFixedByTrain (fixings ++ fixing.now ∷ []) lists.new.items) }
{
    let place = own_list(lists, train_fixed(fixing));
    lists[place].push(*fixing)?;
    Ok(())
}

/// The fixings by their trains.
pub(crate) fn lists_of(
    alloc: Global,
    trains: usize,
    fixings: &[Fixing],
) -> Result<Vec<Vec<Fixing>>, Memory>
    ensures { IfOk result (λ lists. AreFixedByTrain fixings.now lists.items) }
{
    let mut lists = no_lists(alloc, trains)?;
    for fixing in fixings {
        note_fixing(&mut lists, fixing)?;
    }
    Ok(lists)
}
