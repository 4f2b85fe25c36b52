ghost use Rattle.std.specs.Prelude.{◌≡◌, ◌-◌, ◌<◌, ◌++◌, ◌∷◌, [], List, Some, OnOk, OnErr, IfOk, length};
ghost use Rattle.disp_model.specs.declared.decision.Decision.{Decision};
ghost use Rattle.decision_paths.specs.Kept.{list_of, train_about, AreRoutesByTrain};

use disp_model::{Decision, Memory};
use std::alloc::Global;

/// A list for each of so many trains, and one for all others.
pub(crate) fn lists_of(alloc: Global, trains: usize) -> Result<Vec<Vec<Decision>>, Memory>
    ensures { IfOk result (λ lists. AreRoutesByTrain [] lists.items) }
{
    let mut lists = Vec::new(alloc);
    lists.push(Vec::new(alloc))?;
    for _ in 0..trains {
        lists.push(Vec::new(alloc))?;
    }
    Ok(lists)
}

/// Which list is a train's: the last is of all trains that have none of their own.
pub(crate) fn list_of(lists: &[Vec<Decision>], train: u32) -> usize
    requires { 0 < length lists.now }
    ensures { result ≡ list_of (length lists.now - 1) train }
{
    (train as usize).min(lists.len() - 1)
}

/// Puts a decision on the routes of a train behind those of its list.
pub(crate) fn note_route(
    lists: &mut Vec<Vec<Decision>>,
    train: u32,
    decision: Decision,
) -> Result<(), Memory>
    requires some { 0 < length lists.old.items }
    requires about { train_about decision ≡ Some train }
    ensures ok { OnOk result ((decisions : List Decision)
        → AreRoutesByTrain decisions lists.old.items
        → AreRoutesByTrain (decisions ++ decision ∷ []) lists.new.items) }
    ensures err { OnErr result ((decisions : List Decision)
        → AreRoutesByTrain decisions lists.old.items → AreRoutesByTrain decisions lists.new.items) }
{
    let place = list_of(lists, train);
    lists[place].push(decision)?;
    Ok(())
}

/// Takes the last decision on the routes of a train from its list.
pub(crate) fn forget_route(lists: &mut Vec<Vec<Decision>>, train: u32)
    requires { 0 < length lists.old.items }
    ensures { (decisions : List Decision) (decision : Decision)
        → AreRoutesByTrain (decisions ++ decision ∷ []) lists.old.items
        → train_about decision ≡ Some train → AreRoutesByTrain decisions lists.new.items }
{
    let place = list_of(lists, train);
    lists[place].pop();
}
