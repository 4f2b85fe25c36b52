ghost use Rattle.std.specs.Prelude.{◌↔◌, IfOk, IsTrue};
ghost use Rattle.disp_model.specs.Trees.{HaveDistinct};
ghost use Rattle.disp_model.specs.Shares.{HaveDistinctTrains};
ghost use Rattle.tree_checker.specs.Seen.{AreListedTrains};

use disp_model::{ComponentWalk, Memory, TrainWalks};
use std::alloc::Global;
use std::collections::BTreeSet;

/// Whether no two walks are to one component.
pub(crate) fn have_distinct(alloc: Global, walks: &[ComponentWalk]) -> Result<bool, Memory>
    ensures { IfOk result (λ distinct. IsTrue distinct ↔ HaveDistinct walks.now) }
{
    let mut seen = BTreeSet::new(alloc);
    for walk in walks {
        if !seen.insert(walk.component)? {
            return Ok(false);
        }
    }
    Ok(true)
}

/// Whether no train is listed twice.
pub(crate) fn have_distinct_trains(alloc: Global, trains: &[TrainWalks]) -> Result<bool, Memory>
    ensures { IfOk result (λ distinct. IsTrue distinct ↔ HaveDistinctTrains trains.now) }
{
    let mut seen = BTreeSet::new(alloc);
    for listed in trains {
        if !seen.insert(listed.train)? {
            return Ok(false);
        }
    }
    Ok(true)
}

/// The numbers of the trains that are listed.
pub(crate) fn listed_in(alloc: Global, trains: &[TrainWalks]) -> Result<BTreeSet<u32>, Memory>
    ensures { IfOk result (λ numbers. AreListedTrains trains.now numbers.keys) }
{
    let mut numbers = BTreeSet::new(alloc);
    for listed in trains {
        numbers.insert(listed.train)?;
    }
    Ok(numbers)
}
