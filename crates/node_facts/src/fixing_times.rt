ghost use Rattle.std.specs.Prelude.{◌≡◌, ◌++◌, ◌∷◌, [], List, IfOk, OnOk};
ghost use Rattle.disp_model.specs.declared.fixing.Fixing.{Fixing};
ghost use Rattle.node_facts.specs.Indexed.{time_in, AreStarts, AreBars};

use disp_model::{Fixing, Memory};
use std::alloc::Global;
use std::collections::BTreeMap;

/// The time that is kept of an operation.
pub(crate) fn time_of(times: &BTreeMap<(u64, u64), u64>, train: u64, op: u64) -> Option<u64>
    ensures { result ≡ time_in times.now.entries train op }
{
    match times.get(&(train, op)) {
        Some(time) => Some(*time),
        None => None,
    }
}

/// Keeps the time of a start, unless one is kept of its operation.
fn note_start(starts: &mut BTreeMap<(u64, u64), u64>, fixing: &Fixing) -> Result<(), Memory>
    ensures { OnOk result ((fixings : List Fixing) → AreStarts fixings starts.old.entries
        → AreStarts (fixings ++ fixing.now ∷ []) starts.new.entries) }
{
    let Fixing::Started {
        at_train,
        at_op,
        time,
    } = *fixing
    else {
        return Ok(());
    };
    match time_of(starts, at_train, at_op) {
        Some(_) => Ok(()),
        None => {
            starts.insert((at_train, at_op), time)?;
            Ok(())
        }
    }
}

/// Keeps the time before which an operation is not to start, unless a later one is kept.
fn note_bar(bars: &mut BTreeMap<(u64, u64), u64>, fixing: &Fixing) -> Result<(), Memory>
    ensures { OnOk result ((fixings : List Fixing) → AreBars fixings bars.old.entries
        → AreBars (fixings ++ fixing.now ∷ []) bars.new.entries) }
{
    let Fixing::NotBefore {
        at_train,
        at_op,
        time,
    } = *fixing
    else {
        return Ok(());
    };
    let bar = time_of(bars, at_train, at_op).unwrap_or(0).max(time);
    bars.insert((at_train, at_op), bar)?;
    Ok(())
}

/// Of each operation that is fixed to a time that time.
pub(crate) fn starts_of(
    alloc: Global,
    fixings: &[Fixing],
) -> Result<BTreeMap<(u64, u64), u64>, Memory>
    ensures { IfOk result (λ starts. AreStarts fixings.now starts.entries) }
{
    let mut starts = BTreeMap::new(alloc);
    for fixing in fixings {
        note_start(&mut starts, fixing)?;
    }
    Ok(starts)
}

/// Of each operation the greatest time before which it is fixed not to start.
pub(crate) fn bars_of(
    alloc: Global,
    fixings: &[Fixing],
) -> Result<BTreeMap<(u64, u64), u64>, Memory>
    ensures { IfOk result (λ bars. AreBars fixings.now bars.entries) }
{
    let mut bars = BTreeMap::new(alloc);
    for fixing in fixings {
        note_bar(&mut bars, fixing)?;
    }
    Ok(bars)
}
