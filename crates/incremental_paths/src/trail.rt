ghost use Rattle.std.specs.Prelude.{ℕ, ◌≡◌, ◌<◌, ◌≤◌, ◌-◌, ◌∷◌, ◌++◌, ◌⊎◌, [], All, true, false, length, take, drop, OnOk, OnErr};
ghost use Rattle.incremental_paths.specs.Threaded.{threaded_with};
ghost use Rattle.incremental_paths.specs.Spread.{restored};

use crate::arc::Arc;
use crate::changes::{Change, Changes};
use crate::threads::Threads;
use plain_values::Memory;

/// Puts back what the changes from a place on have replaced, the last one first, and forgets them.
pub fn put_back(lengths: &mut [u64], trail: &mut Vec<Change>, start: usize)
    requires start { start ≤ length trail.old.items }
    requires nodes { All (λ c. c.node < length lengths.old) trail.old.items }
    ensures lengths { lengths.new ≡ restored lengths.old (drop start trail.old.items) }
    ensures trail { trail.new.items ≡ take start trail.old.items }
{
    for i in (start..trail.len()).rev() {
        let change = trail[i];
        lengths[change.node as usize] = change.before;
    }
    trail.truncate(start);
}

/// Takes elements away until this many are left.
pub fn shorten(threads: &mut Threads, from: usize, left: usize)
    requires from { length threads.old.keys ≡ from }
    requires left { left ≤ from }
    ensures size { threads.new.size ≡ threads.old.size }
    ensures keys { threads.new.keys ≡ take left threads.old.keys }
{
    for _ in left..from {
        threads.pop();
    }
}

/// Puts an arc behind the others, with the place at which the changes for it begin.
pub fn keep_arc(
    arcs: &mut Vec<Arc>,
    starts: &mut Vec<usize>,
    begun: &mut Threads,
    ended: &mut Threads,
    arc: Arc,
    start: usize,
) -> Result<(), Memory>
    requires from { arc.from < begun.old.size }
    requires to { arc.to < ended.old.size }
    ensures arcs { OnOk result (arcs.new.items ≡ arcs.old.items ++ arc ∷ []) }
    ensures starts { OnOk result (starts.new.items ≡ starts.old.items ++ start ∷ []) }
    ensures begun { OnOk result (begun.new ≡ threaded_with begun.old arc.from) }
    ensures ended { OnOk result (ended.new ≡ threaded_with ended.old arc.to) }
    ensures arcs_err { OnErr result (arcs.new.items ≡ arcs.old.items) }
    ensures starts_err { OnErr result (starts.new.items ≡ starts.old.items) }
    ensures begun_err { OnErr result (begun.new ≡ begun.old) }
    ensures ended_err { OnErr result (ended.new ≡ ended.old) }
{
    starts.reserve(1)?;
    link_arc(arcs, begun, ended, arc)?;
    if let Err(_) = starts.push(start) {
        unreachable!();
    }
    Ok(())
}

/// Puts an arc behind the others, and threads it at both of its ends.
pub fn link_arc(
    arcs: &mut Vec<Arc>,
    begun: &mut Threads,
    ended: &mut Threads,
    arc: Arc,
) -> Result<(), Memory>
    requires from { arc.from < begun.old.size }
    requires to { arc.to < ended.old.size }
    ensures arcs { OnOk result (arcs.new.items ≡ arcs.old.items ++ arc ∷ []) }
    ensures begun { OnOk result (begun.new ≡ threaded_with begun.old arc.from) }
    ensures ended { OnOk result (ended.new ≡ threaded_with ended.old arc.to) }
    ensures arcs_err { OnErr result (arcs.new.items ≡ arcs.old.items) }
    ensures begun_err { OnErr result (begun.new ≡ begun.old) }
    ensures ended_err { OnErr result (ended.new ≡ ended.old) }
{
    arcs.reserve(1)?;
    link(begun, ended, arc)?;
    if let Err(_) = arcs.push(arc) {
        unreachable!();
    }
    Ok(())
}

// Threads an arc at both of its ends.
fn link(begun: &mut Threads, ended: &mut Threads, arc: Arc) -> Result<(), Memory>
    requires from { arc.from < begun.old.size }
    requires to { arc.to < ended.old.size }
    ensures begun { OnOk result (begun.new ≡ threaded_with begun.old arc.from) }
    ensures ended { OnOk result (ended.new ≡ threaded_with ended.old arc.to) }
    ensures begun_err { OnErr result (begun.new ≡ begun.old) }
    ensures ended_err { OnErr result (ended.new ≡ ended.old) }
{
    begun.push(arc.from)?;
    match ended.push(arc.to) {
        Ok(()) => Ok(()),
        Err(fault) => {
            begun.pop();
            Err(fault)
        }
    }
}

/// Puts the changes behind the others, if all are told and there is room, and else forgets all.
/// Gives how many of the first arcs are stale then: `stale` as before, or all of them.
pub fn keep_changes(changes: &Changes, trail: &mut Vec<Change>, stale: usize, arcs: usize) -> usize
    ensures { ((result ≡ stale) × (changes.now.lost ≡ false)
        × (trail.new.items ≡ trail.old.items ++ changes.now.entries))
        ⊎ ((result ≡ arcs) × (trail.new.items ≡ [])) }
{
    if !changes.is_lost() && trail.extend_from_slice(changes.entries()).is_ok() {
        return stale;
    }
    trail.clear();
    arcs
}
