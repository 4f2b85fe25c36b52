ghost use Rattle.std.specs.Prelude.{ℕ, ◌≡◌, ◌<◌, ◌∷◌, ◌++◌, List, [], All, length, IfOk, IfSome, IfNone, OnErr};
ghost use Rattle.incremental_paths.specs.declared.arc.Arc.{Arc};
ghost use Rattle.incremental_paths.specs.Walks.{IsArcCycle, ArcsHaveCycle};
ghost use Rattle.incremental_paths.specs.Arranged.{AreArranged};

use crate::arc::Arc;
use crate::back::way_back;
use crate::faults::AddNo;
use crate::marks::Marks;
use crate::order::Order;
use crate::ordering::order_with;
use crate::steps::Steps;
use crate::threads::Threads;
use crate::trail::{link_arc, shorten};
use plain_values::Memory;
use std::sync::ledger::{Blank, Ledger};

/// A cycle that more arcs would close with these, if there is one. The arcs stay as they are, and
/// only the order of the nodes changes.
pub fn find_cycle<L: Ledger>(
    arcs: &mut Vec<Arc>,
    begun: &mut Threads,
    ended: &mut Threads,
    order: &mut Order,
    marks: &mut Marks,
    more: &[Arc],
    blank: Blank,
) -> Result<Option<Vec<u32>>, Memory>
    requires arranged { AreArranged (length order.old)
        arcs.old.items begun.old ended.old order.old marks.old }
    requires nodes { All (λ arc. (arc.from < length order.old) × (arc.to < length order.old))
        more.now }
    requires name { blank.name ≡ L.name }
    requires parts { blank.parts ≡ L.parts }
    requires some { 0 < blank.parts }
    ensures arcs { arcs.new.items ≡ arcs.old.items }
    ensures arranged { AreArranged (length order.old)
        arcs.new.items begun.new ended.new order.new marks.new }
    ensures cycle { IfOk result
        (λ found. IfSome found (λ nodes. IsArcCycle (arcs.old.items ++ more.now) nodes.items)) }
    ensures none { IfOk result
        (λ found. IfNone found (¬ ArcsHaveCycle (arcs.old.items ++ more.now))) }
{
    let mut steps = Steps::<L>::new(blank);
    let kept = arcs.len();
    let found = link_all(arcs, begun, ended, order, marks, more, &mut steps);
    let linked = arcs.len();
    arcs.truncate(kept);
    shorten(begun, linked, kept);
    shorten(ended, linked, kept);
    found
}

// Puts the arcs behind the others, up to one that closes a cycle, and gives the nodes of that.
fn link_all<L: Ledger>(
    arcs: &mut Vec<Arc>,
    begun: &mut Threads,
    ended: &mut Threads,
    order: &mut Order,
    marks: &mut Marks,
    more: &[Arc],
    steps: &mut Steps<L>,
) -> Result<Option<Vec<u32>>, Memory>
    requires arranged { AreArranged (length order.old)
        arcs.old.items begun.old ended.old order.old marks.old }
    requires nodes { All (λ arc. (arc.from < length order.old) × (arc.to < length order.old))
        more.now }
    ensures arcs { (linked : List Arc) × (arcs.new.items ≡ arcs.old.items ++ linked) }
    ensures arranged { AreArranged (length order.old)
        arcs.new.items begun.new ended.new order.new marks.new }
    ensures cycle { IfOk result
        (λ found. IfSome found (λ nodes. IsArcCycle (arcs.old.items ++ more.now) nodes.items)) }
    ensures none { IfOk result
        (λ found. IfNone found (¬ ArcsHaveCycle (arcs.old.items ++ more.now))) }
{
    for arc in more {
        if let Some(nodes) = link_or_close(arcs, begun, ended, order, marks, *arc, steps)? {
            return Ok(Some(nodes));
        }
    }
    Ok(None)
}

// Puts an arc behind the others, or gives the nodes of the cycle that it would close.
fn link_or_close<L: Ledger>(
    arcs: &mut Vec<Arc>,
    begun: &mut Threads,
    ended: &mut Threads,
    order: &mut Order,
    marks: &mut Marks,
    arc: Arc,
    steps: &mut Steps<L>,
) -> Result<Option<Vec<u32>>, Memory>
    requires arranged { AreArranged (length order.old)
        arcs.old.items begun.old ended.old order.old marks.old }
    requires from { arc.from < length order.old }
    requires to { arc.to < length order.old }
    ensures arranged { AreArranged (length order.old)
        arcs.new.items begun.new ended.new order.new marks.new }
    ensures linked { IfOk result
        (λ found. IfNone found (arcs.new.items ≡ arcs.old.items ++ arc ∷ [])) }
    ensures unlinked { IfOk result (λ found. IfSome found (λ _. arcs.new.items ≡ arcs.old.items)) }
    ensures cycle { IfOk result
        (λ found. IfSome found (λ nodes. IsArcCycle (arcs.old.items ++ arc ∷ []) nodes.items)) }
    ensures err { OnErr result (arcs.new.items ≡ arcs.old.items) }
{
    let alloc = *arcs.allocator();
    match order_with(alloc, arcs, begun, order, marks, arc.from, arc.to, steps) {
        Ok(()) => {
            link_arc(arcs, begun, ended, arc)?;
            Ok(None)
        }
        Err(AddNo::Closes { .. }) => {
            let nodes = way_back(alloc, arcs, ended, order, marks, arc.to, arc.from)?;
            Ok(Some(nodes))
        }
        Err(AddNo::Memory) => Err(Memory),
    }
}
