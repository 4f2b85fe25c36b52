ghost use Rattle.std.specs.Prelude.{ℕ, ◌≡◌, ◌<◌, ◌≤◌, ◌⊎◌, true, length, slice_index_or};
ghost use Rattle.incremental_paths.specs.declared.arc.Arc.{Arc};
ghost use Rattle.incremental_paths.specs.Ordered.{is_marked};
ghost use Rattle.incremental_paths.specs.Marked.{begins, AreWithin, AreRising, AreMarks};

use crate::arc::Arc;
use crate::marks::Marks;
use crate::order::Order;
use crate::steps::Steps;
use crate::threads::Threads;
use std::sync::ledger::Ledger;

/// Marks the nodes that arcs lead to from `start` on, as far as they lead on from below the place
/// `end`, the start among them, and no others.
pub fn mark_from<L: Ledger>(
    arcs: &[Arc],
    begun: &Threads,
    order: &Order,
    marks: &mut Marks,
    start: u32,
    end: usize,
    steps: &mut Steps<L>,
)
    requires begun { begun.now ≡ record { size = length order.now; keys = begins arcs.now } }
    requires within { AreWithin (length order.now) arcs.now }
    requires rising { AreRising arcs.now order.now }
    requires marks { length marks.old ≡ length order.now }
    requires start { start < length order.now }
    requires end { end ≤ length order.now }
    ensures size { length marks.new ≡ length marks.old }
    ensures marks { AreMarks arcs.now order.now start end marks.new }
{
    marks.clear();
    marks.mark(start);
    for place in order.place(start) as usize..end {
        steps.look();
        let node = order.node(place);
        if marks.has(node) {
            mark_ends(arcs, begun, marks, node, steps);
        }
    }
}

// Marks the ends of the arcs that begin at the node.
fn mark_ends<L: Ledger>(
    arcs: &[Arc],
    begun: &Threads,
    marks: &mut Marks,
    node: u32,
    steps: &mut Steps<L>,
)
    requires begun { begun.now ≡ record { size = length marks.old; keys = begins arcs.now } }
    requires within { AreWithin (length marks.old) arcs.now }
    requires node { node < length marks.old }
    ensures size { length marks.new ≡ length marks.old }
    ensures still { (v : ℕ) → is_marked marks.old v ≡ true → is_marked marks.new v ≡ true }
    ensures ends { (k : ℕ) (d : Arc) → k < length arcs.now
        → (slice_index_or arcs.now k d).from ≡ node
        → is_marked marks.new (slice_index_or arcs.now k d).to ≡ true }
    ensures only { (v : ℕ) → is_marked marks.new v ≡ true → (is_marked marks.old v ≡ true)
        ⊎ ((k : ℕ) × (k < length arcs.now)
        × ((d : Arc) → ((slice_index_or arcs.now k d).from ≡ node)
        × ((slice_index_or arcs.now k d).to ≡ v))) }
{
    let mut front = begun.last(node);
    while front > 0 {
        let at = front - 1;
        steps.look_along();
        marks.mark(arcs[at].to);
        front = begun.before(at);
    }
}
