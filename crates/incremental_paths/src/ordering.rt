ghost use Rattle.std.specs.Prelude.{ℕ, ◌≡◌, ◌≢◌, ◌<◌, ◌≤◌, ◌+◌, ◌↔◌, ◌∷◌, ◌++◌, [], true, length, slice_index, OnOk, IfErr, IsErrOf};
ghost use Rattle.incremental_paths.specs.Walks.{ArcsHaveCycle};
ghost use Rattle.incremental_paths.specs.Marked.{begins, AreWithin, AreRising, AreMarks};
ghost use Rattle.incremental_paths.specs.Ordered.{is_marked};

use crate::arc::Arc;
use crate::faults::AddNo;
use crate::marks::Marks;
use crate::order::Order;
use crate::search::mark_from;
use crate::steps::Steps;
use crate::threads::Threads;
use std::alloc::Global;
use std::sync::ledger::Ledger;

/// Orders the nodes so that an arc between these two goes from a lower place to a higher, too.
pub fn order_with<L: Ledger>(
    alloc: Global,
    arcs: &[Arc],
    begun: &Threads,
    order: &mut Order,
    marks: &mut Marks,
    from: u32,
    to: u32,
    steps: &mut Steps<L>,
) -> Result<(), AddNo>
    requires begun { begun.now ≡ record { size = length order.old; keys = begins arcs.now } }
    requires within { AreWithin (length order.old) arcs.now }
    requires rising { AreRising arcs.now order.old }
    requires marks { length marks.old ≡ length order.old }
    requires from { from < length order.old }
    requires to { to < length order.old }
    ensures size { length order.new ≡ length order.old }
    ensures marks { length marks.new ≡ length marks.old }
    ensures rising { AreRising arcs.now order.new }
    ensures ok { (by : ℕ) → OnOk result
        (AreRising (arcs.now ++ record { from = from; to = to; length = by } ∷ []) order.new) }
    ensures closes { (by : ℕ) → IsErrOf result (AddNo.Closes from to)
        ↔ ArcsHaveCycle (arcs.now ++ record { from = from; to = to; length = by } ∷ []) }
    ensures faults { IfErr result (λ no. no ≢ AddNo.Memory → no ≡ AddNo.Closes from to) }
    ensures searched { IsErrOf result (AddNo.Closes from to)
        → AreMarks arcs.now order.new to (slice_index order.new from) marks.new
        × (is_marked marks.new from ≡ true) }
    ensures few { slice_index order.old from < slice_index order.old to
        → steps.new ≡ steps.old + 2 }
{
    steps.look();
    let low = order.place(to) as usize;
    steps.look();
    let high = order.place(from) as usize;
    if high < low {
        return Ok(());
    }
    mark_from(arcs, begun, order, marks, to, high, steps);
    if marks.has(from) {
        return Err(AddNo::Closes { from, to });
    }
    match order.lift(alloc, marks, low, high, steps) {
        Ok(()) => Ok(()),
        Err(_) => Err(AddNo::Memory),
    }
}
