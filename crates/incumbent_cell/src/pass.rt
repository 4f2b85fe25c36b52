//! A pass to a cell, and what it knows.
ghost use Rattle.std.specs.Prelude.{◌≡◌, ◌<◌, []};

use atomic_table::Seat;
use std::collections::LinkedList;

/// What a pass knows, in clauses alone. No value of it is made.
pub struct Known {
    /// The codes that were put by this pass, by the one that it was split from until then, and by
    /// those joined into it.
    pub put: LinkedList<u64>,
    /// The codes that were found by these.
    pub found: LinkedList<u64>,
    pub share: Share,
}

/// How much of all the knowledge of a cell a pass has, `parts` / 2 ^ `halvings`. The first pass
/// begins with one whole.
pub struct Share {
    pub parts: u64,
    pub halvings: u64,
}

/// The right to use one cell, which a thread has for itself. It has no bytes.
#[derive(Drop)]
pub struct CellPass {
    pub(crate) seat: Seat<(), Known>,
    ghost bare: { seat.me.1 ≡ [] },
    ghost live: { 0 < seat.me.0.share.parts },
}
