//! A pass to a lock, and what it knows.
ghost use Rattle.std.specs.Prelude.{◌≡◌, false, length};

use crate::History;
use atomic_table::Seat;
use std::collections::LinkedList;

/// What a pass knows, in clauses alone. No value of it is made.
pub struct View<E, T> {
    /// It is the first pass of its lock.
    pub first: bool,
    /// It was joined into the first pass.
    pub spent: bool,
    pub caller: u32,
    /// What never changes of the state. A spent pass has none.
    pub terms: Option<T>,
    /// The entries that it knows the history to begin with.
    pub seen: LinkedList<E>,
    /// The places in the history of the entries that its caller made, and of those that joined
    /// passes brought.
    pub mine: LinkedList<u64>,
    /// The count of entries that it read last.
    pub count: u64,
    /// How many of its own tries found the lock taken.
    pub tries: u64,
    /// The callers that the first pass gave a pass to.
    pub given: LinkedList<u32>,
    /// Those whose pass was joined.
    pub back: LinkedList<u32>,
    /// It has the turn, and the history is `held`.
    pub holding: bool,
    pub held: LinkedList<E>,
    pub met: Meeting<E>,
}

/// What the last join put together.
pub struct Meeting<E> {
    /// How many entries the pass had seen.
    pub past: u64,
    pub kept: LinkedList<u64>,
    pub brought: LinkedList<u64>,
    pub longer: LinkedList<E>,
    pub shorter: LinkedList<E>,
}

/// The right to use one lock for one caller. It has no bytes.
#[derive(Drop)]
pub struct Pass<S: History> {
    pub(crate) seat: Seat<Option<S>, View<S::Entry, S::Terms>>,
    ghost bare: { length seat.me.1 ≡ 0 },
    ghost idle: { (seat.me.0.holding ≡ false) × (length seat.me.0.held ≡ 0) },
    ghost live: { seat.me.0.spent ≡ false },
}
