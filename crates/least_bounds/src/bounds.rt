ghost use Rattle.std.specs.Prelude.{◌≡◌, ℕ, ◌<◌, ◌++◌, [], ◌∷◌, OnOk, OnErr, MatchOption, length, slice_set};
ghost use Rattle.least_bounds.specs.Tournaments.{bound_at, LiesBelow, NoneLiesBelow, HasNoBound, IsLeastBoundOf};

use crate::tournament::{bound_at, find_below, set, with_room};
use plain_values::Memory;
use std::alloc::Global;
use std::marker::Model;

/// Optional bounds by place: so many inner nodes, and behind them the bound of each place.
#[derive(Drop)]
pub struct LeastBounds {
    nodes: Vec<Option<u64>>,
    room: usize,
}

impl Model for LeastBounds {
    ghost use Rattle.std.specs.Prelude.{ℕ, List, Option, drop};
    ghost use Rattle.least_bounds.specs.Tournaments.{IsTournament};

    ghost Value = { List (Option ℕ) };

    ghost view = { λ b. drop b.room b.nodes.items };

    ghost invariant = { λ b. IsTournament b.nodes.items b.room };
}

impl LeastBounds {
    /// No place.
    pub fn new(alloc: Global) -> LeastBounds
        ensures { result ≡ [] }
    {
        LeastBounds {
            nodes: Vec::new(alloc),
            room: 0,
        }
    }

    /// How many places there are.
    pub fn len(&self) -> usize
        ensures { result ≡ length self.now }
    {
        self.nodes.len() - self.room
    }

    /// The least bound, none where no place has one.
    pub fn least(&self) -> Option<u64>
        ensures { MatchOption result (HasNoBound self.now) (IsLeastBoundOf self.now) }
    {
        bound_at(&self.nodes, 1)
    }

    /// A place whose bound is below the limit, or that has any bound where there is no limit. It is
    /// found along one path down.
    pub fn find_below(&self, limit: Option<u64>) -> Option<usize>
        ensures { MatchOption result (NoneLiesBelow self.now limit)
            (λ place. LiesBelow (bound_at self.now place) limit) }
    {
        find_below(&self.nodes, self.room, limit)
    }

    /// Sets the bound of a place, along one path up. Takes no memory.
    pub fn set(&mut self, place: usize, bound: Option<u64>)
        requires { place < length self.old }
        ensures { self.new ≡ slice_set self.old place bound }
    {
        set(&mut self.nodes, self.room, place, bound);
    }

    /// Adds a place without a bound. Where there is no more room the tournament is built anew, with
    /// twice as much.
    ///
    /// # Errors
    ///
    /// `Memory` where memory runs out; then nothing has changed.
    pub fn push_none(&mut self) -> Result<(), Memory>
        ensures ok { OnOk result (self.new ≡ self.old ++ None ∷ []) }
        ensures err { OnErr result (self.new ≡ self.old) }
    {
        if self.len() == self.room {
            let alloc = *self.nodes.allocator();
            let room = self.nodes.len().max(1);
            self.nodes = with_room(alloc, &self.nodes[self.room..], room)?;
            self.room = room;
        }
        self.nodes.push(None)?;
        Ok(())
    }
}
