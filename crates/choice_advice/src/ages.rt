use disp_model::Memory;
use std::alloc::Global;

/// So many sets of trains are told apart.
pub(crate) const SETS: u32 = 64;

/// The bit of the set of a train: the trains whose numbers leave the same remainder.
pub(crate) fn set_of(train: u32) -> u64 {
    1 << (train % SETS)
}

/// At which turn a train of each set was last found otherwise than before: an operation of its
/// starts at another time, its routes may be others, or other arcs lead from it.
#[derive(Drop)]
pub(crate) struct Ages {
    turn: u64,
    last: Vec<u64>,
}

impl Ages {
    /// None was found otherwise yet.
    pub(crate) fn new(alloc: Global) -> Result<Ages, Memory> {
        let mut last = Vec::with_capacity(alloc, SETS as usize)?;
        for _ in 0..SETS {
            last.push(0)?;
        }
        Ok(Ages { turn: 0, last })
    }

    /// Begins a turn.
    pub(crate) fn begin_turn(&mut self) {
        self.turn = self.turn.saturating_add(1);
    }

    /// How many turns there were.
    pub(crate) fn turn(&self) -> u64 {
        self.turn
    }

    /// Notes that a train was found otherwise at this turn.
    pub(crate) fn note(&mut self, train: u32) {
        if let Some(last) = self.last.get_mut((train % SETS) as usize) {
            *last = self.turn;
        }
    }

    /// Whether no train of some sets was found otherwise since a turn.
    pub(crate) fn are_as_at(&self, sets: u64, turn: u64) -> bool {
        let mut left = sets;
        for _ in 0..SETS {
            if left == 0 {
                return true;
            }
            let set = left.trailing_zeros() as usize;
            if self.last.get(set).is_some_and(|last| *last > turn) {
                return false;
            }
            left &= left.saturating_sub(1);
        }
        true
    }
}
