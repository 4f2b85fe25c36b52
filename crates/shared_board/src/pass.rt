//! A pass to a board.
ghost use Rattle.std.specs.Prelude.{◌≡◌, ◌≤◌, length};
ghost use Rattle.shared_board.specs.Callers.{lines_of};

use crate::stored::Stored;

/// The right to use one board for one caller.
#[derive(Drop)]
pub struct Pass {
    pub(crate) turn: turn_lock::Pass<Stored>,
    pub(crate) caller: u32,
    /// How many entries `news` handed out.
    pub(crate) fetched: u64,
    /// How many lines of the caller have an entry.
    pub(crate) lines: u64,
    pub ghost caller_is: { caller ≡ turn.seat.me.0.caller },
    pub ghost fetched_within: { fetched ≤ length turn.seat.me.0.seen },
    pub ghost lines_are: { lines ≡ lines_of caller turn.seat.me.0.seen },
}

impl Pass {
    ghost use Rattle.std.specs.Prelude.{◌≡◌};
    ghost use Rattle.shared_board.specs.Board.{known};

    /// The caller whose pass it is.
    pub fn caller(&self) -> u32
        ensures { result ≡ (known self.now).caller }
    {
        self.caller
    }
}
