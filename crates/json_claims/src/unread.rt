ghost use Rattle.std.specs.Prelude.{◌≡◌};
ghost use Rattle.json_claims.specs.declared.unread.Unread.TheVariants.{Memory as OutOfMemory};

use plain_values::Memory;
use std::alloc::{AllocError, AllocFailed};

/// Why a part of a value was not read.
#[derive(Clone, Copy, Debug, PartialEq, Eq)]
pub enum Unread {
    /// There is no such part.
    Nothing,
    /// Memory ran out.
    Memory,
}

impl From<AllocError> for Unread {
    ghost from_gives = { λ _ e. e ≡ OutOfMemory };

    fn from(_refused: AllocError) -> Unread {
        Unread::Memory
    }
}

impl<T: Drop> From<AllocFailed<T>> for Unread {
    ghost from_gives = { λ _ e. e ≡ OutOfMemory };

    fn from(_refused: AllocFailed<T>) -> Unread {
        Unread::Memory
    }
}

impl From<Memory> for Unread {
    ghost from_gives = { λ _ e. e ≡ OutOfMemory };

    fn from(_refused: Memory) -> Unread {
        Unread::Memory
    }
}
