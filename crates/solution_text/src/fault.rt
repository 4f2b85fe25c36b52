ghost use Rattle.std.specs.Prelude.{◌≡◌};
ghost use Rattle.solution_text.specs.declared.fault.SolutionNo.TheVariants.{Memory as OutOfMemory};

use crate::place::SolutionPlace;
use std::alloc::{AllocError, AllocFailed};
use thiserror::Error;

/// Why no solution was read: the first rule that the text breaks, in the order of the variants, and
/// the first place that breaks it.
#[derive(Clone, Copy, Debug, PartialEq, Eq, Error)]
pub enum SolutionNo {
    /// The bytes are not UTF-8, or no JSON that `serde_json` takes.
    #[error("not JSON")]
    NotJson,
    /// A value of the wrong kind stands there, or none where one is needed.
    #[error("a value of the wrong kind, or none where one is needed: {0:?}")]
    Shape(SolutionPlace),
    /// A number stands there that is not whole, from 0 to 2^64 - 1 and without fraction, exponent
    /// and sign.
    #[error("not a whole number: {0:?}")]
    NotWhole(SolutionPlace),
    /// A train or operation above 2147483647, a time above 2^62 or an objective value above 2^63 -
    /// 1 stands there.
    #[error("a number above its limit: {0:?}")]
    TooLarge(SolutionPlace),
    /// There are so many events, more than 1048575.
    #[error("too many events: {0}")]
    TooMany(u64),
    /// Memory ran out, whatever the text is.
    #[error("out of memory")]
    Memory,
}

impl From<AllocError> for SolutionNo {
    ghost from_gives = { λ _ e. e ≡ OutOfMemory };

    fn from(_refused: AllocError) -> SolutionNo {
        SolutionNo::Memory
    }
}

impl<T: Drop> From<AllocFailed<T>> for SolutionNo {
    ghost from_gives = { λ _ e. e ≡ OutOfMemory };

    fn from(_refused: AllocFailed<T>) -> SolutionNo {
        SolutionNo::Memory
    }
}

impl From<disp_model::Memory> for SolutionNo {
    ghost from_gives = { λ _ e. e ≡ OutOfMemory };

    fn from(_refused: disp_model::Memory) -> SolutionNo {
        SolutionNo::Memory
    }
}
