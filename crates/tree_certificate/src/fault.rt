ghost use Rattle.std.specs.Prelude.{◌≡◌};
ghost use Rattle.tree_certificate.specs.declared.fault.ReadError.TheVariants as errors;

use disp_model::Memory;
use std::alloc::{AllocError, AllocFailed};

/// Why bytes are no tree's text: the first line that breaks a rule. Lines are counted from 1.
#[derive(Clone, Copy, Debug, PartialEq, Eq)]
pub enum TreeNo {
    /// The line is none that may stand there: another kind, another number of fields, a field that
    /// is no number, or a branch of a route without children.
    BadLine(u64),
    /// A number of the line is above its limit.
    TooLarge(u64),
    /// The bytes end before the end of the last line.
    Truncated,
    /// Bytes stand behind the last line.
    Trailing(u64),
    /// Memory ran out.
    Memory,
}

/// What is wrong, with how many bytes are left from the line on where it is.
#[derive(Clone, Copy)]
pub(crate) enum Fault {
    Bad(usize),
    Large(usize),
    Truncated,
    Trailing(usize),
}

/// Why nothing was read.
#[derive(Clone, Copy)]
pub(crate) enum ReadError {
    Memory,
    Fault(Fault),
}

impl From<Memory> for ReadError {
    ghost from_gives = { λ _ e. e ≡ errors.Memory };

    fn from(_refused: Memory) -> ReadError {
        ReadError::Memory
    }
}

impl From<AllocError> for ReadError {
    ghost from_gives = { λ _ e. e ≡ errors.Memory };

    fn from(_refused: AllocError) -> ReadError {
        ReadError::Memory
    }
}

impl<T: Drop> From<AllocFailed<T>> for ReadError {
    ghost from_gives = { λ _ e. e ≡ errors.Memory };

    fn from(_refused: AllocFailed<T>) -> ReadError {
        ReadError::Memory
    }
}
