use std::error::Error;
use std::fmt;

/// Why a try showed nothing.
#[derive(Clone, Copy, Debug, PartialEq, Eq)]
pub enum TryNo {
    /// Another caller had the turn.
    Busy,
    Memory,
}

impl fmt::Display for TryNo {
    fn fmt<W: fmt::Write>(&self, f: &mut fmt::Formatter<W>) -> fmt::Result {
        match self {
            TryNo::Busy => write!(f, "another caller has the turn"),
            TryNo::Memory => write!(f, "out of memory"),
        }
    }
}

impl Error for TryNo {}
