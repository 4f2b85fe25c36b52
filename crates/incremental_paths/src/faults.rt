ghost use Rattle.std.specs.Prelude.{◌≡◌};
ghost use Rattle.incremental_paths.specs.declared.faults.AddNo.{AddNo};
ghost use Rattle.incremental_paths.specs.declared.faults.AddNo.TheVariants.{Memory as OutOfMemory};

use plain_values::Memory;
use std::alloc::{AllocError, AllocFailed};
use std::error::Error;
use std::fmt;

/// Why an arc was not added.
#[derive(Clone, Copy, Debug, PartialEq, Eq)]
pub enum AddNo {
    /// With this arc there would be a cycle.
    Closes { from: u32, to: u32 },
    Memory,
}

impl fmt::Display for AddNo {
    fn fmt<W: fmt::Write>(&self, f: &mut fmt::Formatter<W>) -> fmt::Result {
        match self {
            AddNo::Closes { from, to } => write!(f, "the arc from {from} to {to} closes a cycle"),
            AddNo::Memory => f.write_str("no memory is left"),
        }
    }
}

impl Error for AddNo {}

impl From<AllocError> for AddNo {
    ghost from_gives = { λ _ no. no ≡ OutOfMemory };

    fn from(_fault: AllocError) -> AddNo {
        AddNo::Memory
    }
}

impl<T: Drop> From<AllocFailed<T>> for AddNo {
    ghost from_gives = { λ _ no. no ≡ OutOfMemory };

    fn from(_fault: AllocFailed<T>) -> AddNo {
        AddNo::Memory
    }
}

impl From<Memory> for AddNo {
    ghost from_gives = { λ _ no. no ≡ OutOfMemory };

    fn from(_fault: Memory) -> AddNo {
        AddNo::Memory
    }
}
