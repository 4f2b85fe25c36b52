ghost use Rattle.std.specs.Prelude.{◌≡◌};
ghost use Rattle.displib_reader.specs.declared.fault.ProblemNo.TheVariants.{Memory as OutOfMemory};

use crate::place::Place;
use std::alloc::{AllocError, AllocFailed};
use thiserror::Error;

/// What there may be too many of.
#[derive(Clone, Copy, Debug, PartialEq, Eq)]
pub enum Kind {
    Trains,
    /// Operations, over all trains.
    Operations,
    Components,
}

/// Why no problem was read: the first rule that the text breaks, in the order of the variants, and
/// the first place that breaks it.
#[derive(Clone, Copy, Debug, PartialEq, Eq, Error)]
pub enum ProblemNo {
    /// The bytes are not UTF-8, or no JSON that `serde_json` takes.
    #[error("not JSON")]
    NotJson,
    /// A value of the wrong kind stands there, or none where one is needed.
    #[error("a value of the wrong kind, or none where one is needed: {0:?}")]
    Shape(Place),
    /// A number stands there that is not whole, from 0 to 2^64 - 1 and without fraction, exponent
    /// and sign.
    #[error("not a whole number: {0:?}")]
    NotWhole(Place),
    /// A whole number above 2147483647 stands there.
    #[error("a number above 2147483647: {0:?}")]
    TooLarge(Place),
    /// There are so many, more than are taken.
    #[error("too many {0:?}: {1}")]
    TooMany(Kind, u64),
    /// The number that stands there names no train or operation.
    #[error("no train or operation has this number: {0:?}")]
    BadIndex(Place),
    /// So many operations of the train, not one, are successors of none.
    #[error("train {0} has {1} entries")]
    NotOneEntry(u32, u64),
    /// So many operations of the train, not one, have no successor.
    #[error("train {0} has {1} exits")]
    NotOneExit(u32, u64),
    /// The operation of the train, the least one, lies on a cycle.
    #[error("operation {1} of train {0} lies on a cycle")]
    Loop(u32, u32),
    /// The component has another type than `op_delay`.
    #[error("component {0} has an unknown type")]
    UnknownObjective(u32),
    /// The components may cost so much at the horizon, more than 2^63 - 1.
    #[error("a cost of {0} is too high")]
    TooCostly(u128),
    /// Memory ran out, whatever the text is.
    #[error("out of memory")]
    Memory,
}

impl From<AllocError> for ProblemNo {
    ghost from_gives = { λ _ e. e ≡ OutOfMemory };

    fn from(_refused: AllocError) -> ProblemNo {
        ProblemNo::Memory
    }
}

impl<T: Drop> From<AllocFailed<T>> for ProblemNo {
    ghost from_gives = { λ _ e. e ≡ OutOfMemory };

    fn from(_refused: AllocFailed<T>) -> ProblemNo {
        ProblemNo::Memory
    }
}

impl From<disp_model::Memory> for ProblemNo {
    ghost from_gives = { λ _ e. e ≡ OutOfMemory };

    fn from(_refused: disp_model::Memory) -> ProblemNo {
        ProblemNo::Memory
    }
}
