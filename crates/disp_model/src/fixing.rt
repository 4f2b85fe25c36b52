use plain_values::{Copied, Memory};

/// What a dispatcher has fixed: an operation of a train started at a time, goes on to an operation
/// of the train, or does not start before a time. The numbers are as they were read.
#[derive(Clone, Copy, Debug, PartialEq, Eq)]
pub enum Fixing {
    Started {
        at_train: u64,
        at_op: u64,
        time: u64,
    },
    Chosen {
        at_train: u64,
        at_op: u64,
        next: u64,
    },
    NotBefore {
        at_train: u64,
        at_op: u64,
        time: u64,
    },
}

/// What a dispatcher asks for: a fixing, or that the fixing which was accepted as the change of a
/// number is taken back.
#[derive(Clone, Copy, Debug, PartialEq, Eq)]
pub enum Change {
    Fix(Fixing),
    Withdraw { number: u64 },
}

impl Copied for Fixing {
    fn copy(&self) -> Result<Fixing, Memory> {
        Ok(*self)
    }
}

impl Copied for Change {
    fn copy(&self) -> Result<Change, Memory> {
        Ok(*self)
    }
}
