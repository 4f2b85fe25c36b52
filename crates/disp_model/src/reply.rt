use plain_values::{Copied, Memory};

/// Why a change is refused.
#[derive(Clone, Copy, Debug, PartialEq, Eq)]
pub enum Refusal {
    /// There is no such train.
    NoTrain,
    /// There is no such operation of the train.
    NoOperation,
    /// The chosen operation is no successor.
    NoSuccessor,
    /// The time is above 2147483647.
    TooLarge,
    /// The time is below the operation's lower.
    BelowLower(u32),
    /// The time is above the operation's upper.
    AboveUpper(u32),
    /// No fixing was accepted as the change of this number.
    NoSuchChange,
    /// The fixing was taken back by the change of this number.
    Withdrawn(u32),
    /// The operation is fixed to start at another time, or before the one asked for.
    StartedAt(u64),
    /// The operation is fixed to go on to another one.
    ChosenIs(u64),
    /// The operation is fixed not to start before this time.
    EarliestIs(u64),
    /// No route of the train agrees with the fixings and this one.
    NoRoute,
    /// There are so many changes, and no more are taken.
    Full(u32),
}

/// The reply to a change.
#[derive(Clone, Copy, Debug, PartialEq, Eq)]
pub enum Reply {
    /// It is taken, and makes the edition of this number.
    Accepted(u32),
    /// It stands already, as the change of this number.
    Known(u32),
    /// It is refused, and nothing changes.
    Refused(Refusal),
}

impl Copied for Reply {
    fn copy(&self) -> Result<Reply, Memory> {
        Ok(*self)
    }
}
