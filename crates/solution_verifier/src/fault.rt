use thiserror::Error;

/// What is wrong with a plan. Events are named by their places in the plan, from 0 on.
#[derive(Clone, Copy, Debug, PartialEq, Eq, Error)]
pub enum Fault {
    /// The event's train is not there.
    #[error("event {0} is of an unknown train")]
    UnknownTrain(u64),
    /// The event's train has no such operation.
    #[error("event {0} is of an unknown operation")]
    UnknownOperation(u64),
    /// The event is earlier than the one before it.
    #[error("event {0} is earlier than the one before it")]
    TimeBackwards(u64),
    /// The event is its train's first, and no entry.
    #[error("event {0} is its train's first and no entry")]
    NotEntry(u64),
    /// The event is no successor of its train's event before it.
    #[error("event {0} is no successor")]
    NotSuccessor(u64),
    /// The event is before its operation's lower.
    #[error("event {0} is too early")]
    TooEarly(u64),
    /// The event is after its operation's upper.
    #[error("event {0} is too late")]
    TooLate(u64),
    /// The event comes before its train's event before it has lasted its duration.
    #[error("event {0} cuts the one before it short")]
    TooShort(u64),
    /// An earlier event holds what a later one lists: their places, and the resource.
    #[error("event {0} holds resource {2} against event {1}")]
    Held(u64, u64, u32),
    /// The train's run does not end at an exit.
    #[error("train {0} does not reach its exit")]
    Incomplete(u32),
    /// The fixing, counted from 1, is not met.
    #[error("fixing {0} is not met")]
    FixingUnmet(u64),
    /// The stated cost is not the cost, which stands second.
    #[error("the cost is {1} and not {0}")]
    WrongCost(u64, u128),
}
