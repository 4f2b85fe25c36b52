/// A key of an event that the format names.
#[derive(Clone, Copy, Debug, PartialEq, Eq)]
pub enum EventKey {
    Operation,
    Time,
    Train,
}

/// A place in the text of a solution. The numbers count events from 0.
#[derive(Clone, Copy, Debug, PartialEq, Eq)]
pub enum SolutionPlace {
    /// The whole value.
    Root,
    /// The list of events.
    Events,
    Event(u64),
    EventKey(u64, EventKey),
    ObjectiveValue,
}
