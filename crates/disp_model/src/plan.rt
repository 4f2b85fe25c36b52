use plain_values::{Copied, List, Memory};

/// The start of an operation of a train. Events are ordered by time, then train, then operation.
#[derive(Clone, Copy, Debug, PartialEq, Eq, PartialOrd, Ord)]
pub struct Event {
    pub time: u64,
    pub train: u32,
    pub operation: u32,
}

/// A plan: events in the order in which they come.
pub type Plan = List<Event>;

impl Copied for Event {
    fn copy(&self) -> Result<Event, Memory> {
        Ok(*self)
    }
}
