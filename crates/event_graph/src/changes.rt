use event_arcs::{Own, Placed};

/// What a decision has changed, so that it can be put back.
#[derive(Drop)]
pub(crate) enum Change {
    /// The decision names what is not there.
    Nothing,
    /// An order of two operations is listed, and has added so many arcs.
    Order {
        arcs: usize,
    },
    /// The routes of a train: what was kept of it before, and how many arcs were added.
    Train {
        train: usize,
        own: Own,
        placed: Placed,
        arcs: usize,
    },
}
