// Where a thread can be held, so that a test chooses which one goes first.

/// Where a thread stands when it reaches a gate.
#[derive(Clone, Copy, Debug, PartialEq, Eq)]
pub enum Point {
    /// A feed, before each line that it reads.
    Line,
    /// A feed, after each line that it asked about.
    Answered,
    /// A searcher, once for each work, before it works on it.
    Fragment,
}

/// What each thread passes on its way. It may hold the thread; it changes nothing else.
pub trait Gate: Sync {
    /// The caller has come to the point: a feed is its number, and a searcher 256 and its number.
    fn reach(&self, point: Point, caller: u32);
}

/// A gate that holds nobody.
#[derive(Clone, Copy, Debug, PartialEq, Eq)]
pub struct OpenGate;

impl Gate for OpenGate {
    fn reach(&self, _point: Point, _caller: u32) {}
}
