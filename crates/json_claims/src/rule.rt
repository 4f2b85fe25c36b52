/// A rule on what stands at single places, tested over the whole text before the next one.
#[derive(Clone, Copy, Debug, PartialEq, Eq)]
pub enum Rule {
    /// Values are of the wanted kind, and needed ones are there.
    Shape,
    /// Numbers are whole.
    Whole,
    /// Whole numbers are within their limits.
    Limit,
    /// Indexes name something that is there.
    Index,
}

/// What has to stand at a place.
#[derive(Clone, Copy, Debug, PartialEq, Eq)]
pub enum Want {
    Object,
    List,
    Text,
    /// A number up to a limit.
    Number(u64),
    /// A number up to a limit that is an index among so many.
    Index { count: u64, limit: u64 },
}
