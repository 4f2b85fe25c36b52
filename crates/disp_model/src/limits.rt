/// The greatest whole number that a problem may give: a time, a duration, a release time, a
/// threshold, a coefficient, an increment or an index.
pub const GREATEST_NUMBER: u32 = 2147483647;

/// The most trains of a problem.
pub const MOST_TRAINS: usize = 65535;

/// The most operations of a problem, over all its trains.
pub const MOST_OPERATIONS: usize = 1048575;

/// The most cost components of a problem.
pub const MOST_COMPONENTS: usize = 1048575;

/// The greatest sum, over components, of what each costs at the horizon.
pub const GREATEST_COST: u64 = 9223372036854775807;

/// The most events of a solution.
pub const MOST_EVENTS: usize = 1048575;

/// The greatest time of an event of a solution that is read, 2^62.
pub const GREATEST_EVENT_TIME: u64 = 4611686018427387904;

/// The most accepted changes of a run.
pub const MOST_CHANGES: u32 = 65535;

/// The most searchers, and the most feeds.
pub const MOST_CALLERS: u32 = 64;

/// The most bytes of a line of a feed.
pub const MOST_LINE_BYTES: usize = 256;

/// The most lines of a feed.
pub const MOST_LINES: u64 = 1048576;

/// The most bytes of a file.
pub const MOST_FILE_BYTES: u64 = 268435456;
