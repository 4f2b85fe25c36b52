// How long a loop over a device may go on.

/// How many turns a loop over a device has for one call.
pub const MOST_TURNS: u64 = 1 << 40;
