// Reads a file of fixings from a feed of its lines: each line must ask for a change that is
// accepted or known. `take_fixings` asks for them one after the other, and names the first line
// that is another.
#![tactic(auto)]

mod take;

pub use take::{FileNo, LineNo, take_fixings};
