//! A lock round a state with a history, whose passes know what they have seen of it.
//!
//! A section under the lock runs alone, on a state whose history begins with all that its pass has
//! seen. It adds one entry at most, and the pass then knows the whole history and which entries its
//! caller made. A pass's count of entries never falls, and `close` gives the state with the history
//! that the first pass has seen. `with` may wait, and nothing is said of how long; who has nothing
//! to do may `rest`.
#![tactic(auto)]

mod bell;
mod errors;
mod history;
mod lock;
mod pass;
mod steps;
mod turns;

pub use errors::Busy;
pub use history::History;
pub use lock::Turn;
pub use pass::{Meeting, Pass, View};
pub use plain_values::Memory;
