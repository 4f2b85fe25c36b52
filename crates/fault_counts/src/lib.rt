//! How often something has failed, by name.
//!
//! A count that is raised in a call has room made for it first, and is full at its last value; the
//! fault of something that is closed later brings its own room, in a ticket, so that closing takes
//! no memory and cannot be refused.
#![tactic(auto)]

mod chain;
mod faults;
mod ticket;

pub use chain::Chain;
pub use faults::{FaultCount, FaultCounts};
pub use ticket::Ticket;
