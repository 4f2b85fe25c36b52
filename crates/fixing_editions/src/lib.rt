// The editions of a problem: which changes are accepted, and the exact reply to each one that is
// asked. An edition is the problem with its accepted changes, in order; its number is how many they
// are. A reply costs what the operations of one train, their successors and that train's own
// fixings cost.
#![tactic(auto)]

mod editions;
mod kept;
mod reply;
mod route_left;
mod train_fixings;
mod withdrawal;

pub use editions::Editions;
