// Judges plans. `verify` answers the cost of a plan exactly where the plan is valid for a problem
// and its fixings and a stated cost is right, and otherwise the first fault: of the first event
// that breaks a rule, then of the trains, the fixings and the cost. It takes no memory. What comes
// first is stated in `specs/`.
#![tactic(auto)]

mod clash;
mod cost;
mod event;
mod fault;
mod fixings;
mod held;
mod runs;
mod text;
mod verdict;

pub use fault::Fault;
pub use verdict::verify;
