//! What a problem says of single operations and components, whatever is fixed or decided. A search
//! and a checker of its trees both ask it.
//!
//! `listings_of` lends what an operation lists. `release_between` tells whether two operations
//! conflict, and how long the first then holds after its end what the second lists too. `cost_of` is what a component costs at a time, and
//! `add_components` adds up what the components of a train say, each at its operation: how wide the
//! numbers are, and when an operation is reached, is its caller's matter. `OwnComponents` lists the
//! components of each train.
#![tactic(auto)]

mod adding;
mod components;
mod conflicts;
mod costs;

pub use adding::add_components;
pub use components::OwnComponents;
pub use conflicts::{listings_of, release_between};
pub use costs::cost_of;
