//! Small problems that the tests of many crates work on: two trains on one block, two that swap
//! two resources, a fork, a train with a window, and no trains at all. Each is proved to be a
//! problem once, here, and says what its trains are, so that a test above has nothing to prove of
//! the problem that it is about. No crate but one that has nothing but tests stands on this one.
//! Each of these calls fails for memory alone.
#![tactic(auto)]

mod blocks;
mod forks;
mod parts;
mod windows;

pub use blocks::{swap, two_trains, two_trains_released, two_trains_until};
pub use forks::{dear_fork, forked, plain_fork};
pub use windows::{no_trains, two_windows, windowed};
