//! A feed of a run: it reads lines and enters each on the board, one after the other.
#![tactic(auto)]

mod enter;
mod read;

pub use read::{Reading, read_lines};
