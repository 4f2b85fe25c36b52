//! Which open choice shortens a search most, as advice.
//!
//! An `Adviser` follows a graph from node to node, keeps when each operation starts and which of
//! those that share a resource meet, and names a choice by a `Strategy`. Nothing is proved of what
//! it names but that it ends: whoever asks tests whether the choice is open.
#![tactic(auto)]

mod adviser;
mod ages;
mod asking;
mod changes;
mod clash;
mod clashes;
mod course;
mod facts;
mod failures;
mod forks;
mod found;
mod holders;
mod layers;
mod links;
mod meetings;
mod pusher;
mod queue;
mod seeker;
mod spots;
mod tolls;
mod view;
mod ways;

pub use adviser::{Advice, Adviser, Orders, Strategy, seen_open};
pub use clashes::Care;
