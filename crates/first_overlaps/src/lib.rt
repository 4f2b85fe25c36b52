//! From when until when operations run at a node, and the first two that surely hold a resource at
//! a time.
//!
//! `span_of` tells when a forced operation starts and ends. `KnownSpans::first_overlap` finds the
//! first pair of operations, by train and number, that hold a resource at a time, where it is sure
//! that no order that is open comes before theirs: that needs no plan. What is known is kept from
//! look to look, so that a look compares only the pairs of those that run at another time than
//! before, and of those that were not apart.
#![tactic(auto)]

mod hold;
mod holder;
mod known;
mod meeting;
mod seen;
mod span;

pub use known::{KnownSpans, Overlap};
pub use meeting::is_below;
pub use span::{Span, is_forced, span_of};
