//! How a history grows by one entry: what is read off a history with one more entry, from what was
//! read off it before. Each law is the contract of a function without a body.
#![tactic(auto)]

pub mod laws;
