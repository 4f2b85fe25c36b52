//! Tests of searchers that share a board, at the worked problems. This crate has nothing but tests.
#![tactic(auto)]

#[cfg(test)]
mod tests;
