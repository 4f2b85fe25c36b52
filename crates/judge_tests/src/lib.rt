//! Tests of what judges plans, changes and trees, at the worked problems. They stand in a crate of
//! their own, since a crate with tests is proved twice. This crate has nothing but tests.
#![tactic(auto)]

#[cfg(test)]
mod tests;
