//! Tests of the tree of a search, of targets, of dives, of the core of a run and of a search on one
//! thread, at the worked problems. They stand in a crate of their own, since a crate with tests is
//! proved twice. This crate has nothing but tests.
#![tactic(auto)]

#[cfg(test)]
mod tests;
