//! Tests of the lock and of the cell of the least cost, with two threads. They stand in a crate of
//! their own, since a crate with tests is proved twice. This crate has nothing but tests.
#![tactic(auto)]

#[cfg(test)]
mod tests;
