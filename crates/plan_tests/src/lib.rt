//! Tests of what a plan is made of: when operations may start, the earliest plan, nodes that are
//! reached in time, and least bounds. They stand in a crate of their own, since a crate with tests
//! is proved twice. This crate has nothing but tests.
#![tactic(auto)]

#[cfg(test)]
mod tests;
