//! Tests of path lengths under arcs that come and go, and of the cycles and walks that show why an
//! arc is refused or a node is late. They stand in a crate of their own, since a crate with tests
//! is proved twice. This crate has nothing but tests.
#![tactic(auto)]

#[cfg(test)]
mod tests;
