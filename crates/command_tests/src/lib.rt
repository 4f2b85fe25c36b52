//! Tests of the command line: what words are read as, which are refused, and what help tells. They
//! stand in a crate of their own, since a crate with tests is proved twice. This crate has nothing
//! but tests.
#![tactic(auto)]

#[cfg(test)]
mod tests;
