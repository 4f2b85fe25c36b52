//! Tests of files, lines and output, of the system and in memory, and of what a caller can say
//! through the traits of the outside. They stand in a crate of their own, since a crate with tests is proved twice. This
//! crate has nothing but tests.
#![tactic(auto)]

#[cfg(test)]
mod tests;
