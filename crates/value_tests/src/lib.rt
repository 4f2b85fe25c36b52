//! Tests of lists, texts and numbers, of the values that problems are made of, and of what is
//! claimed of JSON. They stand in a crate of their own, since a crate with tests is proved twice.
//! This crate has nothing but tests.
#![tactic(auto)]

#[cfg(test)]
mod tests;
