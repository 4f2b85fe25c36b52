//! Tests of what is read and written: problems, solutions, trees, and the lines of feeds and of the
//! journal. They stand in a crate of their own, since a crate with tests is proved twice. This
//! crate has nothing but tests.
#![tactic(auto)]

#[cfg(test)]
mod tests;
