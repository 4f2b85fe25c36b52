// Runs of `verify`, `report` and `check` on files in memory, by the program's one call. They show
// what its contract leaves to tests: that an answer comes where memory is ample; the line of each
// fault, of valid plans, of trees and of refused files, as the formats say; and which lines of
// fixings are taken. This crate has nothing but tests.
#![tactic(auto)]

#[cfg(test)]
mod tests;
