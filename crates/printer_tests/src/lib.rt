// Entries printed to a sink in memory, with their trees on a shelf: the lines, which name a tree
// has, and what stands where a putting or a write fails. This crate has nothing but tests.
#![tactic(auto)]

#[cfg(test)]
mod tests;
