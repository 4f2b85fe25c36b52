// Files of fixings in memory, taken line by line: that an answer comes where memory is ample, and
// which line is named where one is not taken. This crate has nothing but tests.
#![tactic(auto)]

#[cfg(test)]
mod tests;
