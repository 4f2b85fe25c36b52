// Runs of `solve` and `make` on files in memory, by the program's one call. They show what its
// contract leaves to tests: that an answer comes where memory is ample; the lines of worked
// problems, of made ones, of each kind of refusal and of refused words, as the formats say; and
// what is printed, put and counted where a file, a putting or a write fails. This crate has nothing
// but tests.
#![tactic(auto)]

#[cfg(test)]
mod tests;
