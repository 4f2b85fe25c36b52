// Runs of `roll` on files and feeds in memory, by the program's one call. They show what its
// contract leaves to tests: that an answer comes where memory is ample, with one searcher and with
// several; what each line of a feed is answered; what is printed, put and counted where an opening,
// a feed, or a putting fails; and with a gate that holds threads, that feeds and searchers go on
// side by side. This crate has nothing but tests.
#![tactic(auto)]

#[cfg(test)]
mod tests;
