//! Reads the words behind the program's name, with clap. What they ask for is stated in `specs/` by
//! clap's own function of a simple command: which words it takes, which command they name, and
//! which values it finds for the command's arguments. Words are refused exactly where clap finds
//! fault with them, help included, with clap's own text, and where they name a rule that there is
//! not.
#![tactic(auto)]

mod program;
mod read;
mod task;
mod texts;

pub use read::{WordsNo, read_words};
pub use task::{JudgeTask, MakeTask, RollTask, SolveTask, Task};
