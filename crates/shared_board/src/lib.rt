//! The board: the core of a run behind a lock, which feeds and searchers share.
//!
//! Each call is one event of the core, alone, and gets the core's reply. Whoever makes a call has a
//! pass: it then has seen the whole history, which is legal, and knows which entries its caller
//! made. `try_show` and `heard` never wait.
#![tactic(auto)]

mod board;
mod enter;
mod errors;
mod feeds;
pub mod laws;
mod looks;
mod news;
mod pass;
mod searchers;
mod stored;
mod terms;

pub use board::Board;
pub use errors::TryNo;
pub use news::{Edition, News};
pub use pass::Pass;
pub use plain_values::Memory;
pub use terms::{SEARCHERS_FROM, Terms};
