// Reads problems in the DISPLIB 2025 JSON format. The problem of a text is stated in `specs/` over
// the JSON value that `serde_json` reads: its keys, their defaults, and the claims on each place.
// `read_problem` answers that problem exactly where no rule is broken, and otherwise names the
// first rule that is broken and the place; each text has one answer beside want of memory. What
// breaks a claim is told by `json_claims`, and the graphs of trains by `train_graphs`.
// `ProblemNo::write` gives the text that is printed for a refusal.
#![tactic(auto)]

mod claims;
mod component;
mod counts;
mod fault;
mod laws;
mod names;
mod objective;
mod operation;
mod place;
mod problem;
mod train;
mod why;

pub use fault::{Kind, ProblemNo};
pub use laws::{answers_exclude_each_other, each_text_has_an_answer};
pub use place::{ComponentKey, ListingKey, OperationKey, Place};
pub use problem::read_problem;
