// The text of solutions in the DISPLIB 2025 JSON format: a list of events and the value that is
// stated for them. What `write_solution` writes is stated in `specs/Texts.antt`, byte for byte.
// `read_solution` answers the plan and the stated value of the JSON value that `serde_json` reads
// (`specs/PlanOf.antt`) exactly where no rule is broken, and otherwise names the first rule that is
// broken and the place; each text has one answer beside want of memory. `SolutionNo::write` gives
// the text that is printed for a refusal.
#![tactic(auto)]

mod claims;
mod fault;
mod laws;
mod place;
mod read;
mod why;
mod write;

pub use fault::SolutionNo;
pub use laws::{answers_exclude_each_other, each_text_has_an_answer, written_is_read};
pub use place::{EventKey, SolutionPlace};
pub use read::read_solution;
pub use write::write_solution;
