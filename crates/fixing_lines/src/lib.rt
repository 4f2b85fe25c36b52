// The lines of feeds and of the journal. `read_request` answers what a line asks exactly where the
// line is that request's text (`specs/Requests.antt`). `write_entry` gives the line of an entry of
// the history, byte for byte (`specs/Entries.antt`).
#![tactic(auto)]

mod entry;
mod fields;
mod pieces;
mod request;

pub use entry::write_entry;
pub use pieces::push_refusal;
pub use request::{Request, read_request};
