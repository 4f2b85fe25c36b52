//! Texts that are put on a shelf, one after the other.
//!
//! `put_all` puts each of a list under its name, up to the first that is not put. Where all are
//! put, each name holds the text of the last put under it, and every other name what it held. It
//! answers `Failed` exactly where a count of failed puttings rose. In `specs/` stand the words for
//! the outside at one moment, and in `proofs/` what follows where puts and writes come one behind
//! another.
#![tactic(auto)]

mod put;
mod putting;

pub use put::Put;
pub use putting::put_all;
