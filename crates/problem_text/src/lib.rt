//! The text of problems in the DISPLIB 2025 JSON format. What `write_problem` writes is stated in
//! `specs/Texts.antt`, byte for byte.
#![tactic(auto)]

mod component;
mod numbers;
mod operation;
mod write;

pub use write::write_problem;
