//! The text of a tree, both ways. `write_tree` gives exactly the text of an edition, a verdict and
//! a tree (`specs/TreeTexts.antt`), its nodes in preorder, a line each. `read_tree` reads the three
//! versions of the format, line by line from the front: its answer is what `specs/TreesRead.antt`
//! reads of the bytes, or the refusal of the first line that breaks a rule. Where memory runs out
//! the answer is `Memory`, and that comes for no other cause.
#![tactic(auto)]

mod fault;
mod fields;
mod laws;
mod leaf;
mod lines;
mod nodes;
mod read;
mod word;
mod write;

pub use fault::TreeNo;
pub use laws::{a_text_says_one_thing, written_is_read};
pub use read::{PackedTree, read_tree};
pub use write::write_tree;
