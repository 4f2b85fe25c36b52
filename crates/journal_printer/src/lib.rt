//! The journal of a run, printed while the run goes on.
//!
//! `print_entries` writes the line of each entry, in one write, and before the line of a settled
//! edition it puts the tree of that edition under a name of its own. It ends at the first that
//! fails, and says which of the three causes it was: a putting failed exactly where a count of
//! failed puttings rose, and a write exactly where the sink's count did. What a call leaves
//! (`specs/Printing.antt`) composes: printing entries, and then more, is printing all of them
//! (`proofs/Printed.antt`).
#![tactic(auto)]

mod no;
mod printing;
mod trees;

pub use no::PrintNo;
pub use printing::print_entries;
pub use trees::tree_file;
