//! Nodes of a tree in few bytes, for a search that keeps very many.
//!
//! `PackedNode` is seen as the node that it was made of, and gives that node again, or what it is
//! without what it lists (`Outline`), which takes no memory. A leaf with walks is kept as bytes
//! where its numbers are small; of the operations at the front of the walk before it, a walk says
//! only how many it begins with. What bytes say is stated in `specs/`; what was written is compared
//! with the leaf before it is kept, so nothing is claimed of the writer.
#![tactic(auto)]

mod check;
mod node;
mod outline;
mod read;
mod unread;
mod write;

pub use node::PackedNode;
pub use outline::Outline;
