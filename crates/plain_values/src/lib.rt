//! Plain values that every crate above speaks of, and the one answer where memory runs out.
//!
//! `List` and `Text` are seen as lists of their items and bytes, and a `Copied` value's copy equals
//! it. `push_text` adds a text at the end of another, and leaves it as it was where memory runs
//! out. `read_number` gives the number that decimal digits write, or says which of two rules they
//! break.
#![tactic(auto)]

mod copied;
mod list;
mod memory;
mod number;
mod push;
mod text;

pub use copied::Copied;
pub use list::List;
pub use memory::Memory;
pub use number::{NumberNo, read_number};
pub use push::push_text;
pub use text::Text;
