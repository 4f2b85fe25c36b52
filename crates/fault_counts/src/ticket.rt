// What a feed is closed with.
ghost use Rattle.std.specs.Prelude.{◌≡◌, List, ℕ, IfOk, string_bytes};

use crate::chain::Chain;
use std::alloc::{AllocError, Global};

/// A feed's name, and the room to count a fault once the feed is closed.
#[derive(Drop)]
pub struct Ticket {
    pub name: String,
    pub link: Box<Chain>,
}

impl Ticket {
    pub fn new(alloc: Global, name: &str) -> Result<Self, AllocError>
        ensures { IfOk result (λ ticket. string_bytes ticket.name ≡ name.now) }
    {
        Ok(Ticket {
            name: String::from_str(alloc, name)?,
            link: Box::new(alloc, Chain::Empty)?,
        })
    }
}
