// A count that rises without new memory.
ghost use Rattle.std.specs.Prelude.{◌≡◌, ◌+◌, ◌-◌, ◌^◌, min};
ghost use Rattle.fault_counts.specs.Chain.{chain_length};

/// A count without a last value. It rises by a link, which is made before.
#[derive(Drop)]
pub enum Chain {
    Empty,
    Link(Box<Chain>),
}

impl Chain {
    /// How many links the chain has, and the greatest number where it has more.
    pub fn len(&self) -> u64
        ensures { result ≡ min (chain_length self.now) (2 ^ 64 - 1) }
    {
        match self {
            Chain::Empty => 0,
            Chain::Link(rest) => rest.len().saturating_add(1),
        }
    }

    /// Adds the link, whatever it held.
    pub fn add(&mut self, link: Box<Chain>)
        ensures { chain_length self.new ≡ chain_length self.old + 1 }
    {
        let mut link = link;
        *link = std::mem::replace(self, Chain::Empty);
        *self = Chain::Link(link);
    }
}
