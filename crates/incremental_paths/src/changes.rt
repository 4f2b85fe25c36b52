ghost use Rattle.std.specs.Prelude.{ℕ, ◌≡◌, ◌<◌, ◌⊎◌, ◌↔◌, ◌∷◌, ◌++◌, [], IsTrue, true, false, All, Contains, IfOk};
ghost use Rattle.incremental_paths.specs.declared.changes.Change.{Change};
ghost use Rattle.incremental_paths.specs.Walks.{HasNoNodeTwice};
ghost use Rattle.incremental_paths.specs.Spread.{nothing_told};

use crate::givers::Givers;
use crate::node_set::NodeSet;
use std::alloc::{AllocError, Global};
use std::marker::Model;

/// A node whose length grew, and its length before.
#[derive(Clone, Copy, Debug)]
pub struct Change {
    pub node: u32,
    pub before: u64,
}

/// The changes of lengths since the last call of `clear`, as far as there is memory, and the nodes of
/// all of them. Beside them, as advice, which arcs gave nodes their lengths.
#[derive(Debug, Drop)]
pub struct Changes {
    entries: Vec<Change>,
    lost: bool,
    grown: NodeSet,
    givers: Givers,
}

impl Model for Changes {
    ghost use Rattle.incremental_paths.specs.Spread.{Told};

    ghost Value = { Told };

    ghost view = { λ c. record { entries = c.entries.items; lost = c.lost; grown = c.grown } };
}

impl Changes {
    /// No changes, and room at first for as many as there are nodes.
    pub fn new(alloc: Global, nodes: usize) -> Result<Self, AllocError>
        ensures { IfOk result (λ changes. changes ≡ nothing_told nodes) }
    {
        Ok(Changes {
            entries: Vec::with_capacity(alloc, nodes)?,
            lost: false,
            grown: NodeSet::new(alloc, nodes)?,
            givers: Givers::new(alloc, nodes)?,
        })
    }

    /// Forgets all changes.
    pub fn clear(&mut self)
        ensures { self.new ≡ nothing_told self.old.grown.size }
    {
        self.entries.clear();
        self.lost = false;
        self.grown.clear();
        self.givers.end();
    }

    /// Begins to note which arcs give nodes their lengths, for an arc that is added, up to the next
    /// call of `clear`.
    pub fn begin_arc(&mut self)
        ensures { self.new ≡ self.old }
    {
        self.givers.begin();
    }

    /// Notes that the arc at this place gives the node its length. Nothing rests on it.
    pub fn note_giver(&mut self, node: u32, place: usize)
        ensures { self.new ≡ self.old }
    {
        self.givers.note(node, place);
    }

    /// Goes back to the arcs that gave nodes their lengths when there were this many arcs.
    pub fn go_back(&mut self, left: usize)
        ensures { self.new ≡ self.old }
    {
        self.givers.go_back(left);
    }

    /// Which arcs gave nodes their lengths.
    pub fn givers(&self) -> &Givers {
        &self.givers
    }

    /// Says that some changes are not told.
    pub fn lose(&mut self)
        ensures lost { self.new.lost ≡ true }
        ensures grown { self.new.grown ≡ self.old.grown }
    {
        self.lost = true;
    }

    /// Whether some changes are not told.
    pub fn is_lost(&self) -> bool
        ensures { result ≡ self.now.lost }
    {
        self.lost
    }

    /// Tells of a change, where there is memory, and in any case of its node.
    pub fn tell(&mut self, node: u32, before: u64)
        requires { node < self.old.grown.size }
        ensures still { self.new.lost ≡ false → self.old.lost ≡ false }
        ensures told { self.new.lost ≡ false
            → self.new.entries ≡ self.old.entries ++ record { node = node; before = before } ∷ [] }
        ensures room { self.new.grown.size ≡ self.old.grown.size }
        ensures grown { (v : ℕ) → Contains self.new.grown.listed v
            ↔ (Contains self.old.grown.listed v ⊎ (v ≡ node)) }
    {
        self.grown.insert(node);
        self.keep(Change { node, before });
    }

    // Keeps the change, where there is memory.
    fn keep(&mut self, change: Change)
        ensures still { self.new.lost ≡ false → self.old.lost ≡ false }
        ensures told { self.new.lost ≡ false → self.new.entries ≡ self.old.entries ++ change ∷ [] }
        ensures grown { self.new.grown ≡ self.old.grown }
    {
        if self.entries.push(change).is_err() {
            self.lost = true;
        }
    }

    /// Whether the node is that of a change, told or not.
    pub fn has(&self, node: u32) -> bool
        requires { node < self.now.grown.size }
        ensures { IsTrue result ↔ Contains self.now.grown.listed node }
    {
        self.grown.has(node)
    }

    /// The changes that are told.
    pub fn entries(&self) -> &[Change]
        ensures { result.now ≡ self.now.entries }
    {
        &self.entries
    }

    /// The nodes of all changes, told or not, each once.
    pub fn grown(&self) -> &[u32]
        ensures is { result.now ≡ self.now.grown.listed }
        ensures within { All (λ v. v < self.now.grown.size) self.now.grown.listed }
        ensures once { HasNoNodeTwice self.now.grown.listed }
    {
        self.grown.nodes()
    }
}
