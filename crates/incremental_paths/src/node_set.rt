ghost use Rattle.std.specs.Prelude.{ℕ, ◌≡◌, ◌<◌, ◌⊎◌, ◌↔◌, [], All, Contains, IfOk, IsTrue};
ghost use Rattle.incremental_paths.specs.Walks.{HasNoNodeTwice};

use crate::marks::Marks;
use std::alloc::{AllocError, Global};
use std::marker::Model;

/// A set of nodes, listed in the order in which they came. Only `new` takes memory.
#[derive(Debug, Drop)]
pub struct NodeSet {
    marks: Marks,
    nodes: Vec<u32>,
    count: usize,
}

impl Model for NodeSet {
    ghost use Rattle.std.specs.Prelude.{length, take};
    ghost use Rattle.incremental_paths.specs.NodeSets.{Members, AreMembers};

    ghost Value = { Members };

    ghost view = { λ s.
        record { size = length s.nodes.items; listed = take s.count s.nodes.items } };

    ghost invariant = { λ s. AreMembers s.marks s.nodes.items s.count };
}

impl NodeSet {
    /// No nodes yet, and room for this many.
    pub fn new(alloc: Global, nodes: usize) -> Result<Self, AllocError>
        ensures { IfOk result (λ set. set ≡ record { size = nodes; listed = [] }) }
    {
        let mut marks = Marks::new(alloc, nodes)?;
        marks.clear();
        Ok(NodeSet {
            marks,
            nodes: vec![in alloc; 0u32; nodes]?,
            count: 0,
        })
    }

    /// Takes all nodes out.
    pub fn clear(&mut self)
        ensures { self.new ≡ record { size = self.old.size; listed = [] } }
    {
        self.marks.clear();
        self.count = 0;
    }

    /// Puts the node in, where it is not there.
    pub fn insert(&mut self, node: u32)
        requires { node < self.old.size }
        ensures size { self.new.size ≡ self.old.size }
        ensures listed { (v : ℕ) → Contains self.new.listed v
            ↔ (Contains self.old.listed v ⊎ (v ≡ node)) }
    {
        if !self.marks.has(node) {
            self.marks.mark(node);
            self.nodes[self.count] = node;
            self.count += 1;
        }
    }

    /// Whether the node is in the set.
    pub fn has(&self, node: u32) -> bool
        requires { node < self.now.size }
        ensures { IsTrue result ↔ Contains self.now.listed node }
    {
        self.marks.has(node)
    }

    /// The nodes, each once.
    pub fn nodes(&self) -> &[u32]
        ensures is { result.now ≡ self.now.listed }
        ensures within { All (λ v. v < self.now.size) self.now.listed }
        ensures once { HasNoNodeTwice self.now.listed }
    {
        &self.nodes[..self.count]
    }
}
