ghost use Rattle.std.specs.Prelude.{ℕ, ◌≡◌, ◌<◌, true, false, length, slice_index_or, slice_set, IfOk};

use std::alloc::{AllocError, Global};
use std::marker::Model;

/// Which nodes are marked. All marks are taken away at once, by a new stamp.
#[derive(Debug, Drop)]
pub struct Marks {
    stamps: Vec<u64>,
    stamp: u64,
}

impl Model for Marks {
    ghost use Rattle.std.specs.Prelude.{◌==◌, ◌≤◌, ◌<◌, map, All, Bool, List};

    ghost Value = { List Bool };

    ghost view = { λ m. map (λ s. s == m.stamp) m.stamps.items };

    ghost invariant = { λ m. All (λ s. s ≤ m.stamp) m.stamps.items };
}

impl Marks {
    /// This many nodes.
    pub fn new(alloc: Global, nodes: usize) -> Result<Self, AllocError>
        ensures { IfOk result (λ marks. length marks ≡ nodes) }
    {
        Ok(Marks {
            stamps: vec![in alloc; 0u64; nodes]?,
            stamp: 1,
        })
    }

    /// Takes all marks away.
    pub fn clear(&mut self)
        ensures size { length self.new ≡ length self.old }
        ensures none { (v : ℕ) → slice_index_or self.new v false ≡ false }
    {
        if self.stamp == u64::MAX {
            self.stamps.fill(0);
            self.stamp = 0;
        }
        self.stamp += 1;
    }

    /// Marks the node.
    pub fn mark(&mut self, node: u32)
        requires { node < length self.old }
        ensures { self.new ≡ slice_set self.old node true }
    {
        self.stamps[node as usize] = self.stamp;
    }

    /// Whether the node is marked.
    pub fn has(&self, node: u32) -> bool
        requires { node < length self.now }
        ensures { result ≡ slice_index_or self.now node false }
    {
        self.stamps[node as usize] == self.stamp
    }
}
