ghost use Rattle.std.specs.Prelude.{ℕ, ◌≡◌, ◌<◌, ◌≤◌, ◌^◌, List, Bool, length, slice_index, IfOk, OnErr};
ghost use Rattle.incremental_paths.specs.Ordered.{IsLifted};

use crate::marks::Marks;
use crate::shifts::{count_up, lift_marked};
use crate::steps::Steps;
use std::alloc::{AllocError, Global};
use std::marker::Model;
use std::sync::ledger::Ledger;

/// Nodes in an order: each has a place of its own, and each place a node.
#[derive(Debug, Drop)]
pub struct Order {
    places: Vec<u32>,
    nodes: Vec<u32>,
}

impl Model for Order {
    ghost use Rattle.std.specs.Prelude.{List, ℕ};
    ghost use Rattle.incremental_paths.specs.Ordered.{AreOrdered};

    ghost Value = { List ℕ };

    ghost view = { λ o. o.places.items };

    ghost invariant = { λ o. AreOrdered o.places.items o.nodes.items };
}

impl Order {
    /// This many nodes, in the order of their numbers.
    pub(crate) fn new(alloc: Global, nodes: usize) -> Result<Self, AllocError>
        requires { nodes < 2 ^ 32 }
        ensures { IfOk result (λ order. length order ≡ nodes) }
    {
        let places = count_up(alloc, nodes as u32)?;
        Ok(Order {
            nodes: places.clone()?,
            places,
        })
    }

    /// How many nodes there are, which is more than any place.
    pub(crate) fn size(&self) -> usize
        ensures is { result ≡ length self.now }
        ensures above { (v : ℕ) → v < length self.now → slice_index self.now v < length self.now }
    {
        self.nodes.len()
    }

    /// The node's place.
    pub fn place(&self, node: u32) -> u32
        requires { node < length self.now }
        ensures is { result ≡ slice_index self.now node }
        ensures within { result < length self.now }
    {
        self.places[node as usize]
    }

    /// The node at this place.
    pub(crate) fn node(&self, place: usize) -> u32
        requires { place < length self.now }
        ensures within { result < length self.now }
        ensures is { slice_index self.now result ≡ place }
        ensures only { (v : ℕ) → v < length self.now → slice_index self.now v ≡ place → v ≡ result }
    {
        self.nodes[place]
    }

    /// Moves the marked nodes between two places behind the others that are there.
    pub(crate) fn lift<L: Ledger>(
        &mut self,
        alloc: Global,
        marks: &Marks,
        low: usize,
        high: usize,
        steps: &mut Steps<L>,
    ) -> Result<(), AllocError>
        requires marks { length marks.now ≡ length self.old }
        requires low { low ≤ high }
        requires high { high < length self.old }
        ensures size { length self.new ≡ length self.old }
        ensures lifted { IfOk result (λ _. IsLifted marks.now low high self.old self.new) }
        ensures err { OnErr result (self.new ≡ self.old) }
    {
        lift_marked(
            alloc,
            &mut self.nodes,
            &mut self.places,
            marks,
            low,
            high,
            steps,
        )
    }
}
