ghost use Rattle.std.specs.Prelude.{◌≡◌, ◌≢◌, ◌<◌, ◌≤◌, ◌↔◌, ◌^◌, ◌++◌, [], length, All, IfOk, IfErr, IfSome, IfNone, OnOk, OnErr, IsErrOf};
ghost use Rattle.incremental_paths.specs.Walks.{IsArcCycle, ArcsHaveCycle};
ghost use Rattle.incremental_paths.specs.Network.{IsNode, IsShort};
ghost use Rattle.timed_paths.specs.Above.{TellsAbove};
ghost use Rattle.timed_paths.specs.Timed.{without_last_timed, with_one, network_of};

use crate::above::{above_now, first_above};
use incremental_paths::{AddNo, Arc, Paths};
use plain_values::Memory;
use std::alloc::Global;
use std::marker::Model;

/// Paths between nodes of which some have an upper, with a node that is above it, if there is one.
#[derive(Drop)]
pub struct TimedPaths {
    paths: Paths,
    uppers: Vec<Option<u64>>,
    // A node above its upper with the first k arcs, at place k.
    lates: Vec<Option<u32>>,
}

impl Model for TimedPaths {
    ghost use Rattle.timed_paths.specs.Timed.{Timed, AreLates};

    ghost Value = { Timed };

    ghost view = { λ p.
        record { lowers = p.paths.lowers; arcs = p.paths.arcs; uppers = p.uppers.items } };

    ghost invariant = { λ p. AreLates p.paths.lowers p.paths.arcs p.uppers.items p.lates.items };
}

impl TimedPaths {
    /// Nodes with these lowers and uppers, one of each for a node, and no arcs.
    pub fn new(alloc: Global, lowers: &[u64], uppers: Vec<Option<u64>>) -> Result<Self, Memory>
        requires few { length lowers.now < 2 ^ 32 }
        requires nodes { length uppers.items ≡ length lowers.now }
        ensures { IfOk result (λ timed. timed
            ≡ record { lowers = lowers.now; arcs = []; uppers = uppers.items }) }
    {
        let paths = Paths::new(alloc, lowers)?;
        let mut lates = Vec::new(alloc);
        lates.push(first_above(&paths, &uppers, lowers.len() as u32))?;
        Ok(TimedPaths {
            paths,
            uppers,
            lates,
        })
    }

    /// The paths, without the uppers.
    pub fn paths(&self) -> &Paths
        ensures lowers { result.now.lowers ≡ self.now.lowers }
        ensures arcs { result.now.arcs ≡ self.now.arcs }
    {
        &self.paths
    }

    /// A node whose length is above its upper, and `None` where there is none.
    pub fn late(&self) -> Option<u32>
        ensures { TellsAbove self.now.lowers self.now.arcs self.now.uppers result }
    {
        self.lates[self.lates.len() - 1]
    }

    /// Adds an arc behind the others. Fails where it would close a cycle, also one of length 0, and
    /// for want of memory; then nothing has changed.
    pub fn add(&mut self, from: u32, to: u32, length: u64) -> Result<(), AddNo>
        requires from { IsNode (network_of self.old) from }
        requires to { IsNode (network_of self.old) to }
        requires short { IsShort (network_of (with_one self.old from to length)) }
        ensures ok { OnOk result (self.new ≡ with_one self.old from to length) }
        ensures closes { IsErrOf result (AddNo.Closes from to)
            ↔ ArcsHaveCycle (with_one self.old from to length).arcs }
        ensures faults { IfErr result (λ no. no ≢ AddNo.Memory → no ≡ AddNo.Closes from to) }
        ensures err { OnErr result (self.new ≡ self.old) }
    {
        let before = self.late();
        self.paths.add(from, to, length)?;
        let late = above_now(before, &self.paths, &self.uppers);
        if self.lates.push(late).is_err() {
            self.paths.withdraw(1);
            return Err(AddNo::Memory);
        }
        Ok(())
    }

    /// Takes the last `count` arcs away.
    pub fn withdraw(&mut self, count: usize)
        requires { let kept = self.old.arcs in count ≤ length kept }
        ensures { self.new ≡ without_last_timed self.old count }
    {
        let left = self.lates.len() - count;
        for _ in 0..count {
            self.paths.withdraw(1);
        }
        self.lates.truncate(left);
    }

    /// The nodes of a cycle that these arcs would close with the kept ones, and `None` where they
    /// close none. From each node an arc leads to the next, and from the last to the first. No arc
    /// is added.
    pub fn cycle_with(&mut self, more: &[Arc]) -> Result<Option<Vec<u32>>, Memory>
        requires nodes { All (λ arc. IsNode (network_of self.old) arc.from
            × IsNode (network_of self.old) arc.to) more.now }
        ensures same { self.new ≡ self.old }
        ensures cycle { IfOk result
            (λ found. IfSome found (λ nodes. IsArcCycle (self.old.arcs ++ more.now) nodes.items)) }
        ensures none { IfOk result
            (λ found. IfNone found (ArcsHaveCycle (self.old.arcs ++ more.now) → ⊥)) }
    {
        self.paths.cycle_with(more)
    }
}
