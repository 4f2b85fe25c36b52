ghost use Rattle.std.specs.Prelude.{ℕ, ◌≡◌, ◌<◌, ◌≤◌, ◌+◌, ◌↔◌, ◌^◌, ◌++◌, List, [], true, false, length, All, IfOk, IfErr, IfSome, IfNone, IsTrue, OnOk, OnErr, IsErrOf, ◌≢◌, slice_index};
ghost use Rattle.incremental_paths.specs.Walks.{IsWalkTo, JoinsPair, walk_length, HasNoNodeTwice, Leads, IsLongestLength, IsArcCycle, ArcsHaveCycle};
ghost use Rattle.incremental_paths.specs.Marked.{AreRising};
ghost use Rattle.incremental_paths.specs.Ordered.{is_marked};
ghost use Rattle.incremental_paths.specs.Network.{IsNode, IsShort, with_arc, without_last, raised, unchanged, HasLength, TellsChanged};

use crate::arc::Arc;
use crate::faults::AddNo;
use crate::order::Order;
use crate::ordered::OrderedPaths;
use crate::steps::Steps;
use plain_values::Memory;
use std::alloc::Global;
use std::marker::Model;
use std::sync::ledger::Ledger;

/// Nodes with their lowers and lengths, and the arcs that are kept between them.
#[derive(Debug, Drop)]
pub struct Paths {
    ordered: OrderedPaths,
}

impl Model for Paths {
    ghost use Rattle.incremental_paths.specs.Network.{Network};

    ghost Value = { Network };

    ghost view = { λ p. p.ordered.network };
}

impl Paths {
    /// The paths with their order.
    pub fn into_ordered(self) -> OrderedPaths
        ensures { result.network ≡ self }
    {
        let Paths { ordered } = self;
        ordered
    }

    /// The paths, whatever the order of their nodes.
    pub fn of_ordered(ordered: OrderedPaths) -> Self
        ensures { result ≡ ordered.network }
    {
        Paths { ordered }
    }

    /// Nodes with these lowers, and no arcs.
    pub fn new(alloc: Global, lowers: &[u64]) -> Result<Self, Memory>
        requires { length lowers.now < 2 ^ 32 }
        ensures { IfOk result
            (λ paths. paths ≡ record { lowers = lowers.now; arcs = []; changed = [] }) }
    {
        Ok(Paths {
            ordered: OrderedPaths::new(alloc, lowers)?,
        })
    }

    /// How many nodes there are.
    pub fn size(&self) -> usize
        ensures { result ≡ length self.now.lowers }
    {
        self.ordered.size()
    }

    /// Adds an arc behind the others. Fails where it would close a cycle, also one of length 0, and
    /// for want of memory.
    pub fn add(&mut self, from: u32, to: u32, length: u64) -> Result<(), AddNo>
        requires from { IsNode self.old from }
        requires to { IsNode self.old to }
        requires short { IsShort (with_arc self.old from to length) }

        ensures lowers { self.new.lowers ≡ self.old.lowers }
        ensures ok { OnOk result (self.new.arcs ≡ (with_arc self.old from to length).arcs) }
        ensures changed { OnOk result (TellsChanged self.old self.new) }
        ensures closes { IsErrOf result (AddNo.Closes from to)
            ↔ ArcsHaveCycle (with_arc self.old from to length).arcs }
        ensures faults { IfErr result (λ no. no ≢ AddNo.Memory → no ≡ AddNo.Closes from to) }
        ensures err { OnErr result (self.new ≡ unchanged self.old) }
    {
        self.ordered.add(from, to, length)
    }

    /// Does what `add` does, and counts the nodes and arcs that it looks at.
    pub fn add_counted<L: Ledger>(
        &mut self,
        from: u32,
        to: u32,
        length: u64,
        steps: &mut Steps<L>,
    ) -> Result<(), AddNo>
        requires from { IsNode self.old from }
        requires to { IsNode self.old to }
        requires short { IsShort (with_arc self.old from to length) }

        ensures lowers { self.new.lowers ≡ self.old.lowers }
        ensures ok { OnOk result (self.new.arcs ≡ (with_arc self.old from to length).arcs) }
        ensures changed { OnOk result (TellsChanged self.old self.new) }
        ensures closes { IsErrOf result (AddNo.Closes from to)
            ↔ ArcsHaveCycle (with_arc self.old from to length).arcs }
        ensures faults { IfErr result (λ no. no ≢ AddNo.Memory → no ≡ AddNo.Closes from to) }
        ensures err { OnErr result (self.new ≡ unchanged self.old) }

        // Where the arc is along the order and raises no length, it takes at most four steps.
        ensures few { (places : List ℕ) × AreRising self.old.arcs places
            × (slice_index places from < slice_index places to → (at_from at_to : ℕ)
            → HasLength self.old from at_from → HasLength self.old to at_to
            → at_from + length ≤ at_to → steps.new ≤ steps.old + 4) }
    {
        self.ordered.add_counted(from, to, length, steps)
    }

    /// The nodes of a cycle that these arcs would close with the kept ones, and `None` where they
    /// close none. From each node an arc leads to the next, and from the last to the first. No arc
    /// is added.
    pub fn cycle_with(&mut self, more: &[Arc]) -> Result<Option<Vec<u32>>, Memory>
        requires nodes { All (λ arc. IsNode self.old arc.from × IsNode self.old arc.to) more.now }
        ensures same { self.new ≡ unchanged self.old }
        ensures cycle { IfOk result
            (λ found. IfSome found (λ nodes. IsArcCycle (self.old.arcs ++ more.now) nodes.items)) }
        ensures none { IfOk result
            (λ found. IfNone found (¬ ArcsHaveCycle (self.old.arcs ++ more.now))) }
    {
        self.ordered.cycle_with(more)
    }

    /// Takes the last `k` arcs away.
    pub fn withdraw(&mut self, k: u32)
        requires { let kept = self.old.arcs in k ≤ length kept }
        ensures { self.new ≡ without_last self.old k }
    {
        self.ordered.withdraw(k)
    }

    /// Raises a node's lower to `lower`, unless it is greater.
    pub fn raise(&mut self, node: u32, lower: u64)
        requires node { IsNode self.old node }
        requires short { IsShort (raised self.old node lower) }
        ensures lowers { self.new.lowers ≡ (raised self.old node lower).lowers }
        ensures arcs { self.new.arcs ≡ self.old.arcs }
        ensures changed { TellsChanged self.old self.new }
    {
        self.ordered.raise(node, lower)
    }

    /// The greatest length of a walk that ends in the node.
    pub fn length(&self, node: u32) -> u64
        requires { IsNode self.now node }
        ensures longest { IsLongestLength self.now.lowers self.now.arcs node result }
        ensures of_all_walks { (nodes : List ℕ) → IsWalkTo self.now.lowers self.now.arcs node nodes
            → walk_length self.now.lowers self.now.arcs nodes ≤ result }
    {
        self.ordered.length(node)
    }

    /// The greatest length of a walk that ends in each node, in the order of the nodes.
    pub fn lengths(&self) -> &[u64]
        ensures count { length result.now ≡ length self.now.lowers }
        ensures longest { (node : ℕ) → IsNode self.now node
            → IsLongestLength self.now.lowers self.now.arcs node (slice_index result.now node) }
    {
        self.ordered.lengths()
    }

    /// The nodes whose lengths the last call of `add` or `raise` made greater, each once. There are
    /// none after `new`, `withdraw`, `cycle_with`, and an arc that was not added.
    pub fn changed(&self) -> &[u32]
        ensures all { result.now ≡ self.now.changed }
        ensures nodes { All (IsNode self.now) self.now.changed }
        ensures lengths { All (λ node. (longest : ℕ) × HasLength self.now node longest)
            self.now.changed }
        ensures once { HasNoNodeTwice self.now.changed }
    {
        self.ordered.changed()
    }

    /// An order of the nodes in which each kept arc leads from a lower place to a higher.
    pub fn order(&self) -> &Order
        ensures size { length result.now ≡ length self.now.lowers }
        ensures rising { AreRising self.now.arcs result.now }
    {
        self.ordered.order()
    }

    /// The arcs that are kept, in the order in which they were added.
    pub fn arcs(&self) -> &[Arc]
        ensures all { result.now ≡ self.now.arcs }
        ensures nodes { All (λ arc. IsNode self.now arc.from × IsNode self.now arc.to)
            self.now.arcs }
        ensures no_cycle { ¬ ArcsHaveCycle self.now.arcs }
    {
        self.ordered.arcs()
    }

    /// Whether a kept arc leads to the node from one that is marked. It takes no memory.
    pub fn is_entered_from(&self, node: u32, marks: &[bool]) -> bool
        requires node { IsNode self.now node }
        requires marks { length marks.now ≡ length self.now.lowers }
        ensures yes { IsTrue result → (u : ℕ) × JoinsPair self.now.arcs u node
            × (is_marked marks.now u ≡ true) }
        ensures no { result ≡ false → (u : ℕ) → JoinsPair self.now.arcs u node
            → is_marked marks.now u ≡ false }

        // Of the marked nodes the one at the lowest place is entered from none.
        ensures rising { (places : List ℕ) × AreRising self.now.arcs places }
    {
        self.ordered.is_entered_from(node, marks)
    }

    /// A walk to the node that is as long as the node's length.
    pub fn walk(&self, node: u32) -> Result<Vec<u32>, Memory>
        requires { IsNode self.now node }
        ensures walk { IfOk result
            (λ nodes. IsWalkTo self.now.lowers self.now.arcs node nodes.items) }
        ensures once { IfOk result (λ nodes. HasNoNodeTwice nodes.items) }
        ensures longest { IfOk result (λ nodes.
            IsLongestLength self.now.lowers self.now.arcs node
            (walk_length self.now.lowers self.now.arcs nodes.items)) }
    {
        self.ordered.walk(node)
    }

    /// The nodes of a way along kept arcs from one node to another, both among them, and `None`
    /// where there is none.
    pub fn between(&self, from: u32, to: u32) -> Result<Option<Vec<u32>>, Memory>
        requires from { IsNode self.now from }
        requires to { IsNode self.now to }
        ensures way { IfOk result
            (λ found. IfSome found (λ nodes. Leads self.now.arcs from to nodes.items)) }
        ensures none { IfOk result
            (λ found. IfNone found ((nodes : List ℕ) → ¬ Leads self.now.arcs from to nodes)) }

        // Without a way, an arc back would close no cycle.
        ensures no_cycle { IfOk result (λ found. IfNone found ((length : ℕ)
            → ¬ ArcsHaveCycle (with_arc self.now to from length).arcs)) }
    {
        self.ordered.between(from, to)
    }
}
