ghost use Rattle.std.specs.Prelude.{ℕ, ◌≡◌, ◌<◌, ◌≤◌, ◌+◌, ◌↔◌, ◌^◌, ◌++◌, List, [], true, false, length, All, IfOk, IfErr, IfSome, IfNone, IsSome, IsNone, IsTrue, OnOk, OnErr, IsErrOf, ◌≢◌, slice_index};
ghost use Rattle.incremental_paths.specs.Walks.{IsWalkTo, JoinsPair, walk_length, HasNoNodeTwice, Leads, IsLongestLength, IsArcCycle, ArcsHaveCycle};
ghost use Rattle.incremental_paths.specs.Marked.{AreRising};
ghost use Rattle.incremental_paths.specs.Ordered.{is_marked};
ghost use Rattle.incremental_paths.specs.Network.{IsNode, IsShort, with_arc, without_last, raised, unchanged, HasLength, TellsChanged};

use crate::arc::Arc;
use crate::back::{comes_from_marked, find_way, walk_back, way_back};
use crate::changes::{Change, Changes};
use crate::closing::find_cycle;
use crate::faults::AddNo;
use crate::marks::Marks;
use crate::order::Order;
use crate::ordering::order_with;
use crate::spread::{raise_length, spread_anew, spread_last};
use crate::steps::Steps;
use crate::threads::Threads;
use crate::trail::{keep_arc, keep_changes, put_back, shorten};
use plain_values::Memory;
use std::alloc::Global;
use std::marker::{Brand, Model};
use std::sync::ledger::{Blank, Ledger};

// The arc, if it was refused since it closes a cycle.
fn refused_by(no: AddNo, arc: Arc) -> Option<Arc>
    ensures some { IfSome result (λ refused. refused ≡ arc) }
    ensures none { IsNone result ↔ no ≡ AddNo.Memory }
{
    match no {
        AddNo::Closes { .. } => Some(arc),
        AddNo::Memory => None,
    }
}

// Whether there is an arc, and it leads from the one node to the other.
fn is_arc(arc: Option<Arc>, from: u32, to: u32) -> bool
    ensures { IsTrue result ↔ IsSome arc × IfSome arc (λ a. (a.from ≡ from) × (a.to ≡ to)) }
{
    match arc {
        Some(arc) => arc.from == from && arc.to == to,
        None => false,
    }
}

/// Nodes with their lowers and lengths, the arcs that are kept between them, and the order of the
/// nodes.
#[derive(Debug, Drop)]
pub struct OrderedPaths {
    lowers: Vec<u64>,
    arcs: Vec<Arc>,
    begun: Threads,
    ended: Threads,
    order: Order,
    marks: Marks,
    lengths: Vec<u64>,
    changes: Changes,
    trail: Vec<Change>,
    starts: Vec<usize>,
    stale: usize,
    refused: Option<Arc>,
}

impl Model for OrderedPaths {
    ghost use Rattle.incremental_paths.specs.Marked.{AreRising};
    ghost use Rattle.incremental_paths.specs.Network.{Placed};
    ghost use Rattle.incremental_paths.specs.Kept.{AreKept, AreOfRefused};

    ghost Value = { Placed };

    ghost view = { λ p. record {
      network = record {
        lowers = p.lowers.items;
        arcs = p.arcs.items;
        changed = p.changes.grown.listed;
      };
      places = p.order;
    } };

    ghost invariant = { λ p.
        AreKept p.lowers.items p.arcs.items p.begun p.ended p.order p.marks p.lengths.items
        p.trail.items p.starts.items p.stale p.changes.grown.size
        × AreOfRefused p.arcs.items p.order p.marks p.refused };
}

impl OrderedPaths {
    /// Nodes with these lowers, and no arcs.
    pub fn new(alloc: Global, lowers: &[u64]) -> Result<Self, Memory>
        requires { length lowers.now < 2 ^ 32 }
        ensures { IfOk result
            (λ paths. paths.network ≡ record { lowers = lowers.now; arcs = []; changed = [] }) }
    {
        let nodes = lowers.len();
        Ok(OrderedPaths {
            lowers: Vec::from_slice(alloc, lowers)?,
            arcs: Vec::new(alloc),
            begun: Threads::new(alloc, nodes)?,
            ended: Threads::new(alloc, nodes)?,
            order: Order::new(alloc, nodes)?,
            marks: Marks::new(alloc, nodes)?,
            lengths: Vec::from_slice(alloc, lowers)?,
            changes: Changes::new(alloc, nodes)?,
            trail: Vec::new(alloc),
            starts: Vec::new(alloc),
            stale: 0,
            refused: None,
        })
    }

    /// How many nodes there are.
    pub fn size(&self) -> usize
        ensures { result ≡ length self.now.network.lowers }
    {
        self.lowers.len()
    }

    /// Adds an arc behind the others. Fails where it would close a cycle, also one of length 0, and
    /// for want of memory.
    pub fn add(&mut self, from: u32, to: u32, length: u64) -> Result<(), AddNo>
        requires from { IsNode self.old.network from }
        requires to { IsNode self.old.network to }
        requires short { IsShort (with_arc self.old.network from to length) }

        ensures lowers { self.new.network.lowers ≡ self.old.network.lowers }
        ensures ok { OnOk result
            (self.new.network.arcs ≡ (with_arc self.old.network from to length).arcs) }
        ensures changed { OnOk result (TellsChanged self.old.network self.new.network) }
        ensures closes { IsErrOf result (AddNo.Closes from to)
            ↔ ArcsHaveCycle (with_arc self.old.network from to length).arcs }
        ensures faults { IfErr result (λ no. no ≢ AddNo.Memory → no ≡ AddNo.Closes from to) }
        ensures err { OnErr result (self.new.network ≡ unchanged self.old.network) }
    {
        self.add_from::<Brand>(from, to, length, Blank::new(1))
    }

    // Adds an arc, and forgets how many steps that took.
    fn add_from<L: Ledger>(
        &mut self,
        from: u32,
        to: u32,
        length: u64,
        blank: Blank,
    ) -> Result<(), AddNo>
        requires name { blank.name ≡ L.name }
        requires parts { blank.parts ≡ L.parts }
        requires some { 0 < blank.parts }
        requires from { IsNode self.old.network from }
        requires to { IsNode self.old.network to }
        requires short { IsShort (with_arc self.old.network from to length) }

        ensures lowers { self.new.network.lowers ≡ self.old.network.lowers }
        ensures ok { OnOk result
            (self.new.network.arcs ≡ (with_arc self.old.network from to length).arcs) }
        ensures changed { OnOk result (TellsChanged self.old.network self.new.network) }
        ensures closes { IsErrOf result (AddNo.Closes from to)
            ↔ ArcsHaveCycle (with_arc self.old.network from to length).arcs }
        ensures faults { IfErr result (λ no. no ≢ AddNo.Memory → no ≡ AddNo.Closes from to) }
        ensures err { OnErr result (self.new.network ≡ unchanged self.old.network) }
    {
        let mut steps = Steps::<L>::new(blank);
        self.add_counted(from, to, length, &mut steps)
    }

    /// Does what `add` does, and counts the nodes and arcs that it looks at.
    pub fn add_counted<L: Ledger>(
        &mut self,
        from: u32,
        to: u32,
        length: u64,
        steps: &mut Steps<L>,
    ) -> Result<(), AddNo>
        requires from { IsNode self.old.network from }
        requires to { IsNode self.old.network to }
        requires short { IsShort (with_arc self.old.network from to length) }

        ensures lowers { self.new.network.lowers ≡ self.old.network.lowers }
        ensures ok { OnOk result
            (self.new.network.arcs ≡ (with_arc self.old.network from to length).arcs) }
        ensures changed { OnOk result (TellsChanged self.old.network self.new.network) }
        ensures closes { IsErrOf result (AddNo.Closes from to)
            ↔ ArcsHaveCycle (with_arc self.old.network from to length).arcs }
        ensures faults { IfErr result (λ no. no ≢ AddNo.Memory → no ≡ AddNo.Closes from to) }
        ensures err { OnErr result (self.new.network ≡ unchanged self.old.network) }

        // Where the arc is along the order and raises no length, it takes at most four steps.
        ensures few { slice_index self.old.places from < slice_index self.old.places to
            → (at_from at_to : ℕ)
            → HasLength self.old.network from at_from → HasLength self.old.network to at_to
            → at_from + length ≤ at_to → steps.new ≤ steps.old + 4 }
        ensures rising { AreRising self.old.network.arcs self.old.places }
    {
        let alloc = *self.arcs.allocator();
        let arc = Arc { from, to, length };
        self.changes.clear();
        self.refused = None;
        if let Err(no) = order_with(
            alloc,
            &self.arcs,
            &self.begun,
            &mut self.order,
            &mut self.marks,
            from,
            to,
            steps,
        ) {
            self.refused = refused_by(no, arc);
            return Err(no);
        }
        self.trail.reserve(self.lowers.len())?;
        let start = self.trail.len();
        keep_arc(
            &mut self.arcs,
            &mut self.starts,
            &mut self.begun,
            &mut self.ended,
            arc,
            start,
        )?;
        self.changes.begin_arc();
        spread_last(
            &self.arcs,
            &self.begun,
            &self.order,
            &mut self.lengths,
            &mut self.changes,
            arc,
            steps,
        );
        let count = self.arcs.len();
        self.stale = keep_changes(&self.changes, &mut self.trail, self.stale, count);
        Ok(())
    }

    /// The nodes of a cycle that these arcs would close with the kept ones, and `None` where they
    /// close none. From each node an arc leads to the next, and from the last to the first. No arc
    /// is added, and only the order of the nodes changes.
    pub fn cycle_with(&mut self, more: &[Arc]) -> Result<Option<Vec<u32>>, Memory>
        requires nodes { All
            (λ arc. IsNode self.old.network arc.from × IsNode self.old.network arc.to) more.now }
        ensures same { self.new.network ≡ unchanged self.old.network }
        ensures cycle { IfOk result (λ found. IfSome found
            (λ nodes. IsArcCycle (self.old.network.arcs ++ more.now) nodes.items)) }
        ensures none { IfOk result
            (λ found. IfNone found (¬ ArcsHaveCycle (self.old.network.arcs ++ more.now))) }
    {
        self.changes.clear();
        self.refused = None;
        find_cycle::<Brand>(
            &mut self.arcs,
            &mut self.begun,
            &mut self.ended,
            &mut self.order,
            &mut self.marks,
            more,
            Blank::new(1),
        )
    }

    /// Takes the last `k` arcs away.
    pub fn withdraw(&mut self, k: u32)
        requires { let kept = self.old.network.arcs in k ≤ length kept }
        ensures network { self.new.network ≡ without_last self.old.network k }
        ensures places { self.new.places ≡ self.old.places }
    {
        self.changes.clear();
        self.refused = None;
        if k == 0 {
            return;
        }
        let count = self.arcs.len();
        let left = count - k as usize;
        let start = self.starts[left];
        self.arcs.truncate(left);
        self.starts.truncate(left);
        shorten(&mut self.begun, count, left);
        shorten(&mut self.ended, count, left);
        self.changes.go_back(left);
        if self.stale <= left {
            put_back(&mut self.lengths, &mut self.trail, start);
        } else {
            self.stale = left;
            self.trail.clear();
            spread_anew::<Brand>(
                &self.arcs,
                &self.begun,
                &self.order,
                &self.lowers,
                &mut self.lengths,
                &mut self.changes,
                Blank::new(1),
            );
            self.changes.clear();
        }
    }

    /// Raises a node's lower to `lower`, unless it is greater.
    pub fn raise(&mut self, node: u32, lower: u64)
        requires node { IsNode self.old.network node }
        requires short { IsShort (raised self.old.network node lower) }
        ensures lowers { self.new.network.lowers ≡ (raised self.old.network node lower).lowers }
        ensures arcs { self.new.network.arcs ≡ self.old.network.arcs }
        ensures changed { TellsChanged self.old.network self.new.network }
        ensures places { self.new.places ≡ self.old.places }
    {
        self.changes.clear();
        let at = node as usize;
        if self.lowers[at] < lower {
            self.lowers[at] = lower;
            self.stale = self.arcs.len();
            self.trail.clear();
            raise_length::<Brand>(
                &self.arcs,
                &self.begun,
                &self.order,
                &self.lowers,
                &mut self.lengths,
                &mut self.changes,
                node,
                Blank::new(1),
            );
        }
    }

    /// The greatest length of a walk that ends in the node.
    pub fn length(&self, node: u32) -> u64
        requires { IsNode self.now.network node }
        ensures longest { IsLongestLength self.now.network.lowers self.now.network.arcs
            node result }
        ensures of_all_walks { (nodes : List ℕ)
            → IsWalkTo self.now.network.lowers self.now.network.arcs node nodes
            → walk_length self.now.network.lowers self.now.network.arcs nodes ≤ result }
    {
        self.lengths[node as usize]
    }

    /// The greatest length of a walk that ends in each node, in the order of the nodes.
    pub fn lengths(&self) -> &[u64]
        ensures count { length result.now ≡ length self.now.network.lowers }
        ensures longest { (node : ℕ) → IsNode self.now.network node
            → IsLongestLength self.now.network.lowers self.now.network.arcs node
            (slice_index result.now node) }
    {
        &self.lengths
    }

    /// The nodes whose lengths the last call of `add` or `raise` made greater, each once. There are
    /// none after `new`, `withdraw`, `cycle_with`, and an arc that was not added.
    pub fn changed(&self) -> &[u32]
        ensures all { result.now ≡ self.now.network.changed }
        ensures nodes { All (IsNode self.now.network) self.now.network.changed }
        ensures lengths { All (λ node. (longest : ℕ) × HasLength self.now.network node longest)
            self.now.network.changed }
        ensures once { HasNoNodeTwice self.now.network.changed }
    {
        self.changes.grown()
    }

    /// An order of the nodes in which each kept arc leads from a lower place to a higher. Only
    /// `add` and `cycle_with` change it.
    pub fn order(&self) -> &Order
        ensures is { result.now ≡ self.now.places }
        ensures size { length result.now ≡ length self.now.network.lowers }
        ensures rising { AreRising self.now.network.arcs result.now }
    {
        &self.order
    }

    /// The arcs that are kept, in the order in which they were added.
    pub fn arcs(&self) -> &[Arc]
        ensures all { result.now ≡ self.now.network.arcs }
        ensures nodes { All
            (λ arc. IsNode self.now.network arc.from × IsNode self.now.network arc.to)
            self.now.network.arcs }
        ensures no_cycle { ¬ ArcsHaveCycle self.now.network.arcs }
    {
        &self.arcs
    }

    /// Whether a kept arc leads to the node from one that is marked. It takes no memory.
    pub fn is_entered_from(&self, node: u32, marks: &[bool]) -> bool
        requires node { IsNode self.now.network node }
        requires marks { length marks.now ≡ length self.now.network.lowers }
        ensures yes { IsTrue result → (u : ℕ) × JoinsPair self.now.network.arcs u node
            × (is_marked marks.now u ≡ true) }
        ensures no { result ≡ false → (u : ℕ) → JoinsPair self.now.network.arcs u node
            → is_marked marks.now u ≡ false }

        // Of the marked nodes the one at the lowest place is entered from none.
        ensures rising { AreRising self.now.network.arcs self.now.places }
    {
        comes_from_marked(&self.arcs, &self.ended, marks, node)
    }

    /// A walk to the node that is as long as the node's length.
    pub fn walk(&self, node: u32) -> Result<Vec<u32>, Memory>
        requires { IsNode self.now.network node }
        ensures walk { IfOk result
            (λ nodes. IsWalkTo self.now.network.lowers self.now.network.arcs node nodes.items) }
        ensures once { IfOk result (λ nodes. HasNoNodeTwice nodes.items) }
        ensures longest { IfOk result (λ nodes.
            IsLongestLength self.now.network.lowers self.now.network.arcs node
            (walk_length self.now.network.lowers self.now.network.arcs nodes.items)) }
    {
        let alloc = *self.arcs.allocator();
        Ok(walk_back(
            alloc,
            &self.arcs,
            &self.ended,
            &self.order,
            &self.lowers,
            &self.lengths,
            self.changes.givers(),
            node,
        )?)
    }

    /// The nodes of a way along kept arcs from one node to another, both among them, and `None`
    /// where there is none. From a node to itself it is that node alone. Where the last arc was
    /// refused, the way from its end to its beginning is the one that was found then.
    pub fn between(&self, from: u32, to: u32) -> Result<Option<Vec<u32>>, Memory>
        requires from { IsNode self.now.network from }
        requires to { IsNode self.now.network to }
        ensures way { IfOk result
            (λ found. IfSome found (λ nodes. Leads self.now.network.arcs from to nodes.items)) }
        ensures none { IfOk result
            (λ found. IfNone found ((nodes : List ℕ)
            → ¬ Leads self.now.network.arcs from to nodes)) }

        // Without a way, an arc back would close no cycle.
        ensures no_cycle { IfOk result (λ found. IfNone found ((length : ℕ)
            → ¬ ArcsHaveCycle (with_arc self.now.network to from length).arcs)) }
    {
        let alloc = *self.arcs.allocator();
        if is_arc(self.refused, to, from) {
            return Ok(Some(way_back(
                alloc,
                &self.arcs,
                &self.ended,
                &self.order,
                &self.marks,
                from,
                to,
            )?));
        }
        Ok(find_way::<Brand>(
            alloc,
            &self.arcs,
            &self.begun,
            &self.ended,
            &self.order,
            from,
            to,
            Blank::new(1),
        )?)
    }
}
