ghost use Rattle.std.specs.Prelude.{ℕ, ◌≡◌, ◌<◌, ◌-◌, List, [], ◌∷◌, ◌++◌, length, take, slice_index, IfOk, OnOk, OnErr};
ghost use Rattle.incremental_paths.specs.Threaded.{Threaded, IsFront, threaded_with};

use plain_values::Memory;
use std::alloc::Global;
use std::marker::Model;

// An element of the list, and how long the list's front is that has all earlier ones of this node.
#[derive(Clone, Copy, Debug)]
struct Link {
    node: u32,
    before: usize,
}

/// A list of nodes, in which the places of each node are threaded from its last to its first.
///
/// A place is the length of the list's front that ends with it, so that of the element at an index
/// is one more than the index, and 0 says that there is none. No call goes through the list.
#[derive(Debug, Drop)]
pub struct Threads {
    fronts: Vec<usize>,
    links: Vec<Link>,
}

impl Model for Threads {
    ghost use Rattle.std.specs.Prelude.{map, length};
    ghost use Rattle.incremental_paths.specs.Threaded.{Threaded};

    ghost Value = { Threaded };

    ghost use Rattle.incremental_paths.specs.Linked.{AreLinked};

    ghost view = { λ t.
        record { size = length t.fronts.items; keys = map (λ l. l.node) t.links.items } };

    ghost invariant = { λ t. AreLinked t.fronts.items t.links.items };
}

impl Threads {
    /// An empty list, for the nodes below this number. It takes memory for each of them.
    pub fn new(alloc: Global, nodes: usize) -> Result<Self, Memory>
        ensures { IfOk result (λ threads. threads ≡ record { size = nodes; keys = [] }) }
    {
        Ok(Threads {
            fronts: vec![in alloc; 0usize; nodes]?,
            links: Vec::new(alloc),
        })
    }

    /// Puts a node behind the others. Where memory runs out, the list stays as it was.
    pub fn push(&mut self, node: u32) -> Result<(), Memory>
        requires { node < self.old.size }
        ensures ok { OnOk result (self.new ≡ threaded_with self.old node) }
        ensures err { OnErr result (self.new ≡ self.old) }
    {
        let before = self.fronts[node as usize];
        self.links.push(Link { node, before })?;
        self.fronts[node as usize] = self.links.len();
        Ok(())
    }

    /// Takes the last node of the list away.
    pub fn pop(&mut self)
        requires { 0 < length self.old.keys }
        ensures size { self.new.size ≡ self.old.size }
        ensures keys { self.new.keys ≡ take (length self.old.keys - 1) self.old.keys }
    {
        let last = self.links.len() - 1;
        let link = self.links[last];
        self.links.truncate(last);
        self.fronts[link.node as usize] = link.before;
    }

    /// The last place of the node, and 0 where it does not stand in the list.
    pub fn last(&self, node: u32) -> usize
        requires { node < self.now.size }
        ensures { IsFront self.now.keys (length self.now.keys) node result }
    {
        self.fronts[node as usize]
    }

    /// The place before this index at which the same node stands, and 0 where there is none.
    pub fn before(&self, index: usize) -> usize
        requires { index < length self.now.keys }
        ensures { IsFront self.now.keys index (slice_index self.now.keys index) result }
    {
        self.links[index].before
    }
}
