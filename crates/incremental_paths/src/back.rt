ghost use Rattle.std.specs.Prelude.{ℕ, ◌≡◌, ◌≢◌, ◌<◌, ◌≤◌, ◌+◌, List, true, false, length, slice_index, slice_index_or, IfOk, IfSome, IfNone, IsTrue};
ghost use Rattle.incremental_paths.specs.declared.arc.Arc.{Arc};
ghost use Rattle.incremental_paths.specs.Walks.{IsWalkTo, JoinsPair, walk_length, Leads};
ghost use Rattle.incremental_paths.specs.Ordered.{is_marked};
ghost use Rattle.incremental_paths.specs.Marked.{begins, ends, AreWithin, AreRising, AreMarks};
ghost use Rattle.incremental_paths.specs.Spread.{AreLengths, WalksFit};
ghost use Rattle.incremental_paths.specs.Back.{GivesNode, ComesFromMarked};

use crate::arc::Arc;
use crate::givers::Givers;
use crate::marks::Marks;
use crate::order::Order;
use crate::search::mark_from;
use crate::steps::Steps;
use crate::threads::Threads;
use std::alloc::{AllocError, Global};
use std::sync::ledger::{Blank, Ledger};

// How many nodes of a walk there is room for at first.
const FEW_NODES: usize = 64;

/// A walk to the node that is as long as the node's length, from the last node on the way back
/// whose length is its lower.
pub fn walk_back(
    alloc: Global,
    arcs: &[Arc],
    ended: &Threads,
    order: &Order,
    lowers: &[u64],
    lengths: &[u64],
    givers: &Givers,
    node: u32,
) -> Result<Vec<u32>, AllocError>
    requires ended { ended.now ≡ record { size = length lowers.now; keys = ends arcs.now } }
    requires order { length order.now ≡ length lowers.now }
    requires sizes { length lengths.now ≡ length lowers.now }
    requires within { AreWithin (length lowers.now) arcs.now }
    requires rising { AreRising arcs.now order.now }
    requires lengths { AreLengths lowers.now arcs.now lengths.now }
    requires fit { WalksFit lowers.now arcs.now }
    requires node { node < length lowers.now }
    ensures walk { IfOk result (λ nodes. IsWalkTo lowers.now arcs.now node nodes.items) }
    ensures longest { IfOk result (λ nodes. walk_length lowers.now arcs.now nodes.items
        ≡ slice_index lengths.now node) }
{
    let mut nodes = Vec::with_capacity(alloc, FEW_NODES)?;
    nodes.push(node)?;
    let mut at = node;
    while let Some(before) = giver(arcs, ended, lowers, lengths, givers, at) {
        nodes.push(before)?;
        at = before;
    }
    nodes.reverse();
    Ok(nodes)
}

// The node from which the arc that is advised gives this one its length, if it does.
fn advised(arcs: &[Arc], lengths: &[u64], givers: &Givers, node: u32) -> Option<u32>
    requires lengths { (lowers : List ℕ) × (length lengths.now ≡ length lowers)
        × AreWithin (length lowers) arcs.now × AreLengths lowers arcs.now lengths.now }
    requires node { node < length lengths.now }
    ensures some { IfSome result (λ before. GivesNode arcs.now lengths.now before node) }
    ensures within { IfSome result (λ before. before < length lengths.now) }
{
    let index = givers.of(node)?;
    if index >= arcs.len() {
        return None;
    }
    let arc = arcs[index];
    if arc.to != node {
        return None;
    }
    if lengths[arc.from as usize] + arc.length != lengths[node as usize] {
        return None;
    }
    Some(arc.from)
}

// A node from which an arc gives this one its length, and `None` where its lower does.
fn giver(
    arcs: &[Arc],
    ended: &Threads,
    lowers: &[u64],
    lengths: &[u64],
    givers: &Givers,
    node: u32,
) -> Option<u32>
    requires ended { ended.now ≡ record { size = length lowers.now; keys = ends arcs.now } }
    requires sizes { length lengths.now ≡ length lowers.now }
    requires within { AreWithin (length lowers.now) arcs.now }
    requires lengths { AreLengths lowers.now arcs.now lengths.now }
    requires fit { WalksFit lowers.now arcs.now }
    requires node { node < length lowers.now }
    ensures some { IfSome result (λ before. GivesNode arcs.now lengths.now before node) }
    ensures within { IfSome result (λ before. before < length lowers.now) }
    ensures none { IfNone result (slice_index lengths.now node ≡ slice_index lowers.now node) }
{
    let length = lengths[node as usize];
    if length == lowers[node as usize] {
        return None;
    }
    if let Some(before) = advised(arcs, lengths, givers, node) {
        return Some(before);
    }
    let mut front = ended.last(node);
    while front > 0 {
        let arc = arcs[front - 1];
        if lengths[arc.from as usize] + arc.length == length {
            return Some(arc.from);
        }
        front = ended.before(front - 1);
    }
    None
}

/// A way to a marked node, traced back along arcs from marked nodes.
pub fn way_back(
    alloc: Global,
    arcs: &[Arc],
    ended: &Threads,
    order: &Order,
    marks: &Marks,
    from: u32,
    to: u32,
) -> Result<Vec<u32>, AllocError>
    requires ended { ended.now ≡ record { size = length order.now; keys = ends arcs.now } }
    requires within { AreWithin (length order.now) arcs.now }
    requires rising { AreRising arcs.now order.now }
    requires sizes { length marks.now ≡ length order.now }
    requires to { to < length order.now }
    requires marks { AreMarks arcs.now order.now from (slice_index order.now to) marks.now }
    requires marked { is_marked marks.now to ≡ true }
    ensures { IfOk result (λ way. Leads arcs.now from to way.items) }
{
    let mut way = Vec::new(alloc);
    way.push(to)?;
    let mut at = to;
    while at != from {
        at = marked_before(arcs, ended, marks, at);
        way.push(at)?;
    }
    way.reverse();
    Ok(way)
}

// A marked node from which an arc leads to this one, where there is one.
fn marked_before(arcs: &[Arc], ended: &Threads, marks: &Marks, node: u32) -> u32
    requires ended { ended.now ≡ record { size = length marks.now; keys = ends arcs.now } }
    requires within { AreWithin (length marks.now) arcs.now }
    requires node { node < length marks.now }
    requires some { (u : ℕ) × ComesFromMarked arcs.now marks.now u node }
    ensures within { result < length marks.now }
    ensures marked { ComesFromMarked arcs.now marks.now result node }
{
    let mut front = ended.last(node);
    while front > 0 {
        let arc = arcs[front - 1];
        if marks.has(arc.from) {
            return arc.from;
        }
        front = ended.before(front - 1);
    }
    unreachable!()
}

/// Whether an arc leads to the node from one that is marked.
pub fn comes_from_marked(arcs: &[Arc], ended: &Threads, marks: &[bool], node: u32) -> bool
    requires ended { ended.now ≡ record { size = length marks.now; keys = ends arcs.now } }
    requires within { AreWithin (length marks.now) arcs.now }
    requires node { node < length marks.now }
    ensures yes { IsTrue result → (u : ℕ) × JoinsPair arcs.now u node
        × (is_marked marks.now u ≡ true) }
    ensures no { result ≡ false → (u : ℕ) → JoinsPair arcs.now u node
        → is_marked marks.now u ≡ false }
{
    let mut front = ended.last(node);
    while front > 0 {
        let arc = arcs[front - 1];
        if marks[arc.from as usize] {
            return true;
        }
        front = ended.before(front - 1);
    }
    false
}

/// The nodes of a way from one node to another, where there is one.
pub fn find_way<L: Ledger>(
    alloc: Global,
    arcs: &[Arc],
    begun: &Threads,
    ended: &Threads,
    order: &Order,
    from: u32,
    to: u32,
    blank: Blank,
) -> Result<Option<Vec<u32>>, AllocError>
    requires begun { begun.now ≡ record { size = length order.now; keys = begins arcs.now } }
    requires ended { ended.now ≡ record { size = length order.now; keys = ends arcs.now } }
    requires within { AreWithin (length order.now) arcs.now }
    requires rising { AreRising arcs.now order.now }
    requires from { from < length order.now }
    requires to { to < length order.now }
    requires name { blank.name ≡ L.name }
    requires parts { blank.parts ≡ L.parts }
    requires some { 0 < blank.parts }
    ensures way { IfOk result (λ found. IfSome found (λ way. Leads arcs.now from to way.items)) }
    ensures none { IfOk result
        (λ found. IfNone found ((way : List ℕ) → ¬ Leads arcs.now from to way)) }
{
    let mut steps = Steps::<L>::new(blank);
    let mut marks = Marks::new(alloc, order.size())?;
    mark_from(
        arcs,
        begun,
        order,
        &mut marks,
        from,
        order.place(to) as usize,
        &mut steps,
    );
    if !marks.has(to) {
        return Ok(None);
    }
    Ok(Some(way_back(alloc, arcs, ended, order, &marks, from, to)?))
}
