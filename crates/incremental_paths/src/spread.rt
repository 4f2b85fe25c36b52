ghost use Rattle.std.specs.Prelude.{ℕ, ◌≡◌, ◌≢◌, ◌<◌, ◌≤◌, ◌+◌, ◌^◌, ◌∷◌, ◌++◌, List, [], true, false, All, length, slice_index, slice_set, Contains, IsTrue};
ghost use Rattle.incremental_paths.specs.declared.arc.Arc.{Arc};
ghost use Rattle.incremental_paths.specs.Marked.{begins, AreWithin, AreRising};
ghost use Rattle.incremental_paths.specs.Spread.{AreLengths, AreReached, AreSpread, AreWaiting, Reaches, Spreads, SpreadsOne, WalksFit, TellsMore, nothing_told};

use crate::arc::Arc;
use crate::changes::Changes;
use crate::order::Order;
use crate::steps::Steps;
use crate::threads::Threads;
use std::sync::ledger::{Blank, Ledger};

// Raises one length.
fn raise_one(lengths: &mut [u64], changes: &mut Changes, node: u32, raised: u64)
    requires node { node < length lengths.old }
    requires above { slice_index lengths.old node < raised }
    requires room { changes.old.grown.size ≡ length lengths.old }
    ensures lengths { lengths.new ≡ slice_set lengths.old node raised }
    ensures tells { TellsMore changes.old changes.new lengths.old lengths.new }
{
    changes.tell(node, lengths[node as usize]);
    lengths[node as usize] = raised;
}

/// Raises the length of the arc's end to what the arc leads to, where it is shorter, and says
/// whether it was. `front` is how many arcs there are up to this one, for what is noted of its end.
pub fn raise_end<L: Ledger>(
    arc: Arc,
    front: usize,
    lengths: &mut [u64],
    changes: &mut Changes,
    steps: &mut Steps<L>,
) -> bool
    requires from { arc.from < length lengths.old }
    requires to { arc.to < length lengths.old }
    requires fits { slice_index lengths.old arc.from + arc.length < 2 ^ 64 }
    requires room { changes.old.grown.size ≡ length lengths.old }
    ensures spreads { SpreadsOne arc lengths.old lengths.new }
    ensures tells { TellsMore changes.old changes.new lengths.old lengths.new }
    ensures spread { result ≡ false → lengths.new ≡ lengths.old }
    ensures raised { IsTrue result
        → slice_index lengths.old arc.to < slice_index lengths.old arc.from + arc.length }
    ensures steps { steps.new ≡ steps.old + 2 }
{
    steps.look_along();
    let reached = lengths[arc.from as usize] + arc.length;
    if lengths[arc.to as usize] >= reached {
        return false;
    }
    changes.note_giver(arc.to, front);
    raise_one(lengths, changes, arc.to, reached);
    true
}

// Raises the length of the arc's end as `raise_end` does. Gives the place of that end where it was
// raised and stands behind `least`, and else `least`.
fn raise_behind<L: Ledger>(
    arc: Arc,
    front: usize,
    order: &Order,
    lengths: &mut [u64],
    changes: &mut Changes,
    least: usize,
    steps: &mut Steps<L>,
) -> usize
    requires sizes { length order.now ≡ length lengths.old }
    requires from { arc.from < length lengths.old }
    requires to { arc.to < length lengths.old }
    requires fits { slice_index lengths.old arc.from + arc.length < 2 ^ 64 }
    requires room { changes.old.grown.size ≡ length lengths.old }
    requires least { least < length order.now }
    ensures spreads { SpreadsOne arc lengths.old lengths.new }
    ensures tells { TellsMore changes.old changes.new lengths.old lengths.new }
    ensures above { least ≤ result }
    ensures within { result < length order.now }
    ensures reach { Reaches order.now changes.old changes.new result }
{
    if raise_end(arc, front, lengths, changes, steps) {
        return least.max(order.place(arc.to) as usize);
    }
    least
}

/// Raises the ends of the arcs that begin at the node, where they are shorter than what these lead
/// to. Gives the last place of a raised end, and of `least`.
pub fn raise_ends<L: Ledger>(
    arcs: &[Arc],
    begun: &Threads,
    order: &Order,
    lengths: &mut [u64],
    changes: &mut Changes,
    node: u32,
    least: usize,
    steps: &mut Steps<L>,
) -> usize
    requires begun { begun.now ≡ record { size = length lengths.old; keys = begins arcs.now } }
    requires sizes { length order.now ≡ length lengths.old }
    requires within { AreWithin (length lengths.old) arcs.now }
    requires apart { All (λ a. a.from ≢ a.to) arcs.now }
    requires node { node < length lengths.old }
    requires room { changes.old.grown.size ≡ length lengths.old }
    requires least { least < length order.now }
    requires reached { (lowers : List ℕ) × AreReached lowers arcs.now lengths.old
        × WalksFit lowers arcs.now }
    ensures reached { (lowers : List ℕ) → AreReached lowers arcs.now lengths.old
        → AreReached lowers arcs.now lengths.new }
    ensures spreads { Spreads arcs.now node lengths.old lengths.new }
    ensures tells { TellsMore changes.old changes.new lengths.old lengths.new }
    ensures above { least ≤ result }
    ensures within { result < length order.now }
    ensures reach { Reaches order.now changes.old changes.new result }
{
    let mut top = least;
    let mut front = begun.last(node);
    while front > 0 {
        let at = front - 1;
        top = raise_behind(arcs[at], front, order, lengths, changes, top, steps);
        front = begun.before(at);
    }
    top
}

// Spreads lengths on from the node at a place, where its length has grown. Gives the last place of
// a node that was raised, and of `top`.
fn push_place<L: Ledger>(
    arcs: &[Arc],
    begun: &Threads,
    order: &Order,
    lengths: &mut [u64],
    changes: &mut Changes,
    place: usize,
    top: usize,
    steps: &mut Steps<L>,
) -> usize
    requires begun { begun.now ≡ record { size = length lengths.old; keys = begins arcs.now } }
    requires sizes { length order.now ≡ length lengths.old }
    requires within { AreWithin (length lengths.old) arcs.now }
    requires rising { AreRising arcs.now order.now }
    requires room { changes.old.grown.size ≡ length lengths.old }
    requires reached { (lowers : List ℕ) × AreReached lowers arcs.now lengths.old
        × WalksFit lowers arcs.now }
    requires place { place < length order.now }
    requires top { top < length order.now }
    requires waiting { AreWaiting arcs.now order.now lengths.old changes.old place }
    ensures reached { (lowers : List ℕ) → AreReached lowers arcs.now lengths.old
        → AreReached lowers arcs.now lengths.new }
    ensures waiting { AreWaiting arcs.now order.now lengths.new changes.new (place + 1) }
    ensures tells { TellsMore changes.old changes.new lengths.old lengths.new }
    ensures above { top ≤ result }
    ensures within { result < length order.now }
    ensures reach { Reaches order.now changes.old changes.new result }
{
    steps.look();
    let node = order.node(place);
    if changes.has(node) {
        return raise_ends(arcs, begun, order, lengths, changes, node, top, steps);
    }
    top
}

/// Spreads lengths on from a node whose length alone has grown, in the order of places. So each
/// node that grows is gone on from once.
pub fn push_on<L: Ledger>(
    arcs: &[Arc],
    begun: &Threads,
    order: &Order,
    lengths: &mut [u64],
    changes: &mut Changes,
    start: u32,
    steps: &mut Steps<L>,
)
    requires begun { begun.now ≡ record { size = length lengths.old; keys = begins arcs.now } }
    requires sizes { length order.now ≡ length lengths.old }
    requires within { AreWithin (length lengths.old) arcs.now }
    requires rising { AreRising arcs.now order.now }
    requires room { changes.old.grown.size ≡ length lengths.old }
    requires reached { (lowers : List ℕ) × AreReached lowers arcs.now lengths.old
        × WalksFit lowers arcs.now }
    requires start { start < length lengths.old }
    requires waiting { AreWaiting arcs.now order.now lengths.old changes.old
        (slice_index order.now start) }
    requires lone { (v : ℕ) → Contains changes.old.grown.listed v → v ≡ start }
    ensures reached { (lowers : List ℕ) → AreReached lowers arcs.now lengths.old
        → AreReached lowers arcs.now lengths.new }
    ensures spread { AreSpread arcs.now lengths.new }
    ensures tells { TellsMore changes.old changes.new lengths.old lengths.new }
{
    let low = order.place(start) as usize;
    let mut top = low;
    for place in low..order.size() {
        if place > top {
            return;
        }
        top = push_place(arcs, begun, order, lengths, changes, place, top, steps);
    }
}

/// Spreads lengths along all arcs, in the order of where they begin.
fn sweep<L: Ledger>(
    arcs: &[Arc],
    begun: &Threads,
    order: &Order,
    lengths: &mut [u64],
    changes: &mut Changes,
    steps: &mut Steps<L>,
)
    requires begun { begun.now ≡ record { size = length lengths.old; keys = begins arcs.now } }
    requires sizes { length order.now ≡ length lengths.old }
    requires within { AreWithin (length lengths.old) arcs.now }
    requires rising { AreRising arcs.now order.now }
    requires room { changes.old.grown.size ≡ length lengths.old }
    requires reached { (lowers : List ℕ) × AreReached lowers arcs.now lengths.old
        × WalksFit lowers arcs.now }
    ensures reached { (lowers : List ℕ) → AreReached lowers arcs.now lengths.old
        → AreReached lowers arcs.now lengths.new }
    ensures spread { AreSpread arcs.now lengths.new }
    ensures tells { TellsMore changes.old changes.new lengths.old lengths.new }
{
    for place in 0..order.size() {
        steps.look();
        let node = order.node(place);
        raise_ends(arcs, begun, order, lengths, changes, node, 0, steps);
    }
}

/// Spreads lengths along the last arc, which is new, and on from its end.
pub fn spread_last<L: Ledger>(
    arcs: &[Arc],
    begun: &Threads,
    order: &Order,
    lengths: &mut [u64],
    changes: &mut Changes,
    arc: Arc,
    steps: &mut Steps<L>,
)
    requires begun { begun.now ≡ record { size = length lengths.old; keys = begins arcs.now } }
    requires sizes { length order.now ≡ length lengths.old }
    requires within { AreWithin (length lengths.old) arcs.now }
    requires rising { AreRising arcs.now order.now }
    requires reached { (lowers : List ℕ) × AreReached lowers arcs.now lengths.old
        × WalksFit lowers arcs.now }
    requires cleared { changes.old ≡ nothing_told (length lengths.old) }
    requires last { (front : List Arc) × (arcs.now ≡ front ++ arc ∷ [])
        × AreSpread front lengths.old }
    ensures reached { (lowers : List ℕ) → AreReached lowers arcs.now lengths.old
        → AreReached lowers arcs.now lengths.new }
    ensures spread { AreSpread arcs.now lengths.new }
    ensures tells { TellsMore changes.old changes.new lengths.old lengths.new }
    ensures few { slice_index lengths.old arc.from + arc.length ≤ slice_index lengths.old arc.to
        → steps.new ≡ steps.old + 2 }
{
    if raise_end(arc, arcs.len(), lengths, changes, steps) {
        push_on(arcs, begun, order, lengths, changes, arc.to, steps);
    }
}

// Raises the length of a node, and spreads lengths on from there.
fn spread_node<L: Ledger>(
    arcs: &[Arc],
    begun: &Threads,
    order: &Order,
    lengths: &mut [u64],
    changes: &mut Changes,
    node: u32,
    raised: u64,
    steps: &mut Steps<L>,
)
    requires begun { begun.now ≡ record { size = length lengths.old; keys = begins arcs.now } }
    requires sizes { length order.now ≡ length lengths.old }
    requires within { AreWithin (length lengths.old) arcs.now }
    requires rising { AreRising arcs.now order.now }
    requires node { node < length lengths.old }
    requires above { slice_index lengths.old node < raised }
    requires reached { (lowers : List ℕ)
        × AreReached lowers arcs.now (slice_set lengths.old node raised)
        × WalksFit lowers arcs.now }
    requires cleared { changes.old ≡ nothing_told (length lengths.old) }
    requires spread { AreSpread arcs.now lengths.old }
    ensures reached { (lowers : List ℕ)
        → AreReached lowers arcs.now (slice_set lengths.old node raised)
        → AreReached lowers arcs.now lengths.new }
    ensures spread { AreSpread arcs.now lengths.new }
    ensures tells { TellsMore changes.old changes.new lengths.old lengths.new }
{
    raise_one(lengths, changes, node, raised);
    push_on(arcs, begun, order, lengths, changes, node, steps);
}

/// Computes each node's length anew.
pub fn spread_anew<L: Ledger>(
    arcs: &[Arc],
    begun: &Threads,
    order: &Order,
    lowers: &[u64],
    lengths: &mut [u64],
    changes: &mut Changes,
    blank: Blank,
)
    requires sized { length lengths.old ≡ length lowers.now }
    requires begun { begun.now ≡ record { size = length lowers.now; keys = begins arcs.now } }
    requires sizes { length order.now ≡ length lowers.now }
    requires within { AreWithin (length lowers.now) arcs.now }
    requires rising { AreRising arcs.now order.now }
    requires room { changes.old.grown.size ≡ length lengths.old }
    requires fit { WalksFit lowers.now arcs.now }
    requires name { blank.name ≡ L.name }
    requires parts { blank.parts ≡ L.parts }
    requires some { 0 < blank.parts }
    ensures reached { AreReached lowers.now arcs.now lengths.new }
    ensures spread { AreSpread arcs.now lengths.new }
    ensures room { changes.new.grown.size ≡ changes.old.grown.size }
{
    let mut steps = Steps::<L>::new(blank);
    lengths.copy_from_slice(lowers);
    changes.lose();
    sweep(arcs, begun, order, lengths, changes, &mut steps);
}

/// Raises the length of a node to its lower, which is new, and spreads lengths on from there.
pub fn raise_length<L: Ledger>(
    arcs: &[Arc],
    begun: &Threads,
    order: &Order,
    lowers: &[u64],
    lengths: &mut [u64],
    changes: &mut Changes,
    node: u32,
    blank: Blank,
)
    requires sized { length lengths.old ≡ length lowers.now }
    requires begun { begun.now ≡ record { size = length lowers.now; keys = begins arcs.now } }
    requires sizes { length order.now ≡ length lowers.now }
    requires within { AreWithin (length lowers.now) arcs.now }
    requires rising { AreRising arcs.now order.now }
    requires node { node < length lowers.now }
    requires fit { WalksFit lowers.now arcs.now }
    requires cleared { changes.old ≡ nothing_told (length lengths.old) }
    requires before { (lower : ℕ) × (lower ≤ slice_index lowers.now node)
        × AreReached (slice_set lowers.now node lower) arcs.now lengths.old }
    requires spread { AreSpread arcs.now lengths.old }
    requires name { blank.name ≡ L.name }
    requires parts { blank.parts ≡ L.parts }
    requires some { 0 < blank.parts }
    ensures reached { AreReached lowers.now arcs.now lengths.new }
    ensures spread { AreSpread arcs.now lengths.new }
    ensures tells { TellsMore changes.old changes.new lengths.old lengths.new }
{
    let lower = lowers[node as usize];
    if lengths[node as usize] < lower {
        let mut steps = Steps::<L>::new(blank);
        spread_node(
            arcs, begun, order, lengths, changes, node, lower, &mut steps,
        );
    }
}
