ghost use Rattle.std.specs.Prelude.{ℕ, ◌≡◌, ◌≢◌, ◌<◌, ◌≤◌, ◌+◌, ◌^◌, ◌++◌, true, false, length, slice_index, IfOk, OnOk, OnErr, All, AllPairs, filter, take, drop};
ghost use Rattle.incremental_paths.specs.Ordered.{is_as, AreOrdered, IsLifted};

use crate::marks::Marks;
use crate::steps::Steps;
use std::alloc::{AllocError, Global};
use std::sync::ledger::Ledger;

/// The numbers below `nodes`, in their order.
pub fn count_up(alloc: Global, nodes: u32) -> Result<Vec<u32>, AllocError>
    ensures size { IfOk result (λ numbers. length numbers.items ≡ nodes) }
    ensures each { IfOk result (λ numbers. (k : ℕ) → k < nodes → slice_index numbers.items k ≡ k) }
{
    let mut numbers = Vec::new(alloc);
    for node in 0..nodes {
        numbers.push(node)?;
    }
    Ok(numbers)
}

// Puts the nodes whose mark is `wanted` behind those that are there.
fn push_marked<L: Ledger>(
    nodes: &[u32],
    marks: &Marks,
    wanted: bool,
    out: &mut Vec<u32>,
    steps: &mut Steps<L>,
) -> Result<(), AllocError>
    requires { All (λ v. v < length marks.now) nodes.now }
    ensures { OnOk result
        (out.new.items ≡ out.old.items ++ filter (is_as marks.now wanted) nodes.now) }
{
    for node in nodes {
        steps.look();
        if marks.has(*node) == wanted {
            out.push(*node)?;
        }
    }
    Ok(())
}

// The nodes, with those that are marked behind the others.
fn marked_last<L: Ledger>(
    alloc: Global,
    nodes: &[u32],
    marks: &Marks,
    steps: &mut Steps<L>,
) -> Result<Vec<u32>, AllocError>
    requires { All (λ v. v < length marks.now) nodes.now }
    ensures { IfOk result (λ all. all.items ≡ filter (is_as marks.now false) nodes.now
        ++ filter (is_as marks.now true) nodes.now) }
{
    let mut all = Vec::with_capacity(alloc, nodes.len())?;
    push_marked(nodes, marks, false, &mut all, steps)?;
    push_marked(nodes, marks, true, &mut all, steps)?;
    Ok(all)
}

// Writes these nodes over others, from a place on.
fn write_from(nodes: &mut [u32], low: usize, moved: &[u32])
    requires { low + length moved.now ≤ length nodes.old }
    ensures { nodes.new ≡ take low nodes.old ++ moved.now
        ++ drop (low + length moved.now) nodes.old }
{
    nodes[low..low + moved.len()].copy_from_slice(moved);
}

// Gives the nodes from one place up to another their places.
fn number<L: Ledger>(
    nodes: &[u32],
    low: usize,
    end: usize,
    places: &mut [u32],
    steps: &mut Steps<L>,
)
    requires few { length nodes.now < 2 ^ 32 }
    requires sizes { length places.old ≡ length nodes.now }
    requires within { All (λ v. v < length nodes.now) nodes.now }
    requires apart { AllPairs (λ u v. u ≢ v) nodes.now }
    requires low { low ≤ end }
    requires end { end ≤ length nodes.now }
    requires front { (i : ℕ) → i < low → slice_index places.old (slice_index nodes.now i) ≡ i }
    requires rest { (i : ℕ) → end ≤ i → i < length nodes.now
        → slice_index places.old (slice_index nodes.now i) ≡ i }
    ensures { (i : ℕ) → i < length nodes.now
        → slice_index places.new (slice_index nodes.now i) ≡ i }
{
    for place in low..end {
        steps.look();
        places[nodes[place] as usize] = place as u32;
    }
}

/// Moves the marked nodes between two places behind the others that are there.
pub fn lift_marked<L: Ledger>(
    alloc: Global,
    nodes: &mut [u32],
    places: &mut [u32],
    marks: &Marks,
    low: usize,
    high: usize,
    steps: &mut Steps<L>,
) -> Result<(), AllocError>
    requires ordered { AreOrdered places.old nodes.old }
    requires marks { length marks.now ≡ length nodes.old }
    requires low { low ≤ high }
    requires high { high < length nodes.old }
    ensures ordered { AreOrdered places.new nodes.new }
    ensures lifted { IfOk result (λ _. IsLifted marks.now low high places.old places.new) }
    ensures err { OnErr result (places.new ≡ places.old) }
{
    let moved = marked_last(alloc, &nodes[low..high + 1], marks, steps)?;
    write_from(nodes, low, &moved);
    number(nodes, low, high + 1, places, steps);
    Ok(())
}
