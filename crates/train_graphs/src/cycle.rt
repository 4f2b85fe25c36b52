ghost use Rattle.std.specs.Prelude.{◌≡◌, ◌<◌, ◌^◌, ◌↔◌, [], ◌∷◌, false, All, IfOk, IfSome, IfNone, OnOk, IsTrue, length, vec_len, replicate};
ghost use Rattle.train_graphs.specs.Graphs.{IsLeastOnCycle, HasNoCycle, AreInside, IsOnCycle};
ghost use Rattle.train_graphs.specs.Ranks.{HasRankAbove, IsNotBelow, Rises, RisesBefore, NeverFalls};
ghost use Rattle.train_graphs.specs.Reach.{Visits, AreMarksReached};

use crate::ranks::ranks_of;
use disp_model::{Memory, Operation};
use std::alloc::Global;

/// Whether all of the operations have a higher rank.
fn are_above(rank: u32, ranks: &[u32], numbers: &[u32]) -> bool
    requires inside { All (λ s. s < length ranks.now) numbers.now }
    ensures { IsTrue result ↔ All (HasRankAbove ranks.now rank) numbers.now }
{
    numbers.iter().all(|number| rank < ranks[*number as usize])
}

/// The first operation of which not each successor has a higher rank.
fn first_not_rising(train: &[Operation], ranks: &[u32]) -> Option<usize>
    requires inside { AreInside train.now }
    requires long { length ranks.now ≡ length train.now }
    ensures found { IfSome result
        (λ o. (o < length train.now) × RisesBefore train.now ranks.now o) }
    ensures none { IfNone result (Rises train.now ranks.now) }
{
    for (o, operation) in train.iter().enumerate() {
        if !are_above(ranks[o], ranks, operation.next.as_slice()) {
            return Some(o);
        }
    }
    None
}

/// Whether none of the operations has a lower rank.
fn are_not_below(rank: u32, ranks: &[u32], numbers: &[u32]) -> bool
    requires inside { All (λ s. s < length ranks.now) numbers.now }
    ensures { IsTrue result ↔ All (IsNotBelow ranks.now rank) numbers.now }
{
    numbers.iter().all(|number| rank <= ranks[*number as usize])
}

/// Whether no successor has a lower rank.
fn never_falls(train: &[Operation], ranks: &[u32]) -> bool
    requires inside { AreInside train.now }
    requires long { length ranks.now ≡ length train.now }
    ensures { IsTrue result → NeverFalls train.now ranks.now }
{
    for (o, operation) in train.iter().enumerate() {
        if !are_not_below(ranks[o], ranks, operation.next.as_slice()) {
            return false;
        }
    }
    true
}

/// Marks an operation, and adds it if it was not marked.
fn visit_one(number: u32, marks: &mut [bool], ahead: &mut Vec<u32>) -> Result<(), Memory>
    requires inside { number < length marks.old }
    ensures ok { OnOk result
        (Visits (number ∷ []) marks.old marks.new ahead.old.items ahead.new.items) }
{
    if !marks[number as usize] {
        ahead.push(number)?;
        marks[number as usize] = true;
    }
    Ok(())
}

/// Marks the operations, and adds those that were not marked.
fn visit(numbers: &[u32], marks: &mut [bool], ahead: &mut Vec<u32>) -> Result<(), Memory>
    requires inside { All (λ s. s < length marks.old) numbers.now }
    ensures ok { OnOk result
        (Visits numbers.now marks.old marks.new ahead.old.items ahead.new.items) }
{
    for number in numbers {
        visit_one(*number, marks, ahead)?;
    }
    Ok(())
}

/// Marks what is reached from the operation, all marks being clear yet.
fn mark_reached(
    alloc: Global,
    train: &[Operation],
    start: u32,
    marks: &mut [bool],
) -> Result<(), Memory>
    requires inside { AreInside train.now }
    requires there { start < length train.now }
    requires clear { marks.old ≡ replicate (length train.now) false }
    ensures ok { OnOk result (AreMarksReached train.now start marks.new []) }
{
    let mut ahead = Vec::new(alloc);
    visit(train[start as usize].next.as_slice(), marks, &mut ahead)?;
    while let Some(o) = ahead.pop() {
        visit(train[o as usize].next.as_slice(), marks, &mut ahead)?;
    }
    Ok(())
}

/// Whether some way leads from the operation back to it, by marks that are all clear yet.
#[tactic(auto, using(crate::proofs::Reached::marked_on_cycle))]
fn is_reached(
    alloc: Global,
    train: &[Operation],
    start: u32,
    marks: &mut [bool],
) -> Result<bool, Memory>
    requires inside { AreInside train.now }
    requires there { start < length train.now }
    requires clear { marks.old ≡ replicate (length train.now) false }
    ensures { IfOk result (λ on. IsTrue on ↔ IsOnCycle train.now start) }
{
    mark_reached(alloc, train, start, marks)?;
    Ok(marks[start as usize])
}

/// Whether some way leads from the operation back to it.
fn is_on_cycle(alloc: Global, train: &[Operation], start: u32) -> Result<bool, Memory>
    requires inside { AreInside train.now }
    requires there { start < length train.now }
    ensures { IfOk result (λ on. IsTrue on ↔ IsOnCycle train.now start) }
{
    let mut marks = vec![in alloc; false; train.len()]?;
    is_reached(alloc, train, start, &mut marks)
}

/// The least operation that lies on a cycle, by a search from each one in turn.
fn first_by_search(alloc: Global, train: &[Operation]) -> Result<Option<u32>, Memory>
    requires inside { AreInside train.now }
    requires small { length train.now < 2 ^ 32 }
    ensures found { IfOk result (λ found. IfSome found (IsLeastOnCycle train.now)) }
    ensures none { IfOk result (λ found. IfNone found (HasNoCycle train.now)) }
{
    for o in 0..train.len() {
        if is_on_cycle(alloc, train, o as u32)? {
            return Ok(Some(o as u32));
        }
    }
    Ok(None)
}

/// The least operation that lies on a cycle, in time that grows with the operations and their
/// successors: the ranks tell it, and are tested. Were they wrong, a search from each operation in
/// turn would decide.
pub(crate) fn first_on_cycle(alloc: Global, train: &[Operation]) -> Result<Option<u32>, Memory>
    requires inside { AreInside train.now }
    requires small { length train.now < 2 ^ 32 }
    ensures found { IfOk result (λ found. IfSome found (IsLeastOnCycle train.now)) }
    ensures none { IfOk result (λ found. IfNone found (HasNoCycle train.now)) }
{
    let ranks = ranks_of(alloc, train)?;
    let Some(o) = first_not_rising(train, &ranks) else {
        return Ok(None);
    };
    if never_falls(train, &ranks) && is_on_cycle(alloc, train, o as u32)? {
        return Ok(Some(o as u32));
    }
    first_by_search(alloc, train)
}
