ghost use Rattle.std.specs.Prelude.{◌≡◌, ◌<◌, ◌^◌, IfOk, length, vec_len};

use disp_model::{Memory, Operation};
use std::alloc::Global;

/// An operation on the way of a search, and how many of its successors were tried.
#[derive(Clone, Copy)]
struct Stop {
    number: u32,
    tried: u32,
}

/// How far a search in depth has come (Tarjan 1972). Nothing is proved of what it finds but how
/// long its ranks are: who uses them tests them.
#[derive(Drop)]
struct Search {
    /// When each operation was met, counted from 1 on, or 0.
    met: Vec<u32>,
    /// The earliest meeting that is known to be on a cycle with the operation.
    earliest: Vec<u32>,
    /// The ranks given, or 0.
    ranks: Vec<u32>,
    /// The operations that were met and have no rank, in the order of their meetings.
    waiting: Vec<u32>,
    /// The way from the first to the one at hand, each a successor of the one before.
    way: Vec<Stop>,
    /// How many operations were met.
    meetings: u32,
    /// The rank that comes next.
    next_rank: u32,
}

/// A search that has met none of so many operations.
fn new_search(alloc: Global, count: usize) -> Result<Search, Memory>
    requires small { count < 2 ^ 32 }
    ensures { IfOk result (λ search. vec_len search.ranks ≡ count) }
{
    Ok(Search {
        met: vec![in alloc; 0; count]?,
        earliest: vec![in alloc; 0; count]?,
        ranks: vec![in alloc; 0; count]?,
        waiting: Vec::new(alloc),
        way: Vec::new(alloc),
        meetings: 0,
        next_rank: count as u32,
    })
}

/// Meets an operation, and goes on from it.
fn meet(search: &mut Search, number: u32) -> Result<(), Memory>
    ensures { vec_len search.new.ranks ≡ vec_len search.old.ranks }
{
    search.meetings = u32::saturating_add(search.meetings, 1);
    if let Some(met) = search.met.get_mut(number as usize) {
        *met = search.meetings;
    }
    if let Some(earliest) = search.earliest.get_mut(number as usize) {
        *earliest = search.meetings;
    }
    search.waiting.push(number)?;
    search.way.push(Stop { number, tried: 0 })?;
    Ok(())
}

/// Notes that the operation is on a cycle with one that was met then.
fn lower(search: &mut Search, number: u32, then: u32)
    ensures { vec_len search.new.ranks ≡ vec_len search.old.ranks }
{
    if let Some(earliest) = search.earliest.get_mut(number as usize) {
        *earliest = then.min(*earliest);
    }
}

/// Tries a successor of an operation: it is met, or waits already, or has a rank.
fn try_successor(search: &mut Search, number: u32, next: u32) -> Result<(), Memory>
    ensures { vec_len search.new.ranks ≡ vec_len search.old.ranks }
{
    let met = search.met.get(next as usize).copied();
    let rank = search.ranks.get(next as usize).copied();
    match (met, rank) {
        (Some(0), _) => meet(search, next),
        (Some(then), Some(0)) => {
            lower(search, number, then);
            Ok(())
        }
        _ => Ok(()),
    }
}

/// Gives the next rank to the operation and to all that were met after it and wait.
fn rank_from(search: &mut Search, number: u32)
    ensures { vec_len search.new.ranks ≡ vec_len search.old.ranks }
{
    for _ in 0..search.waiting.len() {
        let Some(last) = search.waiting.pop() else {
            break;
        };
        if let Some(rank) = search.ranks.get_mut(last as usize) {
            *rank = search.next_rank;
        }
        if last == number {
            break;
        }
    }
    search.next_rank = u32::saturating_sub(search.next_rank, 1);
}

/// Leaves an operation whose successors were all tried.
fn leave(search: &mut Search, number: u32)
    ensures { vec_len search.new.ranks ≡ vec_len search.old.ranks }
{
    search.way.pop();
    let met = search.met.get(number as usize).copied();
    let earliest = search.earliest.get(number as usize).copied();
    if met == earliest {
        rank_from(search, number);
    }
    if let (Some(before), Some(then)) = (search.way.last().copied(), earliest) {
        lower(search, before.number, then);
    }
}

/// Goes on from the last operation of the way: to its next successor, or back.
fn step(search: &mut Search, train: &[Operation]) -> Result<(), Memory>
    ensures { vec_len search.new.ranks ≡ vec_len search.old.ranks }
{
    let Some(stop) = search.way.last_mut() else {
        return Ok(());
    };
    let Stop { number, tried } = *stop;
    stop.tried = u32::saturating_add(tried, 1);
    let next = match train.get(number as usize) {
        Some(operation) => operation.next.as_slice().get(tried as usize).copied(),
        None => None,
    };
    match next {
        Some(next) => try_successor(search, number, next),
        None => {
            leave(search, number);
            Ok(())
        }
    }
}

/// Goes on until the way is empty.
fn finish(search: &mut Search, train: &[Operation]) -> Result<(), Memory>
    ensures { vec_len search.new.ranks ≡ vec_len search.old.ranks }
{
    for _ in 0..u64::MAX {
        if search.way.is_empty() {
            break;
        }
        step(search, train)?;
    }
    Ok(())
}

/// A rank for each operation, in time that grows with the operations and their successors. Those on
/// one cycle have the same rank, and a successor on no cycle with the operation has a higher one.
/// (Of this nothing is proved but that there are so many.)
pub(crate) fn ranks_of(alloc: Global, train: &[Operation]) -> Result<Vec<u32>, Memory>
    requires small { length train.now < 2 ^ 32 }
    ensures { IfOk result (λ ranks. vec_len ranks ≡ length train.now) }
{
    let mut search = new_search(alloc, train.len())?;
    for start in 0..train.len() {
        if search.met.get(start).copied() == Some(0) {
            meet(&mut search, start as u32)?;
            finish(&mut search, train)?;
        }
    }
    Ok(search.ranks)
}
