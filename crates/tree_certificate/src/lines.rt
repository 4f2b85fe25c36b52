ghost use Rattle.std.specs.Prelude.{◌≡◌, length};
ghost use Rattle.tree_certificate.specs.Reading.{GivesRead};
ghost use Rattle.tree_certificate.specs.LinesRead.{line_at, items_at, last_count, walk_at, to_at, train_read};

use crate::fault::{Fault, ReadError};
use crate::fields::{cut, index_at, line_ended, ops_at, word_at};
use disp_model::{ComponentWalk, GREATEST_NUMBER, List, MOST_COMPONENTS, Op, TrainWalks};
use std::alloc::Global;

/// The most of what a line counts.
pub(crate) const MOST: u32 = MOST_COMPONENTS as u32;

/// A line without its end, and the bytes behind it.
#[tactic(auto, unfolding(crate::specs::LinesRead::line_at))]
pub(crate) fn line_at(bytes: &[u8]) -> Result<(&[u8], &[u8]), ReadError>
    ensures { GivesRead (λ x. (x.0.now, x.1.now)) result (line_at bytes.now) }
{
    let (line, rest) = cut(bytes, b'\n');
    match rest {
        [] => Err(ReadError::Fault(Fault::Truncated)),
        [_, rest @ ..] => Ok((line, rest)),
    }
}

/// A count that ends its line.
#[tactic(auto, unfolding(crate::specs::LinesRead::last_count))]
pub(crate) fn last_count(left: usize, fields: &[u8]) -> Result<u32, ReadError>
    ensures { GivesRead (λ x. x) result (last_count left fields.now) }
{
    let (count, rest) = index_at(left, MOST, fields)?;
    line_ended(left, rest)?;
    Ok(count)
}

/// A walk to a component.
#[tactic(auto, unfolding(crate::specs::LinesRead::walk_at))]
fn walk_at(alloc: Global, bytes: &[u8]) -> Result<(ComponentWalk, &[u8]), ReadError>
    ensures { GivesRead (λ x. (x.0, x.1.now)) result (walk_at bytes.now) }
{
    let (line, rest) = line_at(bytes)?;
    let fields = word_at(bytes.len(), line, b"walk")?;
    let (component, fields) = index_at(bytes.len(), GREATEST_NUMBER, fields)?;
    let ops = ops_at(alloc, bytes.len(), fields)?;
    let walk = List::from_vec(ops);
    Ok((ComponentWalk { component, walk }, rest))
}

/// Walks to components.
pub(crate) fn walks_at(
    alloc: Global,
    count: u32,
    bytes: &[u8],
) -> Result<(Vec<ComponentWalk>, &[u8]), ReadError>
    ensures { GivesRead (λ x. (x.0.items, x.1.now)) result (items_at walk_at count bytes.now) }
{
    let mut walks = Vec::new(alloc);
    let mut rest = bytes;
    for _ in 0..count {
        let (walk, after) = walk_at(alloc, rest)?;
        walks.push(walk)?;
        rest = after;
    }
    Ok((walks, rest))
}

/// A walk of a train's.
#[tactic(auto, unfolding(crate::specs::LinesRead::to_at))]
fn to_at(alloc: Global, bytes: &[u8]) -> Result<(List<Op>, &[u8]), ReadError>
    ensures { GivesRead (λ x. (x.0, x.1.now)) result (to_at bytes.now) }
{
    let (line, rest) = line_at(bytes)?;
    let fields = word_at(bytes.len(), line, b"to")?;
    let ops = ops_at(alloc, bytes.len(), fields)?;
    Ok((List::from_vec(ops), rest))
}

/// The walks of a train.
fn tos_at(alloc: Global, count: u32, bytes: &[u8]) -> Result<(Vec<List<Op>>, &[u8]), ReadError>
    ensures { GivesRead (λ x. (x.0.items, x.1.now)) result (items_at to_at count bytes.now) }
{
    let mut walks = Vec::new(alloc);
    let mut rest = bytes;
    for _ in 0..count {
        let (walk, after) = to_at(alloc, rest)?;
        walks.push(walk)?;
        rest = after;
    }
    Ok((walks, rest))
}

/// A train and its walks.
#[tactic(auto, unfolding(crate::specs::LinesRead::train_read))]
fn train_read(alloc: Global, bytes: &[u8]) -> Result<(TrainWalks, &[u8]), ReadError>
    ensures { GivesRead (λ x. (x.0, x.1.now)) result (train_read bytes.now) }
{
    let (line, rest) = line_at(bytes)?;
    let fields = word_at(bytes.len(), line, b"train")?;
    let (train, fields) = index_at(bytes.len(), GREATEST_NUMBER, fields)?;
    let count = last_count(bytes.len(), fields)?;
    let (walks, rest) = tos_at(alloc, count, rest)?;
    let walks = List::from_vec(walks);
    Ok((TrainWalks { train, walks }, rest))
}

/// Trains and their walks.
pub(crate) fn trains_at(
    alloc: Global,
    count: u32,
    bytes: &[u8],
) -> Result<(Vec<TrainWalks>, &[u8]), ReadError>
    ensures { GivesRead (λ x. (x.0.items, x.1.now)) result (items_at train_read count bytes.now) }
{
    let mut trains = Vec::new(alloc);
    let mut rest = bytes;
    for _ in 0..count {
        let (listed, after) = train_read(alloc, rest)?;
        trains.push(listed)?;
        rest = after;
    }
    Ok((trains, rest))
}
