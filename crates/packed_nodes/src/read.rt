ghost use Rattle.std.specs.Prelude.{◌≡◌, ◌/◌, ◌%◌, [], take};
ghost use Rattle.packed_nodes.specs.Reading.{GivesBytesRead};
ghost use Rattle.packed_nodes.specs.Packed.{long_at, packed_number_at, packed_op_at, packed_items_at, packed_ops_behind, packed_walk_at, packed_items_behind, last_walk, walk_listed, walk_itself, component_walk_at, component_walks_at, walks_at, packed_train_at, trains_at, packed_cycle_at, packed_late_at, packed_costs_at, packed_shares_at, leaf_by, packed_leaf_at};

use crate::unread::Unread;
use disp_model::{ComponentWalk, Leaf, List, Op, TrainWalks};
use std::alloc::Global;

/// The byte behind which a number has two.
pub(crate) const LONG: u8 = 255;

/// A walk shares fewer operations than this with the one before it.
pub(crate) const SHARED: u32 = 16;

/// The number of a leaf that lists a cycle.
pub(crate) const CYCLE: u32 = 1;

/// The number of a leaf that lists a walk to a late operation.
pub(crate) const LATE: u32 = 2;

/// The number of a leaf that lists walks to components alone.
pub(crate) const COSTS: u32 = 3;

/// The number of a leaf that lists trains too. So does one of any other number.
pub(crate) const SHARES: u32 = 4;

/// A number of two bytes.
#[tactic(auto, unfolding(crate::specs::Packed::long_at))]
fn long_at(bytes: &[u8]) -> Result<(u32, &[u8]), Unread>
    ensures { GivesBytesRead (λ x. (x.0, x.1.now)) result (long_at bytes.now) }
{
    match bytes {
        [] => Err(Unread::Nothing),
        [_] => Err(Unread::Nothing),
        [low, high, rest @ ..] => Ok((u32::from(*low) + u32::from(*high) * 256, rest)),
    }
}

/// A number.
#[tactic(auto, unfolding(crate::specs::Packed::packed_number_at))]
pub(crate) fn number_at(bytes: &[u8]) -> Result<(u32, &[u8]), Unread>
    ensures { GivesBytesRead (λ x. (x.0, x.1.now)) result (packed_number_at bytes.now) }
{
    match bytes {
        [] => Err(Unread::Nothing),
        [byte, rest @ ..] => {
            if *byte == LONG {
                return long_at(rest);
            }
            Ok((u32::from(*byte), rest))
        }
    }
}

/// An operation.
#[tactic(auto, unfolding(crate::specs::Packed::packed_op_at))]
fn op_at(bytes: &[u8]) -> Result<(Op, &[u8]), Unread>
    ensures { GivesBytesRead (λ x. (x.0, x.1.now)) result (packed_op_at bytes.now) }
{
    let (train, rest) = number_at(bytes)?;
    let (op, rest) = number_at(rest)?;
    Ok((Op { train, op }, rest))
}

/// The operations that a walk shares with the one before it.
#[tactic(auto, using(std::proofs::lemmas::List::take_all))]
pub(crate) fn shared_ops(head: u32, front: &[Op]) -> &[Op]
    ensures { result.now ≡ take (head % 16) front.now }
{
    let shared = (head % SHARED) as usize;
    if shared < front.len() {
        return &front[..shared];
    }
    front
}

/// These operations, and so many more.
fn ops_behind(shared: Vec<Op>, count: u32, bytes: &[u8]) -> Result<(Vec<Op>, &[u8]), Unread>
    ensures { GivesBytesRead (λ x. (x.0.items, x.1.now)) result
        (packed_ops_behind shared.items count bytes.now) }
{
    let mut ops = shared;
    let mut rest = bytes;
    for _ in 0..count {
        let (op, after) = op_at(rest)?;
        ops.push(op)?;
        rest = after;
    }
    Ok((ops, rest))
}

/// A walk, which may begin with operations at the front of the walk before it.
#[tactic(auto, unfolding(crate::specs::Packed::packed_walk_at))]
fn walk_at<'a>(alloc: Global, front: &[Op], bytes: &'a [u8]) -> Result<(List<Op>, &'a [u8]), Unread>
    ensures { GivesBytesRead (λ x. (x.0, x.1.now)) result (packed_walk_at front.now bytes.now) }
{
    let (head, rest) = number_at(bytes)?;
    let shared = Vec::from_slice(alloc, shared_ops(head, front))?;
    let (ops, rest) = ops_behind(shared, head / SHARED, rest)?;
    Ok((List::from_vec(ops), rest))
}

/// A walk to a component.
#[tactic(auto, unfolding(crate::specs::Packed::component_walk_at))]
fn component_walk_at<'a>(
    alloc: Global,
    front: &[Op],
    bytes: &'a [u8],
) -> Result<(ComponentWalk, &'a [u8]), Unread>
    ensures { GivesBytesRead (λ x. (x.0, x.1.now)) result (component_walk_at front.now bytes.now) }
{
    let (component, rest) = number_at(bytes)?;
    let (walk, rest) = walk_at(alloc, front, rest)?;
    Ok((ComponentWalk { component, walk }, rest))
}

/// The walk of the last of these; none where there are none.
fn last_component_walk(walks: &[ComponentWalk]) -> &[Op]
    ensures { result.now ≡ last_walk walk_listed walks.now }
{
    match walks.last() {
        Some(listed) => listed.walk.as_slice(),
        None => &[],
    }
}

/// So many walks to components.
fn component_walks_in(
    alloc: Global,
    count: u32,
    bytes: &[u8],
) -> Result<(Vec<ComponentWalk>, &[u8]), Unread>
    ensures { GivesBytesRead (λ x. (x.0.items, x.1.now)) result
        (packed_items_behind walk_listed component_walk_at [] count bytes.now) }
{
    let mut walks = Vec::new(alloc);
    let mut rest = bytes;
    for _ in 0..count {
        let (walk, after) = component_walk_at(alloc, last_component_walk(&walks), rest)?;
        walks.push(walk)?;
        rest = after;
    }
    Ok((walks, rest))
}

/// Walks to components, behind how many there are.
#[tactic(auto, unfolding(crate::specs::Packed::component_walks_at))]
fn component_walks_at(alloc: Global, bytes: &[u8]) -> Result<(List<ComponentWalk>, &[u8]), Unread>
    ensures { GivesBytesRead (λ x. (x.0, x.1.now)) result (component_walks_at bytes.now) }
{
    let (count, rest) = number_at(bytes)?;
    let (walks, rest) = component_walks_in(alloc, count, rest)?;
    Ok((List::from_vec(walks), rest))
}

/// The last of these walks; none where there are none.
fn last_train_walk(walks: &[List<Op>]) -> &[Op]
    ensures { result.now ≡ last_walk walk_itself walks.now }
{
    match walks.last() {
        Some(walk) => walk.as_slice(),
        None => &[],
    }
}

/// So many walks of a train's.
fn walks_in(alloc: Global, count: u32, bytes: &[u8]) -> Result<(Vec<List<Op>>, &[u8]), Unread>
    ensures { GivesBytesRead (λ x. (x.0.items, x.1.now)) result
        (packed_items_behind walk_itself packed_walk_at [] count bytes.now) }
{
    let mut walks = Vec::new(alloc);
    let mut rest = bytes;
    for _ in 0..count {
        let (walk, after) = walk_at(alloc, last_train_walk(&walks), rest)?;
        walks.push(walk)?;
        rest = after;
    }
    Ok((walks, rest))
}

/// The walks of a train, behind how many there are.
#[tactic(auto, unfolding(crate::specs::Packed::walks_at))]
fn walks_at(alloc: Global, bytes: &[u8]) -> Result<(List<List<Op>>, &[u8]), Unread>
    ensures { GivesBytesRead (λ x. (x.0, x.1.now)) result (walks_at bytes.now) }
{
    let (count, rest) = number_at(bytes)?;
    let (walks, rest) = walks_in(alloc, count, rest)?;
    Ok((List::from_vec(walks), rest))
}

/// A train and its walks.
#[tactic(auto, unfolding(crate::specs::Packed::packed_train_at))]
fn train_at(alloc: Global, bytes: &[u8]) -> Result<(TrainWalks, &[u8]), Unread>
    ensures { GivesBytesRead (λ x. (x.0, x.1.now)) result (packed_train_at bytes.now) }
{
    let (train, rest) = number_at(bytes)?;
    let (walks, rest) = walks_at(alloc, rest)?;
    Ok((TrainWalks { train, walks }, rest))
}

/// So many trains.
fn trains_in(alloc: Global, count: u32, bytes: &[u8]) -> Result<(Vec<TrainWalks>, &[u8]), Unread>
    ensures { GivesBytesRead (λ x. (x.0.items, x.1.now)) result
        (packed_items_at packed_train_at count bytes.now) }
{
    let mut trains = Vec::new(alloc);
    let mut rest = bytes;
    for _ in 0..count {
        let (listed, after) = train_at(alloc, rest)?;
        trains.push(listed)?;
        rest = after;
    }
    Ok((trains, rest))
}

/// Trains and their walks, behind how many there are.
#[tactic(auto, unfolding(crate::specs::Packed::trains_at))]
fn trains_at(alloc: Global, bytes: &[u8]) -> Result<(List<TrainWalks>, &[u8]), Unread>
    ensures { GivesBytesRead (λ x. (x.0, x.1.now)) result (trains_at bytes.now) }
{
    let (count, rest) = number_at(bytes)?;
    let (trains, rest) = trains_in(alloc, count, rest)?;
    Ok((List::from_vec(trains), rest))
}

/// A leaf that lists a cycle.
#[tactic(auto, unfolding(crate::specs::Packed::packed_cycle_at))]
fn cycle_at(alloc: Global, bytes: &[u8]) -> Result<(Leaf, &[u8]), Unread>
    ensures { GivesBytesRead (λ x. (x.0, x.1.now)) result (packed_cycle_at bytes.now) }
{
    let (ops, rest) = walk_at(alloc, &[], bytes)?;
    Ok((Leaf::Cycle(ops), rest))
}

/// A leaf that lists a late walk.
#[tactic(auto, unfolding(crate::specs::Packed::packed_late_at))]
fn late_at(alloc: Global, bytes: &[u8]) -> Result<(Leaf, &[u8]), Unread>
    ensures { GivesBytesRead (λ x. (x.0, x.1.now)) result (packed_late_at bytes.now) }
{
    let (walk, rest) = walk_at(alloc, &[], bytes)?;
    Ok((Leaf::Late(walk), rest))
}

/// A leaf that lists walks to components.
#[tactic(auto, unfolding(crate::specs::Packed::packed_costs_at))]
fn costs_at(alloc: Global, bytes: &[u8]) -> Result<(Leaf, &[u8]), Unread>
    ensures { GivesBytesRead (λ x. (x.0, x.1.now)) result (packed_costs_at bytes.now) }
{
    let (walks, rest) = component_walks_at(alloc, bytes)?;
    Ok((Leaf::Costs(walks), rest))
}

/// A leaf that lists walks to components, and trains.
#[tactic(auto, unfolding(crate::specs::Packed::packed_shares_at))]
fn shares_at(alloc: Global, bytes: &[u8]) -> Result<(Leaf, &[u8]), Unread>
    ensures { GivesBytesRead (λ x. (x.0, x.1.now)) result (packed_shares_at bytes.now) }
{
    let (walks, rest) = component_walks_at(alloc, bytes)?;
    let (trains, rest) = trains_at(alloc, rest)?;
    Ok((Leaf::Shares { walks, trains }, rest))
}

/// A leaf by the number of its kind.
#[tactic(auto, unfolding(crate::specs::Packed::leaf_by))]
fn leaf_by(alloc: Global, kind: u32, bytes: &[u8]) -> Result<(Leaf, &[u8]), Unread>
    ensures { GivesBytesRead (λ x. (x.0, x.1.now)) result (leaf_by kind bytes.now) }
{
    if kind == CYCLE {
        return cycle_at(alloc, bytes);
    }
    if kind == LATE {
        return late_at(alloc, bytes);
    }
    if kind == COSTS {
        return costs_at(alloc, bytes);
    }
    shares_at(alloc, bytes)
}

/// A leaf.
#[tactic(auto, unfolding(crate::specs::Packed::packed_leaf_at))]
pub(crate) fn leaf_at(alloc: Global, bytes: &[u8]) -> Result<(Leaf, &[u8]), Unread>
    ensures { GivesBytesRead (λ x. (x.0, x.1.now)) result (packed_leaf_at bytes.now) }
{
    let (kind, rest) = number_at(bytes)?;
    leaf_by(alloc, kind, rest)
}
