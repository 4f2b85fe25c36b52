use crate::read::{COSTS, CYCLE, LATE, LONG, SHARED, SHARES};
use disp_model::{ComponentWalk, Leaf, Op, TrainWalks};
use std::alloc::Global;

/// How many bytes there is room for at first.
const ROOM: usize = 256;

/// Adds a number; none where it needs more than two bytes, or memory runs out.
fn push_number(bytes: &mut Vec<u8>, number: u32) -> Option<()> {
    if number < u32::from(LONG) {
        return bytes.push((number % 256) as u8).ok();
    }
    if number >= 65_536 {
        return None;
    }
    bytes.push(LONG).ok()?;
    bytes.push((number % 256) as u8).ok()?;
    bytes.push((number / 256 % 256) as u8).ok()
}

/// Adds how many there are of something.
fn push_count(bytes: &mut Vec<u8>, count: usize) -> Option<()> {
    push_number(bytes, u32::try_from(count).ok()?)
}

/// Whether both walks have the same operation at a place.
fn is_same_at(front: &[Op], walk: &[Op], place: usize) -> bool {
    match (front.get(place), walk.get(place)) {
        (Some(before), Some(op)) => before == op,
        _ => false,
    }
}

/// How many operations both walks begin with; fewer than `SHARED` are counted.
fn shared_count(front: &[Op], walk: &[Op]) -> u32 {
    for place in 0..SHARED - 1 {
        if !is_same_at(front, walk, place as usize) {
            return place;
        }
    }
    SHARED - 1
}

/// Adds the number at the front of a walk: how many operations it lists itself, and shares.
fn push_head(bytes: &mut Vec<u8>, others: usize, shared: u32) -> Option<()> {
    let others = u32::try_from(others).ok()?;
    push_number(bytes, others.checked_mul(SHARED)?.checked_add(shared)?)
}

/// Adds a walk, which may begin with operations at the front of the walk before it.
fn push_walk(bytes: &mut Vec<u8>, front: &[Op], walk: &[Op]) -> Option<()> {
    let shared = shared_count(front, walk);
    let others = walk.get(shared as usize..)?;
    push_head(bytes, others.len(), shared)?;
    for op in others {
        push_number(bytes, op.train)?;
        push_number(bytes, op.op)?;
    }
    Some(())
}

/// Adds walks to components, behind how many there are.
fn push_component_walks(bytes: &mut Vec<u8>, walks: &[ComponentWalk]) -> Option<()> {
    push_count(bytes, walks.len())?;
    let mut front: &[Op] = &[];
    for walk in walks {
        push_number(bytes, walk.component)?;
        push_walk(bytes, front, walk.walk.as_slice())?;
        front = walk.walk.as_slice();
    }
    Some(())
}

/// Adds a train and its walks.
fn push_train(bytes: &mut Vec<u8>, listed: &TrainWalks) -> Option<()> {
    push_number(bytes, listed.train)?;
    push_count(bytes, listed.walks.len())?;
    let mut front: &[Op] = &[];
    for walk in listed.walks.as_slice() {
        push_walk(bytes, front, walk.as_slice())?;
        front = walk.as_slice();
    }
    Some(())
}

/// Adds trains and their walks, behind how many there are.
fn push_trains(bytes: &mut Vec<u8>, trains: &[TrainWalks]) -> Option<()> {
    push_count(bytes, trains.len())?;
    for listed in trains {
        push_train(bytes, listed)?;
    }
    Some(())
}

/// Adds a leaf behind the number of its kind.
fn push_leaf(bytes: &mut Vec<u8>, leaf: &Leaf) -> Option<()> {
    match leaf {
        Leaf::NoRoute => None,
        Leaf::Cycle(ops) => {
            push_number(bytes, CYCLE)?;
            push_walk(bytes, &[], ops.as_slice())
        }
        Leaf::Late(walk) => {
            push_number(bytes, LATE)?;
            push_walk(bytes, &[], walk.as_slice())
        }
        Leaf::Costs(walks) => {
            push_number(bytes, COSTS)?;
            push_component_walks(bytes, walks.as_slice())
        }
        Leaf::Shares { walks, trains } => {
            push_number(bytes, SHARES)?;
            push_component_walks(bytes, walks.as_slice())?;
            push_trains(bytes, trains.as_slice())
        }
    }
}

/// The bytes of a leaf, and no room for more; none where it has no walks, a number needs more than
/// two bytes, or memory runs out. Nothing is claimed of them.
pub(crate) fn written(alloc: Global, leaf: &Leaf) -> Option<Vec<u8>> {
    let mut bytes = Vec::with_capacity(alloc, ROOM).ok()?;
    push_leaf(&mut bytes, leaf)?;
    Vec::from_slice(alloc, &bytes).ok()
}
