ghost use Rattle.std.specs.Prelude.{◌≡◌, ◌/◌, ◌%◌, [], ◌++◌, IfSome, Some, length, take};
ghost use Rattle.packed_nodes.specs.Packed.{packed_number_at, packed_op_at, packed_items_at, packed_walk_at, packed_items_behind, walk_listed, walk_itself, component_walk_at, component_walks_at, walks_at, packed_train_at, trains_at, packed_leaf_at};

use crate::read::{COSTS, CYCLE, LATE, SHARED, SHARES, number_at, shared_ops};
use disp_model::{ComponentWalk, Leaf, List, Op, TrainWalks};

/// The bytes behind a number, where they begin with it.
fn behind_number(bytes: &[u8], number: u32) -> Option<&[u8]>
    ensures { IfSome result (λ rest. packed_number_at bytes.now ≡ Some (number, rest.now)) }
{
    match number_at(bytes) {
        Ok((found, rest)) => { if found == number { Some(rest) } else { None } }
        Err(_) => None,
    }
}

/// The bytes behind how many there are of something, where they begin with that.
fn behind_count(bytes: &[u8], count: usize) -> Option<&[u8]>
    ensures { IfSome result (λ rest. packed_number_at bytes.now ≡ Some (count, rest.now)) }
{
    match u32::try_from(count) {
        Ok(count) => behind_number(bytes, count),
        Err(_) => None,
    }
}

/// The bytes behind an operation.
#[tactic(auto, unfolding(crate::specs::Packed::packed_op_at))]
fn behind_op(bytes: &[u8], op: Op) -> Option<&[u8]>
    ensures { IfSome result (λ rest. packed_op_at bytes.now ≡ Some (op, rest.now)) }
{
    let rest = behind_number(bytes, op.train)?;
    behind_number(rest, op.op)
}

/// The bytes behind operations.
fn behind_ops<'a>(bytes: &'a [u8], ops: &[Op]) -> Option<&'a [u8]>
    ensures { IfSome result (λ rest. packed_items_at packed_op_at (length ops.now) bytes.now
        ≡ Some (ops.now, rest.now)) }
{
    let mut rest = bytes;
    for op in ops {
        rest = behind_op(rest, *op)?;
    }
    Some(rest)
}

/// The number at the front of a walk, and the bytes behind it.
fn head_at(bytes: &[u8]) -> Option<(u32, &[u8])>
    ensures { IfSome result (λ x. packed_number_at bytes.now ≡ Some (x.0, x.1.now)) }
{
    match number_at(bytes) {
        Ok((head, rest)) => Some((head, rest)),
        Err(_) => None,
    }
}

/// What stands behind these operations, where the walk begins with them.
fn behind_shared<'w>(shared: &[Op], walk: &'w [Op]) -> Option<&'w [Op]>
    ensures { IfSome result (λ others. shared.now ++ others.now ≡ walk.now) }
{
    match walk.strip_prefix(shared) {
        Some(others) => Some(others),
        None => None,
    }
}

/// The operations that a walk lists itself, where it has this number.
fn others_of<'w>(head: u32, front: &[Op], walk: &'w [Op]) -> Option<&'w [Op]>
    ensures is { IfSome result (λ others. take (head % 16) front.now ++ others.now ≡ walk.now) }
    ensures count { IfSome result (λ others. length others.now ≡ head / 16) }
{
    let others = behind_shared(shared_ops(head, front), walk)?;
    if others.len() != (head / SHARED) as usize {
        return None;
    }
    Some(others)
}

/// The bytes behind a walk, which may begin with operations at the front of the walk before it.
fn behind_walk<'a>(front: &[Op], bytes: &'a [u8], walk: &[Op]) -> Option<&'a [u8]>
    ensures { IfSome result (λ rest. packed_walk_at front.now bytes.now
        ≡ Some (walk.now, rest.now)) }
{
    let (head, rest) = head_at(bytes)?;
    let others = others_of(head, front, walk)?;
    behind_ops(rest, others)
}

/// The bytes behind a walk to a component.
#[tactic(auto, unfolding(crate::specs::Packed::component_walk_at))]
fn behind_component_walk<'a>(
    front: &[Op],
    bytes: &'a [u8],
    walk: &ComponentWalk,
) -> Option<&'a [u8]>
    ensures { IfSome result (λ rest. component_walk_at front.now bytes.now
        ≡ Some (walk.now, rest.now)) }
{
    let rest = behind_number(bytes, walk.component)?;
    behind_walk(front, rest, walk.walk.as_slice())
}

/// The bytes behind walks to components.
fn behind_each_component_walk<'a>(bytes: &'a [u8], walks: &[ComponentWalk]) -> Option<&'a [u8]>
    ensures { IfSome result (λ rest. packed_items_behind walk_listed component_walk_at []
        (length walks.now) bytes.now ≡ Some (walks.now, rest.now)) }
{
    let mut rest = bytes;
    let mut front: &[Op] = &[];
    for walk in walks {
        rest = behind_component_walk(front, rest, walk)?;
        front = walk.walk.as_slice();
    }
    Some(rest)
}

/// The bytes behind walks to components and how many there are.
#[tactic(auto, unfolding(crate::specs::Packed::component_walks_at))]
fn behind_component_walks<'a>(bytes: &'a [u8], walks: &[ComponentWalk]) -> Option<&'a [u8]>
    ensures { IfSome result (λ rest. component_walks_at bytes.now ≡ Some (walks.now, rest.now)) }
{
    let rest = behind_count(bytes, walks.len())?;
    behind_each_component_walk(rest, walks)
}

/// The bytes behind the walks of a train.
fn behind_each_walk<'a>(bytes: &'a [u8], walks: &[List<Op>]) -> Option<&'a [u8]>
    ensures { IfSome result (λ rest. packed_items_behind walk_itself packed_walk_at []
        (length walks.now) bytes.now ≡ Some (walks.now, rest.now)) }
{
    let mut rest = bytes;
    let mut front: &[Op] = &[];
    for walk in walks {
        let ops = walk.as_slice();
        rest = behind_walk(front, rest, ops)?;
        front = ops;
    }
    Some(rest)
}

/// The bytes behind the walks of a train and how many there are.
#[tactic(auto, unfolding(crate::specs::Packed::walks_at))]
fn behind_walks<'a>(bytes: &'a [u8], walks: &[List<Op>]) -> Option<&'a [u8]>
    ensures { IfSome result (λ rest. walks_at bytes.now ≡ Some (walks.now, rest.now)) }
{
    let rest = behind_count(bytes, walks.len())?;
    behind_each_walk(rest, walks)
}

/// The bytes behind a train and its walks.
#[tactic(auto, unfolding(crate::specs::Packed::packed_train_at))]
fn behind_train<'a>(bytes: &'a [u8], listed: &TrainWalks) -> Option<&'a [u8]>
    ensures { IfSome result (λ rest. packed_train_at bytes.now ≡ Some (listed.now, rest.now)) }
{
    let rest = behind_number(bytes, listed.train)?;
    behind_walks(rest, listed.walks.as_slice())
}

/// The bytes behind trains.
fn behind_each_train<'a>(bytes: &'a [u8], trains: &[TrainWalks]) -> Option<&'a [u8]>
    ensures { IfSome result (λ rest. packed_items_at packed_train_at (length trains.now) bytes.now
        ≡ Some (trains.now, rest.now)) }
{
    let mut rest = bytes;
    for listed in trains {
        rest = behind_train(rest, listed)?;
    }
    Some(rest)
}

/// The bytes behind trains and how many there are.
#[tactic(auto, unfolding(crate::specs::Packed::trains_at))]
fn behind_trains<'a>(bytes: &'a [u8], trains: &[TrainWalks]) -> Option<&'a [u8]>
    ensures { IfSome result (λ rest. trains_at bytes.now ≡ Some (trains.now, rest.now)) }
{
    let rest = behind_count(bytes, trains.len())?;
    behind_each_train(rest, trains)
}

/// The bytes behind a leaf, where they say it.
#[tactic(auto, unfolding(crate::specs::Packed::packed_leaf_at, crate::specs::Packed::leaf_by, crate::specs::Packed::packed_cycle_at, crate::specs::Packed::packed_late_at, crate::specs::Packed::packed_costs_at, crate::specs::Packed::packed_shares_at))]
pub(crate) fn behind_leaf<'a>(bytes: &'a [u8], leaf: &Leaf) -> Option<&'a [u8]>
    ensures { IfSome result (λ rest. packed_leaf_at bytes.now ≡ Some (leaf.now, rest.now)) }
{
    match leaf {
        Leaf::NoRoute => None,
        Leaf::Cycle(ops) => behind_walk(&[], behind_number(bytes, CYCLE)?, ops.as_slice()),
        Leaf::Late(walk) => behind_walk(&[], behind_number(bytes, LATE)?, walk.as_slice()),
        Leaf::Costs(walks) => {
            behind_component_walks(behind_number(bytes, COSTS)?, walks.as_slice())
        }
        Leaf::Shares { walks, trains } => {
            let rest = behind_number(bytes, SHARES)?;
            let rest = behind_component_walks(rest, walks.as_slice())?;
            behind_trains(rest, trains.as_slice())
        }
    }
}
