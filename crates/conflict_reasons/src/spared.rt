use crate::past::Past;
use crate::reasons::At;
use disp_model::{ComponentWalk, Memory, Op};
use problem_facts::cost_of;
use std::alloc::Global;

/// Behind how many decisions the last order was taken by which a walk goes from train to train.
fn depth_of(past: &Past, walk: &[Op]) -> usize {
    let mut depth: usize = 0;
    let mut before: Option<Op> = None;
    for op in walk {
        if let Some(before) = before {
            if let Some(order) = past.order_between(before, *op) {
                depth = depth.max(order.place.saturating_add(1));
            }
        }
        before = Some(*op);
    }
    depth
}

/// What a component costs at the length of the paths to its operation, if that is known.
fn cost_at(at: At, component: u32) -> Option<u64> {
    let component = at.problem.components.as_slice().get(component as usize)?;
    let first = at.past.first(component.train)?;
    let number = first.saturating_add(component.operation as usize);
    let length = *at.graph.paths().lengths().get(number)?;
    u64::try_from(cost_of(component, u128::from(length))).ok()
}

/// Which of a leaf's walks are needed: those that cost together what the leaf costs too much are
/// spared, those first whose last order was taken last.
pub(crate) fn needed(alloc: Global, at: At, walks: &[ComponentWalk]) -> Result<Vec<bool>, Memory> {
    let mut needed = vec![in alloc; true; walks.len()]?;
    let mut costs = Vec::with_capacity(alloc, walks.len())?;
    for (place, listed) in walks.iter().enumerate() {
        if let Some(cost) = cost_at(at, listed.component) {
            costs.push((depth_of(at.past, listed.walk.as_slice()), cost, place))?;
        }
    }
    costs.sort_unstable();
    let mut room = at.room;
    for (_, cost, place) in costs.iter().rev() {
        if *cost <= room {
            room = room.saturating_sub(*cost);
            if let Some(needed) = needed.get_mut(*place) {
                *needed = false;
            }
        }
    }
    Ok(needed)
}
