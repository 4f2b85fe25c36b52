use crate::base::Base;
use disp_model::{Component, Event, Memory, Op, Problem};
use problem_facts::listings_of;
use share_bound::cost_of;
use std::alloc::Global;
use train_insertion::{Draw, Target};

/// Of so many trains that are drawn beside the first all but one are near it, by and large.
const NEAR: usize = 8;

/// The first train of one in so many regions is drawn by what trains cost.
const BY_COST: usize = 2;

/// The operation that starts at an event.
pub(crate) fn op_of(event: &Event) -> Op {
    Op {
        train: event.train,
        op: event.operation,
    }
}

/// Whether a train is among some.
pub(crate) fn is_among(trains: &[u32], train: u32) -> bool {
    trains.iter().any(|other| *other == train)
}

/// Adds a train to some, if it is not among them.
fn note(trains: &mut Vec<u32>, train: u32) -> Result<(), Memory> {
    if !is_among(trains, train) {
        trains.push(train)?;
    }
    Ok(())
}

/// Notes the other one of two trains that hold a resource one after the other, if one is this.
fn note_pair(
    near: &mut Vec<u32>,
    train: u32,
    before: Option<u32>,
    after: u32,
) -> Result<(), Memory> {
    match before {
        Some(before) if before == train && after != train => note(near, after),
        Some(before) if before != train && after == train => note(near, before),
        _ => Ok(()),
    }
}

/// The trains that hold a resource next before or next after a train.
fn trains_near(
    alloc: Global,
    problem: &Problem,
    plan: &[Event],
    train: u32,
) -> Result<Vec<u32>, Memory> {
    let mut near = Vec::new(alloc);
    let mut holders = vec![in alloc; None; problem.names.len()]?;
    for event in plan {
        for listing in listings_of(problem, op_of(event)) {
            if let Some(holder) = holders.get_mut(listing.resource as usize) {
                note_pair(&mut near, train, *holder, event.train)?;
                *holder = Some(event.train);
            }
        }
    }
    Ok(near)
}

/// What a component costs in a plan.
fn paid(target: &Target, component: &Component) -> u64 {
    let op = Op {
        train: component.train,
        op: component.operation,
    };
    match target.start_of(op) {
        Some(start) => cost_of(component, start),
        None => 0,
    }
}

/// A train, the likelier the more it costs in a plan. None where none costs anything.
fn train_by_cost(problem: &Problem, target: &Target, draw: &mut Draw) -> Option<u32> {
    let mut total: u64 = 0;
    for component in problem.components.as_slice() {
        total = total.saturating_add(paid(target, component));
    }
    let mut left = draw.below(total as usize) as u64;
    for component in problem.components.as_slice() {
        let cost = paid(target, component);
        if left < cost {
            return Some(component.train);
        }
        left = left.saturating_sub(cost);
    }
    None
}

/// A train that is drawn: by what trains cost in a plan, or by how many events they have.
fn first_train(problem: &Problem, base: &Base, draw: &mut Draw) -> Option<u32> {
    if draw.below(BY_COST) == 0 {
        if let Some(train) = train_by_cost(problem, &base.target, draw) {
            return Some(train);
        }
    }
    let plan = base.plan.as_slice();
    let event = plan.get(draw.below(plan.len()))?;
    Some(event.train)
}

/// One of the trains that are near, which is taken away from these, or one of all.
fn next_train(draw: &mut Draw, near: &mut Vec<u32>, trains: usize) -> u32 {
    let place = draw.below(near.len());
    if place < near.len() && draw.below(NEAR) > 0 {
        near.swap_remove(place)
    } else {
        u32::try_from(draw.below(trains)).unwrap_or(0)
    }
}

/// Some trains of a plan, so many at most: one that is drawn, and others that are near it.
pub(crate) fn drawn_region(
    alloc: Global,
    problem: &Problem,
    base: &Base,
    draw: &mut Draw,
    count: usize,
) -> Result<Vec<u32>, Memory> {
    let mut region = Vec::new(alloc);
    let Some(first) = first_train(problem, base, draw) else {
        return Ok(region);
    };
    region.push(first)?;
    let mut near = trains_near(alloc, problem, base.plan.as_slice(), first)?;
    for _ in 1..count {
        let train = next_train(draw, &mut near, problem.trains.len());
        note(&mut region, train)?;
    }
    Ok(region)
}

/// Some trains of a region that are drawn, so many at most.
pub(crate) fn drawn_out(
    alloc: Global,
    region: &[u32],
    draw: &mut Draw,
    count: usize,
) -> Result<Vec<u32>, Memory> {
    let mut left = region.to_vec(alloc)?;
    let mut out = Vec::new(alloc);
    for _ in 0..count {
        let place = draw.below(left.len());
        if place < left.len() {
            out.push(left.swap_remove(place))?;
        }
    }
    Ok(out)
}
