use disp_model::{Decision, Memory};
use std::alloc::Global;

/// How often each resource and each train had a part in it that a search went wrong: what fails
/// often is hard, and is decided before what is not.
#[derive(Drop)]
pub(crate) struct Failures {
    /// How many orders on each resource were seen to leave no plan that is wanted.
    resources: Vec<u64>,
    /// Behind how many decisions of each train a node was closed.
    trains: Vec<u64>,
}

/// The count at a place.
fn count_at(counts: &[u64], place: u32) -> u64 {
    match counts.get(place as usize) {
        Some(count) => *count,
        None => 0,
    }
}

/// Adds so many to the count at a place.
fn add_at(counts: &mut Vec<u64>, place: u32, more: u64) {
    if let Some(count) = counts.get_mut(place as usize) {
        *count = count.saturating_add(more);
    }
}

impl Failures {
    /// None yet, of so many resources and trains.
    pub(crate) fn new(alloc: Global, resources: usize, trains: usize) -> Result<Failures, Memory> {
        Ok(Failures {
            resources: vec![in alloc; 0; resources]?,
            trains: vec![in alloc; 0; trains]?,
        })
    }

    /// How many orders on a resource failed.
    pub(crate) fn of_resource(&self, resource: u32) -> u64 {
        count_at(&self.resources, resource)
    }

    /// How many decisions of a train failed.
    pub(crate) fn of_train(&self, train: u32) -> u64 {
        count_at(&self.trains, train)
    }

    /// Counts orders on a resource that failed.
    pub(crate) fn count_orders(&mut self, resource: u32, orders: u64) {
        add_at(&mut self.resources, resource, orders);
    }

    /// Counts a decision that failed.
    pub(crate) fn count_decision(&mut self, decision: Decision) {
        match decision {
            Decision::Go { op, .. } => add_at(&mut self.trains, op.train, 1),
            Decision::Run(op) => add_at(&mut self.trains, op.train, 1),
            Decision::Skip(op) => add_at(&mut self.trains, op.train, 1),
            Decision::First { a, b } => {
                add_at(&mut self.trains, a.train, 1);
                add_at(&mut self.trains, b.train, 1);
            }
        }
    }
}
