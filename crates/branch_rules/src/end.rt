ghost use Rattle.std.specs.Prelude.{◌≡◌, ◌+◌, ◌≤◌, ◌↔◌, IsTrue, option_map};
ghost use Rattle.disp_model.specs.Train.{duration_of};
ghost use Rattle.disp_model.specs.Valid.{train_at, operation_of, IsReleased};
ghost use Rattle.disp_model.specs.Arcs.{listings_of};
ghost use Rattle.disp_model.specs.Earliest.{op_of};
ghost use Rattle.branch_rules.specs.Pairs.{ending_of};

use disp_model::{Event, Listing, Operation, Problem};

/// Where an event ends: a place in the plan, and a time.
#[derive(Clone, Copy)]
pub(crate) struct End {
    pub position: usize,
    pub time: u128,
}

/// The operation of an event.
fn operation_of<'a>(problem: &'a Problem, event: &Event) -> Option<&'a Operation>
    ensures { option_map (λ o. o.now) result ≡ operation_of problem.now event.now }
{
    let train = problem.trains.as_slice().get(event.train as usize)?;
    train.as_slice().get(event.operation as usize)
}

/// What an event's operation lists.
pub(crate) fn listings_of<'a>(problem: &'a Problem, event: &Event) -> &'a [Listing]
    ensures { result.now ≡ listings_of problem.now (op_of event.now) }
{
    match operation_of(problem, event) {
        Some(operation) => operation.listings.as_slice(),
        None => &[],
    }
}

/// How long an event's operation lasts at least.
pub(crate) fn duration_of(problem: &Problem, event: &Event) -> u32
    ensures { result ≡ duration_of (train_at problem.now event.now.train) event.now.operation }
{
    match operation_of(problem, event) {
        Some(operation) => operation.min,
        None => 0,
    }
}

/// Whether the release time has passed since an end.
fn has_passed(end: u128, release: u32, time: u64) -> bool
    ensures { IsTrue result ↔ (end + release ≤ time) }
{
    let release = u64::from(release);
    release <= time && end <= u128::from(time - release)
}

/// Whether an event at a place stands behind the end and starts after the release time.
pub(crate) fn is_released(end: End, listing: Listing, place: usize, event: &Event) -> bool
    ensures { IsTrue result ↔ IsReleased (ending_of end) listing place event.now }
{
    end.position < place && has_passed(end.time, listing.release, event.time)
}
