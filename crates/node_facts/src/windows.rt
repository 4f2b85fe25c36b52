ghost use Rattle.std.specs.Prelude.{◌≡◌, None, slice_get};
ghost use Rattle.std.specs.Option.{option_map_or};
ghost use Rattle.disp_model.specs.Walks.{lower_of, upper_of};

use crate::fixing_index::FixingIndex;
use crate::reading::train_of;
use disp_model::{Op, Operation, Problem};

/// From when an operation may start by the problem.
fn own_lower(train: &[Operation], op: u32) -> u32
    ensures { result ≡ option_map_or (λ p. p.lower) (slice_get train.now op) 0 }
{
    match train.get(op as usize) {
        Some(operation) => operation.lower,
        None => 0,
    }
}

/// Until when an operation may start by the problem, if there is such a time.
fn own_upper(train: &[Operation], op: u32) -> Option<u32>
    ensures { result ≡ option_map_or (λ p. p.upper) (slice_get train.now op) None }
{
    match train.get(op as usize) {
        Some(operation) => operation.upper,
        None => None,
    }
}

/// From when an operation may start.
pub fn lower_of(problem: &Problem, fixings: &FixingIndex, op: Op) -> u64
    ensures { result ≡ lower_of problem.now fixings.now op }
{
    match fixings.start(op) {
        Some(time) => time,
        None => {
            let own = own_lower(train_of(problem, op.train), op.op);
            u64::from(own).max(fixings.bar(op))
        }
    }
}

/// Until when an operation may start, if there is such a time.
pub fn upper_of(problem: &Problem, fixings: &FixingIndex, op: Op) -> Option<u64>
    ensures { result ≡ upper_of problem.now fixings.now op }
{
    match fixings.start(op) {
        Some(time) => Some(time),
        None => match own_upper(train_of(problem, op.train), op.op) {
            Some(upper) => Some(u64::from(upper)),
            None => None,
        },
    }
}
