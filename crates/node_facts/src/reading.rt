ghost use Rattle.std.specs.Prelude.{◌≡◌};
ghost use Rattle.disp_model.specs.Train.{next_of, duration_of};
ghost use Rattle.disp_model.specs.Valid.{train_at};

use disp_model::{Operation, Problem};

/// The operations of a train, none where there is no such train.
pub fn train_of(problem: &Problem, train: u32) -> &[Operation]
    ensures { result.now ≡ train_at problem.now train }
{
    match problem.trains.as_slice().get(train as usize) {
        Some(operations) => operations.as_slice(),
        None => &[],
    }
}

/// The operations that may come next after one.
pub fn nexts_of(train: &[Operation], op: u32) -> &[u32]
    ensures { result.now ≡ next_of train.now op }
{
    match train.get(op as usize) {
        Some(operation) => operation.next.as_slice(),
        None => &[],
    }
}

/// How long an operation lasts at least.
pub fn min_of(train: &[Operation], op: u32) -> u32
    ensures { result ≡ duration_of train.now op }
{
    match train.get(op as usize) {
        Some(operation) => operation.min,
        None => 0,
    }
}
