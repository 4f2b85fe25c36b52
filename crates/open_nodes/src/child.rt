ghost use Rattle.std.specs.Prelude.{◌≡◌, [], ◌∷◌, slice_get};
ghost use Rattle.disp_model.specs.Train.{next_of};
ghost use Rattle.disp_model.specs.Valid.{train_at};
ghost use Rattle.disp_model.specs.Trees.{children_of};

use disp_model::{Choice, Decision, Op, Problem};

/// The operation that is the so many-th to come next after one.
fn way_on(problem: &Problem, op: Op, place: usize) -> Option<u32>
    ensures { result ≡ slice_get (next_of (train_at problem.now op.train) op.op) place }
{
    let train = problem.trains.as_slice().get(op.train as usize)?;
    let operation = train.as_slice().get(op.op as usize)?;
    operation.next.as_slice().get(place).copied()
}

/// One of two decisions, by its place.
fn one_of(place: usize, one: Decision, other: Decision) -> Option<Decision>
    ensures { result ≡ slice_get (one ∷ other ∷ []) place }
{
    match place {
        0 => Some(one),
        1 => Some(other),
        _ => None,
    }
}

/// The child of a choice by its place, none behind the last.
pub fn child(problem: &Problem, choice: Choice, place: usize) -> Option<Decision>
    ensures { result ≡ slice_get (children_of problem.now choice) place }
{
    match choice {
        Choice::Route(op) => {
            let next = way_on(problem, op, place)?;
            Some(Decision::Go { op, next })
        }
        Choice::Order(a, b) => one_of(
            place,
            Decision::First { a, b },
            Decision::First { a: b, b: a },
        ),
        Choice::Run(op) => one_of(place, Decision::Run(op), Decision::Skip(op)),
    }
}
