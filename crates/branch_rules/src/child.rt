ghost use Rattle.std.specs.Prelude.{◌≡◌, [], ◌∷◌, IfOk, map};
ghost use Rattle.disp_model.specs.declared.decision.Decision.TheVariants.{Go};
ghost use Rattle.disp_model.specs.Train.{next_of};
ghost use Rattle.disp_model.specs.Valid.{train_at};
ghost use Rattle.disp_model.specs.Trees.{children_of};

use disp_model::{Choice, Decision, List, Memory, Op, Problem};
use std::alloc::Global;

/// The operations that may come next after one, none where it is not there.
fn next_of<'a>(problem: &'a Problem, op: Op) -> &'a [u32]
    ensures { result.now ≡ next_of (train_at problem.now op.train) op.op }
{
    let Some(train) = problem.trains.as_slice().get(op.train as usize) else {
        return &[];
    };
    match train.as_slice().get(op.op as usize) {
        Some(operation) => operation.next.as_slice(),
        None => &[],
    }
}

/// One decision for each operation that may come next, in their order.
fn ways_on(alloc: Global, op: Op, next: &[u32]) -> Result<List<Decision>, Memory>
    ensures { IfOk result (λ ways. ways ≡ map (λ s. Go op s) next.now) }
{
    let mut ways = List::new(alloc);
    for next in next {
        ways.push(Decision::Go { op, next: *next })?;
    }
    Ok(ways)
}

/// Two decisions.
fn both(alloc: Global, one: Decision, other: Decision) -> Result<List<Decision>, Memory>
    ensures { IfOk result (λ decisions. decisions ≡ one ∷ other ∷ []) }
{
    Ok(List::from_vec(vec![in alloc; one, other]?))
}

/// The decisions that a choice leaves: of a route one for each operation that may come next, in the
/// problem's order, none where the operation is not there; of an order and of a run two.
///
/// # Errors
///
/// `Memory` where memory runs out.
pub fn children(alloc: Global, problem: &Problem, choice: Choice) -> Result<List<Decision>, Memory>
    ensures { IfOk result (λ children. children ≡ children_of problem.now choice) }
{
    match choice {
        Choice::Route(op) => ways_on(alloc, op, next_of(problem, op)),
        Choice::Order(a, b) => both(
            alloc,
            Decision::First { a, b },
            Decision::First { a: b, b: a },
        ),
        Choice::Run(op) => both(alloc, Decision::Run(op), Decision::Skip(op)),
    }
}
