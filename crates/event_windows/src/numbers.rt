ghost use Rattle.std.specs.Prelude.{◌≡◌, ◌+◌, ◌<◌, IfOk, OnOk, MatchOption, length};
ghost use Rattle.event_windows.specs.Operations.{HasOperation, operations_before, ListsFirst, AreOperationsOf, AreFirstNumbers, IsAtNumber};

use disp_model::{Memory, Op, Problem};
use std::alloc::Global;

/// Adds the operations of a train.
fn push_train(ops: &mut Vec<Op>, problem: &Problem, train: u32) -> Result<(), Memory>
    requires there { train < length problem.now.trains }
    requires long { length ops.old.items ≡ operations_before problem.now train }
    requires lists { ListsFirst problem.now ops.old.items }
    ensures long { OnOk result (length ops.new.items ≡ operations_before problem.now (train + 1)) }
    ensures lists { OnOk result (ListsFirst problem.now ops.new.items) }
{
    let count = problem.trains.as_slice()[train as usize].len();
    for op in 0..count {
        ops.push(Op {
            train,
            op: op as u32,
        })?;
    }
    Ok(())
}

/// The operations of a problem in the order of their numbers, trains in order: the operation of
/// number n stands at place n. Takes time linear in the operations.
pub fn operations(alloc: Global, problem: &Problem) -> Result<Vec<Op>, Memory>
    ensures { IfOk result (λ ops. AreOperationsOf problem.now ops.items) }
{
    let mut ops = Vec::new(alloc);
    for train in 0..problem.trains.len() {
        push_train(&mut ops, problem, train as u32)?;
    }
    Ok(ops)
}

/// The number of each train's first operation.
pub(crate) fn first_numbers(alloc: Global, problem: &Problem) -> Result<Vec<usize>, Memory>
    ensures { IfOk result (λ firsts. AreFirstNumbers problem.now firsts.items) }
{
    let mut firsts = Vec::with_capacity(alloc, problem.trains.len())?;
    let mut count = 0;
    for train in problem.trains.as_slice() {
        firsts.push(count)?;
        count += train.len();
    }
    Ok(firsts)
}

/// The number of an operation, where the problem has it, by the numbers of the first operations.
pub(crate) fn number(problem: &Problem, firsts: &[usize], train: u64, op: u64) -> Option<usize>
    requires { AreFirstNumbers problem.now firsts.now }
    ensures { MatchOption result (¬ HasOperation problem.now (record { train = train; op = op }))
        (λ n. IsAtNumber problem.now (record { train = train; op = op }) n) }
{
    let first = *firsts.get(train as usize)?;
    let operations = problem.trains.as_slice().get(train as usize)?;
    if op < operations.len() as u64 {
        Some(first + op as usize)
    } else {
        None
    }
}
