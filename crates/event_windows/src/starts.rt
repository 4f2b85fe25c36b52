ghost use Rattle.std.specs.Prelude.{◌≡◌, List, IfOk};
ghost use Rattle.disp_model.specs.declared.fixing.Fixing.{Fixing};
ghost use Rattle.event_windows.specs.Operations.{HasOperation};
ghost use Rattle.event_windows.specs.Windows.{fixed_times, window_by, AreWindowsOf};

use crate::numbers::operations;
use crate::times::{FixedTimes, times_of};
use disp_model::{Fixing, Memory, Op, Problem};
use std::alloc::Global;

/// When an operation may start: from `lower` on, and until `upper`, where there is such a time.
#[derive(Clone, Copy, Debug, PartialEq, Eq)]
pub struct Window {
    pub lower: u64,
    pub upper: Option<u64>,
}

/// When an operation may start, by what fixings say of it.
fn window_of(problem: &Problem, op: Op, times: FixedTimes) -> Window
    requires { HasOperation problem.now op }
    ensures { (fixings : List Fixing) → times ≡ fixed_times fixings op
        → result ≡ window_by problem.now fixings op }
{
    let train = problem.trains.as_slice()[op.train as usize].as_slice();
    let operation = &train[op.op as usize];
    match times.start {
        Some(time) => Window {
            lower: time,
            upper: Some(time),
        },
        None => Window {
            lower: u64::from(operation.lower).max(times.not_before),
            upper: operation.upper.map(u64::from),
        },
    }
}

/// When each operation of a problem may start by the fixings, at the place of its number. The first
/// fixing that an operation started gives it both ends; of the times before which it is not to
/// start the greatest counts. Takes time linear in the operations and the fixings.
pub fn windows(alloc: Global, problem: &Problem, fixings: &[Fixing]) -> Result<Vec<Window>, Memory>
    ensures { IfOk result (λ windows. AreWindowsOf problem.now fixings.now windows.items) }
{
    let ops = operations(alloc, problem)?;
    let times = times_of(alloc, problem, ops.len(), fixings)?;
    let mut windows = Vec::with_capacity(alloc, ops.len())?;
    for (n, op) in ops.iter().enumerate() {
        windows.push(window_of(problem, *op, times[n]))?;
    }
    Ok(windows)
}
