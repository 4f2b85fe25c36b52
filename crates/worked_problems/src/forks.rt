// A train with a choice of its way.
ghost use Rattle.std.specs.Prelude.{◌≡◌, [], ◌∷◌, IfOk, length};
ghost use Rattle.worked_problems.specs.Worked.{dear_fork_costs, exit_costs, fork_costs, forking_train};

use crate::parts::{costing, lasting};
use disp_model::{Component, List, Memory, Problem, Train};
use std::alloc::Global;

fn forking(alloc: Global) -> Result<Train, Memory>
    ensures { IfOk result (λ t. t ≡ forking_train) }
{
    let entry = lasting(alloc, None, 0, &[], &[1, 2])?;
    let one = lasting(alloc, None, 5, &[], &[3])?;
    let other = lasting(alloc, None, 3, &[], &[3])?;
    let exit = lasting(alloc, None, 0, &[], &[])?;
    Ok(List::from_vec(vec![in alloc; entry, one, other, exit]?))
}

/// One train: from 0 to 1 or 2, of the durations 5 and 3, and from both to 3. To run 2 costs 10,
/// and each unit of time costs 1 at the exit.
pub fn forked(alloc: Global) -> Result<Problem, Memory>
    ensures count { IfOk result (λ problem. length problem.trains ≡ 1) }
    ensures trains { IfOk result (λ problem. problem.trains ≡ forking_train ∷ []) }
    ensures costs { IfOk result (λ problem. problem.components ≡ fork_costs) }
    ensures names { IfOk result (λ problem. problem.names ≡ []) }
{
    let train = forking(alloc)?;
    let costs = vec![in alloc; costing(0, 2, 0, 10), costing(0, 3, 1, 0)]?;
    Ok(Problem {
        trains: List::from_vec(vec![in alloc; train]?),
        components: List::from_vec(costs),
        names: List::new(alloc),
    })
}

/// `forked`, where to run 1 costs 4.
pub fn dear_fork(alloc: Global) -> Result<Problem, Memory>
    ensures count { IfOk result (λ problem. length problem.trains ≡ 1) }
    ensures trains { IfOk result (λ problem. problem.trains ≡ forking_train ∷ []) }
    ensures costs { IfOk result (λ problem. problem.components ≡ dear_fork_costs) }
    ensures names { IfOk result (λ problem. problem.names ≡ []) }
{
    let train = forking(alloc)?;
    let costs = vec![in alloc;
        costing(0, 1, 0, 4),
        costing(0, 2, 0, 10),
        costing(0, 3, 1, 0),
    ]?;
    Ok(Problem {
        trains: List::from_vec(vec![in alloc; train]?),
        components: List::from_vec(costs),
        names: List::new(alloc),
    })
}

/// `forked`, where to run 2 costs nothing.
pub fn plain_fork(alloc: Global) -> Result<Problem, Memory>
    ensures count { IfOk result (λ problem. length problem.trains ≡ 1) }
    ensures trains { IfOk result (λ problem. problem.trains ≡ forking_train ∷ []) }
    ensures costs { IfOk result (λ problem. problem.components ≡ exit_costs) }
    ensures names { IfOk result (λ problem. problem.names ≡ []) }
{
    let train = forking(alloc)?;
    let costs = vec![in alloc; costing(0, 3, 1, 0)]?;
    Ok(Problem {
        trains: List::from_vec(vec![in alloc; train]?),
        components: List::from_vec(costs),
        names: List::new(alloc),
    })
}
