ghost use Rattle.std.specs.Prelude.{◌≡◌, IsTrue, Some};
ghost use Rattle.disp_model.specs.declared.settings.Rule.TheVariants.{Free};
ghost use Rattle.disp_model.specs.declared.decision.Choice.TheVariants.{Route};
ghost use Rattle.disp_model.specs.Train.{IsExit};
ghost use Rattle.disp_model.specs.Valid.{train_at};
ghost use Rattle.disp_model.specs.Earliest.{IsPicked};

use disp_model::{Op, Problem};
use event_graph::Graph;
use first_overlaps::is_forced;

/// Whether an operation goes on to another.
fn goes_on(problem: &Problem, op: Op) -> bool
    ensures { IsTrue result → IsExit (train_at problem.now op.train) op.op → ⊥ }
{
    let Some(train) = problem.trains.as_slice().get(op.train as usize) else {
        return false;
    };
    match train.as_slice().get(op.op as usize) {
        Some(operation) => operation.next.len() > 0,
        None => false,
    }
}

/// Whether the allowed routes of a train part at an operation, so that its route is open.
pub(crate) fn is_open_route(problem: &Problem, graph: &Graph, op: Op) -> bool
    requires { graph.now.problem ≡ problem.now }
    ensures { IsTrue result → IsPicked graph.now Free (Some (Route op)) }
{
    if !is_forced(problem, graph, op) {
        return false;
    }
    if !goes_on(problem, op) {
        return false;
    }
    match graph.routes(op.train).only_next(op.op) {
        Some(_) => false,
        None => true,
    }
}
