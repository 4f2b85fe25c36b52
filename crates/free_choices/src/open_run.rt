ghost use Rattle.std.specs.Prelude.{◌≡◌, IsTrue, Some};
ghost use Rattle.disp_model.specs.declared.settings.Rule.TheVariants.{Free};
ghost use Rattle.disp_model.specs.declared.decision.Choice.TheVariants.{Run};
ghost use Rattle.disp_model.specs.Earliest.{IsPicked};

use disp_model::{Op, Problem};
use event_graph::Graph;

/// Whether an operation is on some allowed route of its train and not on all, so that it is open
/// whether it is run.
pub(crate) fn is_open_run(problem: &Problem, graph: &Graph, op: Op) -> bool
    requires { graph.now.problem ≡ problem.now }
    ensures { IsTrue result → IsPicked graph.now Free (Some (Run op)) }
{
    if op.train as usize >= problem.trains.len() {
        return false;
    }
    let routes = graph.routes(op.train);
    if routes.forced(op.op) {
        return false;
    }
    routes.may_have(op.op)
}
