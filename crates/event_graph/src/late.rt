ghost use Rattle.std.specs.Prelude.{◌↔◌, List, IsTrue, All, Contains, MatchOption};
ghost use Rattle.disp_model.specs.declared.train.Op.{Op as OpOf};
ghost use Rattle.disp_model.specs.declared.fixing.Fixing.{Fixing};
ghost use Rattle.disp_model.specs.declared.decision.Decision.{Decision};
ghost use Rattle.disp_model.specs.Node.{node_at};
ghost use Rattle.disp_model.specs.Routes.{IsForced};
ghost use Rattle.event_windows.specs.Operations.{HasOperation};
ghost use Rattle.event_arcs.specs.Placed.{ArePlaced};

use disp_model::{Op, Problem};
use event_arcs::Placed;

/// Whether its train must run the operation.
fn is_forced(problem: &Problem, each: &[Placed], op: Op) -> bool
    requires there { HasOperation problem.now op }
    requires placed { (fixings : List Fixing) × (decisions : List Decision)
        × ArePlaced (node_at problem.now fixings decisions) each.now }
    ensures { (fixings : List Fixing) (decisions : List Decision)
        → ArePlaced (node_at problem.now fixings decisions) each.now
        → (IsTrue result ↔ IsForced (node_at problem.now fixings decisions) op) }
{
    each[op.train as usize].routes.forced(op.op)
}

/// The first of these operations that its train must run.
pub(crate) fn first_forced(problem: &Problem, each: &[Placed], ops: &[Op]) -> Option<Op>
    requires there { All (HasOperation problem.now) ops.now }
    requires placed { (fixings : List Fixing) × (decisions : List Decision)
        × ArePlaced (node_at problem.now fixings decisions) each.now }
    ensures { (fixings : List Fixing) (decisions : List Decision)
        → ArePlaced (node_at problem.now fixings decisions) each.now
        → MatchOption result
        ((o : OpOf) → Contains ops.now o → IsForced (node_at problem.now fixings decisions) o → ⊥)
        (λ o. Contains ops.now o × IsForced (node_at problem.now fixings decisions) o) }
{
    for op in ops {
        if is_forced(problem, each, *op) {
            return Some(*op);
        }
    }
    None
}
