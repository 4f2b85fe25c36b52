ghost use Rattle.std.specs.Prelude.{◌≡◌, ◌↔◌, IsTrue, Some};
ghost use Rattle.disp_model.specs.Node.{node_at};
ghost use Rattle.disp_model.specs.Walks.{EndsIn};
ghost use Rattle.disp_model.specs.Trees.{IsLateWalk};
ghost use Rattle.node_facts.specs.Orders.{AreKnown};
ghost use Rattle.node_facts.specs.Windows.{IsAboveBound};
ghost use Rattle.disp_model.specs.declared.train.Op.{Op};

use crate::fixing_index::FixingIndex;
use crate::trains::KnownTrains;
use crate::walks::walk_length;
use crate::windows::upper_of;
use decision_paths::DecisionPath;
use disp_model::{Op, Problem};

/// The operation in which a walk ends.
pub fn end_of(walk: &[Op]) -> Option<Op>
    ensures { (o : Op) → (result ≡ Some o) ↔ EndsIn walk.now o }
{
    match walk.split_last() {
        Some((end, _)) => Some(*end),
        None => None,
    }
}

/// Whether a length is above an upper.
fn is_above(total: u128, upper: Option<u64>) -> bool
    ensures { IsTrue result ↔ IsAboveBound total upper }
{
    match upper {
        Some(upper) => u128::from(upper) < total,
        None => false,
    }
}

/// Whether the operations are a walk that is longer than the upper of its end.
pub fn is_late(
    problem: &Problem,
    fixings: &FixingIndex,
    decisions: &DecisionPath,
    trains: &KnownTrains,
    walk: &[Op],
) -> bool
    requires { AreKnown (node_at problem.now fixings.now decisions.now) trains.now }
    ensures { IsTrue result
        ↔ IsLateWalk (node_at problem.now fixings.now decisions.now) walk.now }
{
    let Some(end) = end_of(walk) else {
        return false;
    };
    match walk_length(problem, fixings, decisions, trains, walk) {
        Some(total) => is_above(total, upper_of(problem, fixings, end)),
        None => false,
    }
}
