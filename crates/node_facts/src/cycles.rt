ghost use Rattle.std.specs.Prelude.{◌↔◌, List, IsTrue};
ghost use Rattle.disp_model.specs.declared.fixing.Fixing.{Fixing};
ghost use Rattle.disp_model.specs.Node.{node_at};
ghost use Rattle.disp_model.specs.Arcs.{HasArc};
ghost use Rattle.disp_model.specs.Walks.{ClosesTo, IsCycle};
ghost use Rattle.node_facts.specs.Orders.{AreKnown};

use crate::arcs::longest_arc;
use crate::trains::KnownTrains;
use decision_paths::DecisionPath;
use disp_model::{Op, Problem};

/// Whether there is an arc between two operations.
pub fn has_arc(
    problem: &Problem,
    trains: &KnownTrains,
    decisions: &DecisionPath,
    from: Op,
    to: Op,
) -> bool
    requires { (fixings : List Fixing)
        × AreKnown (node_at problem.now fixings decisions.now) trains.now }
    ensures { (fixings : List Fixing)
        → AreKnown (node_at problem.now fixings decisions.now) trains.now
        → IsTrue result ↔ HasArc (node_at problem.now fixings decisions.now) from to }
{
    match longest_arc(problem, trains, decisions, from, to) {
        Some(_) => true,
        None => false,
    }
}

/// Whether an arc leads from each operation to the next, from one on, and from the last to the
/// first.
fn closes(
    problem: &Problem,
    trains: &KnownTrains,
    decisions: &DecisionPath,
    first: Op,
    second: Op,
    rest: &[Op],
) -> bool
    requires { (fixings : List Fixing)
        × AreKnown (node_at problem.now fixings decisions.now) trains.now }
    ensures { (fixings : List Fixing)
        → AreKnown (node_at problem.now fixings decisions.now) trains.now → IsTrue result
        ↔ ClosesTo (node_at problem.now fixings decisions.now) first second rest.now }
{
    let mut from = second;
    for to in rest {
        if !has_arc(problem, trains, decisions, from, *to) {
            return false;
        }
        from = *to;
    }
    has_arc(problem, trains, decisions, from, first)
}

/// Whether the operations are a cycle: two at least, with an arc from each to the next, and from
/// the last to the first.
pub fn is_cycle(
    problem: &Problem,
    trains: &KnownTrains,
    decisions: &DecisionPath,
    nodes: &[Op],
) -> bool
    requires { (fixings : List Fixing)
        × AreKnown (node_at problem.now fixings decisions.now) trains.now }
    ensures { (fixings : List Fixing)
        → AreKnown (node_at problem.now fixings decisions.now) trains.now → IsTrue result
        ↔ IsCycle (node_at problem.now fixings decisions.now) nodes.now }
{
    match nodes.split_first() {
        Some((first, rest)) => {
            rest.len() > 0 && closes(problem, trains, decisions, *first, *first, rest)
        }
        None => false,
    }
}
