ghost use Rattle.std.specs.Prelude.{◌≡◌, ◌↔◌, ℕ, List, Some, IsTrue};
ghost use Rattle.disp_model.specs.declared.fixing.Fixing.{Fixing};
ghost use Rattle.disp_model.specs.Node.{node_at};
ghost use Rattle.disp_model.specs.Arcs.{IsOrderArc, IsReleaseArc, IsLongestArc};
ghost use Rattle.node_facts.specs.Known.{IsKnown};
ghost use Rattle.node_facts.specs.Orders.{greater, AreKnown};

use crate::reading::{min_of, train_of};
use crate::train::TrainKnowledge;
use crate::trains::KnownTrains;
use decision_paths::DecisionPath;
use disp_model::{Op, Problem};
use problem_facts::release_between;

/// Whether two names are those of one operation.
pub fn is_same(op: Op, other: Op) -> bool
    ensures { IsTrue result ↔ (op ≡ other) }
{
    op.train == other.train && op.op == other.op
}

/// The length of the arc of an order that is decided: how long the first operation lasts, and how
/// long it holds what the second lists too.
fn order_arc(problem: &Problem, decisions: &DecisionPath, a: Op, b: Op) -> Option<u64>
    ensures { (n : ℕ) → (result ≡ Some n) ↔ IsOrderArc problem.now decisions.now a b n }
{
    if !decisions.puts_first(a, b) {
        return None;
    }
    match release_between(problem, a, b) {
        Some(release) => {
            let min = min_of(train_of(problem, a.train), a.op);
            Some(u64::from(min) + u64::from(release))
        }
        None => None,
    }
}

/// The length of the arc from what follows the first operation of a decided order: how long that
/// holds what the second lists too.
fn release_arc(
    problem: &Problem,
    known: &TrainKnowledge,
    decisions: &DecisionPath,
    next: Op,
    b: Op,
) -> Option<u64>
    requires { (fixings : List Fixing)
        × IsKnown (node_at problem.now fixings decisions.now) next.train known.now }
    ensures { (fixings : List Fixing)
        → IsKnown (node_at problem.now fixings decisions.now) next.train known.now
        → (n : ℕ) → (result ≡ Some n)
        ↔ IsReleaseArc (node_at problem.now fixings decisions.now) next b n }
{
    match known.holder(next.op) {
        Some(op) => {
            let holder = Op {
                train: next.train,
                op,
            };
            if !decisions.puts_first(holder, b) {
                return None;
            }
            match release_between(problem, holder, b) {
                Some(release) => Some(u64::from(release)),
                None => None,
            }
        }
        None => None,
    }
}

/// The greater of two lengths that may be known.
fn greater(length: Option<u64>, other: Option<u64>) -> Option<u64>
    ensures { result ≡ greater length other }
{
    match (length, other) {
        (Some(length), Some(other)) => Some(length.max(other)),
        _ => length.or(other),
    }
}

/// The length of the longest arc between two operations of a node, by what is known of its trains.
pub fn longest_arc(
    problem: &Problem,
    trains: &KnownTrains,
    decisions: &DecisionPath,
    from: Op,
    to: Op,
) -> Option<u64>
    requires { (fixings : List Fixing)
        × AreKnown (node_at problem.now fixings decisions.now) trains.now }
    ensures { (fixings : List Fixing)
        → AreKnown (node_at problem.now fixings decisions.now) trains.now
        → (n : ℕ) → (result ≡ Some n)
        ↔ IsLongestArc (node_at problem.now fixings decisions.now) from to n }
{
    let trains = trains.as_slice();
    let first = trains.get(from.train as usize)?;
    let second = trains.get(to.train as usize)?;
    if !first.is_forced(from.op) {
        return None;
    }
    if !second.is_forced(to.op) {
        return None;
    }
    if from.train == to.train {
        return first.least_between(from.op, to.op);
    }
    let ordered = order_arc(problem, decisions, from, to);
    let released = release_arc(problem, first, decisions, from, to);
    greater(ordered, released)
}
