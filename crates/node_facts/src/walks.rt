ghost use Rattle.std.specs.Prelude.{◌≡◌, ◌↔◌, ◌+◌, ◌^◌, ◌≤◌, ◌∷◌, ℕ, IsTrue, List, Some};
ghost use Rattle.disp_model.specs.declared.fixing.Fixing.{Fixing};
ghost use Rattle.disp_model.specs.Node.{Node, node_at};
ghost use Rattle.disp_model.specs.Routes.{IsForced};
ghost use Rattle.disp_model.specs.Walks.{WalksOn, IsWalk};
ghost use Rattle.node_facts.specs.Orders.{AreKnown};

use crate::arcs::longest_arc;
use crate::fixing_index::FixingIndex;
use crate::trains::KnownTrains;
use crate::windows::lower_of;
use decision_paths::DecisionPath;
use disp_model::{Op, Problem};

/// Whether an operation is forced.
pub fn is_forced(trains: &KnownTrains, op: Op) -> bool
    ensures { (node : Node) → AreKnown node trains.now → IsTrue result ↔ IsForced node op }
{
    match trains.as_slice().get(op.train as usize) {
        Some(known) => known.is_forced(op.op),
        None => false,
    }
}

/// The length of a walk with one step more.
fn further(total: u128, length: u64) -> u128
    requires { total ≤ 2 ^ 127 }
    ensures sum { result ≡ total + length }
    ensures small { result ≤ total + 2 ^ 64 }
{
    total + u128::from(length)
}

/// The length of a walk that has come to an operation and goes on to others; none where two that
/// follow one another have no arc.
fn walks_on(
    problem: &Problem,
    trains: &KnownTrains,
    decisions: &DecisionPath,
    first: Op,
    walked: u64,
    rest: &[Op],
) -> Option<u128>
    requires { (fixings : List Fixing)
        × AreKnown (node_at problem.now fixings decisions.now) trains.now }
    ensures { (fixings : List Fixing)
        → AreKnown (node_at problem.now fixings decisions.now) trains.now
        → (n : ℕ) → (result ≡ Some n)
        ↔ WalksOn (node_at problem.now fixings decisions.now) first walked rest.now n }
{
    let mut total = u128::from(walked);
    let mut from = first;
    for to in rest {
        let Some(length) = longest_arc(problem, trains, decisions, from, *to) else {
            return None;
        };
        total = further(total, length);
        from = *to;
    }
    Some(total)
}

/// The length of a walk from an operation along others.
fn walk_from(
    problem: &Problem,
    fixings: &FixingIndex,
    decisions: &DecisionPath,
    trains: &KnownTrains,
    first: Op,
    rest: &[Op],
) -> Option<u128>
    requires { AreKnown (node_at problem.now fixings.now decisions.now) trains.now }
    ensures { (n : ℕ) → (result ≡ Some n)
        ↔ IsWalk (node_at problem.now fixings.now decisions.now) (first ∷ rest.now) n }
{
    if !is_forced(trains, first) {
        return None;
    }
    let walked = lower_of(problem, fixings, first);
    walks_on(problem, trains, decisions, first, walked, rest)
}

/// The length of a walk; none where the list is no walk of the node. A walk may pass an operation
/// more than once.
pub fn walk_length(
    problem: &Problem,
    fixings: &FixingIndex,
    decisions: &DecisionPath,
    trains: &KnownTrains,
    walk: &[Op],
) -> Option<u128>
    requires { AreKnown (node_at problem.now fixings.now decisions.now) trains.now }
    ensures { (n : ℕ) → (result ≡ Some n)
        ↔ IsWalk (node_at problem.now fixings.now decisions.now) walk.now n }
{
    match walk.split_first() {
        Some((first, rest)) => walk_from(problem, fixings, decisions, trains, *first, rest),
        None => None,
    }
}
