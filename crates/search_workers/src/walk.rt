ghost use Rattle.std.specs.Prelude.{◌≡◌, ◌≤◌, ◌↔◌, IsTrue, IfOk, length, take};
ghost use Rattle.disp_model.specs.Node.{Node, node_at, with_decision};
ghost use Rattle.event_graph.specs.Kept.{IsRefusedAt};
ghost use Rattle.node_leaves.specs.Shown.{IsDeadLeaf};
ghost use Rattle.share_bound.specs.Known.{HoldFor};
ghost use Rattle.near_plans.specs.Plans.{IsBeside};
ghost use Rattle.search_workers.specs.Walks.{Arrives};

use disp_model::{Decision, Leaf, Memory};
use event_graph::{ExtendNo, Graph};
use share_bound::KnownShares;
use tree_dives::rewind_knowing;

/// Whether two decisions are the same.
fn is_same(one: Decision, other: Decision) -> bool
    ensures { IsTrue result ↔ (one ≡ other) }
{
    one == other
}

/// How many decisions two lists have in common at their front.
fn common(one: &[Decision], other: &[Decision]) -> usize
    ensures within { (result ≤ length one.now) × (result ≤ length other.now) }
    ensures same { take result one.now ≡ take result other.now }
{
    let least = one.len().min(other.len());
    for place in 0..least {
        if !is_same(one[place], other[place]) {
            return place;
        }
    }
    least
}

/// The leaf that shows that a node is dead which a graph refused. Fails for memory alone.
pub fn refused_leaf(no: ExtendNo) -> Result<Leaf, Memory>
    ensures { (node : Node) → IsRefusedAt node no → IfOk result (IsDeadLeaf node) }
{
    match no {
        ExtendNo::NoRoute(_) => Ok(Leaf::NoRoute),
        ExtendNo::Cycle(nodes) => Ok(Leaf::Cycle(nodes)),
        ExtendNo::Memory => Err(Memory),
    }
}

/// Adds a decision; where it is refused, gives the leaf that shows it.
fn step(
    graph: &mut Graph,
    known: &mut KnownShares,
    decision: Decision,
) -> Result<Option<Leaf>, Memory>
    requires known { HoldFor graph.old known.old }
    ensures known { HoldFor graph.new known.new }
    ensures beside { IsBeside graph.old graph.new }
    ensures at { IfOk result (Arrives (with_decision graph.old decision) graph.new) }
{
    let _aside = known.set_aside(decision);
    match graph.extend(decision) {
        Ok(()) => Ok(None),
        Err(no) => Ok(Some(refused_leaf(no)?)),
    }
}

/// Moves a graph to the node of these decisions, over those that it has in common with the node
/// where it is. Where one on the way is refused, gives the leaf that shows it; the graph stays
/// there. What is known of shares holds where the graph is.
pub(crate) fn go_to(
    graph: &mut Graph,
    known: &mut KnownShares,
    decisions: &[Decision],
) -> Result<Option<Leaf>, Memory>
    requires known { HoldFor graph.old known.old }
    ensures known { HoldFor graph.new known.new }
    ensures beside { IsBeside graph.old graph.new }
    ensures at { IfOk result
        (Arrives (node_at graph.old.problem graph.old.fixings decisions.now) graph.new) }
{
    let shared = common(graph.decisions(), decisions);
    rewind_knowing(graph, known, shared);
    for place in shared..decisions.len() {
        match step(graph, known, decisions[place])? {
            Some(leaf) => return Ok(Some(leaf)),
            None => {}
        }
    }
    Ok(None)
}
