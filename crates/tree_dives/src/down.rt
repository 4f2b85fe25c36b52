ghost use Rattle.std.specs.Prelude.{◌≡◌, true, false, IfOk, OnErr};
ghost use Rattle.disp_model.specs.Node.{with_decision};
ghost use Rattle.disp_model.specs.Nodes.{IsDead};
ghost use Rattle.node_leaves.specs.Reckoned.{ReckonsFor};
ghost use Rattle.tree_dives.specs.Halves.{IsBelowNode};
ghost use Rattle.tree_dives.specs.Downs.{sides_of, GoesDown};
ghost use Rattle.share_bound.specs.Known.{HoldFor};

use crate::grown::{Grown, append, append_back, push_branch, push_leaf};
use crate::guide::Guide;
use crate::leaves::leaves_of;
use crate::prefer::{Way, followed};
use branch_rules::children;
use disp_model::{Choice, Decision, Memory, Problem};
use event_graph::{ExtendNo, Graph};
use node_leaves::{Reckoning, child_leaf};
use share_bound::KnownShares;
use std::alloc::Global;

/// A subtree of which one place is still to be filled: its nodes before that place, and those
/// behind it, the last one first.
#[derive(Drop)]
pub(crate) struct Halves {
    pub before: Grown,
    pub behind: Grown,
}

/// Adds a decision, and says whether it is not refused.
fn follow(graph: &mut Graph, known: &mut KnownShares, decision: Decision) -> Result<bool, Memory>
    requires known { HoldFor graph.old known.old }
    ensures known { HoldFor graph.new known.new }
    ensures yes { IfOk result
        (λ is. is ≡ true → graph.new ≡ with_decision graph.old decision) }
    ensures no { IfOk result (λ is. is ≡ false → graph.new ≡ graph.old) }
    ensures dead { IfOk result
        (λ is. is ≡ false → IsDead (with_decision graph.old decision)) }
    ensures err { OnErr result (graph.new ≡ graph.old) }
{
    match graph.extend(decision) {
        Ok(()) => {
            let _aside = known.set_aside(decision);
            Ok(true)
        }
        Err(ExtendNo::Memory) => Err(Memory),
        Err(ExtendNo::NoRoute(_)) => Ok(false),
        Err(ExtendNo::Cycle(_)) => Ok(false),
    }
}

/// Branches at the node of a graph, and goes down to one child. The others become leaves. Says
/// whether a place is left to be filled, which is that child's: none is where the child is dead.
pub(crate) fn go_down(
    alloc: Global,
    problem: &Problem,
    reckoning: &Reckoning,
    graph: &mut Graph,
    known: &mut KnownShares,
    halves: &mut Halves,
    choice: Choice,
    guide: &Guide,
    way: Way,
) -> Result<bool, Memory>
    requires node { graph.old.problem ≡ problem.now }
    requires reckons { ReckonsFor problem.now reckoning.now }
    requires known { HoldFor graph.old known.old }
    ensures below { IsBelowNode graph.old graph.new }
    ensures known { HoldFor graph.new known.new }
    ensures down { IfOk result (GoesDown reckoning.now.rule choice graph.old (sides_of halves.old)
        graph.new (sides_of halves.new)) }
{
    let children = children(alloc, problem, choice)?;
    push_branch(&mut halves.before, choice, children.len() as u32)?;
    let orders = guide.adviser.orders();
    let place = followed(
        problem,
        graph,
        &guide.target,
        orders,
        children.as_slice(),
        way,
    );
    let (first, rest) = children.as_slice().split_at(place);
    let left = leaves_of(alloc, problem, reckoning, graph, known, first)?;
    append(&mut halves.before, left)?;
    let Some((taken, last)) = rest.split_first() else {
        return Ok(false);
    };
    let right = leaves_of(alloc, problem, reckoning, graph, known, last)?;
    if follow(graph, known, *taken)? {
        append_back(&mut halves.behind, right)?;
        return Ok(true);
    }
    let leaf = child_leaf(alloc, problem, reckoning, graph, known, *taken)?;
    push_leaf(&mut halves.before, leaf)?;
    append(&mut halves.before, right)?;
    Ok(false)
}
