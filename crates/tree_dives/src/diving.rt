ghost use Rattle.std.specs.Prelude.{◌≡◌, IfOk};
ghost use Rattle.node_leaves.specs.declared.leaf.NodeLeaf.{NodeLeaf as NodeLeafOf};
ghost use Rattle.node_leaves.specs.Reckoned.{ReckonsFor};
ghost use Rattle.node_leaves.specs.Shown.{IsLeafOf};
ghost use Rattle.tree_dives.specs.Dives.{IsDive};
ghost use Rattle.tree_dives.specs.Guides.{GuidesIn};
ghost use Rattle.tree_dives.specs.Wholes.{IsDiveWhole, with_leaf};
ghost use Rattle.tree_dives.specs.Downs.{sides_of};
ghost use Rattle.tree_dives.specs.Halves.{IsBelowNode};
ghost use Rattle.share_bound.specs.Known.{HoldFor};

use crate::down::{Halves, go_down};
use crate::given::Dive;
use crate::grown::{append_back, nothing, push_leaf};
use crate::guide::Guide;
use crate::prefer::Way;
use crate::rewinding::rewind_knowing;
use crate::stage::{End, Stage, stage_of};
use disp_model::{List, Memory, Problem};
use event_graph::Graph;
use free_choices::Strategy;
use node_leaves::{Reckoning, leaf_of};
use share_bound::KnownShares;
use std::alloc::Global;

/// The subtree, where no place is left to be filled.
fn whole(halves: Halves, end: End) -> Result<Dive, Memory>
    ensures { IfOk result (IsDiveWhole (sides_of halves) end) }
{
    let Halves { mut before, behind } = halves;
    append_back(&mut before, behind)?;
    Ok(Dive {
        nodes: List::from_vec(before.nodes),
        bounds: List::from_vec(before.bounds),
        end,
    })
}

/// The subtree, where the node of the graph becomes a leaf.
fn ended(
    alloc: Global,
    problem: &Problem,
    reckoning: &Reckoning,
    graph: &Graph,
    known: &mut KnownShares,
    mut halves: Halves,
    end: End,
) -> Result<Dive, Memory>
    requires node { graph.now.problem ≡ problem.now }
    requires reckons { ReckonsFor problem.now reckoning.now }
    requires known { HoldFor graph.now known.old }
    ensures known { HoldFor graph.now known.new }
    ensures whole { IfOk result (λ dive. (shown : NodeLeafOf)
        × IsLeafOf reckoning.now.rule graph.now shown
        × IsDiveWhole (with_leaf (sides_of halves) shown) end dive) }
{
    let leaf = leaf_of(alloc, problem, reckoning, graph, known)?;
    push_leaf(&mut halves.before, leaf)?;
    whole(halves, end)
}

/// Goes down from the node of a graph, and leaves it at the last node.
fn dive_down(
    alloc: Global,
    problem: &Problem,
    reckoning: &Reckoning,
    graph: &mut Graph,
    known: &mut KnownShares,
    best: Option<u64>,
    allowance: u32,
    guide: &mut Guide,
) -> Result<Dive, Memory>
    requires node { graph.old.problem ≡ problem.now }
    requires reckons { ReckonsFor problem.now reckoning.now }
    requires known { HoldFor graph.old known.old }
    requires guide { GuidesIn problem.now guide.old }
    ensures below { IsBelowNode graph.old graph.new }
    ensures known { HoldFor graph.new known.new }
    ensures guide { GuidesIn problem.now guide.new }
    ensures dive { IfOk result (IsDive reckoning.now.rule graph.old best allowance) }
{
    let mut halves = Halves {
        before: nothing(alloc),
        behind: nothing(alloc),
    };
    let way = Way::of(allowance, best);
    for _ in 0..allowance {
        let strategy = guide.strategy;
        match stage_of(
            alloc, problem, reckoning, graph, known, guide, strategy, best,
        )? {
            Stage::Branch(choice) => {
                if !go_down(
                    alloc,
                    problem,
                    reckoning,
                    graph,
                    known,
                    &mut halves,
                    choice,
                    guide,
                    way,
                )? {
                    return whole(halves, End::Closed);
                }
            }
            Stage::End(end) => return ended(alloc, problem, reckoning, graph, known, halves, end),
        }
    }
    match stage_of(
        alloc,
        problem,
        reckoning,
        graph,
        known,
        guide,
        Strategy::Any,
        best,
    )? {
        Stage::Branch(_) => ended(alloc, problem, reckoning, graph, known, halves, End::Open),
        Stage::End(end) => ended(alloc, problem, reckoning, graph, known, halves, end),
    }
}

/// Branches at the node of a graph, follows one child and branches there, and so on, at most so
/// often. The child that the target takes is followed, or else the one that costs least, or
/// another where a dive of more than a few branches sees that one to be closed; the others become
/// leaves. It ends earlier at a node that is dead, or whose bound is not below the best cost, or
/// where nothing is picked. Choices are picked, and bounds reckoned, by the rule of the reckoning.
/// The graph is as before, what is known of shares holds for its node, and what the guide keeps is
/// of the problem.
///
/// # Errors
///
/// `Memory` where memory runs out.
pub fn dive(
    alloc: Global,
    problem: &Problem,
    reckoning: &Reckoning,
    graph: &mut Graph,
    known: &mut KnownShares,
    best: Option<u64>,
    allowance: u32,
    guide: &mut Guide,
) -> Result<Dive, Memory>
    requires node { graph.old.problem ≡ problem.now }
    requires reckons { ReckonsFor problem.now reckoning.now }
    requires known { HoldFor graph.old known.old }
    requires guide { GuidesIn problem.now guide.old }
    ensures same { graph.new ≡ graph.old }
    ensures known { HoldFor graph.new known.new }
    ensures guide { GuidesIn problem.now guide.new }
    ensures dive { IfOk result (IsDive reckoning.now.rule graph.old best allowance) }
{
    guide.begin();
    let depth = graph.decisions().len();
    let dive = dive_down(
        alloc, problem, reckoning, graph, known, best, allowance, guide,
    );
    rewind_knowing(graph, known, depth);
    dive
}
