ghost use Rattle.std.specs.Prelude.{IfOk, OnOk, length, reverse};
ghost use Rattle.disp_model.specs.Node.{node_at};
ghost use Rattle.node_facts.specs.Orders.{AreKnown};
ghost use Rattle.tree_checker.specs.Places.{IsNested, IsStep};
ghost use Rattle.tree_checker.specs.Checks.{IsChecked};
ghost use Rattle.problem_facts.specs.Components.{AreOwnOf};

use crate::children::decisions_below;
use crate::descent::descend;
use crate::judging::judge;
use crate::known::KnownNode;
use crate::places::{Place, open};
use crate::why::{Checked, Why};
use decision_paths::DecisionPath;
use disp_model::{Fixing, Memory, Problem, TreeNode, Verdict};
use node_facts::{FixingIndex, KnownTrains};
use packed_nodes::PackedNode;
use problem_facts::OwnComponents;
use std::alloc::Global;

/// What a tree is to show, and of what.
#[derive(Clone, Copy)]
struct Claim<'a> {
    problem: &'a Problem,
    fixings: &'a FixingIndex,
    own: &'a OwnComponents,
    verdict: Verdict,
}

/// Puts a node of the tree into the next place, and its children before those that are left; says
/// why it does not hold there, if it does not.
fn step(
    alloc: Global,
    claim: Claim,
    path: &mut DecisionPath,
    trains: &mut KnownTrains,
    places: &mut Vec<Place>,
    top: &TreeNode,
) -> Result<Option<Why>, Memory>
    requires nested { IsNested (length path.old) (reverse places.old.items) }
    requires known { AreKnown (node_at claim.problem.now claim.fixings.now path.old) trains.old }
    requires own { AreOwnOf claim.problem.now claim.own.now }
    ensures steps { IfOk result (IsStep claim.entry.problem.now claim.entry.fixings.now
        claim.entry.verdict top.now path.old path.new places.old.items places.new.items) }
    ensures known { OnOk result (AreKnown
        (node_at claim.entry.problem.now claim.entry.fixings.now path.new) trains.new) }
{
    let Some(place) = places.pop() else {
        return Ok(Some(Why::BadChoice));
    };
    descend(alloc, claim.problem, claim.fixings, path, trains, place)?;
    let here = KnownNode {
        problem: claim.problem,
        fixings: claim.fixings,
        decisions: &*path,
        trains: &*trains,
        own: claim.own,
    };
    if let Some(why) = judge(alloc, here, claim.verdict, top)? {
        return Ok(Some(why));
    }
    let below = decisions_below(alloc, claim.problem, top)?;
    open(places, path.len(), &below)?;
    Ok(None)
}

/// Unpacks a node of the tree, and does the same with it.
fn unpacked_step(
    alloc: Global,
    claim: Claim,
    path: &mut DecisionPath,
    trains: &mut KnownTrains,
    places: &mut Vec<Place>,
    packed: &PackedNode,
) -> Result<Option<Why>, Memory>
    requires nested { IsNested (length path.old) (reverse places.old.items) }
    requires known { AreKnown (node_at claim.problem.now claim.fixings.now path.old) trains.old }
    requires own { AreOwnOf claim.problem.now claim.own.now }
    ensures steps { IfOk result (IsStep claim.entry.problem.now claim.entry.fixings.now
        claim.entry.verdict packed.now path.old path.new places.old.items places.new.items) }
    ensures known { OnOk result (AreKnown
        (node_at claim.entry.problem.now claim.entry.fixings.now path.new) trains.new) }
{
    let top = packed.node(alloc)?;
    step(alloc, claim, path, trains, places, &top)
}

/// What is to be said of a tree: accepted, or the first node that is refused, and why.
fn check_tree(
    alloc: Global,
    problem: &Problem,
    fixings: &FixingIndex,
    verdict: Verdict,
    tree: &[PackedNode],
) -> Result<Checked, Memory>
    ensures { IfOk result (IsChecked problem.now fixings.now verdict tree.now) }
{
    let mut path = DecisionPath::new(alloc, problem.trains.len())?;
    let mut trains = KnownTrains::of(alloc, problem, fixings, &path)?;
    let own = OwnComponents::of(alloc, problem)?;
    let claim = Claim {
        problem,
        fixings,
        own: &own,
        verdict,
    };
    let mut places = Vec::new(alloc);
    places.push(Place {
        depth: 0,
        decision: None,
    })?;
    for (node, packed) in tree.iter().enumerate() {
        if let Some(why) = unpacked_step(
            alloc,
            claim,
            &mut path,
            &mut trains,
            &mut places,
            packed,
        )? {
            return Ok(Checked::Refused { node, why });
        }
    }
    if places.is_empty() {
        Ok(Checked::Accepted)
    } else {
        Ok(Checked::Refused {
            node: tree.len(),
            why: Why::BadChoice,
        })
    }
}

/// Checks a tree by the definitions alone: accepted exactly where its nodes, in preorder, fill the
/// place at which nothing is decided, each leaf holds in its place, and each branch has a choice
/// that it may have and a child for each of its decisions. Then no valid plan costs less than the
/// verdict, or none is valid. Else the answer names the first node, counted from 0, that does not
/// hold, and the first rule that it breaks; a node without a place, and the end of the tree where
/// a place is left, are of a wrong choice or number of children. One node at a time is unpacked.
///
/// # Errors
///
/// `Memory` where memory runs out.
pub fn check(
    alloc: Global,
    problem: &Problem,
    fixings: &[Fixing],
    verdict: Verdict,
    tree: &[PackedNode],
) -> Result<Checked, Memory>
    ensures { IfOk result (IsChecked problem.now fixings.now verdict tree.now) }
{
    let fixings = FixingIndex::of(alloc, problem.trains.len(), fixings)?;
    check_tree(alloc, problem, &fixings, verdict, tree)
}
