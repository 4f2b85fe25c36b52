ghost use Rattle.std.specs.Prelude.{◌↔◌, List, IfOk, IsTrue, MatchOption};
ghost use Rattle.disp_model.specs.declared.decision.Decision.{Decision};
ghost use Rattle.disp_model.specs.declared.fixing.Fixing.{Fixing};
ghost use Rattle.disp_model.specs.declared.tree.TreeNode.TheVariants.{Branch, Leaf as ALeaf};
ghost use Rattle.disp_model.specs.declared.tree.Verdict.{Verdict};
ghost use Rattle.disp_model.specs.declared.tree.Verdict.TheVariants.{Optimal};
ghost use Rattle.disp_model.specs.Node.{node_at};
ghost use Rattle.disp_model.specs.Routes.{HasNoRoute};
ghost use Rattle.disp_model.specs.Trees.{LeafHolds, Shows};
ghost use Rattle.node_facts.specs.Orders.{AreKnown};
ghost use Rattle.problem_facts.specs.Components.{AreOwnOf};
ghost use Rattle.tree_checker.specs.Rules.{KeepsAllRules, IsFirstRule, TreeNodeHolds, IsRefusedFor};
ghost use Rattle.tree_checker.specs.KnownNodes.{node_here};

use crate::bound::bound_of;
use crate::branch::is_branch;
use crate::first::first_rule;
use crate::known::KnownNode;
use crate::leaf::{component_walks, listed_trains};
use crate::names::are_named;
use crate::showing::shows;
use crate::why::Why;
use decision_paths::DecisionPath;
use disp_model::{Choice, Decision, Fixing, Leaf, Memory, Problem, TreeNode, Verdict};
use node_facts::{FixingIndex, KnownTrains};
use problem_facts::OwnComponents;
use std::alloc::Global;

/// Whether a leaf holds in a place.
fn leaf_holds(
    alloc: Global,
    problem: &Problem,
    fixings: &FixingIndex,
    decisions: &[Decision],
    verdict: Verdict,
    leaf: &Leaf,
) -> Result<bool, Memory>
    ensures { IfOk result (λ holds. IsTrue holds
        ↔ LeafHolds (node_at problem.now fixings.now decisions.now) verdict leaf.now) }
{
    let path = DecisionPath::of(alloc, problem.trains.len(), decisions)?;
    let trains = KnownTrains::of(alloc, problem, fixings, &path)?;
    if trains.has_no_route() {
        return Ok(true);
    }
    let own = OwnComponents::of(alloc, problem)?;
    let here = KnownNode {
        problem,
        fixings,
        decisions: &path,
        trains: &trains,
        own: &own,
    };
    shows(alloc, here, verdict, leaf)
}

/// Whether a leaf holds in a place: some train has no allowed route, or what the leaf lists shows
/// that no valid plan that follows the decisions is better than the verdict.
///
/// # Errors
///
/// `Memory` where memory runs out.
pub fn check_leaf(
    alloc: Global,
    problem: &Problem,
    fixings: &[Fixing],
    decisions: &[Decision],
    verdict: Verdict,
    leaf: &Leaf,
) -> Result<bool, Memory>
    ensures { IfOk result (λ holds. IsTrue holds
        ↔ LeafHolds (node_at problem.now fixings.now decisions.now) verdict leaf.now) }
{
    let fixings = FixingIndex::of(alloc, problem.trains.len(), fixings)?;
    leaf_holds(alloc, problem, &fixings, decisions, verdict, leaf)
}

/// What a leaf costs that keeps all other rules, and yet does not reach a cost.
fn below_cost(alloc: Global, here: KnownNode, cost: u64, leaf: &Leaf) -> Result<Why, Memory>
    requires known { AreKnown (node_here here) here.trains.now }
    requires own { AreOwnOf here.problem.now here.own.now }
    requires routes { HasNoRoute (node_here here) → ⊥ }
    requires not_shown { Shows (node_here here) (Optimal cost) leaf.now → ⊥ }
    requires keeps { KeepsAllRules (node_here here) (Optimal cost) leaf.now }
    ensures { IfOk result (IsFirstRule (node_here here.entry) (Optimal cost) leaf.now) }
{
    let walks = component_walks(leaf);
    let listed = listed_trains(leaf);
    match bound_of(alloc, here, walks, listed)? {
        Some(bound) => Ok(Why::BelowCost { bound, cost }),
        None => Ok(Why::WrongEnd),
    }
}

/// What a leaf costs that keeps all other rules, and yet shows nothing.
fn below_verdict(
    alloc: Global,
    here: KnownNode,
    verdict: Verdict,
    leaf: &Leaf,
) -> Result<Why, Memory>
    requires known { AreKnown (node_here here) here.trains.now }
    requires own { AreOwnOf here.problem.now here.own.now }
    requires routes { HasNoRoute (node_here here) → ⊥ }
    requires not_shown { Shows (node_here here) verdict leaf.now → ⊥ }
    requires keeps { KeepsAllRules (node_here here) verdict leaf.now }
    ensures { IfOk result (IsFirstRule (node_here here.entry) verdict leaf.now) }
{
    match verdict {
        Verdict::Optimal(cost) => below_cost(alloc, here, cost, leaf),
        Verdict::Infeasible => Ok(Why::NoVerdict),
    }
}

/// The first rule that a leaf breaks that shows nothing.
fn first_broken(
    alloc: Global,
    here: KnownNode,
    verdict: Verdict,
    leaf: &Leaf,
) -> Result<Why, Memory>
    requires known { AreKnown (node_here here) here.trains.now }
    requires own { AreOwnOf here.problem.now here.own.now }
    requires routes { HasNoRoute (node_here here) → ⊥ }
    requires not_shown { Shows (node_here here) verdict leaf.now → ⊥ }
    ensures { IfOk result (IsFirstRule (node_here here.entry) verdict leaf.now) }
{
    match first_rule(alloc, here, verdict, leaf)? {
        Some(rule) => Ok(rule),
        None => below_verdict(alloc, here, verdict, leaf),
    }
}

/// Why a leaf does not hold in a place, if it does not.
fn judge_leaf(
    alloc: Global,
    here: KnownNode,
    verdict: Verdict,
    leaf: &Leaf,
) -> Result<Option<Why>, Memory>
    requires known { AreKnown (node_here here) here.trains.now }
    requires own { AreOwnOf here.problem.now here.own.now }
    ensures { IfOk result (λ found. MatchOption found
        (LeafHolds (node_here here.entry) verdict leaf.now)
        (IsRefusedFor (node_here here.entry) verdict (ALeaf leaf.now))) }
{
    if here.trains.has_no_route() {
        return Ok(None);
    }
    if shows(alloc, here, verdict, leaf)? {
        return Ok(None);
    }
    let why = first_broken(alloc, here, verdict, leaf)?;
    Ok(Some(why))
}

/// Why a branch does not hold, if it does not: for its names, or for its choice or the number of
/// its children.
fn judge_branch(problem: &Problem, choice: Choice, children: u32) -> Option<Why>
    ensures { (fixings : List Fixing) (decisions : List Decision) (verdict : Verdict)
        → MatchOption result
        (TreeNodeHolds (node_at problem.now fixings decisions) verdict (Branch choice children))
        (IsRefusedFor (node_at problem.now fixings decisions) verdict (Branch choice children)) }
{
    if is_branch(problem, choice, children) {
        return None;
    }
    if !are_named(problem, choice) {
        return Some(Why::BadName);
    }
    Some(Why::BadChoice)
}

/// Why a node of a tree does not hold in a place, if it does not, by what is known of its trains.
pub(crate) fn judge(
    alloc: Global,
    here: KnownNode,
    verdict: Verdict,
    top: &TreeNode,
) -> Result<Option<Why>, Memory>
    requires known { AreKnown (node_here here) here.trains.now }
    requires own { AreOwnOf here.problem.now here.own.now }
    ensures { IfOk result (λ found. MatchOption found
        (TreeNodeHolds (node_here here.entry) verdict top.now)
        (IsRefusedFor (node_here here.entry) verdict top.now)) }
{
    match top {
        TreeNode::Branch { choice, children } => Ok(judge_branch(here.problem, *choice, *children)),
        TreeNode::Leaf(leaf) => judge_leaf(alloc, here, verdict, leaf),
    }
}
