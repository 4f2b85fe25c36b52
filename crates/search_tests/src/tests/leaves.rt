// A tree of one leaf: it is taken, given back and grown.
ghost use Rattle.std.specs.Prelude.{◌≡◌, ◌≤◌, []};
ghost use Rattle.disp_model.specs.declared.problem.Problem.{Problem as ProblemOf};
ghost use Rattle.disp_model.specs.declared.tree.Leaf.TheVariants.{Costs};
ghost use Rattle.disp_model.specs.declared.tree.TreeNode.TheVariants.{Leaf as LeafNode};
ghost use Rattle.open_nodes.specs.Grafts.{FillPlaces};

use disp_model::{Choice, Leaf, List, Op, TreeNode};
use open_nodes::{Fragment, GiveBack, Growth, Nodes, Take, Work};
use packed_nodes::PackedNode;
use std::alloc::Global;
use std::panic::Expect;
use std::process::Abort;
use worked_problems::no_trains;

/// Asks for a leaf where so much is free, and few allowances are out.
fn take(rt: &impl Abort, alloc: Global, nodes: &mut Nodes, best: Option<u64>, free: u32) -> Take
    requires { free ≤ 5 }
{
    assert!(rt; nodes.allowed() <= 100);
    nodes
        .take(alloc, best, free, 3, 7, 0)
        .expect(rt, "an answer")
}

/// What is answered, as far as it comes here.
fn shown(take: &Take) -> &'static str {
    match take {
        Take::Ripe => "ripe",
        Take::AllOut(1) => "one out",
        Take::Dry => "dry",
        _ => "another",
    }
}

/// What is answered is this.
fn check_take(
    rt: &impl Abort,
    alloc: Global,
    nodes: &mut Nodes,
    best: Option<u64>,
    free: u32,
    wanted: &str,
)
    requires { free ≤ 5 }
{
    let take = take(rt, alloc, nodes, best, free);
    assert_eq!(rt; shown(&take), wanted);
    drop(take);
}

/// Takes a leaf.
fn taken(rt: &impl Abort, alloc: Global, nodes: &mut Nodes) -> Work {
    match take(rt, alloc, nodes, None, 5) {
        Take::Taken(work) => work,
        _ => panic!(rt; "no leaf is taken"),
    }
}

/// The only leaf goes out and comes in again.
fn check_work(rt: &impl Abort, alloc: Global, nodes: &mut Nodes) {
    let work = taken(rt, alloc, nodes);
    let seen = (work.node, work.allowance, nodes.allowed());
    assert_eq!(rt; seen, (0, 3, 3));
    check_take(rt, alloc, nodes, None, 2, "one out");
    assert_eq!(rt; nodes.give_back(work, true), GiveBack::Back);
    check_take(rt, alloc, nodes, None, 0, "dry");
}

#[test]
fn one_leaf_is_taken_and_given_back(rt: HostRuntime) {
    let mut nodes = Nodes::new(rt.alloc()).expect(&rt, "a tree");
    assert!(rt; nodes.bound() == Some(0));
    check_work(&rt, rt.alloc(), &mut nodes);
    drop(nodes);
}

/// A leaf that shows no walks.
fn no_walks(rt: &impl Abort, alloc: Global) -> PackedNode
    ensures { result ≡ LeafNode (Costs []) }
{
    let leaf = TreeNode::Leaf(Leaf::Costs(List::new(alloc)));
    PackedNode::pack(alloc, leaf).expect(rt, "a leaf")
}

/// A branch of an order, with two leaves of the bounds 24 and 18.
fn ordered(rt: &impl Abort, alloc: Global, work: Work) -> Fragment
    ensures { (problem : ProblemOf) → FillPlaces problem 1 result.subtree result.bounds }
{
    let choice = Choice::Order(Op { train: 0, op: 0 }, Op { train: 1, op: 0 });
    let branch = TreeNode::Branch {
        choice,
        children: 2,
    };
    let branch = PackedNode::pack(alloc, branch).expect(rt, "a branch");
    let tree = vec![in alloc; branch, no_walks(rt, alloc), no_walks(rt, alloc)];
    let bounds = vec![in alloc; 24, 18];
    Fragment {
        work,
        subtree: List::from_vec(tree.expect(rt, "nodes")),
        bounds: List::from_vec(bounds.expect(rt, "bounds")),
    }
}

/// By how many splits the tree grows.
fn splits(rt: &impl Abort, alloc: Global, nodes: &mut Nodes, fragment: Fragment) -> usize
    requires { (problem : ProblemOf) → FillPlaces problem 1 fragment.subtree fragment.bounds }
{
    match nodes.grow(alloc, &no_trains(alloc), fragment) {
        Ok(Growth::Grown(splits)) => splits.len(),
        _ => panic!(rt; "nothing grows"),
    }
}

/// A taken leaf grows by one split.
fn check_growth(rt: &impl Abort, alloc: Global, nodes: &mut Nodes) {
    let work = taken(rt, alloc, nodes);
    let fragment = ordered(rt, alloc, work);
    let grown = splits(rt, alloc, nodes, fragment);
    assert!(rt; grown == 1);
}

/// Whether a number is a leaf's.
fn is_leaf(rt: &impl Abort, alloc: Global, nodes: &Nodes, node: u128) -> bool {
    nodes.leaf(alloc, node).expect(rt, "an answer").is_some()
}

/// The two new leaves are found by their bounds.
fn check_found(rt: &impl Abort, alloc: Global, nodes: &Nodes) {
    assert_eq!(rt; (nodes.allowed(), nodes.bound()), (0, Some(18)));
    let wanted = (
        nodes.wanted(Some(18)),
        nodes.wanted(Some(20)),
        nodes.wanted(None),
    );
    assert_eq!(rt; wanted, (None, Some((2, 18)), Some((1, 24))));
    assert!(rt; !is_leaf(rt, alloc, nodes, 0) && is_leaf(rt, alloc, nodes, 2));
}

/// How many nodes the tree has.
fn count(rt: &impl Abort, alloc: Global, nodes: &Nodes) -> usize {
    nodes.tree(alloc).expect(rt, "the nodes").len()
}

/// A leaf falls back to the bound 0, and the nodes stay.
fn check_reset(rt: &impl Abort, alloc: Global, nodes: &mut Nodes) {
    nodes.reset(1);
    let seen = (nodes.wanted(Some(20)), count(rt, alloc, nodes));
    assert_eq!(rt; seen, (Some((1, 0)), 3));
}

#[test]
fn a_branch_has_two_leaves(rt: HostRuntime) {
    let mut nodes = Nodes::new(rt.alloc()).expect(&rt, "a tree");
    check_growth(&rt, rt.alloc(), &mut nodes);
    check_found(&rt, rt.alloc(), &nodes);
    check_take(&rt, rt.alloc(), &mut nodes, Some(18), 5, "ripe");
    check_reset(&rt, rt.alloc(), &mut nodes);
    drop(nodes);
}
