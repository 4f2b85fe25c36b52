// Trees for two trains on one block, of the durations 10 and 4, whose exits cost 1 for each unit of
// time; and for a train with a fork, over 1 (5) or 2 (3), whose exit costs so too.
use disp_model::{
    Choice, ComponentWalk, Copied, Leaf, List, Op, Problem, TrainWalks, TreeNode, Verdict,
};
use packed_nodes::PackedNode;
use std::alloc::Global;
use std::panic::Expect;
use std::process::Abort;
use tree_checker::{Checked, Why, check};
use worked_problems::{plain_fork, two_trains};

fn op(train: u32, op: u32) -> Op {
    Op { train, op }
}

/// Operations one after another.
fn walk(rt: &impl Abort, alloc: Global, ops: &[Op]) -> List<Op> {
    List::from_vec(Vec::from_slice(alloc, ops).expect(rt, "operations"))
}

/// A walk to a component.
fn to(rt: &impl Abort, alloc: Global, component: u32, ops: &[Op]) -> ComponentWalk {
    ComponentWalk {
        component,
        walk: walk(rt, alloc, ops),
    }
}

/// A leaf of one walk to a component.
fn cost(rt: &impl Abort, alloc: Global, component: u32, ops: &[Op]) -> Leaf {
    let walk = to(rt, alloc, component, ops);
    let walks = vec![in alloc; walk].expect(rt, "walks");
    Leaf::Costs(List::from_vec(walks))
}

/// A leaf of walks to the components 0 and `component`.
fn costs(rt: &impl Abort, alloc: Global, zero: &[Op], component: u32, other: &[Op]) -> Leaf {
    let zero = to(rt, alloc, 0, zero);
    let other = to(rt, alloc, component, other);
    let walks = vec![in alloc; zero, other].expect(rt, "walks");
    Leaf::Costs(List::from_vec(walks))
}

/// A train with one walk that ends on it.
fn shown(rt: &impl Abort, alloc: Global, train: u32, ops: &[Op]) -> TrainWalks {
    let walk = walk(rt, alloc, ops);
    let walks = vec![in alloc; walk].expect(rt, "walks");
    TrainWalks {
        train,
        walks: List::from_vec(walks),
    }
}

/// A leaf of a walk to the component 0, and a train with one walk.
fn share(rt: &impl Abort, alloc: Global, zero: &[Op], train: u32, ops: &[Op]) -> Leaf {
    let zero = to(rt, alloc, 0, zero);
    let walks = vec![in alloc; zero].expect(rt, "walks");
    let train = shown(rt, alloc, train, ops);
    let trains = vec![in alloc; train].expect(rt, "trains");
    Leaf::Shares {
        walks: List::from_vec(walks),
        trains: List::from_vec(trains),
    }
}

/// A leaf of two trains, each with one walk.
fn shares(rt: &impl Abort, alloc: Global, first: TrainWalks, second: TrainWalks) -> Leaf {
    let trains = vec![in alloc; first, second].expect(rt, "trains");
    Leaf::Shares {
        walks: List::new(alloc),
        trains: List::from_vec(trains),
    }
}

/// The leaf where the fast train goes first: its costs are 14 and 4.
fn fast_first(rt: &impl Abort, alloc: Global) -> Leaf {
    costs(
        rt,
        alloc,
        &[op(1, 0), op(0, 0), op(0, 1)],
        1,
        &[op(1, 0), op(1, 1)],
    )
}

/// What is answered of the tree of these nodes.
fn checked(
    rt: &impl Abort,
    alloc: Global,
    problem: &Problem,
    verdict: Verdict,
    nodes: &[TreeNode],
) -> Checked {
    let mut tree = Vec::new(alloc);
    for node in nodes {
        let node = node.copy().expect(rt, "a node");
        let packed = PackedNode::pack(alloc, node).expect(rt, "a packed node");
        tree.push(packed).expect(rt, "room");
    }
    check(alloc, problem, &[], verdict, &tree).expect(rt, "an answer")
}

/// What is answered of the branch of an order, whose first leaf is for the slow train first.
fn ordered(
    rt: &impl Abort,
    alloc: Global,
    problem: &Problem,
    verdict: Verdict,
    choice: Choice,
    first: Leaf,
) -> Checked {
    let second = fast_first(rt, alloc);
    let branch = TreeNode::Branch {
        choice,
        children: 2,
    };
    let tree = vec![in alloc; branch, TreeNode::Leaf(first), TreeNode::Leaf(second)];
    checked(
        rt,
        alloc,
        problem,
        verdict,
        tree.expect(rt, "nodes").as_slice(),
    )
}

/// What is answered of one leaf.
fn single(
    rt: &impl Abort,
    alloc: Global,
    problem: &Problem,
    verdict: Verdict,
    leaf: Leaf,
) -> Checked {
    let tree = vec![in alloc; TreeNode::Leaf(leaf)].expect(rt, "nodes");
    checked(rt, alloc, problem, verdict, tree.as_slice())
}

/// What is answered where the first leaf of the order of both trains is this one.
fn row(
    rt: &impl Abort,
    alloc: Global,
    problem: &Problem,
    verdict: Verdict,
    first: Leaf,
    wanted: Checked,
) {
    let choice = Choice::Order(op(0, 0), op(1, 0));
    let answer = ordered(rt, alloc, problem, verdict, choice, first);
    assert_eq!(rt; answer, wanted);
}

/// A row that is refused under the cost 18.
fn refused(rt: &impl Abort, alloc: Global, problem: &Problem, first: Leaf, why: Why) {
    let wanted = Checked::Refused { node: 1, why };
    row(rt, alloc, problem, Verdict::Optimal(18), first, wanted);
}

fn below(bound: u128, cost: u64) -> Why {
    Why::BelowCost { bound, cost }
}

/// The slow train goes first: the costs are 10 and 14.
fn slow_first(rt: &impl Abort, alloc: Global) -> Leaf {
    costs(
        rt,
        alloc,
        &[op(0, 0), op(0, 1)],
        1,
        &[op(0, 0), op(1, 0), op(1, 1)],
    )
}

/// The verdicts that the costs 24 and 18 of the two leaves reach.
fn verdicts(rt: &impl Abort, alloc: Global, problem: &Problem) {
    let first = slow_first(rt, alloc);
    let answer = Checked::Accepted;
    row(rt, alloc, problem, Verdict::Optimal(18), first, answer);
    let first = slow_first(rt, alloc);
    let answer = Checked::Refused {
        node: 2,
        why: below(18, 24),
    };
    row(rt, alloc, problem, Verdict::Optimal(24), first, answer);
    let first = slow_first(rt, alloc);
    let answer = Checked::Refused {
        node: 1,
        why: Why::NoVerdict,
    };
    row(rt, alloc, problem, Verdict::Infeasible, first, answer);
}

/// A branch of an order of one operation.
fn branches(rt: &impl Abort, alloc: Global, problem: &Problem) {
    let choice = Choice::Order(op(0, 0), op(0, 0));
    let first = slow_first(rt, alloc);
    let answer = ordered(rt, alloc, problem, Verdict::Optimal(18), choice, first);
    let wanted = Checked::Refused {
        node: 0,
        why: Why::BadChoice,
    };
    assert_eq!(rt; answer, wanted);
}

/// Leaves that say something else than costs.
fn kinds(rt: &impl Abort, alloc: Global, problem: &Problem) {
    refused(rt, alloc, problem, Leaf::NoRoute, Why::HasRoute);
    let cycle = walk(rt, alloc, &[op(0, 0)]);
    refused(rt, alloc, problem, Leaf::Cycle(cycle), Why::NotCycle);
    let late = walk(rt, alloc, &[op(0, 0)]);
    refused(rt, alloc, problem, Leaf::Late(late), Why::NotLate);
}

/// Walks that are none, or not to their component.
fn walks(rt: &impl Abort, alloc: Global, problem: &Problem) {
    let leaf = cost(rt, alloc, 0, &[]);
    refused(rt, alloc, problem, leaf, Why::EmptyWalk);
    let leaf = cost(rt, alloc, 0, &[op(2, 0)]);
    refused(rt, alloc, problem, leaf, Why::BadName);
    let leaf = cost(rt, alloc, 0, &[op(1, 0), op(0, 0), op(0, 1)]);
    refused(rt, alloc, problem, leaf, Why::BadArc);
    let leaf = cost(rt, alloc, 0, &[op(0, 0)]);
    refused(rt, alloc, problem, leaf, Why::WrongEnd);
    let leaf = cost(rt, alloc, 1, &[op(0, 0), op(1, 0), op(1, 1)]);
    refused(rt, alloc, problem, leaf, below(14, 18));
}

/// A leaf of one walk to the component 0, and two to the component 1.
fn twice(rt: &impl Abort, alloc: Global) -> Leaf {
    let zero = to(rt, alloc, 0, &[op(0, 0), op(0, 1)]);
    let one = to(rt, alloc, 1, &[op(0, 0), op(1, 0), op(1, 1)]);
    let again = to(rt, alloc, 1, &[op(1, 0), op(1, 1)]);
    let walks = vec![in alloc; zero, one, again].expect(rt, "walks");
    Leaf::Costs(List::from_vec(walks))
}

/// A component that two walks lead to.
fn repeated(rt: &impl Abort, alloc: Global, problem: &Problem) {
    let leaf = twice(rt, alloc);
    refused(rt, alloc, problem, leaf, Why::RepeatedComponent);
}

#[test]
fn the_first_fault_of_a_tree_is_named(rt: HostRuntime) {
    let problem = two_trains(rt.alloc()).expect(&rt, "two trains");
    verdicts(&rt, rt.alloc(), &problem);
    branches(&rt, rt.alloc(), &problem);
    kinds(&rt, rt.alloc(), &problem);
    walks(&rt, rt.alloc(), &problem);
    repeated(&rt, rt.alloc(), &problem);
}

/// A leaf of the walk of the slow train to its component, and a listed train with one walk.
fn beside(rt: &impl Abort, alloc: Global, train: u32, ops: &[Op]) -> Leaf {
    share(rt, alloc, &[op(0, 0), op(0, 1)], train, ops)
}

/// The shares that the walks of a listed train show: the slow train costs 10, the fast one 14 where
/// its walk comes over the slow one, and else 4.
fn shown_costs(rt: &impl Abort, alloc: Global, problem: &Problem) {
    let first = beside(rt, alloc, 1, &[op(0, 0), op(1, 0)]);
    let answer = Checked::Accepted;
    row(rt, alloc, problem, Verdict::Optimal(18), first, answer);
    let first = beside(rt, alloc, 1, &[op(0, 0), op(1, 0)]);
    let answer = Checked::Refused {
        node: 1,
        why: below(24, 25),
    };
    row(rt, alloc, problem, Verdict::Optimal(25), first, answer);
    let leaf = beside(rt, alloc, 1, &[op(1, 0)]);
    refused(rt, alloc, problem, leaf, below(14, 18));
}

/// Trains that are listed wrongly.
fn wrong_trains(rt: &impl Abort, alloc: Global, problem: &Problem) {
    let leaf = beside(rt, alloc, 0, &[op(0, 0)]);
    refused(rt, alloc, problem, leaf, Why::WrongTrain);
    let leaf = beside(rt, alloc, 1, &[op(0, 0)]);
    refused(rt, alloc, problem, leaf, Why::WrongTrain);
    let leaf = beside(rt, alloc, 2, &[op(0, 0)]);
    refused(rt, alloc, problem, leaf, Why::BadName);
    let leaf = shares(
        rt,
        alloc,
        shown(rt, alloc, 1, &[op(1, 0)]),
        shown(rt, alloc, 1, &[op(1, 0)]),
    );
    refused(rt, alloc, problem, leaf, Why::RepeatedTrain);
}

#[test]
fn listed_trains_cost_their_shares(rt: HostRuntime) {
    let problem = two_trains(rt.alloc()).expect(&rt, "two trains");
    shown_costs(&rt, rt.alloc(), &problem);
    wrong_trains(&rt, rt.alloc(), &problem);
}

/// A leaf of one train with a walk to its entry.
fn alone(rt: &impl Abort, alloc: Global) -> Leaf {
    let train = shown(rt, alloc, 0, &[op(0, 0)]);
    let trains = vec![in alloc; train].expect(rt, "trains");
    Leaf::Shares {
        walks: List::new(alloc),
        trains: List::from_vec(trains),
    }
}

/// What is answered of the branch over both ways of a fork, each with the share of its train.
fn both_ways(rt: &impl Abort, alloc: Global, problem: &Problem, cost: u64) -> Checked {
    let branch = TreeNode::Branch {
        choice: Choice::Route(op(0, 0)),
        children: 2,
    };
    let one = TreeNode::Leaf(alone(rt, alloc));
    let other = TreeNode::Leaf(alone(rt, alloc));
    let tree = vec![in alloc; branch, one, other].expect(rt, "nodes");
    checked(rt, alloc, problem, Verdict::Optimal(cost), tree.as_slice())
}

/// Over all ways the exit of the fork costs 3, and 5 over the first.
fn ways(rt: &impl Abort, alloc: Global, problem: &Problem) {
    let answer = single(rt, alloc, problem, Verdict::Optimal(3), alone(rt, alloc));
    assert_eq!(rt; answer, Checked::Accepted);
    let answer = single(rt, alloc, problem, Verdict::Optimal(4), alone(rt, alloc));
    let wanted = Checked::Refused {
        node: 0,
        why: below(3, 4),
    };
    assert_eq!(rt; answer, wanted);
    let answer = both_ways(rt, alloc, problem, 6);
    let wanted = Checked::Refused {
        node: 1,
        why: below(5, 6),
    };
    assert_eq!(rt; answer, wanted);
}

/// The routes of a train are known anew behind a decision that is taken back.
fn next_way(rt: &impl Abort, alloc: Global, problem: &Problem) {
    let answer = both_ways(rt, alloc, problem, 5);
    let wanted = Checked::Refused {
        node: 2,
        why: below(3, 5),
    };
    assert_eq!(rt; answer, wanted);
    let answer = both_ways(rt, alloc, problem, 3);
    assert_eq!(rt; answer, Checked::Accepted);
}

/// A walk over an operation that one of the ways leaves out is refused.
fn not_forced(rt: &impl Abort, alloc: Global, problem: &Problem) {
    let leaf = cost(rt, alloc, 0, &[op(0, 1), op(0, 3)]);
    let answer = single(rt, alloc, problem, Verdict::Optimal(3), leaf);
    let wanted = Checked::Refused {
        node: 0,
        why: Why::NotForced,
    };
    assert_eq!(rt; answer, wanted);
}

#[test]
fn a_share_is_the_least_over_all_ways(rt: HostRuntime) {
    let problem = plain_fork(rt.alloc()).expect(&rt, "a fork");
    ways(&rt, rt.alloc(), &problem);
    next_way(&rt, rt.alloc(), &problem);
    not_forced(&rt, rt.alloc(), &problem);
}
