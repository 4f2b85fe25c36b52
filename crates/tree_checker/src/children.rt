ghost use Rattle.std.specs.Prelude.{◌≡◌, [], ◌∷◌, IfOk, map};
ghost use Rattle.disp_model.specs.declared.decision.Decision.TheVariants.{Go};
ghost use Rattle.disp_model.specs.Trees.{children_of};
ghost use Rattle.tree_checker.specs.Checks.{decisions_below};

use disp_model::{Choice, Decision, Memory, Op, Problem, TreeNode};
use node_facts::{nexts_of, train_of};
use std::alloc::Global;

/// One decision for each operation that may come next, in their order.
fn ways_on(alloc: Global, op: Op, nexts: &[u32]) -> Result<Vec<Decision>, Memory>
    ensures { IfOk result (λ ways. ways.items ≡ map (λ s. Go op s) nexts.now) }
{
    let mut ways = Vec::new(alloc);
    for next in nexts {
        ways.push(Decision::Go { op, next: *next })?;
    }
    Ok(ways)
}

/// Two decisions.
fn both(alloc: Global, one: Decision, other: Decision) -> Result<Vec<Decision>, Memory>
    ensures { IfOk result (λ decisions. decisions.items ≡ one ∷ other ∷ []) }
{
    Ok(vec![in alloc; one, other]?)
}

/// The decisions of the children of a branch, in their order.
fn children(alloc: Global, problem: &Problem, choice: Choice) -> Result<Vec<Decision>, Memory>
    ensures { IfOk result (λ children. children.items ≡ children_of problem.now choice) }
{
    match choice {
        Choice::Route(op) => ways_on(alloc, op, nexts_of(train_of(problem, op.train), op.op)),
        Choice::Order(a, b) => both(
            alloc,
            Decision::First { a, b },
            Decision::First { a: b, b: a },
        ),
        Choice::Run(op) => both(alloc, Decision::Run(op), Decision::Skip(op)),
    }
}

/// The decisions of a node's children, none of a leaf.
pub fn decisions_below(
    alloc: Global,
    problem: &Problem,
    top: &TreeNode,
) -> Result<Vec<Decision>, Memory>
    ensures { IfOk result (λ below. below.items ≡ decisions_below problem.now top.now) }
{
    match top {
        TreeNode::Branch { choice, .. } => children(alloc, problem, *choice),
        TreeNode::Leaf(_) => Ok(Vec::new(alloc)),
    }
}
