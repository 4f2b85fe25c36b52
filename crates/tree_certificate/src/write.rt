ghost use Rattle.std.specs.Prelude.{◌≡◌, IfOk, OnOk, string_bytes};
ghost use Rattle.std.specs.List.{flat_map};
ghost use Rattle.plain_values.specs.Texts.{Adds};
ghost use Rattle.tree_certificate.specs.TreeTexts.{branch_text, node_text, verdict_line, is_third, needs_third, first_text, later_text, tree_text};

use crate::leaf::{push_leaf, push_op};
use disp_model::{Choice, Leaf, Memory, Tree, TreeNode, Verdict};
use plain_values::{Text, push_text};
use std::alloc::Global;

/// Adds the line of a branch.
fn push_branch(text: &mut String, choice: Choice, children: u32) -> Result<(), Memory>
    ensures { OnOk result (Adds (string_bytes text.old) (string_bytes text.new)
        (branch_text choice children)) }
{
    match choice {
        Choice::Route(op) => {
            push_text(text, "route")?;
            push_op(text, op)?;
            write!(text, " {children}\n")?;
        }
        Choice::Order(a, b) => {
            push_text(text, "order")?;
            push_op(text, a)?;
            push_op(text, b)?;
            push_text(text, "\n")?;
        }
        Choice::Run(op) => {
            push_text(text, "run")?;
            push_op(text, op)?;
            push_text(text, "\n")?;
        }
    }
    Ok(())
}

/// Adds the lines of a node.
fn push_node(text: &mut String, node: &TreeNode) -> Result<(), Memory>
    ensures { OnOk result
        (Adds (string_bytes text.old) (string_bytes text.new) (node_text node.now)) }
{
    match node {
        TreeNode::Branch { choice, children } => push_branch(text, *choice, *children),
        TreeNode::Leaf(leaf) => push_leaf(text, leaf),
    }
}

/// Adds the lines of nodes.
fn push_nodes(text: &mut String, nodes: &[TreeNode]) -> Result<(), Memory>
    ensures { OnOk result (Adds (string_bytes text.old) (string_bytes text.new)
        (flat_map node_text nodes.now)) }
{
    for node in nodes {
        push_node(text, node)?;
    }
    Ok(())
}

/// Adds the line of a verdict.
fn push_verdict(text: &mut String, verdict: Verdict) -> Result<(), Memory>
    ensures { OnOk result (Adds (string_bytes text.old) (string_bytes text.new)
        (verdict_line verdict)) }
{
    match verdict {
        Verdict::Optimal(cost) => write!(text, "verdict optimal {cost}\n")?,
        Verdict::Infeasible => push_text(text, "verdict infeasible\n")?,
    }
    Ok(())
}

/// Whether only the third version has a line for the node.
fn is_third(node: &TreeNode) -> bool
    ensures { result ≡ is_third node.now }
{
    matches!(
        node,
        TreeNode::Branch {
            choice: Choice::Run(_),
            ..
        } | TreeNode::Leaf(Leaf::Shares { .. })
    )
}

/// Whether only the third version has lines for all nodes.
fn needs_third(nodes: &[TreeNode]) -> bool
    ensures { result ≡ needs_third nodes.now }
{
    nodes.iter().any(|node| is_third(node))
}

/// The first line.
fn first_line(third: bool) -> &'static str
    ensures { result.now ≡ first_text third }
{
    if third {
        "displib-tree 3\n"
    } else {
        "displib-tree 2\n"
    }
}

/// The first two lines.
fn later(alloc: Global, third: bool, edition: u32) -> Result<String, Memory>
    ensures { IfOk result (λ text. string_bytes text ≡ later_text third edition) }
{
    let mut text = String::from_str(alloc, first_line(third))?;
    write!(text, "edition {edition}\n")?;
    Ok(text)
}

/// The text of a tree: its version, the edition, the verdict, the nodes and the end, a line each.
pub fn write_tree(
    alloc: Global,
    edition: u32,
    verdict: &Verdict,
    tree: &Tree,
) -> Result<Text, Memory>
    ensures { IfOk result (λ text. text ≡ tree_text edition verdict.now tree.now) }
{
    let mut text = later(alloc, needs_third(tree.as_slice()), edition)?;
    push_verdict(&mut text, *verdict)?;
    push_nodes(&mut text, tree.as_slice())?;
    push_text(&mut text, "end\n")?;
    Ok(Text::from_string(text))
}
