ghost use Rattle.std.specs.Prelude.{◌≡◌, length, Result};
ghost use Rattle.disp_model.specs.declared.tree.TreeNode.{TreeNode};
ghost use Rattle.tree_certificate.specs.declared.fault.Fault.{Fault};
ghost use Rattle.tree_certificate.specs.Reading.{GivesRead};
ghost use Rattle.tree_certificate.specs.NodesRead.{node_word_at, only_third, not_none, route_at, order_at, run_at, no_route_at, cycle_at, late_at, costs_at, shares_at, and_rest, node_by, node_read, places_opened, nodes_at};

use crate::fault::{Fault, ReadError};
use crate::fields::{behind, index_at, line_ended, op_at, ops_at};
use crate::lines::{MOST, last_count, line_at, trains_at, walks_at};
use crate::word::Word;
use disp_model::{Choice, Leaf, List, TreeNode};
use packed_nodes::PackedNode;
use std::alloc::Global;

/// The word of a node's line, and what stands behind it.
#[tactic(auto, unfolding(crate::specs::NodesRead::node_word_at))]
fn node_word_at(left: usize, line: &[u8]) -> Result<(Word, &[u8]), ReadError>
    ensures { GivesRead (λ x. (x.0, x.1.now)) result (node_word_at left line.now) }
{
    if let Some(fields) = behind(line, b"route") {
        return Ok((Word::Route, fields));
    }
    if let Some(fields) = behind(line, b"order") {
        return Ok((Word::Order, fields));
    }
    if let Some(fields) = behind(line, b"run") {
        return Ok((Word::Run, fields));
    }
    if let Some(fields) = behind(line, b"noroute") {
        return Ok((Word::NoRoute, fields));
    }
    if let Some(fields) = behind(line, b"cycle") {
        return Ok((Word::Cycle, fields));
    }
    if let Some(fields) = behind(line, b"late") {
        return Ok((Word::Late, fields));
    }
    if let Some(fields) = behind(line, b"costs") {
        return Ok((Word::Costs, fields));
    }
    if let Some(fields) = behind(line, b"shares") {
        return Ok((Word::Shares, fields));
    }
    Err(ReadError::Fault(Fault::Bad(left)))
}

/// A line that only the third version has.
fn only_third(third: bool, left: usize) -> Result<(), ReadError>
    ensures { GivesRead (λ x. x) result (only_third third left) }
{
    if third {
        Ok(())
    } else {
        Err(ReadError::Fault(Fault::Bad(left)))
    }
}

/// A number of children that is not 0.
fn not_none(left: usize, count: u32) -> Result<u32, ReadError>
    ensures { GivesRead (λ x. x) result (not_none left count) }
{
    if count == 0 {
        return Err(ReadError::Fault(Fault::Bad(left)));
    }
    Ok(count)
}

/// A branch of a route.
#[tactic(auto, unfolding(crate::specs::NodesRead::route_at))]
fn route_at(left: usize, fields: &[u8]) -> Result<TreeNode, ReadError>
    ensures { GivesRead (λ x. x) result (route_at left fields.now) }
{
    let (op, fields) = op_at(left, fields)?;
    let (count, fields) = index_at(left, MOST, fields)?;
    let children = not_none(left, count)?;
    line_ended(left, fields)?;
    let choice = Choice::Route(op);
    Ok(TreeNode::Branch { choice, children })
}

/// A branch of an order.
#[tactic(auto, unfolding(crate::specs::NodesRead::order_at))]
fn order_at(left: usize, fields: &[u8]) -> Result<TreeNode, ReadError>
    ensures { GivesRead (λ x. x) result (order_at left fields.now) }
{
    let (a, fields) = op_at(left, fields)?;
    let (b, fields) = op_at(left, fields)?;
    line_ended(left, fields)?;
    let choice = Choice::Order(a, b);
    Ok(TreeNode::Branch {
        choice,
        children: 2,
    })
}

/// A branch whether an operation is run.
#[tactic(auto, unfolding(crate::specs::NodesRead::run_at))]
fn run_at(third: bool, left: usize, fields: &[u8]) -> Result<TreeNode, ReadError>
    ensures { GivesRead (λ x. x) result (run_at third left fields.now) }
{
    only_third(third, left)?;
    let (op, fields) = op_at(left, fields)?;
    line_ended(left, fields)?;
    let choice = Choice::Run(op);
    Ok(TreeNode::Branch {
        choice,
        children: 2,
    })
}

/// A leaf where some train has no route.
#[tactic(auto, unfolding(crate::specs::NodesRead::no_route_at))]
fn no_route_at(left: usize, fields: &[u8]) -> Result<TreeNode, ReadError>
    ensures { GivesRead (λ x. x) result (no_route_at left fields.now) }
{
    line_ended(left, fields)?;
    Ok(TreeNode::Leaf(Leaf::NoRoute))
}

/// A leaf that lists a cycle.
#[tactic(auto, unfolding(crate::specs::NodesRead::cycle_at))]
fn cycle_at(alloc: Global, left: usize, fields: &[u8]) -> Result<TreeNode, ReadError>
    ensures { GivesRead (λ x. x) result (cycle_at left fields.now) }
{
    let ops = ops_at(alloc, left, fields)?;
    Ok(TreeNode::Leaf(Leaf::Cycle(List::from_vec(ops))))
}

/// A leaf that lists a late walk.
#[tactic(auto, unfolding(crate::specs::NodesRead::late_at))]
fn late_at(alloc: Global, left: usize, fields: &[u8]) -> Result<TreeNode, ReadError>
    ensures { GivesRead (λ x. x) result (late_at left fields.now) }
{
    let ops = ops_at(alloc, left, fields)?;
    Ok(TreeNode::Leaf(Leaf::Late(List::from_vec(ops))))
}

/// A leaf that lists walks to components.
#[tactic(auto, unfolding(crate::specs::NodesRead::costs_at))]
fn costs_at<'a>(
    alloc: Global,
    left: usize,
    fields: &[u8],
    rest: &'a [u8],
) -> Result<(TreeNode, &'a [u8]), ReadError>
    ensures { GivesRead (λ x. (x.0, x.1.now)) result (costs_at left fields.now rest.now) }
{
    let count = last_count(left, fields)?;
    let (walks, rest) = walks_at(alloc, count, rest)?;
    let leaf = Leaf::Costs(List::from_vec(walks));
    Ok((TreeNode::Leaf(leaf), rest))
}

/// A leaf that lists walks to components, and trains.
#[tactic(auto, unfolding(crate::specs::NodesRead::shares_at))]
fn shares_at<'a>(
    alloc: Global,
    third: bool,
    left: usize,
    fields: &[u8],
    rest: &'a [u8],
) -> Result<(TreeNode, &'a [u8]), ReadError>
    ensures { GivesRead (λ x. (x.0, x.1.now)) result (shares_at third left fields.now rest.now) }
{
    only_third(third, left)?;
    let (count, fields) = index_at(left, MOST, fields)?;
    let train_count = last_count(left, fields)?;
    let (walks, rest) = walks_at(alloc, count, rest)?;
    let (trains, rest) = trains_at(alloc, train_count, rest)?;
    let walks = List::from_vec(walks);
    let trains = List::from_vec(trains);
    Ok((TreeNode::Leaf(Leaf::Shares { walks, trains }), rest))
}

/// A node that is one line, and the lines behind it.
fn and_rest(node: Result<TreeNode, ReadError>, rest: &[u8]) -> Result<(TreeNode, &[u8]), ReadError>
    ensures { (read : Result TreeNode Fault) → GivesRead (λ x. x) node read
        → GivesRead (λ x. (x.0, x.1.now)) result (and_rest read rest.now) }
{
    match node {
        Ok(node) => Ok((node, rest)),
        Err(why) => Err(why),
    }
}

/// A node by the word of its line.
#[tactic(auto, unfolding(crate::specs::NodesRead::node_by))]
fn node_by<'a>(
    alloc: Global,
    word: Word,
    third: bool,
    left: usize,
    fields: &[u8],
    rest: &'a [u8],
) -> Result<(TreeNode, &'a [u8]), ReadError>
    ensures { GivesRead (λ x. (x.0, x.1.now)) result (node_by word third left fields.now rest.now) }
{
    match word {
        Word::Route => and_rest(route_at(left, fields), rest),
        Word::Order => and_rest(order_at(left, fields), rest),
        Word::Run => and_rest(run_at(third, left, fields), rest),
        Word::NoRoute => and_rest(no_route_at(left, fields), rest),
        Word::Cycle => and_rest(cycle_at(alloc, left, fields), rest),
        Word::Late => and_rest(late_at(alloc, left, fields), rest),
        Word::Costs => costs_at(alloc, left, fields, rest),
        Word::Shares => shares_at(alloc, third, left, fields, rest),
    }
}

/// A node.
#[tactic(auto, unfolding(crate::specs::NodesRead::node_read))]
fn node_read(alloc: Global, third: bool, bytes: &[u8]) -> Result<(TreeNode, &[u8]), ReadError>
    ensures { GivesRead (λ x. (x.0, x.1.now)) result (node_read third bytes.now) }
{
    let (line, rest) = line_at(bytes)?;
    let (word, fields) = node_word_at(bytes.len(), line)?;
    node_by(alloc, word, third, bytes.len(), fields, rest)
}

/// How many places a node opens.
fn places_opened(node: &TreeNode) -> u32
    ensures { result ≡ places_opened node.now }
{
    match node {
        TreeNode::Branch { children, .. } => *children,
        TreeNode::Leaf(_) => 0,
    }
}

/// The nodes of a tree, each kept in few bytes before the next one is read.
pub(crate) fn nodes_at(
    alloc: Global,
    third: bool,
    bytes: &[u8],
) -> Result<(Vec<PackedNode>, &[u8]), ReadError>
    ensures { GivesRead (λ x. (x.0.items, x.1.now)) result
        (nodes_at third (length bytes.now) 1 bytes.now) }
{
    let mut nodes = Vec::new(alloc);
    let mut rest = bytes;
    let mut open: u128 = 1;
    for _ in 0..bytes.len() {
        if open == 0 {
            return Ok((nodes, rest));
        }
        let (node, after) = node_read(alloc, third, rest)?;
        open = open - 1 + u128::from(places_opened(&node));
        nodes.push(PackedNode::pack(alloc, node)?)?;
        rest = after;
    }
    if open == 0 {
        return Ok((nodes, rest));
    }
    Err(ReadError::Fault(Fault::Truncated))
}
