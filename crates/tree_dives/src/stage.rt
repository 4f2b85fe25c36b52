ghost use Rattle.std.specs.Prelude.{◌≡◌, ◌↔◌, IsTrue, IfOk, IfSome, Some};
ghost use Rattle.disp_model.specs.declared.settings.Rule.TheVariants.{Free};
ghost use Rattle.disp_model.specs.Earliest.{IsPicked};
ghost use Rattle.disp_model.specs.Nodes.{IsDead};
ghost use Rattle.free_choices.specs.Picks.{IsPickBy};
ghost use Rattle.node_leaves.specs.Reckoned.{ReckonsFor};
ghost use Rattle.open_nodes.specs.States.{IsBoundBelow};
ghost use Rattle.tree_dives.specs.Guides.{GuidesIn};
ghost use Rattle.tree_dives.specs.Stages.{IsStageAt};
ghost use Rattle.share_bound.specs.Known.{HoldFor};

use crate::following::said_by;
use crate::guide::Guide;
use crate::script::Script;
use branch_rules::{Pick, pick_fixed_by};
use disp_model::{Choice, Memory, Plan, Problem, Rule};
use event_graph::Graph;
use free_choices::{Strategy, pick_free, pick_said};
use node_leaves::Reckoning;
use share_bound::KnownShares;
use std::alloc::Global;

/// How a dive ended.
#[derive(Drop)]
pub enum End {
    /// The last node is dead, or its bound is not below the best.
    Closed,
    /// Nothing is picked there: this plan is valid, and costs the bound that is kept for its leaf.
    Plan(Plan),
    /// The allowance is spent.
    Open,
}

/// What comes next at a node.
#[derive(Drop)]
pub enum Stage {
    Branch(Choice),
    End(End),
}

/// Whether a bound is below the best cost, or there is none.
fn is_below(bound: u64, best: Option<u64>) -> bool
    ensures { IsTrue result ↔ IsBoundBelow bound best }
{
    match best {
        Some(cost) => bound < cost,
        None => true,
    }
}

/// How much more the best plan costs than a bound. A plan that costs so much more than the bound,
/// or more still, is not better.
fn room_above(bound: u64, best: Option<u64>) -> u64 {
    match best {
        Some(cost) => cost.saturating_sub(bound),
        None => u64::MAX,
    }
}

/// The choice that the first of some scripts says at the node of a graph that says one which is
/// open, where something is to be picked.
fn said(problem: &Problem, graph: &Graph, scripts: &[Script]) -> Option<Choice>
    requires { graph.now.problem ≡ problem.now }
    ensures { IfSome result (λ choice. IsPicked graph.now Free (Some choice)) }
{
    for script in scripts {
        if let Some(choice) = said_by(script, &*problem, &*graph) {
            return Some(choice);
        }
    }
    None
}

/// The first of some choices that is open, where something is to be picked.
fn prompted(problem: &Problem, graph: &Graph, prompts: &[Choice]) -> Option<Choice>
    requires { graph.now.problem ≡ problem.now }
    ensures { IfSome result (λ choice. IsPicked graph.now Free (Some choice)) }
{
    for choice in prompts {
        if let Some(choice) = pick_said(problem, graph, *choice) {
            return Some(choice);
        }
    }
    None
}

/// The choice that is taken first at the node of a graph, where one is prompted or said.
fn first_said(problem: &Problem, graph: &Graph, guide: &Guide) -> Option<Choice>
    requires { graph.now.problem ≡ problem.now }
    ensures { IfSome result (λ choice. IsPicked graph.now Free (Some choice)) }
{
    match prompted(problem, graph, guide.prompts.as_slice()) {
        Some(choice) => Some(choice),
        None => said(problem, graph, guide.scripts.as_slice()),
    }
}

/// What the free rule finds at the node of a graph, which is not dead.
fn pick_open(
    alloc: Global,
    problem: &Problem,
    graph: &Graph,
    guide: &mut Guide,
    strategy: Strategy,
    room: u64,
) -> Result<Pick, Memory>
    requires node { graph.now.problem ≡ problem.now }
    requires alive { IsDead graph.now → ⊥ }
    requires guide { GuidesIn problem.now guide.old }
    ensures guide { GuidesIn problem.now guide.new }
    ensures picked { IfOk result (IsPickBy Free graph.now) }
{
    match first_said(problem, graph, guide) {
        Some(choice) => Ok(Pick::Choice(choice)),
        None => pick_free(alloc, problem, graph, &mut guide.adviser, strategy, room),
    }
}

/// What a rule finds at the node of a graph, which is not dead. The graph is as before.
fn pick(
    alloc: Global,
    problem: &Problem,
    rule: Rule,
    graph: &mut Graph,
    guide: &mut Guide,
    strategy: Strategy,
    room: u64,
) -> Result<Pick, Memory>
    requires node { graph.old.problem ≡ problem.now }
    requires alive { IsDead graph.old → ⊥ }
    requires guide { GuidesIn problem.now guide.old }
    ensures same { graph.new ≡ graph.old }
    ensures guide { GuidesIn problem.now guide.new }
    ensures picked { IfOk result (IsPickBy rule graph.old) }
{
    match rule {
        Rule::Fixed => pick_fixed_by(alloc, problem, graph, &mut guide.spans),
        Rule::Free => pick_open(alloc, problem, graph, guide, strategy, room),
    }
}

/// What comes next at the node of a graph, by the rule of the reckoning, and of the open choices by
/// a strategy. The graph is as before.
pub fn stage_of(
    alloc: Global,
    problem: &Problem,
    reckoning: &Reckoning,
    graph: &mut Graph,
    known: &mut KnownShares,
    guide: &mut Guide,
    strategy: Strategy,
    best: Option<u64>,
) -> Result<Stage, Memory>
    requires node { graph.old.problem ≡ problem.now }
    requires reckons { ReckonsFor problem.now reckoning.now }
    requires known { HoldFor graph.old known.old }
    requires guide { GuidesIn problem.now guide.old }
    ensures same { graph.new ≡ graph.old }
    ensures known { HoldFor graph.old known.new }
    ensures guide { GuidesIn problem.now guide.new }
    ensures stage { IfOk result (IsStageAt reckoning.now.rule best graph.old) }
{
    let None = graph.late() else {
        guide.count_closed(graph);
        return Ok(Stage::End(End::Closed));
    };
    let bound = reckoning.cost(alloc, problem, graph, known)?;
    if !is_below(bound, best) {
        guide.count_closed(graph);
        return Ok(Stage::End(End::Closed));
    }
    let room = room_above(bound, best);
    match pick(alloc, problem, reckoning.rule, graph, guide, strategy, room)? {
        Pick::Choice(choice) => Ok(Stage::Branch(choice)),
        Pick::Plan(plan) => Ok(Stage::End(End::Plan(plan))),
    }
}
