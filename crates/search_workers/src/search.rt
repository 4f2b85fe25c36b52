ghost use Rattle.std.specs.Prelude.{◌≡◌, [], ◌∷◌, IfOk, OnOk, None, true};
ghost use Rattle.disp_model.specs.declared.tree.TreeNode.TheVariants.{Leaf as LeafNode};
ghost use Rattle.disp_model.specs.History.{edition_of};
ghost use Rattle.disp_model.specs.Node.{node_at};
ghost use Rattle.node_leaves.specs.Reckoned.{ReckonsFor};
ghost use Rattle.node_leaves.specs.Shown.{IsDeadLeaf};
ghost use Rattle.search_workers.specs.declared.growth.Growth.TheVariants.{Subtree};
ghost use Rattle.search_workers.specs.Explorers.{IsExplorerOf};
ghost use Rattle.search_workers.specs.Searched.{CoreGoesOn, IsClosed, IsOfNewest};

use crate::effort::{Effort, FOR_PLAN};
use crate::explorer::Explorer;
use crate::growth::{Growth, leaf_alone};
use crate::hand_in::{hand_in, publish};
use crate::lookout::Lookout;
use crate::turn::{SEARCHER, Turn, next_turn};
use crate::walk::refused_leaf;
use disp_model::{Copied, Fixing, Leaf, Memory, Problem, Rule, Settings};
use dispatch_core::Core;
use event_graph::Graph;
use node_leaves::Reckoning;
use std::alloc::Global;

/// A copy of a leaf, with the bound 0.
fn copy_alone(alloc: Global, leaf: &Leaf) -> Result<Growth, Memory>
    ensures { IfOk result (λ growth. growth ≡ Subtree (LeafNode leaf.now ∷ []) (0 ∷ []) None) }
{
    leaf_alone(alloc, leaf.copy()?)
}

/// Looks for better plans where that is due, and publishes one that is found.
fn look_on(
    alloc: Global,
    problem: &Problem,
    core: &mut Core,
    explorer: &mut Explorer,
) -> Result<(), Memory>
    requires problem { core.old.problem ≡ problem.now }
    requires newest { IsOfNewest core.old explorer.old.graph }
    requires ready { IsExplorerOf problem.now explorer.old }
    ensures ready { IsExplorerOf problem.now explorer.new }
    ensures on { CoreGoesOn core.old core.new }
    ensures newest { IsOfNewest core.new explorer.new.graph }
{
    let plan = explorer.look_on(alloc, problem)?;
    publish(alloc, core, plan)
}

/// Rehearses the search where that is due, and publishes a plan that is found.
fn rehearse_on(
    alloc: Global,
    problem: &Problem,
    reckoning: &Reckoning,
    core: &mut Core,
    explorer: &mut Explorer,
) -> Result<(), Memory>
    requires problem { core.old.problem ≡ problem.now }
    requires reckons { ReckonsFor problem.now reckoning.now }
    requires newest { IsOfNewest core.old explorer.old.graph }
    requires ready { IsExplorerOf problem.now explorer.old }
    ensures ready { IsExplorerOf problem.now explorer.new }
    ensures on { CoreGoesOn core.old core.new }
    ensures newest { IsOfNewest core.new explorer.new.graph }
{
    let plan = explorer.rehearse_on(alloc, problem, reckoning)?;
    publish(alloc, core, plan)
}

/// Takes a leaf of the newest edition and grows it. Says whether the edition is closed.
fn grow_next(
    alloc: Global,
    problem: &Problem,
    reckoning: &Reckoning,
    core: &mut Core,
    explorer: &mut Explorer,
    effort: &mut Effort,
) -> Result<bool, Memory>
    requires problem { core.old.problem ≡ problem.now }
    requires reckons { ReckonsFor problem.now reckoning.now }
    requires rule { core.old.settings.rule ≡ reckoning.now.rule }
    requires newest { IsOfNewest core.old explorer.old.graph }
    requires ready { IsExplorerOf problem.now explorer.old }
    ensures ready { IsExplorerOf problem.now explorer.new }
    ensures on { CoreGoesOn core.old core.new }
    ensures newest { IsOfNewest core.new explorer.new.graph }
    ensures closed { IfOk result (λ closed. closed ≡ true → IsClosed core.new) }
{
    let want = effort.want();
    match next_turn(alloc, core, want)? {
        Turn::Work(work) => {
            let growth = explorer.grow(alloc, problem, reckoning, &work, work.best);
            effort.count(work.allowance, &growth);
            hand_in(alloc, core, work, growth)?;
            Ok(false)
        }
        Turn::Closed => Ok(true),
        Turn::On => Ok(false),
    }
}

/// Looks for better plans and rehearses the search where that is due, and then grows a leaf of the
/// newest edition. Says whether the edition is closed.
fn round(
    alloc: Global,
    problem: &Problem,
    reckoning: &Reckoning,
    core: &mut Core,
    explorer: &mut Explorer,
    effort: &mut Effort,
) -> Result<bool, Memory>
    requires problem { core.old.problem ≡ problem.now }
    requires reckons { ReckonsFor problem.now reckoning.now }
    requires rule { core.old.settings.rule ≡ reckoning.now.rule }
    requires newest { IsOfNewest core.old explorer.old.graph }
    requires ready { IsExplorerOf problem.now explorer.old }
    ensures ready { IsExplorerOf problem.now explorer.new }
    ensures on { CoreGoesOn core.old core.new }
    ensures newest { IsOfNewest core.new explorer.new.graph }
    ensures closed { IfOk result (λ closed. closed ≡ true → IsClosed core.new) }
{
    look_on(alloc, problem, core, explorer)?;
    rehearse_on(alloc, problem, reckoning, core, explorer)?;
    grow_next(alloc, problem, reckoning, core, explorer, effort)
}

/// The same where the root of the newest edition is dead, as this leaf shows: then so is the node
/// of each leaf.
fn round_of_dead(alloc: Global, core: &mut Core, leaf: &Leaf) -> Result<bool, Memory>
    requires dead { IsDeadLeaf (node_at core.old.problem (edition_of core.old.history) [])
        leaf.now }
    ensures on { CoreGoesOn core.old core.new }
    ensures closed { IfOk result (λ closed. closed ≡ true → IsClosed core.new) }
{
    match next_turn(alloc, core, FOR_PLAN)? {
        Turn::Work(work) => {
            let growth = copy_alone(alloc, leaf);
            hand_in(alloc, core, work, growth)?;
            Ok(false)
        }
        Turn::Closed => Ok(true),
        Turn::On => Ok(false),
    }
}

/// Rounds until the newest edition is closed. So many are never reached.
fn rounds(
    alloc: Global,
    problem: &Problem,
    reckoning: &Reckoning,
    core: &mut Core,
    explorer: &mut Explorer,
) -> Result<(), Memory>
    requires problem { core.old.problem ≡ problem.now }
    requires reckons { ReckonsFor problem.now reckoning.now }
    requires rule { core.old.settings.rule ≡ reckoning.now.rule }
    requires newest { IsOfNewest core.old explorer.old.graph }
    requires ready { IsExplorerOf problem.now explorer.old }
    ensures on { CoreGoesOn core.old core.new }
    ensures closed { OnOk result (IsClosed core.new) }
{
    let mut effort = Effort::new(FOR_PLAN);
    for _ in 0..u64::MAX {
        if round(alloc, problem, reckoning, core, explorer, &mut effort)? {
            return Ok(());
        }
    }
    Err(Memory)
}

/// The same where the root of the newest edition is dead, as this leaf shows.
fn rounds_of_dead(alloc: Global, core: &mut Core, leaf: &Leaf) -> Result<(), Memory>
    requires dead { IsDeadLeaf (node_at core.old.problem (edition_of core.old.history) [])
        leaf.now }
    ensures on { CoreGoesOn core.old core.new }
    ensures closed { OnOk result (IsClosed core.new) }
{
    for _ in 0..u64::MAX {
        if round_of_dead(alloc, core, leaf)? {
            return Ok(());
        }
    }
    Err(Memory)
}

/// How bounds are reckoned by a rule.
fn reckon(alloc: Global, problem: &Problem, rule: Rule) -> Result<Reckoning, Memory>
    ensures rule { IfOk result (λ reckoning. reckoning.rule ≡ rule) }
    ensures reckons { IfOk result (ReckonsFor problem.now) }
{
    Reckoning::new(alloc, problem, rule)
}

/// Searches from the root of the newest edition, at which a graph is.
fn search_from(
    alloc: Global,
    problem: &Problem,
    settings: Settings,
    core: &mut Core,
    graph: Graph,
    fixings: &[Fixing],
) -> Result<(), Memory>
    requires problem { core.old.problem ≡ problem.now }
    requires settings { core.old.settings ≡ settings }
    requires newest { IsOfNewest core.old graph }
    ensures on { CoreGoesOn core.old core.new }
    ensures closed { OnOk result (IsClosed core.new) }
{
    let reckoning = reckon(alloc, problem, settings.rule)?;
    let lookout = Lookout::steady(problem, SEARCHER, 1, settings);
    let mut order = Vec::new(alloc);
    let mut explorer = Explorer::new(alloc, problem, fixings, graph, lookout, &mut order)?;
    rounds(alloc, problem, &reckoning, core, &mut explorer)
}

/// Searches the newest edition of a core on one thread until it is settled or stopped. The problem
/// and the settings are the core's. Before its first dive it looks for plans and rehearses the
/// search, and each time that it has grown four times as much it looks on; it publishes the plans
/// that it finds, and its dives follow the last of them.
///
/// # Errors
///
/// `Memory` where memory runs out; the core is sound then too. (It is also the answer after
/// 2^64 - 1 rounds, which are never reached.)
pub fn search_alone(
    alloc: Global,
    problem: &Problem,
    settings: Settings,
    core: &mut Core,
) -> Result<(), Memory>
    requires problem { core.old.problem ≡ problem.now }
    requires settings { core.old.settings ≡ settings }
    ensures goes_on { CoreGoesOn core.old core.new }
    ensures closed { OnOk result (IsClosed core.new) }
{
    let _edition = core.edition();
    let fixings = core.fixings(alloc)?;
    let fixings = fixings.as_slice();
    match Graph::new(alloc, problem, fixings) {
        Ok(graph) => search_from(alloc, problem, settings, core, graph, fixings),
        Err(no) => rounds_of_dead(alloc, core, &refused_leaf(no)?),
    }
}
