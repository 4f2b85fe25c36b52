ghost use Rattle.std.specs.Prelude.{◌≡◌, ◌⊎◌, [], List, IfOk, IfSome};
ghost use Rattle.disp_model.specs.declared.fixing.Fixing.{Fixing as FixingOf};
ghost use Rattle.disp_model.specs.declared.problem.Problem.{Problem as ProblemOf};
ghost use Rattle.disp_model.specs.Node.{node_at};
ghost use Rattle.event_graph.specs.Joined.{IsOfEdition};
ghost use Rattle.node_leaves.specs.Reckoned.{ReckonsFor};
ghost use Rattle.search_workers.specs.Grown.{IsGrownOf};
ghost use Rattle.near_plans.specs.Plans.{IsPlanAt};
ghost use Rattle.search_crew.specs.Grounds.{IsGround, IsBestNoMore};

use disp_model::{Copied, Fixing, Leaf, Memory, Plan, Problem};
use event_graph::Graph;
use node_leaves::Reckoning;
use open_nodes::Work;
use search_workers::{Explorer, Growth, Lookout, leaf_alone, refused_leaf};
use std::alloc::Global;
use tree_dives::Script;

/// Where the works of an edition are grown.
#[derive(Drop)]
pub(crate) enum Ground<'p> {
    /// The root is not known to be dead.
    Alive(Explorer<'p>),
    /// The root is dead, as this leaf shows, and so is each node below.
    Dead(Leaf),
}

/// The ground of an edition with these fixings. The order of trains is kept from edition to
/// edition.
pub(crate) fn begin<'p>(
    alloc: Global,
    problem: &'p Problem,
    fixings: &[Fixing],
    lookout: Lookout,
    order: &mut Vec<u32>,
) -> Result<Ground<'p>, Memory>
    requires { IsOfEdition (node_at problem.now fixings.now []) }
    ensures { IfOk result (IsGround problem.now fixings.now) }
{
    match Graph::new(alloc, problem, fixings) {
        Ok(graph) => Ok(Ground::Alive(Explorer::new(
            alloc, problem, fixings, graph, lookout, order,
        )?)),
        Err(no) => Ok(Ground::Dead(refused_leaf(no)?)),
    }
}

/// The lesser of two best costs, none being the greatest.
pub(crate) fn lesser(best: Option<u64>, other: Option<u64>) -> Option<u64>
    ensures no_more { IsBestNoMore result best }
    ensures one { (result ≡ best) ⊎ (result ≡ other) }
{
    match (best, other) {
        (Some(cost), Some(least)) if cost <= least => best,
        (_, None) => best,
        _ => other,
    }
}

impl<'p> Ground<'p> {
    /// Looks for better plans where that is due.
    pub(crate) fn look_on(
        &mut self,
        alloc: Global,
        problem: &Problem,
    ) -> Result<Option<Plan>, Memory>
        requires ground { (fixings : List FixingOf) × IsGround problem.now fixings self.old }
        ensures ground { (fixings : List FixingOf) → IsGround problem.now fixings self.old
            → IsGround problem.now fixings self.new }
        ensures plan { (fixings : List FixingOf) → IsGround problem.now fixings self.old
            → IfOk result (λ plan. IfSome plan (IsPlanAt (node_at problem.now fixings []))) }
    {
        match self {
            Ground::Alive(explorer) => explorer.look_on(alloc, problem),
            Ground::Dead(_) => Ok(None),
        }
    }

    /// Whether the searcher agrees with the others of its crew on a script.
    pub(crate) fn agrees(&self) -> bool {
        match self {
            Ground::Alive(explorer) => explorer.agrees(),
            Ground::Dead(_) => false,
        }
    }

    /// Whether nothing is grown before rehearsals from the root came to an end.
    pub(crate) fn rehearses_first(&self) -> bool {
        match self {
            Ground::Alive(explorer) => explorer.rehearses_first(),
            Ground::Dead(_) => false,
        }
    }

    /// Whether a script is followed from the root on.
    pub(crate) fn is_scripted(&self) -> bool {
        match self {
            Ground::Alive(explorer) => explorer.is_scripted(),
            Ground::Dead(_) => false,
        }
    }

    /// A copy of the script that is followed from the root on, if one is. Fails for memory alone.
    pub(crate) fn script(&self, alloc: Global) -> Result<Option<Script>, Memory> {
        match self {
            Ground::Alive(explorer) => explorer.script(alloc),
            Ground::Dead(_) => Ok(None),
        }
    }

    /// Has rehearsals from the root look for plans that cost less than this, if it is a cost.
    pub(crate) fn note_cost(&mut self, cost: Option<u64>)
        ensures { (problem : ProblemOf) (fixings : List FixingOf)
            → IsGround problem fixings self.old → IsGround problem fixings self.new }
    {
        match self {
            Ground::Alive(explorer) => explorer.note_cost(cost),
            Ground::Dead(_) => {}
        }
    }

    /// Follows a script from the root that another searcher came to. Fails for memory alone.
    pub(crate) fn follow_other(&mut self, script: Script) -> Result<(), Memory>
        ensures { (problem : ProblemOf) (fixings : List FixingOf)
            → IsGround problem fixings self.old → IsGround problem fixings self.new }
    {
        match self {
            Ground::Alive(explorer) => explorer.follow_other(script),
            Ground::Dead(_) => Ok(()),
        }
    }

    /// Rehearses the search where that is due.
    pub(crate) fn rehearse_on(
        &mut self,
        alloc: Global,
        problem: &Problem,
        reckoning: &Reckoning,
    ) -> Result<Option<Plan>, Memory>
        requires reckons { ReckonsFor problem.now reckoning.now }
        requires ground { (fixings : List FixingOf) × IsGround problem.now fixings self.old }
        ensures ground { (fixings : List FixingOf) → IsGround problem.now fixings self.old
            → IsGround problem.now fixings self.new }
        ensures plan { (fixings : List FixingOf) → IsGround problem.now fixings self.old
            → IfOk result (λ plan. IfSome plan (IsPlanAt (node_at problem.now fixings []))) }
    {
        match self {
            Ground::Alive(explorer) => explorer.rehearse_on(alloc, problem, reckoning),
            Ground::Dead(_) => Ok(None),
        }
    }

    /// Grows the leaf of a work, where what branches costs less than this best.
    pub(crate) fn grow(
        &mut self,
        alloc: Global,
        problem: &Problem,
        reckoning: &Reckoning,
        work: &Work,
        best: Option<u64>,
    ) -> Result<Growth, Memory>
        requires reckons { ReckonsFor problem.now reckoning.now }
        requires ground { (fixings : List FixingOf) × IsGround problem.now fixings self.old }
        ensures ground { (fixings : List FixingOf) → IsGround problem.now fixings self.old
            → IsGround problem.now fixings self.new }
        ensures grown { (fixings : List FixingOf) → IsGround problem.now fixings self.old
            → IfOk result (IsGrownOf reckoning.now.rule
            (node_at problem.now fixings work.now.decisions) best work.now.allowance
            work.now.bound) }
    {
        match self {
            Ground::Alive(explorer) => explorer.grow(alloc, problem, reckoning, work, best),
            Ground::Dead(leaf) => leaf_alone(alloc, leaf.copy()?),
        }
    }
}
