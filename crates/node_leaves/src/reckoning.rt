ghost use Rattle.std.specs.Prelude.{◌≡◌, IfOk};
ghost use Rattle.disp_model.specs.Shares.{IsBound};
ghost use Rattle.node_leaves.specs.Reckoned.{ReckonsFor};
ghost use Rattle.share_bound.specs.Known.{HoldFor};

use cost_bound::cost;
use disp_model::{Memory, Problem, Rule};
use event_graph::Graph;
use problem_facts::OwnComponents;
use share_bound::KnownShares;
use std::alloc::Global;

/// How the bounds of a problem's nodes are reckoned: by the components that must be paid under the
/// fixed rule, by the shares of the trains under the free one.
#[derive(Drop)]
pub struct Reckoning {
    pub rule: Rule,
    pub(crate) components: OwnComponents,
}

impl Reckoning {
    /// How a rule reckons the bounds of a problem's nodes. Takes time linear in its trains and
    /// components. Fails for memory alone.
    pub fn new(alloc: Global, problem: &Problem, rule: Rule) -> Result<Reckoning, Memory>
        ensures rule { IfOk result (λ reckoning. reckoning.rule ≡ rule) }
        ensures reckons { IfOk result (ReckonsFor problem.now) }
    {
        Ok(Reckoning {
            rule,
            components: OwnComponents::of(alloc, problem)?,
        })
    }

    /// The bound of a node by the rule: no valid plan that follows the node's decisions costs less.
    /// Takes a look at each component under the fixed rule, and at each operation under the free
    /// one, where only shares are reckoned that are not known. Fails for memory alone.
    pub fn cost(
        &self,
        alloc: Global,
        problem: &Problem,
        graph: &Graph,
        known: &mut KnownShares,
    ) -> Result<u64, Memory>
        requires node { graph.now.problem ≡ problem.now }
        requires reckons { ReckonsFor problem.now self.now }
        requires known { HoldFor graph.now known.old }
        ensures known { HoldFor graph.now known.new }
        ensures bound { IfOk result (IsBound graph.now self.now.rule) }
    {
        match self.rule {
            Rule::Fixed => Ok(cost(problem, graph)),
            Rule::Free => known.cost(alloc, problem, &self.components, graph),
        }
    }
}
