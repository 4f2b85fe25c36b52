ghost use Rattle.std.specs.Prelude.{◌≡◌, ◌↔◌, IsTrue};
ghost use Rattle.tree_checker.specs.Rules.{component_walks, listed_trains, SaysMore, IsLongCycle, HasCost, HasVerdict};

use disp_model::{ComponentWalk, Leaf, TrainWalks, Verdict};

/// The walks to components that a leaf lists.
pub(crate) fn component_walks(leaf: &Leaf) -> &[ComponentWalk]
    ensures { result.now ≡ component_walks leaf.now }
{
    match leaf {
        Leaf::NoRoute => &[],
        Leaf::Cycle(_) => &[],
        Leaf::Late(_) => &[],
        Leaf::Costs(walks) => walks.as_slice(),
        Leaf::Shares { walks, .. } => walks.as_slice(),
    }
}

/// The trains that a leaf lists.
pub(crate) fn listed_trains(leaf: &Leaf) -> &[TrainWalks]
    ensures { result.now ≡ listed_trains leaf.now }
{
    match leaf {
        Leaf::NoRoute => &[],
        Leaf::Cycle(_) => &[],
        Leaf::Late(_) => &[],
        Leaf::Costs(_) => &[],
        Leaf::Shares { trains, .. } => trains.as_slice(),
    }
}

/// Whether a leaf says more than that some train has no allowed route.
pub(crate) fn says_more(leaf: &Leaf) -> bool
    ensures { IsTrue result ↔ SaysMore leaf.now }
{
    match leaf {
        Leaf::NoRoute => false,
        Leaf::Cycle(_) => true,
        Leaf::Late(_) => true,
        Leaf::Costs(_) => true,
        Leaf::Shares { .. } => true,
    }
}

/// Whether a cycle has two operations at least.
pub(crate) fn is_long_cycle(leaf: &Leaf) -> bool
    ensures { IsTrue result ↔ IsLongCycle leaf.now }
{
    match leaf {
        Leaf::NoRoute => true,
        Leaf::Cycle(nodes) => nodes.as_slice().len() >= 2,
        Leaf::Late(_) => true,
        Leaf::Costs(_) => true,
        Leaf::Shares { .. } => true,
    }
}

/// Whether a verdict has a cost.
fn has_cost(verdict: Verdict) -> bool
    ensures { IsTrue result ↔ HasCost verdict }
{
    match verdict {
        Verdict::Optimal(_) => true,
        Verdict::Infeasible => false,
    }
}

/// Whether the verdict has a cost, where a leaf shows costs.
pub(crate) fn has_verdict(verdict: Verdict, leaf: &Leaf) -> bool
    ensures { IsTrue result ↔ HasVerdict verdict leaf.now }
{
    match leaf {
        Leaf::NoRoute => true,
        Leaf::Cycle(_) => true,
        Leaf::Late(_) => true,
        Leaf::Costs(_) => has_cost(verdict),
        Leaf::Shares { .. } => has_cost(verdict),
    }
}
