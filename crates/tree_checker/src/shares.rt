ghost use Rattle.std.specs.Prelude.{◌≡◌, ◌≤◌, ◌<◌, ◌^◌, ℕ, List, IfOk, length, slice_index};
ghost use Rattle.disp_model.specs.declared.decision.Decision.{Decision};
ghost use Rattle.disp_model.specs.declared.fixing.Fixing.{Fixing};
ghost use Rattle.disp_model.specs.Node.{node_at};
ghost use Rattle.node_facts.specs.Known.{IsKnown};
ghost use Rattle.node_facts.specs.Orders.{AreKnown};
ghost use Rattle.tree_checker.specs.Bounds.{IsSharesOfAll};
ghost use Rattle.problem_facts.specs.Components.{AreOwnOf};
ghost use Rattle.tree_checker.specs.TrainCosts.{base_by, IsLeastCost, IsShown};
ghost use Rattle.tree_checker.specs.KnownNodes.{node_here};

use crate::entering::{entered_of, kept_at};
use crate::known::KnownNode;
use crate::landings::{lowers_of, raise_all};
use crate::paying::costs_over;
use disp_model::{Memory, Problem, TrainWalks};
use node_facts::{TrainKnowledge, train_of};
use problem_facts::OwnComponents;
use std::alloc::Global;

/// What the components of a train cost at least over given bases, whichever route it takes; none
/// where it has no allowed route.
fn least_cost(
    alloc: Global,
    problem: &Problem,
    own: &OwnComponents,
    known: &TrainKnowledge,
    train: u32,
    bases: &[u128],
) -> Result<Option<u128>, Memory>
    requires known { (fixings : List Fixing) × (decisions : List Decision)
        × IsKnown (node_at problem.now fixings decisions) train known.now }
    requires own { AreOwnOf problem.now own.now }
    requires bases { (o : ℕ) → slice_index bases.now o ≤ 2 ^ 127 }
    ensures { IfOk result (λ found. (fixings : List Fixing) (decisions : List Decision)
        → IsKnown (node_at problem.now fixings decisions) train known.now
        → IsLeastCost (node_at problem.now fixings decisions) train (base_by bases.now) found) }
{
    let operations = train_of(problem, train);
    let entered = entered_of(alloc, operations, known, bases)?;
    let entered = entered.as_slice();
    let components = own.of_train(train);
    let costs = costs_over(alloc, components, operations, known, train, entered, bases)?;
    Ok(kept_at(costs.as_slice(), known.entry()))
}

/// What a listed train costs at least by its walks; none where it shows no share.
fn share_of(alloc: Global, here: KnownNode, shown: &TrainWalks) -> Result<Option<u128>, Memory>
    requires known { AreKnown (node_here here) here.trains.now }
    requires own { AreOwnOf here.problem.now here.own.now }
    ensures { IfOk result (IsShown (node_here here.entry) shown.now) }
{
    let train = shown.train;
    let Some(known) = here.trains.as_slice().get(train as usize) else {
        return Ok(None);
    };
    let count = train_of(here.problem, train).len();
    let mut bases = lowers_of(alloc, here.problem, here.fixings, train, count)?;
    let walks = shown.walks.as_slice();
    if !raise_all(&mut bases, here, train, walks) {
        return Ok(None);
    }
    least_cost(
        alloc,
        here.problem,
        here.own,
        known,
        train,
        bases.as_slice(),
    )
}

/// What listed trains cost together by their walks; none where one of them has no share.
pub(crate) fn shares_cost(
    alloc: Global,
    here: KnownNode,
    listed: &[TrainWalks],
) -> Result<Option<u128>, Memory>
    requires known { AreKnown (node_here here) here.trains.now }
    requires own { AreOwnOf here.problem.now here.own.now }
    ensures { IfOk result (IsSharesOfAll (node_here here.entry) listed.now) }
{
    let mut total: u128 = 0;
    for shown in listed {
        match share_of(alloc, here, shown)? {
            Some(share) => total = total.saturating_add(share),
            None => return Ok(None),
        }
    }
    Ok(Some(total))
}
