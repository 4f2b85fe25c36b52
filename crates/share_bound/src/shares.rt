ghost use Rattle.std.specs.Prelude.{◌≡◌, ◌<◌, ◌≤◌, ◌^◌, ℕ, IfOk, length, slice_index};
ghost use Rattle.disp_model.specs.declared.settings.Rule.TheVariants.{Free};
ghost use Rattle.disp_model.specs.Valid.{train_at};
ghost use Rattle.disp_model.specs.Shares.{IsShare, IsBound};
ghost use Rattle.share_bound.specs.Bases.{IsShareWithin};
ghost use Rattle.problem_facts.specs.Components.{AreOwnOf};
ghost use Rattle.share_bound.specs.Leasts.{IsFittedShare};
ghost use Rattle.share_bound.specs.Times.{base_in};

use crate::bases::bases_of;
use crate::least::least_over;
use disp_model::{Memory, Operation, Problem};
use event_graph::Graph;
use problem_facts::OwnComponents;
use std::alloc::Global;

/// The operations of a train.
pub fn train_of(problem: &Problem, train: u32) -> &[Operation]
    requires { train < length problem.now.trains }
    ensures { result.now ≡ train_at problem.now train }
{
    problem.trains.as_slice()[train as usize].as_slice()
}

/// What the components of a train cost at least over given bases of its operations, as far as 64
/// bits hold it. Fails for memory alone.
pub fn share_over(
    alloc: Global,
    problem: &Problem,
    components: &OwnComponents,
    graph: &Graph,
    train: u32,
    bases: &[u64],
) -> Result<u64, Memory>
    requires node { graph.now.problem ≡ problem.now }
    requires own { AreOwnOf problem.now components.now }
    requires train { train < length problem.now.trains }
    requires bases { (o : ℕ) → slice_index bases.now o ≤ 2 ^ 62 }
    requires long { length bases.now ≡ length (train_at problem.now train) }
    ensures { IfOk result (IsFittedShare graph.now train (base_in bases.now)) }
{
    let operations = train_of(problem, train);
    let routes = graph.routes(train);
    let order = routes.order();
    let rows = routes.rows();
    let own = components.of_train(train);
    least_over(alloc, operations, own, train, order, rows, bases)
}

/// The share of a train.
pub(crate) fn share_of(
    alloc: Global,
    problem: &Problem,
    components: &OwnComponents,
    graph: &Graph,
    train: u32,
) -> Result<u64, Memory>
    requires node { graph.now.problem ≡ problem.now }
    requires own { AreOwnOf problem.now components.now }
    requires train { train < length problem.now.trains }
    ensures { IfOk result (IsShareWithin graph.now train) }
{
    let count = train_of(problem, train).len();
    let bases = bases_of(alloc, graph, train, count)?;
    share_over(alloc, problem, components, graph, train, &bases)
}

/// The share of a train at a node of the problem: what its components cost at least in every valid
/// plan that follows the node's decisions, whichever of its allowed routes it takes. Takes time
/// linear in the train's operations, their successors and its components. Fails for memory alone.
pub fn share(
    alloc: Global,
    problem: &Problem,
    components: &OwnComponents,
    graph: &Graph,
    train: u32,
) -> Result<u64, Memory>
    requires node { graph.now.problem ≡ problem.now }
    requires own { AreOwnOf problem.now components.now }
    requires train { train < length problem.now.trains }
    ensures { IfOk result (IsShare graph.now train) }
{
    let share = share_of(alloc, problem, components, graph, train)?;
    Ok(share)
}

/// The bound of a node of the problem under the free rule: the shares of all trains together. No
/// valid plan that follows the node's decisions costs less. Fails for memory alone.
pub fn free_cost(
    alloc: Global,
    problem: &Problem,
    components: &OwnComponents,
    graph: &Graph,
) -> Result<u64, Memory>
    requires node { graph.now.problem ≡ problem.now }
    requires own { AreOwnOf problem.now components.now }
    ensures { IfOk result (IsBound graph.now Free) }
{
    let mut total = 0;
    for train in 0..problem.trains.len() {
        let share = share_of(alloc, problem, components, graph, train as u32)?;
        total += share;
    }
    Ok(total)
}
