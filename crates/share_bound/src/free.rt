ghost use Rattle.std.specs.Prelude.{◌≡◌, ◌+◌, ◌<◌, IfOk, OnOk, length};
ghost use Rattle.problem_facts.specs.Components.{AreOwnOf};
ghost use Rattle.share_bound.specs.Free.{IsFreeBound, AreListedTo};

use crate::shares::{free_cost, share_of, train_of};
use crate::shown::walks_of;
use cost_bound::{bound, cost};
use disp_model::{ComponentWalk, List, Memory, Problem, TrainWalks};
use event_graph::Graph;
use problem_facts::OwnComponents;
use std::alloc::Global;

/// What plans cost at least at a node under the free rule, with walks to distinct components and
/// listed trains that show it.
#[derive(Drop)]
pub struct FreeBound {
    pub cost: u64,
    pub walks: List<ComponentWalk>,
    pub trains: List<TrainWalks>,
}

/// Adds the share of a train, which is listed where that is something.
fn list(
    alloc: Global,
    problem: &Problem,
    components: &OwnComponents,
    graph: &Graph,
    train: u32,
    bound: &mut FreeBound,
) -> Result<(), Memory>
    requires node { graph.now.problem ≡ problem.now }
    requires train { train < length problem.now.trains }
    requires own { AreOwnOf problem.now components.now }
    requires before { AreListedTo graph.now train bound.old }
    ensures { OnOk result (AreListedTo graph.now (train + 1) bound.new) }
{
    let share = share_of(alloc, problem, components, graph, train)?;
    if share == 0 {
        return Ok(());
    }
    let count = train_of(problem, train).len();
    let walks = walks_of(alloc, graph, train, count)?;
    bound.trains.push(TrainWalks { train, walks })?;
    bound.cost += share;
    Ok(())
}

/// The shares of all trains, of which those are listed that cost something.
fn listed(
    alloc: Global,
    problem: &Problem,
    components: &OwnComponents,
    graph: &Graph,
) -> Result<FreeBound, Memory>
    requires node { graph.now.problem ≡ problem.now }
    requires own { AreOwnOf problem.now components.now }
    ensures { IfOk result (AreListedTo graph.now (length problem.now.trains)) }
{
    let mut bound = FreeBound {
        cost: 0,
        walks: List::new(alloc),
        trains: List::new(alloc),
    };
    for train in 0..problem.trains.len() {
        list(alloc, problem, components, graph, train as u32, &mut bound)?;
    }
    Ok(bound)
}

/// The bound of a node of the problem under the free rule, as `free_cost` says it, with a leaf that
/// shows it. Where forced components alone cost as much, it has walks to them and no train; else
/// each train whose share is not 0, with walks to what it must run. Fails for memory alone.
pub fn free_bound(
    alloc: Global,
    problem: &Problem,
    components: &OwnComponents,
    graph: &Graph,
) -> Result<FreeBound, Memory>
    requires node { graph.now.problem ≡ problem.now }
    requires own { AreOwnOf problem.now components.now }
    ensures { IfOk result (IsFreeBound graph.now) }
{
    let total = free_cost(alloc, problem, components, graph)?;
    if total <= cost(problem, graph) {
        let fixed = bound(alloc, problem, graph)?;
        return Ok(FreeBound {
            cost: total,
            walks: fixed.walks,
            trains: List::new(alloc),
        });
    }
    let shown = listed(alloc, problem, components, graph)?;
    Ok(shown)
}
