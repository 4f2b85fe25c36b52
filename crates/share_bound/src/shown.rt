ghost use Rattle.std.specs.Prelude.{◌≡◌, ◌+◌, ◌<◌, ◌^◌, IfOk, OnOk, length};
ghost use Rattle.disp_model.specs.Valid.{train_at};
ghost use Rattle.event_windows.specs.Operations.{HasOperation};
ghost use Rattle.problem_facts.specs.Components.{AreOwnOf};
ghost use Rattle.share_bound.specs.Shown.{ShowsTo, IsShownShare};

use crate::shares::{share, train_of};
use cost_bound::longest_walk;
use disp_model::{List, Memory, Op, Problem, TrainWalks};
use event_graph::Graph;
use problem_facts::OwnComponents;
use std::alloc::Global;

/// The share of a train, and walks that show it.
#[derive(Drop)]
pub struct ShownShare {
    pub share: u64,
    pub listed: TrainWalks,
}

/// Adds a walk to an operation, as long as its longest, where the train must run it.
fn add_walk(alloc: Global, graph: &Graph, op: Op, walks: &mut List<List<Op>>) -> Result<(), Memory>
    requires there { HasOperation graph.now.problem op }
    requires before { ShowsTo graph.now op.train op.op walks.old }
    ensures { OnOk result (ShowsTo graph.now op.train (op.op + 1) walks.new) }
{
    if !graph.routes(op.train).forced(op.op) {
        return Ok(());
    }
    let walk = longest_walk(alloc, graph, op)?;
    walks.push(walk)?;
    Ok(())
}

/// Walks to the operations that a train must run, of so many operations that it has.
pub(crate) fn walks_of(
    alloc: Global,
    graph: &Graph,
    train: u32,
    count: usize,
) -> Result<List<List<Op>>, Memory>
    requires train { train < length graph.now.problem.trains }
    requires count { count ≡ length (train_at graph.now.problem train) }
    requires fits { count < 2 ^ 32 }
    ensures { IfOk result (ShowsTo graph.now train count) }
{
    let mut walks = List::new(alloc);
    for number in 0..count {
        let op = Op {
            train,
            op: number as u32,
        };
        add_walk(alloc, graph, op, &mut walks)?;
    }
    Ok(walks)
}

/// The share of a train at a node of the problem, with a walk to each operation that the train must
/// run, as long as its longest: they show the share in a leaf that lists the train. Takes the time
/// of `share` and of the walks. Fails for memory alone.
pub fn shown_share(
    alloc: Global,
    problem: &Problem,
    components: &OwnComponents,
    graph: &Graph,
    train: u32,
) -> Result<ShownShare, Memory>
    requires node { graph.now.problem ≡ problem.now }
    requires train { train < length problem.now.trains }
    requires own { AreOwnOf problem.now components.now }
    ensures { IfOk result (IsShownShare graph.now train) }
{
    let share = share(alloc, problem, components, graph, train)?;
    let count = train_of(problem, train).len();
    let walks = walks_of(alloc, graph, train, count)?;
    Ok(ShownShare {
        share,
        listed: TrainWalks { train, walks },
    })
}
