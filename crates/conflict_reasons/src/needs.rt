ghost use Rattle.std.specs.Prelude.{◌<◌, length};

use disp_model::{Memory, Op};
use event_graph::Graph;
use route_sets::Routes;
use std::alloc::Global;

/// Something that a leaf needs of the routes of a train.
#[derive(Clone, Copy)]
pub(crate) enum Need {
    /// Each route has the operation.
    Forced(u32),
    /// Each route has both operations, and takes so long at least from the first to the second.
    Least { from: u32, to: u32, sum: u64 },
    /// Each route has the first operation, and goes on from it to the second.
    Next { from: u32, to: u32 },
    /// There is no route.
    NoRoute,
}

impl Need {
    /// Whether routes give it.
    fn is_met(self, routes: &Routes) -> bool {
        match self {
            Need::Forced(op) => routes.forced(op),
            Need::Least { from, to, sum } => match routes.least_between(from, to) {
                Some(least) => least >= sum,
                None => false,
            },
            Need::Next { from, to } => routes.only_next(from) == Some(to),
            Need::NoRoute => routes.none_left(),
        }
    }
}

/// Whether routes give all that is needed of them.
pub(crate) fn are_met(needs: &[Need], routes: &Routes) -> bool {
    for need in needs {
        if !need.is_met(routes) {
            return false;
        }
    }
    true
}

/// What a leaf needs of the routes of one train.
#[derive(Drop)]
pub(crate) struct TrainNeeds {
    /// Some of it, each apart.
    pub each: Vec<Need>,
    /// Whether it rests on all decisions about them.
    pub all: bool,
}

/// What a leaf needs of the routes of each train.
#[derive(Drop)]
pub(crate) struct Needs {
    trains: Vec<TrainNeeds>,
}

impl Needs {
    /// Nothing yet, of so many trains. Fails for memory alone.
    pub(crate) fn new(alloc: Global, trains: usize) -> Result<Needs, Memory> {
        let mut each = Vec::with_capacity(alloc, trains)?;
        for _ in 0..trains {
            each.push(TrainNeeds {
                each: Vec::new(alloc),
                all: false,
            })?;
        }
        Ok(Needs { trains: each })
    }

    /// What is needed of the routes of a train, if something is.
    pub(crate) fn of_train(&self, train: u32) -> Option<&TrainNeeds> {
        let needs = self.trains.get(train as usize)?;
        if needs.all || !needs.each.is_empty() {
            Some(needs)
        } else {
            None
        }
    }

    /// Adds a need of the routes of a train.
    pub(crate) fn add(&mut self, train: u32, need: Need) -> Result<(), Memory> {
        if let Some(needs) = self.trains.get_mut(train as usize) {
            needs.each.push(need)?;
        }
        Ok(())
    }

    /// Adds all decisions about the routes of a train.
    pub(crate) fn add_all(&mut self, train: u32) {
        if let Some(needs) = self.trains.get_mut(train as usize) {
            needs.all = true;
        }
    }

    /// Adds the way of a train from one operation to another, in no less than so long.
    pub(crate) fn add_way(&mut self, from: Op, to: Op, sum: u64) -> Result<(), Memory> {
        let need = Need::Least {
            from: from.op,
            to: to.op,
            sum,
        };
        self.add(from.train, need)
    }

    /// Adds that a train goes on from one operation to the other, where they are not the same.
    pub(crate) fn add_step(&mut self, train: u32, from: u32, to: u32) -> Result<(), Memory> {
        if from == to {
            return Ok(());
        }
        self.add(train, Need::Next { from, to })
    }
}

/// How long a train takes at least from one of its operations to another at the node of a graph.
pub(crate) fn least_at(graph: &Graph, from: Op, to: Op) -> u64
    requires { from.train < length graph.now.problem.trains }
{
    let least = graph.routes(from.train).least_between(from.op, to.op);
    least.unwrap_or(0)
}
