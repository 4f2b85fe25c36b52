ghost use Rattle.std.specs.Prelude.{◌≡◌, ◌↔◌, ◌<◌, IfOk, IsTrue, length, slice_set, sum_by};
ghost use Rattle.disp_model.specs.Node.{Node, node_at};
ghost use Rattle.disp_model.specs.Routes.{HasNoRoute};
ghost use Rattle.node_facts.specs.Known.{without_route};
ghost use Rattle.node_facts.specs.Orders.{AreKnown};

use crate::fixing_index::FixingIndex;
use crate::train::TrainKnowledge;
use decision_paths::DecisionPath;
use disp_model::{Memory, Problem};
use std::alloc::Global;
use std::marker::Model;

/// What is known of each train of a node. Contracts see the list of it.
#[derive(Drop)]
pub struct KnownTrains {
    each: Vec<TrainKnowledge>,
    /// How many of the trains have no allowed route.
    stranded: usize,
}

impl Model for KnownTrains {
    ghost use Rattle.std.specs.Prelude.{◌≡◌, List, sum_by};
    ghost use Rattle.node_facts.specs.declared.train.TrainKnowledge.{TrainKnowledge};
    ghost use Rattle.node_facts.specs.Known.{without_route};

    ghost Value = { List TrainKnowledge };

    ghost view = { λ known. known.each.items };

    ghost invariant = { λ known. known.stranded ≡ sum_by without_route known.each.items };
}

/// What is known of each train of a node.
fn known_of(
    alloc: Global,
    problem: &Problem,
    fixings: &FixingIndex,
    decisions: &DecisionPath,
) -> Result<Vec<TrainKnowledge>, Memory>
    ensures { IfOk result (λ trains.
        AreKnown (node_at problem.now fixings.now decisions.now) trains.items) }
{
    let mut trains = Vec::new(alloc);
    for train in 0..problem.trains.len() {
        let known = TrainKnowledge::of(alloc, problem, train as u32, fixings, decisions)?;
        trains.push(known)?;
    }
    Ok(trains)
}

/// How many trains have no allowed route.
fn count_without_route(trains: &[TrainKnowledge]) -> usize
    ensures { result ≡ sum_by without_route trains.now }
{
    let mut count = 0;
    for known in trains {
        count += known.without_route();
    }
    count
}

impl KnownTrains {
    /// What is known of each train of a node.
    ///
    /// # Errors
    ///
    /// `Memory` where memory runs out.
    pub fn of(
        alloc: Global,
        problem: &Problem,
        fixings: &FixingIndex,
        decisions: &DecisionPath,
    ) -> Result<KnownTrains, Memory>
        ensures { IfOk result (AreKnown (node_at problem.now fixings.now decisions.now)) }
    {
        let each = known_of(alloc, problem, fixings, decisions)?;
        let stranded = count_without_route(&each);
        Ok(KnownTrains { each, stranded })
    }

    /// How many trains there are.
    pub fn len(&self) -> usize
        ensures { result ≡ length self.now }
    {
        self.each.len()
    }

    /// What is known of each train.
    pub fn as_slice(&self) -> &[TrainKnowledge]
        ensures { result.now ≡ self.now }
    {
        self.each.as_slice()
    }

    /// Whether some train has no allowed route.
    pub fn has_no_route(&self) -> bool
        ensures { (node : Node) → AreKnown node self.now → IsTrue result ↔ HasNoRoute node }
    {
        self.stranded > 0
    }

    /// Replaces what is known of a train.
    pub fn replace(&mut self, train: u32, known: TrainKnowledge)
        requires { train < length self.old }
        ensures { self.new ≡ slice_set self.old train known }
    {
        let at = train as usize;
        // that the trains are counted in 64 bits bounds the sum
        let _trains = self.len();
        let others = self.stranded - self.each[at].without_route();
        self.stranded = others + known.without_route();
        self.each[at] = known;
    }
}
