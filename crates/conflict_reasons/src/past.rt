ghost use Rattle.std.specs.Prelude.{◌≡◌, ◌<◌, length};

use disp_model::{Decision, Fixing, Memory, Op, Problem};
use event_graph::Graph;
use route_sets::Routes;
use std::alloc::Global;

/// The decisions about one train from where a search began to where it is, and what its routes were
/// there.
#[derive(Drop)]
struct TrainPast {
    /// The number of its first operation.
    first: usize,
    /// The places of the orders in which an operation of it comes second.
    orders: Vec<usize>,
    /// The places of the decisions about its routes.
    routes: Vec<usize>,
    /// The decisions about its routes before the search began, and what they allow.
    before: Vec<Decision>,
    allowed: Routes,
}

/// The decisions from where a search in depth began to where it is, also by the trains that they
/// are about. Their places are counted from 0.
#[derive(Drop)]
pub struct Past {
    decisions: Vec<Decision>,
    trains: Vec<TrainPast>,
}

/// The train whose routes a decision is about, if it is about one's.
fn routed_train(decision: Decision) -> Option<u32> {
    match decision {
        Decision::First { .. } => None,
        Decision::Go { op, .. } => Some(op.train),
        Decision::Run(op) => Some(op.train),
        Decision::Skip(op) => Some(op.train),
    }
}

/// Those of some decisions that are about the routes of a train.
fn about_routes(
    alloc: Global,
    decisions: &[Decision],
    train: u32,
) -> Result<Vec<Decision>, Memory> {
    let mut found = Vec::new(alloc);
    for decision in decisions {
        if routed_train(*decision) == Some(train) {
            found.push(*decision)?;
        }
    }
    Ok(found)
}

/// The routes of a train of a graph that other decisions allow under these fixings.
pub(crate) fn routes_with(
    problem: &Problem,
    fixings: &[Fixing],
    graph: &Graph,
    train: u32,
    decisions: &[Decision],
) -> Result<Routes, Memory>
    requires node { graph.now.problem ≡ problem.now }
    requires train { train < length problem.now.trains }
{
    graph
        .routes(train)
        .others(problem, train, fixings, decisions)
}

impl TrainPast {
    /// What is known of a train, by the number of its first operation, where a search begins.
    fn new(
        alloc: Global,
        problem: &Problem,
        fixings: &[Fixing],
        graph: &Graph,
        train: u32,
        first: usize,
    ) -> Result<TrainPast, Memory>
        requires node { graph.now.problem ≡ problem.now }
        requires train { train < length problem.now.trains }
    {
        let before = about_routes(alloc, graph.decisions(), train)?;
        let allowed = routes_with(problem, fixings, graph, train, &before)?;
        Ok(TrainPast {
            first,
            orders: Vec::new(alloc),
            routes: Vec::new(alloc),
            before,
            allowed,
        })
    }
}

impl Past {
    /// No decisions yet, behind those of the node of a graph, which has these fixings. Fails for
    /// memory alone.
    pub fn new(
        alloc: Global,
        problem: &Problem,
        fixings: &[Fixing],
        graph: &Graph,
    ) -> Result<Past, Memory>
        requires { graph.now.problem ≡ problem.now }
    {
        let mut trains = Vec::with_capacity(alloc, problem.trains.len())?;
        let mut first: usize = 0;
        for train in 0..problem.trains.len() as u32 {
            let past = TrainPast::new(alloc, problem, fixings, graph, train, first)?;
            first = first.saturating_add(problem.trains.as_slice()[train as usize].len());
            trains.push(past)?;
        }
        Ok(Past {
            decisions: Vec::new(alloc),
            trains,
        })
    }

    /// How many decisions there are.
    pub fn len(&self) -> usize {
        self.decisions.len()
    }

    /// The decisions, in the order in which they were taken.
    pub fn decisions(&self) -> &[Decision] {
        &self.decisions
    }

    /// How many trains there are.
    pub(crate) fn trains(&self) -> usize {
        self.trains.len()
    }

    /// The number of the first operation of a train.
    pub(crate) fn first(&self, train: u32) -> Option<usize> {
        Some(self.trains.get(train as usize)?.first)
    }

    /// The decision at a place.
    pub fn decision(&self, place: usize) -> Option<Decision> {
        self.decisions.get(place).copied()
    }

    /// The places that a decision has its own noted in.
    fn places_for(&mut self, decision: Decision) -> Option<&mut Vec<usize>> {
        match decision {
            Decision::First { b, .. } => {
                let past = self.trains.get_mut(b.train as usize)?;
                Some(&mut past.orders)
            }
            Decision::Go { op, .. } | Decision::Run(op) | Decision::Skip(op) => {
                let past = self.trains.get_mut(op.train as usize)?;
                Some(&mut past.routes)
            }
        }
    }

    /// Takes a decision.
    pub fn push(&mut self, decision: Decision) -> Result<(), Memory> {
        let place = self.decisions.len();
        self.decisions.push(decision)?;
        if let Some(places) = self.places_for(decision) {
            places.push(place)?;
        }
        Ok(())
    }

    /// Takes the last decision back, and gives it.
    pub fn pop(&mut self) -> Option<Decision> {
        let decision = self.decisions.pop()?;
        if let Some(places) = self.places_for(decision) {
            let _place = places.pop();
        }
        Some(decision)
    }

    /// The train whose routes the last decision is about, if it is about one's.
    pub(crate) fn last_train(&self) -> Option<u32> {
        routed_train(*self.decisions.last()?)
    }

    /// The places of the decisions about the routes of a train.
    pub(crate) fn routes_of(&self, train: u32) -> &[usize] {
        match self.trains.get(train as usize) {
            Some(past) => &past.routes,
            None => &[],
        }
    }

    /// The decisions about the routes of a train before the search began.
    pub(crate) fn before(&self, train: u32) -> &[Decision] {
        match self.trains.get(train as usize) {
            Some(past) => &past.before,
            None => &[],
        }
    }

    /// What these allow.
    pub(crate) fn allowed(&self, train: u32) -> Option<&Routes> {
        Some(&self.trains.get(train as usize)?.allowed)
    }

    /// The operation of a train that the order at a place has come before another one.
    fn holder(&self, place: usize, train: u32, to: Op) -> Option<u32> {
        match self.decisions.get(place) {
            Some(Decision::First { a, b }) if *b == to && a.train == train => Some(a.op),
            _ => None,
        }
    }

    /// The order by which a walk goes from an operation of a train to one of another: that train
    /// has come as far by then as the last operation that is ordered so, or farther.
    pub(crate) fn order_between(&self, from: Op, to: Op) -> Option<OrderAt> {
        let past = self.trains.get(to.train as usize)?;
        let mut found: Option<OrderAt> = None;
        let mut last = 0;
        for place in past.orders.iter() {
            if let Some(holder) = self.holder(*place, from.train, to) {
                if last <= holder && holder <= from.op {
                    found = Some(OrderAt {
                        place: *place,
                        holder,
                    });
                    last = holder;
                }
            }
        }
        found
    }
}

/// An order, by its place, and which operation it has come first.
#[derive(Clone, Copy)]
pub(crate) struct OrderAt {
    pub place: usize,
    pub holder: u32,
}
