ghost use Rattle.std.specs.Prelude.{◌≡◌, ◌<◌, length};

use crate::fewest::fewest;
use crate::needs::{Need, Needs, TrainNeeds, least_at};
use crate::past::Past;
use crate::spared::needed;
use crate::tried::TriedRoutes;
use disp_model::{ComponentWalk, Fixing, Leaf, Memory, Op, Problem};
use event_graph::Graph;
use std::alloc::Global;

/// Where a search is: the graph of a node under these fixings, or of the one above where the graph
/// refused the last decision.
#[derive(Clone, Copy)]
pub struct At<'a> {
    pub problem: &'a Problem,
    pub fixings: &'a [Fixing],
    pub graph: &'a Graph<'a>,
    pub past: &'a Past,
    /// How much more the leaf of the node costs than it has to.
    pub room: u64,
}

/// The places of the decisions on which it rests that a node is closed, from the first one on.
#[derive(Drop)]
pub struct Reasons {
    places: Vec<usize>,
}

/// What a leaf names, while it is read.
#[derive(Drop)]
struct Named {
    /// Whether each decision is named.
    decisions: Vec<bool>,
    needs: Needs,
}

/// Notes what stands at a place.
fn mark(marks: &mut Vec<bool>, place: usize) {
    if let Some(mark) = marks.get_mut(place) {
        *mark = true;
    }
}

/// How long a walk takes at least from one operation to the next one of its train; of a cycle it
/// does not matter.
fn sum_of(at: At, from: Op, to: Op, closed: bool) -> u64
    requires { at.graph.now.problem ≡ at.problem.now }
{
    if closed || from.train as usize >= at.problem.trains.len() {
        return 0;
    }
    least_at(at.graph, from, to)
}

impl Named {
    /// Names what a walk rests on where it goes from one operation to another, and whether it is
    /// one of a cycle.
    fn name_step(&mut self, at: At, from: Op, to: Op, closed: bool) -> Result<(), Memory>
        requires { at.graph.now.problem ≡ at.problem.now }
    {
        if from.train == to.train {
            return self.needs.add_way(from, to, sum_of(at, from, to, closed));
        }
        match at.past.order_between(from, to) {
            Some(order) => {
                mark(&mut self.decisions, order.place);
                self.needs.add_step(from.train, order.holder, from.op)
            }
            // The order was decided before the search began.
            None => {
                self.needs.add_all(from.train);
                Ok(())
            }
        }
    }

    /// Names what a walk rests on, or a cycle without its last step.
    fn name_steps(&mut self, at: At, walk: &[Op], closed: bool) -> Result<(), Memory>
        requires { at.graph.now.problem ≡ at.problem.now }
    {
        let mut before = None;
        for op in walk {
            self.needs.add(op.train, Need::Forced(op.op))?;
            if let Some(before) = before {
                self.name_step(at, before, *op, closed)?;
            }
            before = Some(*op);
        }
        Ok(())
    }

    /// Names what a walk rests on.
    fn name_walk(&mut self, at: At, walk: &[Op]) -> Result<(), Memory>
        requires { at.graph.now.problem ≡ at.problem.now }
    {
        self.name_steps(at, walk, false)
    }

    /// Names what a cycle rests on.
    fn name_cycle(&mut self, at: At, cycle: &[Op]) -> Result<(), Memory>
        requires { at.graph.now.problem ≡ at.problem.now }
    {
        self.name_steps(at, cycle, true)?;
        match (cycle.first(), cycle.last()) {
            (Some(first), Some(last)) => self.name_step(at, *last, *first, true),
            _ => Ok(()),
        }
    }

    /// Names what those walks to components rest on that are needed.
    fn name_needed(&mut self, alloc: Global, at: At, walks: &[ComponentWalk]) -> Result<(), Memory>
        requires { at.graph.now.problem ≡ at.problem.now }
    {
        let needed = needed(alloc, at, walks)?;
        for (listed, needed) in walks.iter().zip(needed.iter()) {
            if *needed {
                self.name_walk(at, listed.walk.as_slice())?;
            }
        }
        Ok(())
    }

    /// Names the last decision, behind which the train that it is about has no route.
    fn name_last(&mut self, at: At) -> Result<(), Memory> {
        mark(&mut self.decisions, at.past.len().saturating_sub(1));
        match at.past.last_train() {
            Some(train) => self.needs.add(train, Need::NoRoute),
            None => Ok(()),
        }
    }

    /// Names what a leaf rests on.
    fn name_leaf(&mut self, alloc: Global, at: At, leaf: &Leaf) -> Result<(), Memory>
        requires { at.graph.now.problem ≡ at.problem.now }
    {
        match leaf {
            Leaf::NoRoute => self.name_last(at)?,
            Leaf::Cycle(ops) => self.name_cycle(at, ops.as_slice())?,
            Leaf::Late(walk) => self.name_walk(at, walk.as_slice())?,
            Leaf::Costs(walks) => self.name_needed(alloc, at, walks.as_slice())?,
            Leaf::Shares { walks, trains } => {
                self.name_needed(alloc, at, walks.as_slice())?;
                for listed in trains.as_slice() {
                    self.needs.add_all(listed.train);
                    for walk in listed.walks.as_slice() {
                        self.name_walk(at, walk.as_slice())?;
                    }
                }
            }
        }
        Ok(())
    }
}

/// The places of the decisions about the routes of a train on which it rests what is needed of
/// them.
fn route_reasons(
    alloc: Global,
    at: At,
    tried: &mut TriedRoutes,
    train: u32,
    needs: &TrainNeeds,
) -> Result<Vec<usize>, Memory>
    requires node { at.graph.now.problem ≡ at.problem.now }
    requires train { train < length at.problem.now.trains }
{
    if needs.all {
        return Ok(Vec::from_slice(alloc, at.past.routes_of(train))?);
    }
    fewest(alloc, at, tried, train, &needs.each)
}

/// Marks the decisions about routes on which it rests what is needed.
fn mark_routes(
    alloc: Global,
    at: At,
    tried: &mut TriedRoutes,
    needs: &Needs,
    decisions: &mut Vec<bool>,
) -> Result<(), Memory>
    requires { at.graph.now.problem ≡ at.problem.now }
{
    for train in 0..at.problem.trains.len() as u32 {
        if let Some(needs) = needs.of_train(train) {
            for place in route_reasons(alloc, at, tried, train, needs)?.iter() {
                mark(decisions, *place);
            }
        }
    }
    Ok(())
}

impl Reasons {
    /// The places that are marked.
    pub fn marked(alloc: Global, marks: &[bool]) -> Result<Reasons, Memory> {
        let mut places = Vec::new(alloc);
        for (place, marked) in marks.iter().enumerate() {
            if *marked {
                places.push(place)?;
            }
        }
        Ok(Reasons { places })
    }

    /// What a leaf rests on that shows that the node where a search is is closed. What routes
    /// decisions allow is kept for the next one. Fails for memory alone.
    pub fn of_leaf(
        alloc: Global,
        at: At,
        tried: &mut TriedRoutes,
        leaf: &Leaf,
    ) -> Result<Reasons, Memory>
        requires { at.graph.now.problem ≡ at.problem.now }
    {
        let mut named = Named {
            decisions: vec![in alloc; false; at.past.len()]?,
            needs: Needs::new(alloc, at.past.trains())?,
        };
        named.name_leaf(alloc, at, leaf)?;
        let Named {
            mut decisions,
            needs,
        } = named;
        mark_routes(alloc, at, tried, &needs, &mut decisions)?;
        Reasons::marked(alloc, &decisions)
    }

    /// The places, from the first one on.
    pub fn places(&self) -> &[usize] {
        &self.places
    }

    /// Whether they rest on the decision behind so many, where they rest on none behind that.
    pub fn rest_on(&self, depth: usize) -> bool {
        match self.places.last() {
            Some(last) => *last == depth,
            None => false,
        }
    }

    /// Adds them to those that are marked, as far as these go.
    pub fn add_to(&self, marks: &mut Vec<bool>) {
        for place in self.places.iter() {
            mark(marks, *place);
        }
    }
}
