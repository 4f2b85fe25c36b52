ghost use Rattle.std.specs.Prelude.{◌≡◌};

use crate::changes::Changes;
use crate::clashes::Care;
use crate::course::Course;
use crate::facts::Facts;
use crate::failures::Failures;
use crate::found::{Found, by_any, by_time, by_toll};
use crate::holders::Holders;
use crate::layers::has_layers;
use crate::links::Links;
use crate::spots::{NEVER, Rows, Spots};
use crate::view::View;
use disp_model::{Decision, Memory, Op, Problem};
use event_graph::Graph;
use incremental_paths::Paths;
use problem_facts::listings_of;
use route_sets::Routes;
use std::alloc::Global;

/// What is looked for first among the open choices.
#[derive(Clone, Copy, Debug, PartialEq, Eq)]
pub enum Strategy {
    /// The order whose two ways cost most, the cheaper one first of all; where that is nothing,
    /// what crosses the ways of other trains; then a fork.
    Toll,
    /// A fork of which one way is left; then an order of which one way leaves no plan; then the
    /// order that is asked for earliest; then a fork.
    Time,
    /// Whatever is open: the route of the first train whose routes part, else the order of two that
    /// hold a resource at a time, else what comes first by tolls.
    Any,
}

/// A choice that an adviser names, and of two operations a resource that both hold at a time.
#[derive(Clone, Copy, Debug)]
pub enum Advice {
    Route(Op),
    Order {
        a: Op,
        b: Op,
        resource: u32,
    },
    /// An order of two that touch, where another operation is a fork.
    Touch {
        a: Op,
        b: Op,
        resource: u32,
        fork: Op,
    },
    Run(Op),
}

/// What is known of the two orders of a choice that was named last. Each is named by the operation
/// that goes first.
#[derive(Clone, Copy, Debug)]
pub struct Orders {
    cheaper: Op,
    dearer: Op,
    /// Whether each leaves a plan that is wanted, as far as was seen.
    is_cheaper_open: bool,
    is_dearer_open: bool,
}

impl Orders {
    /// Whether a decision takes the order that costs less with all that it pushes.
    pub fn is_cheaper(&self, decision: Decision) -> bool {
        match decision {
            Decision::First { a, b } => a == self.cheaper && b == self.dearer,
            _ => false,
        }
    }

    /// Whether a decision that takes one of the orders is seen to leave a plan that is wanted, or
    /// to leave none; nothing where it takes neither.
    fn is_open(&self, decision: Decision) -> Option<bool> {
        match decision {
            Decision::First { a, b } if a == self.cheaper && b == self.dearer => {
                Some(self.is_cheaper_open)
            }
            Decision::First { a, b } if a == self.dearer && b == self.cheaper => {
                Some(self.is_dearer_open)
            }
            _ => None,
        }
    }
}

/// Whether an adviser has seen that a decision leaves a plan that is wanted, or that it leaves
/// none, where it takes one of the orders that were named.
pub fn seen_open(orders: Option<Orders>, decision: Decision) -> Option<bool> {
    orders?.is_open(decision)
}

/// What an adviser keeps of a problem, and of the node at which it was asked last.
#[derive(Drop)]
pub struct Adviser {
    facts: Facts,
    course: Course,
    links: Links,
    changes: Changes,
    spots: Spots,
    holders: Holders,
    /// Whether forks stand behind each other in a train.
    layered: Vec<bool>,
    found: Found,
    failures: Failures,
}

impl Adviser {
    /// An adviser on the choices of a problem, which weighs clashes with so much care.
    ///
    /// # Errors
    ///
    /// `Memory` where memory runs out.
    pub fn new(alloc: Global, problem: &Problem, care: Care) -> Result<Adviser, Memory> {
        let facts = Facts::of(alloc, problem)?;
        let count = facts.count();
        let trains = problem.trains.len();
        let mut layered = Vec::with_capacity(alloc, trains)?;
        for _ in 0..trains {
            layered.push(false)?;
        }
        Ok(Adviser {
            facts,
            course: Course::new(alloc),
            links: Links::new(alloc, count)?,
            changes: Changes::new(alloc, count, trains)?,
            spots: Spots::new(alloc, count, trains)?,
            holders: Holders::of(alloc, problem)?,
            layered,
            found: Found::new(alloc, count, trains, problem.names.len(), care)?,
            failures: Failures::new(alloc, problem.names.len(), trains)?,
        })
    }

    /// Notes that the graph of which it is asked next may be at any node.
    pub fn lose(&mut self) {
        self.course.lose_behind(0);
    }

    /// Notes that the graph of which it is asked next may be at any node that has as many of the
    /// decisions of the last one.
    pub fn lose_behind(&mut self, depth: usize) {
        self.course.lose_behind(depth);
    }

    /// Follows a graph to its node: notes the trains that are to be looked at again.
    fn follow(&mut self, graph: &Graph) -> Result<(), Memory> {
        self.changes.begin_turn();
        let decisions = graph.decisions();
        let arcs = graph.paths().arcs();
        let shared = self.course.shared_with(decisions);
        self.changes.note_decided(self.course.behind(shared))?;
        let left = self.course.go_back(shared);
        let more = match decisions.get(shared..) {
            Some(more) => more,
            None => &[],
        };
        self.changes.note_decided(more)?;
        self.changes.unlink(&self.facts, &mut self.links, left)?;
        self.links.begin_turn();
        self.changes.link(&self.facts, &mut self.links, arcs)?;
        self.course.go_down(more, arcs.len())?;
        self.changes.spread(&self.facts, &self.links, graph.paths())
    }

    /// Notes the resources that a train's operations hold otherwise than before.
    fn note_moved(&mut self, problem: &Problem, order: &[u32], train: u32) -> Result<(), Memory> {
        let first = self.facts.first(train);
        for (place, op) in order.iter().enumerate() {
            let number = first.saturating_add(*op);
            let Some(start) = self.spots.moved_from(place, number) else {
                continue;
            };
            let spot = self.spots.at(number);
            for listing in listings_of(problem, Op { train, op: *op }) {
                self.holders.move_to(listing.resource, number, start, spot)?;
            }
        }
        Ok(())
    }

    /// Looks at what a node says of the operations of a train. Gives the rows of those that may be
    /// held otherwise than before.
    fn look_along(&mut self, routes: &Routes, paths: &Paths, train: u32) -> Result<Rows, Memory> {
        if !self.changes.take_decided(train) {
            return self.spots.look_along(&self.facts, routes, paths, train);
        }
        let rows = self.spots.look_at(&self.facts, routes, paths, train)?;
        let layers = has_layers(&self.spots, routes, self.facts.first(train));
        if let Some(layered) = self.layered.get_mut(train as usize) {
            *layered = layers;
        }
        Ok(rows)
    }

    /// Looks at a train again.
    fn look_at(&mut self, problem: &Problem, graph: &Graph, train: u32) -> Result<(), Memory>
        requires { graph.now.problem ≡ problem.now }
    {
        if train as usize >= problem.trains.len() {
            return Ok(());
        }
        let routes = graph.routes(train);
        let rows = self.look_along(routes, graph.paths(), train)?;
        self.found.forget(train);
        let order = routes.order().get(rows.from..rows.until);
        self.note_moved(problem, order.unwrap_or(&[]), train)
    }

    /// Looks again at the resources of which a holder has moved, and notes the trains whose forks
    /// are then to be looked at.
    fn look_at_holders(&mut self) -> Result<(), Memory> {
        for _ in 0..u64::MAX {
            let Some(moved) = self.holders.next_moved() else {
                return Ok(());
            };
            self.found.note_moved(&moved)?;
        }
        Ok(())
    }

    /// Looks at what has changed since the last node.
    fn look(&mut self, problem: &Problem, graph: &Graph) -> Result<(), Memory>
        requires { graph.now.problem ≡ problem.now }
    {
        self.follow(graph)?;
        for _ in problem.trains.as_slice() {
            let Some(train) = self.changes.next_train() else {
                return self.look_at_holders();
            };
            self.look_at(problem, graph, train)?;
        }
        self.look_at_holders()
    }

    /// What is known of the two orders that were named last, where it was looked at what both push.
    pub fn orders(&self) -> Option<Orders> {
        let tolls = self.found.clash?.tolls?;
        Some(Orders {
            cheaper: self.facts.op(tolls.cheaper),
            dearer: self.facts.op(tolls.dearer),
            is_cheaper_open: tolls.least < NEVER,
            is_dearer_open: tolls.most < NEVER,
        })
    }

    /// Counts the orders of the clash that came first that leave no plan that is wanted.
    fn count_closed(&mut self) {
        if let Some(clash) = self.found.clash {
            let closed = clash.closed_orders();
            self.failures.count_orders(clash.meeting.resource, closed);
        }
    }

    /// Notes that the node to which a decision led is closed: it leaves no plan that is wanted.
    pub fn count_failure(&mut self, decision: Decision) {
        self.failures.count_decision(decision);
    }

    /// The choice to take at the node of a graph, where the adviser knows one. An order that raises
    /// the cost by `room` or more counts as one that leaves no plan.
    ///
    /// # Errors
    ///
    /// `Memory` where memory runs out.
    pub fn advise(
        &mut self,
        problem: &Problem,
        graph: &Graph,
        strategy: Strategy,
        room: u64,
    ) -> Result<Option<Advice>, Memory>
        requires { graph.now.problem ≡ problem.now }
    {
        self.look(problem, graph)?;
        self.found.clash = None;
        let view = View {
            problem,
            graph,
            facts: &self.facts,
            spots: &self.spots,
            holders: &self.holders,
            links: &self.links,
            ages: self.changes.ages(),
            failures: &self.failures,
            room,
        };
        let advice = match strategy {
            Strategy::Toll => by_toll(view, &mut self.found, &self.layered),
            Strategy::Time => by_time(view, &mut self.found),
            Strategy::Any => by_any(view, &mut self.found, &self.layered),
        };
        self.count_closed();
        advice
    }
}
