ghost use Rattle.std.specs.Prelude.{◌≡◌, ◌<◌, ◌↔◌, ◌-◌, ◌∷◌, ◌++◌, [], List, take, length, IsTrue, IfOk, OnOk, OnErr};
ghost use Rattle.disp_model.specs.declared.fixing.Fixing.{Fixing};
ghost use Rattle.disp_model.specs.declared.decision.Decision.{Decision};
ghost use Rattle.disp_model.specs.declared.decision.Decision.TheVariants.{First};
ghost use Rattle.disp_model.specs.Node.{node_at};
ghost use Rattle.event_arcs.specs.Placed.{ArePlaced};
ghost use Rattle.event_graph.specs.Pairs.{HasOrder, Touches, AddsTouching};

use disp_model::{Decision, Memory, Op, Problem};
use event_arcs::{Placed, add_order};
use incremental_paths::{Arc, Threads};
use std::alloc::Global;
use std::marker::Model;

/// Two operations whose order is decided, the first before the second, with their numbers.
#[derive(Clone, Copy)]
pub(crate) struct Pair {
    pub first: Op,
    pub second: Op,
    pub from: u32,
    pub to: u32,
}

/// The decision of an order.
fn decision_of(pair: Pair) -> Decision
    ensures { result ≡ First pair.first pair.second }
{
    Decision::First {
        a: pair.first,
        b: pair.second,
    }
}

/// Whether the order is that of these two operations.
fn is_of(pair: Pair, first: Op, second: Op) -> bool
    ensures { IsTrue result ↔ ((pair.first ≡ first) × (pair.second ≡ second)) }
{
    pair.first == first && pair.second == second
}

/// The orders that are decided, threaded by either of their operations.
#[derive(Drop)]
pub(crate) struct Orders {
    pairs: Vec<Pair>,
    by_first: Threads,
    by_second: Threads,
}

impl Model for Orders {
    ghost use Rattle.event_graph.specs.Pairs.{Ordered, AreThreaded};

    ghost Value = { Ordered };

    ghost view = { λ o. record { size = o.by_first.size; pairs = o.pairs.items } };

    ghost invariant = { λ o. AreThreaded o.pairs.items o.by_first o.by_second };
}

impl Orders {
    /// No orders, of so many operations.
    pub(crate) fn new(alloc: Global, operations: usize) -> Result<Orders, Memory>
        ensures { IfOk result (λ orders. orders ≡ record { size = operations; pairs = [] }) }
    {
        Ok(Orders {
            pairs: Vec::new(alloc),
            by_first: Threads::new(alloc, operations)?,
            by_second: Threads::new(alloc, operations)?,
        })
    }

    /// Puts an order behind the others.
    pub(crate) fn push(&mut self, pair: Pair) -> Result<(), Memory>
        requires from { pair.from < self.old.size }
        requires to { pair.to < self.old.size }
        ensures size { self.new.size ≡ self.old.size }
        ensures ok { OnOk result (self.new.pairs ≡ self.old.pairs ++ pair ∷ []) }
        ensures err { OnErr result (self.new ≡ self.old) }
    {
        self.pairs.reserve(1)?;
        self.by_first.push(pair.from)?;
        if self.by_second.push(pair.to).is_err() {
            self.by_first.pop();
            return Err(Memory);
        }
        if self.pairs.push(pair).is_err() {
            unreachable!();
        }
        Ok(())
    }

    /// Takes the last order away.
    pub(crate) fn pop(&mut self)
        requires { 0 < length self.old.pairs }
        ensures size { self.new.size ≡ self.old.size }
        ensures pairs { self.new.pairs ≡ take (length self.old.pairs - 1) self.old.pairs }
    {
        self.pairs.pop();
        self.by_first.pop();
        self.by_second.pop();
    }

    /// Whether the order of two operations is among them, the first of which has this number.
    pub(crate) fn has(&self, from: u32, first: Op, second: Op) -> bool
        requires { from < self.now.size }
        ensures { IsTrue result ↔ HasOrder self.now.pairs from first second }
    {
        let mut place = self.by_first.last(from);
        while place > 0 {
            if is_of(self.pairs[place - 1], first, second) {
                return true;
            }
            place = self.by_first.before(place - 1);
        }
        false
    }

    /// Adds the arcs of the orders whose first operation has this number.
    fn add_behind(
        &self,
        arcs: &mut Vec<Arc>,
        problem: &Problem,
        each: &[Placed],
        number: u32,
    ) -> Result<(), Memory>
        requires number { number < self.now.size }
        requires placed { (fixings : List Fixing) × (decisions : List Decision)
            × ArePlaced (node_at problem.now fixings decisions) each.now }
        ensures { (fixings : List Fixing) (decisions : List Decision)
            → ArePlaced (node_at problem.now fixings decisions) each.now
            → OnOk result (AddsTouching (λ pair. pair.from ≡ number)
            (node_at problem.now fixings decisions) self.now.pairs arcs.old.items arcs.new.items) }
    {
        let mut place = self.by_first.last(number);
        while place > 0 {
            let pair = self.pairs[place - 1];
            add_order(arcs, problem, each, &decision_of(pair))?;
            place = self.by_first.before(place - 1);
        }
        Ok(())
    }

    /// Adds the arcs of the orders whose second operation has this number.
    fn add_before(
        &self,
        arcs: &mut Vec<Arc>,
        problem: &Problem,
        each: &[Placed],
        number: u32,
    ) -> Result<(), Memory>
        requires number { number < self.now.size }
        requires placed { (fixings : List Fixing) × (decisions : List Decision)
            × ArePlaced (node_at problem.now fixings decisions) each.now }
        ensures { (fixings : List Fixing) (decisions : List Decision)
            → ArePlaced (node_at problem.now fixings decisions) each.now
            → OnOk result (AddsTouching (λ pair. pair.to ≡ number)
            (node_at problem.now fixings decisions) self.now.pairs arcs.old.items arcs.new.items) }
    {
        let mut place = self.by_second.last(number);
        while place > 0 {
            let pair = self.pairs[place - 1];
            add_order(arcs, problem, each, &decision_of(pair))?;
            place = self.by_second.before(place - 1);
        }
        Ok(())
    }

    /// Adds the arcs of the orders one of whose operations has this number.
    pub(crate) fn add_touching(
        &self,
        arcs: &mut Vec<Arc>,
        problem: &Problem,
        each: &[Placed],
        number: u32,
    ) -> Result<(), Memory>
        requires number { number < self.now.size }
        requires placed { (fixings : List Fixing) × (decisions : List Decision)
            × ArePlaced (node_at problem.now fixings decisions) each.now }
        ensures { (fixings : List Fixing) (decisions : List Decision)
            → ArePlaced (node_at problem.now fixings decisions) each.now
            → OnOk result (AddsTouching (λ pair. Touches pair number)
            (node_at problem.now fixings decisions) self.now.pairs arcs.old.items arcs.new.items) }
    {
        self.add_behind(arcs, problem, each, number)?;
        self.add_before(arcs, problem, each, number)
    }
}
