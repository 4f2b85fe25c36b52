ghost use Rattle.std.specs.Prelude.{◌≡◌, ◌↔◌, ◌-◌, ◌<◌, ◌++◌, ◌∷◌, [], List, Contains, IfOk, OnOk, OnErr, IsTrue, length, take};
ghost use Rattle.std.specs.List.{filter};
ghost use Rattle.disp_model.specs.declared.decision.Decision.{Decision};
ghost use Rattle.disp_model.specs.declared.decision.Decision.TheVariants.{First};
ghost use Rattle.decision_paths.specs.Kept.{speaks_of, AreDecisionsKept};

use crate::orders::{forget_order, note_order, place_of};
use crate::routes::{forget_route, list_of, lists_of, note_route};
use disp_model::{Decision, Memory, Op};
use std::alloc::Global;
use std::collections::BTreeMap;
use std::marker::Model;

/// The decisions that lead to a node, in order. Contracts see the list of them.
#[derive(Drop)]
pub struct DecisionPath {
    decisions: Vec<Decision>,
    /// Of each order that is decided the place in which it stands first.
    orders: BTreeMap<(Op, Op), usize>,
    /// The decisions that speak of routes, by their trains; the last list is of all trains that
    /// have none of their own.
    routes: Vec<Vec<Decision>>,
}

impl Model for DecisionPath {
    ghost use Rattle.std.specs.Prelude.{List};
    ghost use Rattle.disp_model.specs.declared.decision.Decision.{Decision};
    ghost use Rattle.decision_paths.specs.Kept.{AreDecisionsKept};

    ghost Value = { List Decision };

    ghost view = { λ p. p.decisions.items };

    ghost invariant = { λ p. AreDecisionsKept p.decisions.items p.orders.entries p.routes.items };
}

/// Keeps what is asked of a decision that is put behind.
fn note(
    orders: &mut BTreeMap<(Op, Op), usize>,
    routes: &mut Vec<Vec<Decision>>,
    decision: Decision,
    place: usize,
) -> Result<(), Memory>
    requires { 0 < length routes.old.items }
    ensures ok { OnOk result ((decisions : List Decision)
        → AreDecisionsKept decisions orders.old.entries routes.old.items → length decisions ≡ place
        → AreDecisionsKept (decisions ++ decision ∷ []) orders.new.entries routes.new.items) }
    ensures err { OnErr result ((decisions : List Decision)
        → AreDecisionsKept decisions orders.old.entries routes.old.items
        → AreDecisionsKept decisions orders.new.entries routes.new.items) }
{
    match decision {
        Decision::Go { op, .. } => note_route(routes, op.train, decision),
        Decision::First { a, b } => note_order(orders, a, b, place),
        Decision::Run(op) => note_route(routes, op.train, decision),
        Decision::Skip(op) => note_route(routes, op.train, decision),
    }
}

/// Keeps no longer what is asked of a decision that is taken back from behind.
fn forget(
    orders: &mut BTreeMap<(Op, Op), usize>,
    routes: &mut Vec<Vec<Decision>>,
    decision: Decision,
    place: usize,
)
    requires { 0 < length routes.old.items }
    ensures { (decisions : List Decision)
        → AreDecisionsKept (decisions ++ decision ∷ []) orders.old.entries routes.old.items
        → length decisions ≡ place
        → AreDecisionsKept decisions orders.new.entries routes.new.items }
{
    match decision {
        Decision::Go { op, .. } => forget_route(routes, op.train),
        Decision::First { a, b } => forget_order(orders, a, b, place),
        Decision::Run(op) => forget_route(routes, op.train),
        Decision::Skip(op) => forget_route(routes, op.train),
    }
}

impl DecisionPath {
    /// No decisions. Those on the routes of the first so many trains are kept in lists of the
    /// trains' own; those on others are kept too.
    ///
    /// # Errors
    ///
    /// `Memory` where memory runs out.
    pub fn new(alloc: Global, trains: usize) -> Result<DecisionPath, Memory>
        ensures { IfOk result (λ path. path ≡ []) }
    {
        let routes = lists_of(alloc, trains)?;
        Ok(DecisionPath {
            decisions: Vec::new(alloc),
            orders: BTreeMap::new(alloc),
            routes,
        })
    }

    /// These decisions.
    ///
    /// # Errors
    ///
    /// `Memory` where memory runs out.
    pub fn of(alloc: Global, trains: usize, decisions: &[Decision]) -> Result<DecisionPath, Memory>
        ensures { IfOk result (λ path. path ≡ decisions.now) }
    {
        let mut path = DecisionPath::new(alloc, trains)?;
        for decision in decisions {
            path.push(*decision)?;
        }
        Ok(path)
    }

    /// Puts a decision behind the others.
    ///
    /// # Errors
    ///
    /// `Memory` where memory runs out; the decisions are as before then.
    pub fn push(&mut self, decision: Decision) -> Result<(), Memory>
        ensures ok { OnOk result (self.new ≡ self.old ++ decision ∷ []) }
        ensures err { OnErr result (self.new ≡ self.old) }
    {
        self.decisions.reserve(1)?;
        let place = self.decisions.len();
        note(&mut self.orders, &mut self.routes, decision, place)?;
        self.decisions.push_reserved(decision);
        Ok(())
    }

    /// Takes the last decision back, if there is one.
    fn take_back(&mut self)
        ensures { self.new ≡ take (length self.old - 1) self.old }
    {
        let Some(decision) = self.decisions.pop() else {
            return;
        };
        let place = self.decisions.len();
        forget(&mut self.orders, &mut self.routes, decision, place);
    }

    /// Takes back all decisions but the first so many.
    pub fn truncate(&mut self, depth: usize)
        ensures { self.new ≡ take depth self.old }
    {
        while self.len() > depth {
            self.take_back();
        }
    }

    /// How many decisions there are.
    pub fn len(&self) -> usize
        ensures { result ≡ length self.now }
    {
        self.decisions.len()
    }

    /// The decisions.
    pub fn as_slice(&self) -> &[Decision]
        ensures { result.now ≡ self.now }
    {
        self.decisions.as_slice()
    }

    /// Whether one operation is decided before another.
    pub fn puts_first(&self, a: Op, b: Op) -> bool
        ensures { IsTrue result ↔ Contains self.now (First a b) }
    {
        match place_of(&self.orders, a, b) {
            Some(_) => true,
            None => false,
        }
    }

    /// Decisions that have all those among them, in order, that speak of the routes of a train. For
    /// a train with a list of its own there are no others.
    pub fn about(&self, train: u32) -> &[Decision]
        ensures { filter (speaks_of train) result.now ≡ filter (speaks_of train) self.now }
    {
        let place = list_of(&self.routes, train);
        self.routes[place].as_slice()
    }
}
