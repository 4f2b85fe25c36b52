ghost use Rattle.std.specs.Prelude.{◌≡◌, ◌↔◌, ◌<◌, ℕ, [], Contains, IsTrue, IfOk, OnOk, OnErr, IfErr, MatchOption, length};
ghost use Rattle.disp_model.specs.WellFormed.{operation_count};
ghost use Rattle.disp_model.specs.Numbers.{number_of};
ghost use Rattle.disp_model.specs.declared.decision.Decision.TheVariants.{First};
ghost use Rattle.disp_model.specs.Node.{node_at, with_decision};
ghost use Rattle.disp_model.specs.Routes.{HasRoute};
ghost use Rattle.disp_model.specs.Walks.{HasCycle};
ghost use Rattle.disp_model.specs.Nodes.{IsDead};
ghost use Rattle.route_sets.specs.Sets.{AreRoutesOf};
ghost use Rattle.event_arcs.specs.Listed.{AreArcsOf, AreLowersOf};
ghost use Rattle.event_windows.specs.Operations.{HasOperation};
ghost use Rattle.event_graph.specs.Joined.{IsOfEdition};
ghost use Rattle.event_graph.specs.Kept.{IsRefusedAt};
ghost use Rattle.event_graph.specs.Late.{IsLateAt};
ghost use Rattle.event_graph.specs.Graphs.{without_last_decision};

use crate::changes::Change;
use crate::decide::decide;
use crate::faults::ExtendNo;
use crate::late::first_forced;
use crate::opening::closed;
use crate::parts::{Parts, restore};
use crate::root::parts_of;
use disp_model::{Decision, Fixing, Op, Problem};
use event_windows::{operations, windows};
use incremental_paths::Paths;
use route_sets::Routes;
use std::alloc::Global;
use std::marker::Model;

/// The arcs between the operations that the trains must run at a node of the search: a problem, the
/// fixings that stand, and decisions, of which the last one can be taken back.
#[derive(Drop)]
pub struct Graph<'p> {
    problem: &'p Problem,
    fixings: Vec<Fixing>,
    ops: Vec<Op>,
    // Operations that may start at no time.
    closed: Vec<Op>,
    decisions: Vec<Decision>,
    parts: Parts,
    trail: Vec<Change>,
}

impl<'p> Model for Graph<'p> {
    ghost use Rattle.disp_model.specs.Node.{Node, node_at};
    ghost use Rattle.event_graph.specs.Late.{IsLateAt};
    ghost use Rattle.event_graph.specs.Graphs.{IsGraph};

    ghost Value = { Node };

    ghost view = { λ g. node_at g.problem.now g.fixings.items g.decisions.items };

    ghost invariant = { λ g.
        IsGraph g.problem.now g.fixings.items g.ops.items g.closed.items g.decisions.items g.parts
        g.trail.items };
}

impl<'p> Graph<'p> {
    /// The graph of the fixings that stand in an edition of the problem, without decisions. Fails
    /// where the fixings leave a train without an allowed route, and for want of memory.
    pub fn new(
        alloc: Global,
        problem: &'p Problem,
        fixings: &[Fixing],
    ) -> Result<Graph<'p>, ExtendNo>
        requires edition { IsOfEdition (node_at problem.now fixings.now []) }
        ensures ok { IfOk result (λ graph. graph ≡ node_at problem.now fixings.now []) }
        ensures refused { IfErr result (IsRefusedAt (node_at problem.now fixings.now [])) }
    {
        let Ok(kept) = Vec::from_slice(alloc, fixings) else {
            return Err(ExtendNo::Memory);
        };
        let ops = operations(alloc, problem)?;
        let windows = windows(alloc, problem, fixings)?;
        let closed = closed(alloc, problem, fixings, &ops, &windows)?;
        let parts = parts_of(alloc, problem, fixings, &ops, &windows)?;
        Ok(Graph {
            problem,
            fixings: kept,
            ops,
            closed,
            decisions: Vec::new(alloc),
            parts,
            trail: Vec::new(alloc),
        })
    }

    /// The decisions, in the order in which they were added.
    pub fn decisions(&self) -> &[Decision]
        ensures { result.now ≡ self.now.decisions }
    {
        &self.decisions
    }

    /// The paths over the operations by their numbers: node k is the k-th operation of the problem,
    /// trains in order. Their arcs stand for those of the node.
    pub fn paths(&self) -> &Paths
        ensures arcs { AreArcsOf self.now result.now.arcs }
        ensures lowers { AreLowersOf self.now result.now.lowers }
        ensures no_cycle { HasCycle self.now → ⊥ }
        ensures edition { IsOfEdition self.now }
    {
        self.parts.paths.paths()
    }

    /// The number of an operation of the problem.
    pub fn number(&self, op: Op) -> u32
        requires { HasOperation self.now.problem op }
        ensures { result ≡ number_of self.now.problem op }
    {
        self.parts.each[op.train as usize].first + op.op
    }

    /// The operation that has a number.
    pub fn operation(&self, number: u32) -> Op
        requires { number < operation_count self.now.problem.trains }
        ensures there { HasOperation self.now.problem result }
        ensures number { number_of self.now.problem result ≡ number }
    {
        self.ops[number as usize]
    }

    /// Whether the order of two operations is decided, the first before the second.
    pub fn is_decided(&self, a: Op, b: Op) -> bool
        requires from { HasOperation self.now.problem a }
        requires to { HasOperation self.now.problem b }
        ensures { IsTrue result ↔ Contains self.now.decisions (First a b) }
    {
        self.parts.orders.has(self.number(a), a, b)
    }

    /// The allowed routes of a train. Each train has one.
    pub fn routes(&self, train: u32) -> &Routes
        requires { train < length self.now.problem.trains }
        ensures routes { AreRoutesOf self.now train result.now }
        ensures one { HasRoute self.now train }
    {
        &self.parts.each[train as usize].routes
    }

    /// An operation that is late: its longest walk is longer than the time until which it may
    /// start. `None` where there is none; then the node is not dead. It takes no memory.
    pub fn late(&self) -> Option<Op>
        ensures { MatchOption result (¬ IsDead self.now) (IsLateAt self.now) }
    {
        match self.parts.paths.late() {
            Some(number) => Some(self.ops[number as usize]),
            None => first_forced(self.problem, &self.parts.each, &self.closed),
        }
    }

    /// Adds a decision. Fails where a train would have no allowed route, or else the arcs would
    /// have a cycle, and for want of memory; then nothing has changed.
    pub fn extend(&mut self, decision: Decision) -> Result<(), ExtendNo>
        ensures ok { OnOk result (self.new ≡ with_decision self.old decision) }
        ensures err { OnErr result (self.new ≡ self.old) }
        ensures refused { IfErr result (IsRefusedAt (with_decision self.old decision)) }
    {
        let alloc = *self.decisions.allocator();
        let Ok(()) = self.trail.reserve(1) else {
            return Err(ExtendNo::Memory);
        };
        let Ok(()) = self.decisions.reserve(1) else {
            return Err(ExtendNo::Memory);
        };
        match decide(alloc, self.problem, &self.ops, &mut self.parts, decision) {
            Ok(change) => {
                if self.trail.push(change).is_err() {
                    unreachable!();
                }
                if self.decisions.push(decision).is_err() {
                    unreachable!();
                }
                Ok(())
            }
            Err(no) => Err(no),
        }
    }

    /// Takes the last decision back.
    pub fn undo(&mut self)
        requires { 0 < length self.old.decisions }
        ensures { self.new ≡ without_last_decision self.old }
    {
        if let Some(change) = self.trail.pop() {
            restore(&mut self.parts, change);
            self.decisions.pop();
        }
    }
}
