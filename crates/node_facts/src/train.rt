ghost use Rattle.std.specs.Prelude.{◌≡◌, ◌↔◌, ◌<◌, ◌≤◌, ◌^◌, ℕ, All, IfOk, IfSome, IsTrue, Some, length, unwrap_or, MatchOption};
ghost use Rattle.disp_model.specs.Node.{Node, node_at};
ghost use Rattle.disp_model.specs.Routes.{HasRoute, IsForced};
ghost use Rattle.disp_model.specs.Arcs.{IsTrainArc};
ghost use Rattle.node_facts.specs.Ways.{MayGo};
ghost use Rattle.route_marks.specs.Marks.{sum_at};
ghost use Rattle.route_marks.specs.Ways.{last_of};

use crate::demands::{Demand, demands_of, may_go, place_at};
use crate::fixing_index::FixingIndex;
use crate::holders::{holder_at, holders_of};
use crate::needed::{is_marked, needed_of};
use crate::sums::{has_way, sum_at, sums_of};
use decision_paths::DecisionPath;
use disp_model::{Memory, Problem};
use route_marks::places_of;
use std::alloc::Global;
use train_orders::order_of;

/// What is known of the routes of a train that fixings and decisions allow.
#[derive(Drop)]
pub struct TrainKnowledge {
    /// An order of the operations from the exit back.
    order: Vec<u32>,
    /// Where each operation stands in it.
    places: Vec<usize>,
    /// What the fixings and the decisions ask of the routes.
    demands: Vec<Demand>,
    /// Of each operation the least sum of durations on a way to the exit that does what is asked.
    sums: Vec<Option<u64>>,
    /// Which operations are on each allowed route.
    needed: Vec<bool>,
    /// The operation that each route begins with.
    entry: u32,
    /// Of each operation the one that each allowed route has and from which each goes on to it.
    holders: Vec<Option<u32>>,
}

/// The last operation of an order.
fn last_of(order: &[u32]) -> u32
    ensures { result ≡ last_of order.now }
{
    match order.last() {
        Some(number) => *number,
        None => 0,
    }
}

impl TrainKnowledge {
    ghost use Rattle.node_facts.specs.Known.{op_numbered, IsKnown, IsHolder, IsNearer, without_route};

    /// What is known of the routes of a train that the fixings and the decisions allow.
    pub fn of(
        alloc: Global,
        problem: &Problem,
        train: u32,
        fixings: &FixingIndex,
        decisions: &DecisionPath,
    ) -> Result<TrainKnowledge, Memory>
        requires { train < length problem.now.trains }
        ensures { IfOk result
            (IsKnown (node_at problem.now fixings.now decisions.now) train) }
    {
        let operations = problem.trains.as_slice()[train as usize].as_slice();
        let fixed = fixings.about(train);
        let demands = demands_of(alloc, train, fixed, decisions.about(train))?;
        let order = order_of(alloc, operations)?;
        let places = places_of(alloc, operations, &order)?;
        let entry = last_of(&order);
        let sums = sums_of(alloc, operations, &order, &places, &demands)?;
        let needed = needed_of(alloc, operations, &order, &places, &demands, &sums, entry)?;
        let holders = holders_of(alloc, operations, &places, &demands, &sums, &needed)?;
        Ok(TrainKnowledge {
            order,
            places,
            demands,
            sums,
            needed,
            entry,
            holders,
        })
    }

    /// An order of the operations from the exit back.
    pub fn order(&self) -> &[u32]
        ensures { result.now ≡ self.now.order.items }
    {
        self.order.as_slice()
    }

    /// The operation that each route begins with.
    pub fn entry(&self) -> u32
        ensures { result ≡ self.now.entry }
    {
        self.entry
    }

    /// Whether a route may go on from an operation to one, or end there, by what is asked of it.
    pub fn may_go(&self, op: u32, next: Option<u32>) -> bool
        ensures { IsTrue result ↔ MayGo self.now.places.items self.now.demands.items op next }
    {
        may_go(&self.places, &self.demands, op, next)
    }

    /// Whether some route is allowed.
    pub fn is_left(&self) -> bool
        ensures { (node : Node) (t : ℕ) → IsKnown node t self.now
            → IsTrue result ↔ HasRoute node t }
    {
        has_way(&self.sums, self.entry)
    }

    /// 1 where no route is allowed, else 0.
    pub(crate) fn without_route(&self) -> usize
        ensures is { result ≡ without_route self.now }
        ensures small { result ≤ 1 }
    {
        match sum_at(&self.sums, self.entry) {
            Some(_) => 0,
            None => 1,
        }
    }

    /// Whether some route is allowed, and each allowed route has the operation.
    pub fn is_forced(&self, op: u32) -> bool
        ensures { (node : Node) (t : ℕ) → IsKnown node t self.now
            → IsTrue result ↔ IsForced node (op_numbered t op) }
    {
        self.is_left() && is_marked(&self.needed, op)
    }

    /// The forced operation from which each allowed route goes on to another.
    pub fn holder(&self, op: u32) -> Option<u32>
        ensures { (node : Node) (t : ℕ) → IsKnown node t self.now
            → MatchOption result ((h : ℕ) → IsHolder node t op h → ⊥) (IsHolder node t op) }
    {
        if self.is_left() {
            holder_at(&self.holders, op)
        } else {
            None
        }
    }

    /// Whether two operations are forced, the second nearer to the exit.
    fn leads_to(&self, a: u32, b: u32) -> bool
        ensures { (node : Node) (t : ℕ) → IsKnown node t self.now → IsTrue result
            ↔ (IsForced node (op_numbered t a) × IsForced node (op_numbered t b)
            × IsNearer self.now.places.items a b) }
    {
        if !self.is_forced(a) {
            return false;
        }
        if !self.is_forced(b) {
            return false;
        }
        place_at(&self.places, b) < place_at(&self.places, a)
    }

    /// The least sum from an operation to the exit, or 0 where it has no way.
    fn sum(&self, op: u32) -> u64
        ensures { result ≡ unwrap_or (sum_at self.now.sums.items op) 0 }
    {
        sum_at(&self.sums, op).unwrap_or(0)
    }

    /// The least sum of durations from a forced operation up to one behind it, over the allowed
    /// routes.
    pub fn least_between(&self, a: u32, b: u32) -> Option<u64>
        ensures { (node : Node) (t : ℕ) → IsKnown node t self.now → (sum : ℕ)
            → (result ≡ Some sum)
            ↔ (IsForced node (op_numbered t a) × IsForced node (op_numbered t b)
            × IsTrainArc node (op_numbered t a) (op_numbered t b) sum) }
    {
        if self.leads_to(a, b) {
            Some(self.sum(a).saturating_sub(self.sum(b)))
        } else {
            None
        }
    }
}
