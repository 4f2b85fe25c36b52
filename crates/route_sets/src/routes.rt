ghost use Rattle.std.specs.Prelude.{◌≡◌, ◌↔◌, ◌<◌, ℕ, IfOk, IsTrue, Some, length};
ghost use Rattle.disp_model.specs.Node.{Node, node_at};
ghost use Rattle.disp_model.specs.Routes.{HasRoute, IsForced};
ghost use Rattle.disp_model.specs.Arcs.{IsTrainArc, GoesTo};
ghost use Rattle.disp_model.specs.Earliest.{IsFork};
ghost use Rattle.route_marks.specs.Ways.{last_of};
ghost use Rattle.disp_model.specs.Valid.{train_at};
ghost use Rattle.train_orders.specs.Orders.{IsOrder};
ghost use Rattle.route_marks.specs.Marks.{mark_at, sum_at};
ghost use Rattle.route_sets.specs.Sets.{AreRoutesOf};

use crate::asks::asks_of;
use crate::sweep::sweep;
use disp_model::{Decision, Fixing, List, Memory, Problem};
use route_marks::{Mark, Row, passed_of, places_of};
use std::alloc::Global;
use train_orders::order_of;

/// The routes of a train that fixings and decisions allow.
#[derive(Drop)]
pub struct Routes {
    /// Whether some route is allowed.
    left: bool,
    /// The operation that each route begins with.
    entry: u32,
    /// The least sums of durations up to the operations that some allowed route has.
    sums: Vec<Option<u64>>,
    /// The marks of the operations that each allowed route has.
    marks: Vec<Option<Mark>>,
    /// The operations from the exit back, where some route is allowed.
    order: Vec<u32>,
    /// Of each of them, the operations to which allowed routes go on from it.
    rows: List<Row>,
}

/// The last operation of an order.
fn last_of(order: &[u32]) -> u32
    ensures { result ≡ last_of order.now }
{
    match order.last() {
        Some(number) => *number,
        None => 0,
    }
}

/// The routes of a train that the fixings and the decisions allow, by an order of its operations.
fn routes_by(
    alloc: Global,
    problem: &Problem,
    train: u32,
    fixings: &[Fixing],
    decisions: &[Decision],
    order: Vec<u32>,
) -> Result<Routes, Memory>
    requires there { train < length problem.now.trains }
    requires order { IsOrder (train_at problem.now train) order.items }
    ensures { IfOk result (AreRoutesOf (node_at problem.now fixings.now decisions.now) train) }
{
    let operations = problem.trains.as_slice()[train as usize].as_slice();
    let asks = asks_of(alloc, operations.len(), train, fixings, decisions)?;
    let swept = sweep(alloc, operations, &asks, &order)?;
    if !swept.holds {
        return Ok(Routes {
            left: false,
            entry: 0,
            sums: Vec::new(alloc),
            marks: Vec::new(alloc),
            order: Vec::new(alloc),
            rows: List::new(alloc),
        });
    }
    let places = places_of(alloc, operations, &order)?;
    let passed = passed_of(alloc, operations, &order, &places, &swept.rows)?;
    Ok(Routes {
        left: true,
        entry: last_of(&order),
        sums: passed.sums,
        marks: passed.marks,
        order,
        rows: swept.rows,
    })
}

impl Routes {
    ghost use Rattle.route_sets.specs.Sets.{op_of_train, IsOnSome, AreAllowedRows, follow, IsOnlyRoute, parting, IsAloneUnparted};

    /// The routes of a train that the fixings and the decisions allow. Takes time linear in the
    /// operations of the train, their successors, the fixings and the decisions.
    pub fn of(
        alloc: Global,
        problem: &Problem,
        train: u32,
        fixings: &[Fixing],
        decisions: &[Decision],
    ) -> Result<Routes, Memory>
        requires { train < length problem.now.trains }
        ensures { IfOk result
            (AreRoutesOf (node_at problem.now fixings.now decisions.now) train) }
    {
        let operations = problem.trains.as_slice()[train as usize].as_slice();
        let order = order_of(alloc, operations)?;
        routes_by(alloc, problem, train, fixings, decisions, order)
    }

    /// The routes of the same train that other fixings and decisions allow. The order in which the
    /// train's operations stand is not looked for again.
    pub fn others(
        &self,
        problem: &Problem,
        train: u32,
        fixings: &[Fixing],
        decisions: &[Decision],
    ) -> Result<Routes, Memory>
        requires there { train < length problem.now.trains }
        requires routes { (node : Node) × (node.problem ≡ problem.now)
            × AreRoutesOf node train self.now × HasRoute node train }
        ensures { IfOk result
            (AreRoutesOf (node_at problem.now fixings.now decisions.now) train) }
    {
        let alloc = *self.order.allocator();
        let order = Vec::from_slice(alloc, &self.order)?;
        routes_by(alloc, problem, train, fixings, decisions, order)
    }

    /// Whether no route is allowed.
    pub fn none_left(&self) -> bool
        ensures { (node : Node) (t : ℕ) → AreRoutesOf node t self.now
            → IsTrue result ↔ (HasRoute node t → ⊥) }
    {
        !self.left
    }

    /// The least sum of durations up to an operation that some allowed route has.
    fn sum(&self, op: u32) -> Option<u64>
        ensures { result ≡ sum_at self.now.sums.items op }
    {
        match self.sums.as_slice().get(op as usize) {
            Some(sum) => *sum,
            None => None,
        }
    }

    /// The mark of an operation that each allowed route has.
    fn mark(&self, op: u32) -> Option<Mark>
        ensures { result ≡ mark_at self.now.marks.items op }
    {
        match self.marks.as_slice().get(op as usize) {
            Some(mark) => *mark,
            None => None,
        }
    }

    /// The operations of the train, each behind those to which routes go on from it, so that the
    /// exit is first and the entry last; none where no route is allowed.
    pub fn order(&self) -> &[u32]
        ensures { result.now ≡ self.now.order.items }
    {
        &self.order
    }

    /// Of each operation in that order, those to which allowed routes go on from it: the ways along
    /// the rows from the entry are the allowed routes. An operation on no such way may have others.
    pub fn rows(&self) -> &[Row]
        ensures kept { result.now ≡ self.now.rows }
        ensures allowed { (node : Node) (t : ℕ) → AreRoutesOf node t self.now → HasRoute node t
            → AreAllowedRows node t self.now.order.items self.now.rows }
    {
        self.rows.as_slice()
    }

    /// Whether some route is allowed, and each allowed route has the operation.
    pub fn forced(&self, op: u32) -> bool
        ensures { (node : Node) (t : ℕ) → AreRoutesOf node t self.now
            → IsTrue result ↔ IsForced node (op_of_train t op) }
    {
        self.mark(op).is_some()
    }

    /// Whether some allowed route has the operation.
    pub fn may_have(&self, op: u32) -> bool
        ensures { (node : Node) (t : ℕ) → AreRoutesOf node t self.now
            → IsTrue result ↔ IsOnSome node t op }
    {
        self.sum(op).is_some()
    }

    /// The operation that each allowed route goes on to from a forced one.
    pub fn only_next(&self, op: u32) -> Option<u32>
        ensures { (node : Node) (t : ℕ) → AreRoutesOf node t self.now → (s : ℕ)
            → (result ≡ Some s)
            ↔ (IsForced node (op_of_train t op)
            × GoesTo node (op_of_train t op) (op_of_train t s)) }
    {
        self.mark(op)?.next
    }

    /// The least sum of durations from a forced operation up to one behind it, over the allowed
    /// routes.
    pub fn least_between(&self, a: u32, b: u32) -> Option<u64>
        ensures { (node : Node) (t : ℕ) → AreRoutesOf node t self.now → (sum : ℕ)
            → (result ≡ Some sum)
            ↔ (IsForced node (op_of_train t a) × IsForced node (op_of_train t b)
            × IsTrainArc node (op_of_train t a) (op_of_train t b) sum) }
    {
        let from = self.mark(a)?;
        let to = self.mark(b)?;
        if to.place < from.place {
            Some(to.sum.saturating_sub(from.sum))
        } else {
            None
        }
    }

    /// The operations from one on, each the only one that comes next, up to the exit.
    fn follow(&self, alloc: Global, first: u32) -> Result<Option<List<u32>>, Memory>
        ensures { IfOk result (λ found.
            found ≡ follow self.now.marks.items (length self.now.marks.items) first) }
    {
        let mut route = List::new(alloc);
        let mut op = first;
        for _ in 0..self.marks.len() {
            route.push(op)?;
            let Some(mark) = self.mark(op) else {
                return Ok(None);
            };
            if mark.place == 0 {
                return Ok(Some(route));
            }
            let Some(next) = mark.next else {
                return Ok(None);
            };
            op = next;
        }
        Ok(None)
    }

    /// The route that is allowed, where one is and no other.
    pub fn only_route(&self) -> Result<Option<List<u32>>, Memory>
        ensures { (node : Node) (t : ℕ) → AreRoutesOf node t self.now
            → IfOk result (λ found. IsOnlyRoute node t found) }
    {
        if !self.left {
            return Ok(None);
        }
        let alloc = *self.marks.allocator();
        let found = self.follow(alloc, self.entry)?;
        Ok(found)
    }

    /// From an operation on, each time to the only one that comes next: the first that is not the
    /// exit and has no such one.
    fn parting(&self, first: u32) -> Option<u32>
        ensures { result ≡ parting self.now.marks.items (length self.now.marks.items) first }
    {
        let mut op = first;
        for _ in 0..self.marks.len() {
            let mark = self.mark(op)?;
            let Some(next) = mark.next else {
                return if mark.place == 0 { None } else { Some(op) };
            };
            op = next;
        }
        None
    }

    /// The operation up to which the allowed routes go alike, and from which they part; none where
    /// one route is allowed or none. Takes no memory, and at most the time of a look at each
    /// operation.
    pub fn fork(&self) -> Option<u32>
        ensures part { (node : Node) (t : ℕ) → AreRoutesOf node t self.now → (o : ℕ)
            → (result ≡ Some o) ↔ IsFork node (op_of_train t o) }
        ensures alone { (node : Node) (t : ℕ) → AreRoutesOf node t self.now
            → IsAloneUnparted node t result }
    {
        if !self.left {
            return None;
        }
        self.parting(self.entry)
    }
}
