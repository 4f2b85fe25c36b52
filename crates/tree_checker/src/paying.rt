ghost use Rattle.std.specs.Prelude.{◌≡◌, ◌↔◌, ℕ, IfOk, Some};
ghost use Rattle.train_orders.specs.Orders.{IsOrder};
ghost use Rattle.node_facts.specs.Ways.{IsLeastOf, IsOnward, GoesOnward};
ghost use Rattle.problem_facts.specs.Prices.{own_price};
ghost use Rattle.tree_checker.specs.TrainCosts.{reach_by, ArePrices, IsCostBy, AreCosts};

use crate::entering::{base_at, kept_at, lesser, reach_at};
use disp_model::{Component, Memory, Operation};
use node_facts::TrainKnowledge;
use problem_facts::{add_components, cost_of};
use std::alloc::Global;

/// What the components of each operation of a train cost together at its reach.
fn prices_of(
    alloc: Global,
    components: &[Component],
    operations: &[Operation],
    train: u32,
    entered: &[Option<u128>],
    bases: &[u128],
) -> Result<Vec<u128>, Memory>
    ensures { IfOk result (λ prices. ArePrices operations.now
        (own_price components.now train (reach_by entered.now bases.now)) prices.items) }
{
    let mut prices = vec![in alloc; 0; operations.len()]?;
    add_components(&mut prices, train, components, |price: u128, component| {
        let reach = reach_at(entered, bases, component.operation);
        price.saturating_add(cost_of(&component, reach))
    });
    Ok(prices)
}

/// What is left to pay from one of those operations on to which a route may go on.
fn onward(known: &TrainKnowledge, costs: &[Option<u128>], op: u32, next: u32) -> Option<u128>
    ensures { (n : ℕ) → (result ≡ Some n) ↔ IsOnward known.now.places.items
        known.now.demands.items costs.now op next n }
{
    if known.may_go(op, Some(next)) {
        kept_at(costs, next)
    } else {
        None
    }
}

/// What is left to pay at least behind an operation, over those to which a route may go on.
fn least_onward(
    known: &TrainKnowledge,
    costs: &[Option<u128>],
    op: u32,
    nexts: &[u32],
) -> Option<u128>
    ensures { IsLeastOf (GoesOnward known.now.places.items known.now.demands.items
        costs.now op nexts.now) result }
{
    let mut least = None;
    for next in nexts {
        let other = onward(known, costs, op, *next);
        least = lesser(least, other);
    }
    least
}

/// What is left to pay at least from an operation on.
fn cost_from(
    operation: &Operation,
    known: &TrainKnowledge,
    costs: &[Option<u128>],
    op: u32,
    price: u128,
) -> Option<u128>
    ensures { IsCostBy operation.now known.now.places.items known.now.demands.items
        costs.now op price result }
{
    let nexts = operation.next.as_slice();
    if nexts.len() == 0 {
        return if known.may_go(op, None) {
            Some(price)
        } else {
            None
        };
    }
    match least_onward(known, costs, op, nexts) {
        Some(behind) => Some(price.saturating_add(behind)),
        None => None,
    }
}

/// What is left to pay at least from each operation of a train on, by an order of the operations
/// from the exit back.
fn costs_of(
    alloc: Global,
    operations: &[Operation],
    known: &TrainKnowledge,
    prices: &[u128],
) -> Result<Vec<Option<u128>>, Memory>
    requires order { IsOrder operations.now known.now.order.items }
    ensures { IfOk result (λ costs. (price : ℕ → ℕ) → ArePrices operations.now price prices.now
        → AreCosts operations.now known.now.places.items known.now.demands.items price
        costs.items) }
{
    let order = known.order();
    let mut costs = vec![in alloc; None; operations.len()]?;
    for number in order {
        let at = *number as usize;
        let price = base_at(prices, *number);
        let cost = cost_from(&operations[at], known, &costs, *number, price);
        costs[at] = cost;
    }
    Ok(costs)
}

/// What is left to pay at least from each operation of a train on, by when operations are entered.
pub(crate) fn costs_over(
    alloc: Global,
    components: &[Component],
    operations: &[Operation],
    known: &TrainKnowledge,
    train: u32,
    entered: &[Option<u128>],
    bases: &[u128],
) -> Result<Vec<Option<u128>>, Memory>
    requires { IsOrder operations.now known.now.order.items }
    ensures { IfOk result (λ costs. AreCosts operations.now known.now.places.items
        known.now.demands.items
        (own_price components.now train (reach_by entered.now bases.now)) costs.items) }
{
    let prices = prices_of(alloc, components, operations, train, entered, bases)?;
    let prices = prices.as_slice();
    let costs = costs_of(alloc, operations, known, prices)?;
    Ok(costs)
}
