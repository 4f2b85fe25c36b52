ghost use Rattle.std.specs.Prelude.{◌≡◌, ◌<◌, ◌≤◌, ◌+◌, ◌^◌, ℕ, All, IfOk, length, slice_index};
ghost use Rattle.disp_model.specs.Node.{Node};
ghost use Rattle.disp_model.specs.Valid.{train_at};
ghost use Rattle.route_marks.specs.Ways.{last_of};
ghost use Rattle.route_marks.specs.Marks.{IsLaid, IsLowest};
ghost use Rattle.route_sets.specs.Sets.{AreAllowedRows};
ghost use Rattle.share_bound.specs.Times.{base_in};
ghost use Rattle.share_bound.specs.Prices.{AreFittedPrices, HasOwn};
ghost use Rattle.share_bound.specs.Leasts.{IsPaidBehind, IsCheapest, ArePaidTo, IsFittedShare};

use crate::prices::prices_of;
use crate::times::times_of;
use disp_model::{Component, Memory, Operation};
use route_marks::Row;
use std::alloc::Global;

/// The least of one cost and those of a row's operations.
fn lowest(most: u64, row: &[u32], costs: &[u64]) -> u64
    requires { All (λ s. s < length costs.now) row.now }
    ensures { IsLowest costs.now most row.now result }
{
    let mut least = most;
    for next in row {
        least = least.min(costs[*next as usize]);
    }
    least
}

/// The least cost of a row's operations, or nothing where there is none.
fn behind(row: &[u32], costs: &[u64]) -> u64
    requires { All (λ s. s < length costs.now) row.now }
    ensures { IsPaidBehind costs.now row.now result }
{
    if row.len() == 0 {
        return 0;
    }
    lowest(u64::MAX, row, costs)
}

/// Pays for the operation at a place of the order, by those of its row.
fn pay(
    costs: &mut Vec<u64>,
    train: &[Operation],
    order: &[u32],
    rows: &[Row],
    prices: &[u64],
    place: usize,
)
    requires laid { IsLaid train.now order.now rows.now }
    requires prices { length prices.now ≡ length train.now }
    requires costs { length costs.old.items ≡ length train.now }
    requires place { place < length order.now }
    ensures long { length costs.new.items ≡ length train.now }
    ensures paid { (price : ℕ → ℕ) → AreFittedPrices train.now price prices.now
        → ArePaidTo train.now order.now rows.now price place costs.old.items
        → ArePaidTo train.now order.now rows.now price (place + 1) costs.new.items }
{
    let at = order[place] as usize;
    let behind = behind(rows[place].as_slice(), costs);
    let cost = prices[at].saturating_add(behind);
    costs[at] = cost;
}

/// What is left to pay at least from the entry on, by rows of an order of the operations from the
/// exit back.
fn least_cost(
    alloc: Global,
    train: &[Operation],
    order: &[u32],
    rows: &[Row],
    prices: &[u64],
) -> Result<u64, Memory>
    requires laid { IsLaid train.now order.now rows.now }
    requires long { length prices.now ≡ length train.now }
    ensures { IfOk result (λ cost. (price : ℕ → ℕ)
        → AreFittedPrices train.now price prices.now
        → IsCheapest order.now rows.now price (last_of order.now) cost) }
{
    let mut costs = vec![in alloc; 0; train.len()]?;
    for place in 0..order.len() {
        pay(&mut costs, train, order, rows, prices, place);
    }
    let entry = order[order.len() - 1] as usize;
    Ok(costs[entry])
}

/// What a train's components cost at least over given bases, by rows of an order of its operations
/// from the exit back, as far as 64 bits hold it.
pub(crate) fn least_over(
    alloc: Global,
    operations: &[Operation],
    components: &[Component],
    train: u32,
    order: &[u32],
    rows: &[Row],
    bases: &[u64],
) -> Result<u64, Memory>
    requires laid { IsLaid operations.now order.now rows.now }
    requires bases { (o : ℕ) → slice_index bases.now o ≤ 2 ^ 62 }
    requires long { length bases.now ≡ length operations.now }
    ensures { IfOk result (λ found. (node : Node) → train_at node.problem train ≡ operations.now
        → AreAllowedRows node train order.now rows.now → HasOwn node.problem train components.now
        → IsFittedShare node train (base_in bases.now) found) }
{
    let times = times_of(alloc, operations, order, rows, bases)?;
    let prices = prices_of(alloc, components, operations, train, &times, bases)?;
    least_cost(alloc, operations, order, rows, &prices)
}
