ghost use Rattle.std.specs.Prelude.{◌≡◌, IfOk, length};
ghost use Rattle.disp_model.specs.Cost.{cost_at};
ghost use Rattle.problem_facts.specs.Prices.{own_price};
ghost use Rattle.share_bound.specs.Times.{base_in, reach_in};
ghost use Rattle.share_bound.specs.Prices.{fitted, AreFittedPrices};

use crate::times::reach_at;
use disp_model::{Component, Memory, Operation};
use problem_facts::add_components;
use std::alloc::Global;

/// What a component costs where its operation starts at a time, or the greatest number of 64 bits
/// where it costs more.
pub fn cost_of(component: &Component, time: u64) -> u64
    ensures { result ≡ fitted (cost_at component.now time) }
{
    let cost = problem_facts::cost_of(component, u128::from(time));
    cost.min(u128::from(u64::MAX)) as u64
}

/// What the components of each operation of a train cost together at its reach.
pub(crate) fn prices_of(
    alloc: Global,
    components: &[Component],
    operations: &[Operation],
    train: u32,
    times: &[Option<u64>],
    bases: &[u64],
) -> Result<Vec<u64>, Memory>
    ensures long { IfOk result (λ prices. length prices.items ≡ length operations.now) }
    ensures prices { IfOk result (λ prices. AreFittedPrices operations.now
        (own_price components.now train (reach_in times.now (base_in bases.now))) prices.items) }
{
    let mut prices = vec![in alloc; 0; operations.len()]?;
    add_components(&mut prices, train, components, |price: u64, component| {
        let reach = reach_at(times, bases, component.operation);
        price.saturating_add(cost_of(&component, reach))
    });
    Ok(prices)
}
