ghost use Rattle.std.specs.Prelude.{◌≡◌, ◌+◌, ◌*◌, ◌^◌, ◌<◌, ◌≤◌, length, sum_by};
ghost use Rattle.disp_model.specs.WellFormed.{most_of, horizon, operation_count, span_of, greatest_release};
ghost use Rattle.train_graphs.specs.Costs.{greatest_sum};

use disp_model::{
    Component, GREATEST_NUMBER, Listing, MOST_COMPONENTS, MOST_OPERATIONS, Operation, Train,
};

/// The greatest release time of the resources listed, or 0.
fn greatest_release(listings: &[Listing]) -> u32
    ensures { result ≡ greatest_release listings.now }
{
    let mut greatest = 0;
    for listing in listings {
        greatest = greatest.max(listing.release);
    }
    greatest
}

/// The sum of the times for which a train's operations hold what they list.
fn span_of_train(train: &[Operation]) -> u64
    requires fits { length train.now ≤ MOST_OPERATIONS }
    ensures value { result ≡ sum_by span_of train.now }
    ensures small { result ≤ length train.now * 2 ^ 33 }
{
    let mut sum = 0;
    for operation in train {
        let release = greatest_release(operation.listings.as_slice());
        sum += u64::from(operation.min) + u64::from(release);
    }
    sum
}

/// The time that no earliest start passes.
fn horizon(trains: &[Train]) -> u64
    requires fits { operation_count trains.now ≤ MOST_OPERATIONS }
    ensures value { result ≡ horizon trains.now }
    ensures small { result < 2 ^ 54 }
{
    let mut last = u64::from(GREATEST_NUMBER);
    for train in trains {
        last += span_of_train(train.as_slice());
    }
    last
}

/// What a component costs at most, at the horizon.
fn most_of(last: u64, component: &Component) -> u128
    ensures value { result ≡ most_of last component.now }
    ensures small { result ≤ 2 ^ 96 }
{
    u128::from(component.coeff) * u128::from(last) + u128::from(component.increment)
}

/// What the components cost at most, at the horizon of the trains.
pub fn greatest_sum(trains: &[Train], components: &[Component]) -> u128
    requires fits { operation_count trains.now ≤ MOST_OPERATIONS }
    requires few { length components.now ≤ MOST_COMPONENTS }
    ensures { result ≡ greatest_sum trains.now components.now }
{
    sum_at(horizon(trains), components)
}

/// What the components cost at most, at a horizon.
fn sum_at(last: u64, components: &[Component]) -> u128
    requires few { length components.now ≤ MOST_COMPONENTS }
    ensures { result ≡ sum_by (most_of last) components.now }
{
    let mut sum: u128 = 0;
    for component in components {
        sum += most_of(last, component);
    }
    sum
}
