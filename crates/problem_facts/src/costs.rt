ghost use Rattle.std.specs.Prelude.{◌≡◌, ◌^◌, ◌-◌, min};
ghost use Rattle.disp_model.specs.Cost.{cost_at};

use disp_model::Component;

/// What a component costs where its operation starts at a time, or the greatest number of 128 bits
/// where it costs more.
pub fn cost_of(component: &Component, time: u128) -> u128
    ensures { result ≡ min (cost_at component.now time) (2 ^ 128 - 1) }
{
    let threshold = u128::from(component.threshold);
    let late = time.saturating_sub(threshold);
    let sum = u128::from(component.coeff).saturating_mul(late);
    if threshold <= time {
        sum.saturating_add(u128::from(component.increment))
    } else {
        sum
    }
}
