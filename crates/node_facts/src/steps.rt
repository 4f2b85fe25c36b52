ghost use Rattle.std.specs.Prelude.{◌≡◌, ◌↔◌, ℕ, Some, Contains, MatchOption};
ghost use Rattle.node_facts.specs.Live.{IsLiveStep, IsOnlyStep};

use crate::demands::Demand;
use crate::needed::is_live;

/// The first operation that an allowed route may go on to from another.
fn first_step(
    places: &[usize],
    demands: &[Demand],
    sums: &[Option<u64>],
    op: u32,
    nexts: &[u32],
) -> Option<u32>
    ensures { MatchOption result
        ((s : ℕ) → Contains nexts.now s → IsLiveStep places.now demands.now sums.now op s → ⊥)
        (λ s. Contains nexts.now s × IsLiveStep places.now demands.now sums.now op s) }
{
    for next in nexts {
        if is_live(places, demands, sums, op, *next) {
            return Some(*next);
        }
    }
    None
}

/// The only operation of those that come next that an allowed route may go on to.
pub(crate) fn only_step(
    places: &[usize],
    demands: &[Demand],
    sums: &[Option<u64>],
    op: u32,
    nexts: &[u32],
) -> Option<u32>
    ensures { (s : ℕ) → (result ≡ Some s)
        ↔ IsOnlyStep places.now demands.now sums.now op nexts.now s }
{
    let first = first_step(places, demands, sums, op, nexts)?;
    if nexts.iter().all(|next| *next == first || !is_live(places, demands, sums, op, *next)) {
        Some(first)
    } else {
        None
    }
}
