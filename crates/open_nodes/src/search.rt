ghost use Rattle.std.specs.Prelude.{◌↔◌, IsTrue};
ghost use Rattle.open_nodes.specs.States.{IsBoundBelow, IsWanted, IsTakeable};

use crate::place::{Kind, Place};

/// Whether a bound is below the best cost, if there is one.
pub fn is_below(bound: u64, best: Option<u64>) -> bool
    ensures { IsTrue result ↔ IsBoundBelow bound best }
{
    match best {
        None => true,
        Some(cost) => bound < cost,
    }
}

/// Whether a place is a wanted leaf.
pub fn is_wanted(place: &Place, best: Option<u64>) -> bool
    ensures { IsTrue result ↔ IsWanted best place.now }
{
    place.kind == Kind::Open && is_below(place.bound, best)
}

/// Whether a place is a wanted leaf that may be taken.
pub fn is_takeable(place: &Place, edition: u32, best: Option<u64>, free: u32) -> bool
    ensures { IsTrue result ↔ IsTakeable edition best free place.now }
{
    is_wanted(place, best) && place.out.is_none() && (free > 0 || place.examined != Some(edition))
}
