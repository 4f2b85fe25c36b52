ghost use Rattle.std.specs.Prelude.{◌≡◌, ◌≢◌, ◌↔◌, IsTrue, None, Some};
ghost use Rattle.open_nodes.specs.States.{IsWanted};
ghost use Rattle.open_nodes.specs.Preorder.{IsSought, IsFirstSought, preorder};

use crate::place::Place;
use crate::search::is_wanted;

/// Whether a leaf is not marked for an edition.
fn is_unmarked(place: &Place, edition: u32) -> bool
    ensures { IsTrue result ↔ (place.now.examined ≢ Some edition) }
{
    place.examined != Some(edition)
}

/// Whether a place is a wanted leaf, where an edition is given one that is not marked for it.
fn is_sought(place: &Place, best: Option<u64>, edition: Option<u32>) -> bool
    ensures { IsTrue result ↔ IsSought best edition place.now }
{
    match edition {
        None => is_wanted(place, best),
        Some(edition) => is_wanted(place, best) && is_unmarked(place, edition),
    }
}

/// The number of the first wanted leaf in preorder and its kept bound, where an edition is given of
/// the first that is not marked for it.
pub fn first_sought(
    places: &[Place],
    best: Option<u64>,
    edition: Option<u32>,
) -> Option<(usize, u64)>
    ensures { IsFirstSought places.now best edition (preorder places.now) result }
{
    let mut at = Some(0);
    for _ in 0..places.len() {
        let Some(number) = at else {
            return None;
        };
        let Some(place) = places.get(number as usize) else {
            return None;
        };
        if is_sought(place, best, edition) {
            return Some((number as usize, place.bound));
        }
        at = place.next;
    }
    None
}
