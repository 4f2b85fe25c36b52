ghost use Rattle.std.specs.Prelude.{◌≡◌, ◌↔◌, IfOk, IsTrue, MatchOption, Some, reverse, slice_get};
ghost use Rattle.open_nodes.specs.States.{above_at, decisions_to, decisions_of, HaveSmallerParents, IsOut, ForOut};
ghost use Rattle.open_nodes.specs.declared.place.Place.{Place};

use crate::place::{Above, Errand, Place};
use crate::work::Work;
use disp_model::{Decision, List, Memory};
use std::alloc::Global;

/// What is above a place, if it is there and has a parent.
fn above_at(places: &[Place], number: usize) -> Option<Above>
    ensures { result ≡ above_at places.now number }
{
    places.get(number)?.above
}

/// How many decisions there is room for at first: as many as most leaves have above them.
const ROOM: usize = 256;

/// The decisions up from a place to the root, past at most so many parents.
fn gathered(
    alloc: Global,
    places: &[Place],
    start: Option<Above>,
    most: usize,
) -> Result<Vec<Decision>, Memory>
    ensures { IfOk result (λ up. reverse up.items ≡ decisions_to start most places.now) }
{
    let mut at = start;
    let mut up = Vec::with_capacity(alloc, most.min(ROOM))?;
    for _ in 0..most {
        let Some(above) = at else {
            return Ok(up);
        };
        up.push(above.decision)?;
        at = above_at(places, above.parent as usize);
    }
    Ok(up)
}

/// The decisions above a place, from the root on.
pub fn decisions(alloc: Global, places: &[Place], number: usize) -> Result<List<Decision>, Memory>
    ensures { IfOk result (λ decisions. decisions ≡ decisions_of places.now number) }
{
    let mut up = gathered(alloc, places, above_at(places, number), number)?;
    up.reverse();
    Ok(List::from_vec(up))
}

/// Whether two decisions are the same.
fn is_same(one: Decision, other: Decision) -> bool
    ensures { IsTrue result ↔ (one ≡ other) }
{
    one == other
}

/// Whether a decision stands at a place.
fn has_at(decisions: &[Decision], place: usize, decision: Decision) -> bool
    ensures { IsTrue result ↔ (slice_get decisions.now place ≡ Some decision) }
{
    match decisions.get(place) {
        Some(other) => is_same(*other, decision),
        None => false,
    }
}

/// Whether decisions are those above a place.
pub fn are_decisions(places: &[Place], number: usize, decisions: &[Decision]) -> bool
    requires { HaveSmallerParents places.now }
    ensures { IsTrue result ↔ (decisions.now ≡ decisions_of places.now number) }
{
    let mut at = above_at(places, number);
    for k in (0..decisions.len()).rev() {
        let Some(above) = at else {
            return false;
        };
        if has_at(decisions, k, above.decision) {
            at = above_at(places, above.parent as usize);
        } else {
            return false;
        }
    }
    at.is_none()
}

/// Whether a place is out with this.
fn is_sent(place: Place, errand: Errand) -> bool
    ensures { IsTrue result ↔ (place.out ≡ Some errand) }
{
    place.out == Some(errand)
}

/// The number of the leaf of a work, where a work that equals this one in every field is out.
pub fn number_out(places: &[Place], work: &Work) -> Option<usize>
    requires { HaveSmallerParents places.now }
    ensures { MatchOption result ((p : Place) → IsOut places.now work.now p → ⊥)
        (λ n. (n ≡ work.now.node) × ForOut places.now work.now) }
{
    if work.node >= places.len() as u128 {
        return None;
    }
    let number = work.node as usize;
    let place = places[number];
    if is_sent(place, work.errand()) {
        if are_decisions(places, number, work.decisions.as_slice()) {
            return Some(number);
        }
    }
    None
}
