ghost use Rattle.std.specs.Prelude.{◌≡◌, Some, IfSome, slice_get};
ghost use Rattle.open_nodes.specs.declared.place.Place.{Place};
ghost use Rattle.open_nodes.specs.States.{IsTakeable};

use crate::place::{Errand, Kind, Place};
use crate::search::is_takeable;
use disp_model::{MOST_CALLERS, Memory};
use std::alloc::Global;
use std::cmp::Reverse;
use std::collections::{BinaryHeap, VecDeque};

/// Who wants no more branches than this for a leaf works on the bound, who wants more on a plan.
const FEW: u32 = 31;

/// Leaves that may be taken, by their numbers. It is advice: a leaf may be missing, as is one whose
/// number does not fit into the bits that are kept of it, or be no more such a leaf.
#[derive(Drop)]
pub(crate) struct Ready {
    /// For each searcher, in depth, the leaves that came of its works: the last one is taken first.
    /// Those that grew where few branches were wanted stand in front of the others.
    deep: Vec<VecDeque<u32>>,
    /// By their kept bounds: of the least ones the last one grown is taken first.
    cheap: BinaryHeap<(Reverse<u64>, u32)>,
    /// The leaves that are out, each with the searcher that took it.
    takers: Vec<(u32, u32)>,
}

/// Whether a leaf was given out for few branches.
fn was_for_few(out: Option<Errand>) -> bool {
    match out {
        Some(errand) => errand.allowance <= FEW,
        None => false,
    }
}

/// The last leaf of a stack that may be taken.
fn pop_last(
    stack: &mut VecDeque<u32>,
    places: &[Place],
    edition: u32,
    best: Option<u64>,
    free: u32,
) -> Option<usize>
    ensures { IfSome result (λ n. (p : Place) × (slice_get places.now n ≡ Some p)
        × IsTakeable edition best free p) }
{
    for _ in 0..stack.len() {
        let number = stack.pop_back()? as usize;
        if let Some(place) = places.get(number) {
            if is_takeable(place, edition, best, free) {
                return Some(number);
            }
        }
    }
    None
}

impl Ready {
    /// The first leaf, with the bound 0.
    pub(crate) fn new(alloc: Global) -> Result<Ready, Memory> {
        let mut deep = Vec::with_capacity(alloc, MOST_CALLERS as usize)?;
        for _ in 0..MOST_CALLERS {
            deep.push(VecDeque::new(alloc))?;
        }
        let mut cheap = BinaryHeap::new(alloc);
        cheap.push((Reverse(0), 0))?;
        Ok(Ready {
            deep,
            cheap,
            takers: Vec::new(alloc),
        })
    }

    /// A leaf that may be taken: where few branches are wanted one of the least kept bound, else
    /// the last one that came of the taker's works, or else of another's. It and those
    /// that come before it are taken off.
    pub(crate) fn pop_takeable(
        &mut self,
        places: &[Place],
        edition: u32,
        best: Option<u64>,
        free: u32,
        want: u32,
        taker: u32,
    ) -> Option<usize>
        ensures { IfSome result (λ n. (p : Place) × (slice_get places.now n ≡ Some p)
            × IsTakeable edition best free p) }
    {
        let number = self.find(places, edition, best, free, want, taker)?;
        if let Ok(leaf) = u32::try_from(number) {
            self.takers.push((leaf, taker)).is_ok();
        }
        Some(number)
    }

    /// The leaf that is taken.
    fn find(
        &mut self,
        places: &[Place],
        edition: u32,
        best: Option<u64>,
        free: u32,
        want: u32,
        taker: u32,
    ) -> Option<usize>
        ensures { IfSome result (λ n. (p : Place) × (slice_get places.now n ≡ Some p)
            × IsTakeable edition best free p) }
    {
        if want <= FEW && free > 0 {
            if let Some(number) = self.pop_cheap(places, edition, best, free) {
                return Some(number);
            }
        }
        if let Some(number) = self.pop_deep(places, edition, best, free, taker) {
            return Some(number);
        }
        self.pop_cheap(places, edition, best, free)
    }

    /// The last leaf of a searcher, in depth, that may be taken, or else the last of another.
    fn pop_deep(
        &mut self,
        places: &[Place],
        edition: u32,
        best: Option<u64>,
        free: u32,
        taker: u32,
    ) -> Option<usize>
        ensures { IfSome result (λ n. (p : Place) × (slice_get places.now n ≡ Some p)
            × IsTakeable edition best free p) }
    {
        if let Some(stack) = self.deep.get_mut(taker as usize) {
            if let Some(number) = pop_last(stack, places, edition, best, free) {
                return Some(number);
            }
        }
        for other in 0..self.deep.len() {
            if let Some(stack) = self.deep.get_mut(other) {
                if let Some(number) = pop_last(stack, places, edition, best, free) {
                    return Some(number);
                }
            }
        }
        None
    }

    /// The leaf of the least kept bound that may be taken.
    fn pop_cheap(
        &mut self,
        places: &[Place],
        edition: u32,
        best: Option<u64>,
        free: u32,
    ) -> Option<usize>
        ensures { IfSome result (λ n. (p : Place) × (slice_get places.now n ≡ Some p)
            × IsTakeable edition best free p) }
    {
        for _ in 0..self.cheap.len() {
            let (_, leaf) = self.cheap.pop()?;
            let number = leaf as usize;
            if let Some(place) = places.get(number) {
                if is_takeable(place, edition, best, free) {
                    return Some(number);
                }
            }
        }
        None
    }

    /// Who took a leaf, which is in again; the first searcher where that is not known.
    fn untake(&mut self, number: usize) -> usize {
        for place in 0..self.takers.len() {
            if let Some((taken, taker)) = self.takers.get(place).copied() {
                if taken as usize == number {
                    self.takers.swap_remove(place);
                    return taker as usize;
                }
            }
        }
        0
    }

    /// Keeps a leaf that is in again, where there is room.
    pub(crate) fn keep_back(&mut self, number: usize, place: Place) {
        let taker = self.untake(number);
        let Ok(leaf) = u32::try_from(number) else {
            return;
        };
        if let Some(stack) = self.deep.get_mut(taker) {
            if stack.len() < stack.capacity() {
                stack.push_back(leaf).is_ok();
            }
        }
        if self.cheap.len() < self.cheap.capacity() {
            self.cheap.push((Reverse(place.bound), leaf)).is_ok();
        }
    }

    /// Keeps what a leaf that was out has grown into, and the new places from a number on, as far
    /// as there is memory.
    pub(crate) fn keep_grown(
        &mut self,
        places: &[Place],
        number: usize,
        first: usize,
        out: Option<Errand>,
    ) {
        let for_few = was_for_few(out);
        let taker = self.untake(number);
        self.keep(places, number, for_few, taker);
        for leaf in first..places.len() {
            self.keep(places, leaf, for_few, taker);
        }
    }

    /// Keeps the place of a number, if it is a leaf that is not known dead.
    fn keep(&mut self, places: &[Place], number: usize, for_few: bool, taker: usize) {
        let Some(place) = places.get(number) else {
            return;
        };
        if place.kind != Kind::Open {
            return;
        }
        let Ok(leaf) = u32::try_from(number) else {
            return;
        };
        if let Some(stack) = self.deep.get_mut(taker) {
            if for_few {
                stack.push_front(leaf).is_ok();
            } else {
                stack.push_back(leaf).is_ok();
            }
        }
        self.cheap.push((Reverse(place.bound), leaf)).is_ok();
    }
}
