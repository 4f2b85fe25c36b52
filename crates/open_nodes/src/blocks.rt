ghost use Rattle.std.specs.Prelude.{◌≡◌, ◌≢◌, ◌↔◌, ℕ, ◌+◌, ◌*◌, ◌/◌, ◌<◌, ◌≤◌, List, IsTrue, IfOk, OnOk, MatchOption, Some, length, slice_get};
ghost use Rattle.open_nodes.specs.declared.place.Place.{Place};
ghost use Rattle.open_nodes.specs.States.{IsTakeable, IsLeastBound, NoneWanted, NoneTakeable, out_count};
ghost use Rattle.open_nodes.specs.Blocks.{IsInPool, IsPoolAt, IsRangeLeast, IsBlockLeast, AreBlockLeast, AreBlockLeastBut, IsBlockSet, HaveSameBounds, IsCandidate, NoneIsCandidate, AreReckoned, HaveRoom, AreSameBlocks, one_if_out, HaveChanged, IsFirstBlock};

use crate::place::{Kind, Place};
use crate::search::is_below;
use disp_model::Memory;
use least_bounds::{LeastBounds, lesser};
use std::alloc::Global;

/// Which leaves count: those not known dead; those of them that are in; those of these that are not
/// marked for an edition.
#[derive(Clone, Copy)]
pub(crate) enum Pool {
    Alive,
    Inside,
    Unmarked(u32),
}

/// Whether a place is in a pool.
fn is_in_pool(place: &Place, pool: Pool) -> bool
    ensures { IsTrue result ↔ IsInPool pool place.now }
{
    match pool {
        Pool::Alive => place.kind == Kind::Open,
        Pool::Inside => place.kind == Kind::Open && place.out.is_none(),
        Pool::Unmarked(edition) => {
            place.kind == Kind::Open && place.out.is_none() && place.examined != Some(edition)
        }
    }
}

/// The kept bound of the place of a number, if it is in a pool.
fn bound_in(places: &[Place], pool: Pool, number: usize) -> Option<u64>
    ensures { IsRangeLeast pool places.now number (number + 1) result }
{
    let place = places.get(number)?;
    if is_in_pool(place, pool) {
        Some(place.bound)
    } else {
        None
    }
}

/// The least kept bound of a block's places that are in a pool.
fn least_in(places: &[Place], pool: Pool, block: usize) -> Option<u64>
    requires { 64 * block ≤ length places.now }
    ensures { IsBlockLeast pool places.now block result }
{
    let first = 64 * block;
    let mut least = None;
    for number in first..first + 64 {
        least = lesser(least, bound_in(places, pool, number));
    }
    least
}

/// Whether the place of a number is in a pool, with a kept bound below the best cost, if there is
/// one.
fn is_candidate(places: &[Place], pool: Pool, best: Option<u64>, number: usize) -> bool
    ensures { IsTrue result ↔ IsCandidate pool places.now best number }
{
    let Some(place) = places.get(number) else {
        return false;
    };
    if !is_in_pool(place, pool) {
        return false;
    }
    is_below(place.bound, best)
}

/// The first candidate of a block.
fn first_in(places: &[Place], pool: Pool, best: Option<u64>, block: usize) -> Option<usize>
    requires { 64 * block ≤ length places.now }
    ensures { MatchOption result ((number : ℕ) → 64 * block ≤ number → number < 64 * block + 64
        → IsCandidate pool places.now best number → ⊥) (IsCandidate pool places.now best) }
{
    let first = 64 * block;
    for number in first..first + 64 {
        if is_candidate(places, pool, best, number) {
            return Some(number);
        }
    }
    None
}

/// A candidate: one of a block whose least bound is below the best cost.
fn candidate(bounds: &LeastBounds, places: &[Place], pool: Pool, best: Option<u64>) -> Option<usize>
    requires { AreBlockLeast pool places.now bounds.now }
    ensures { MatchOption result (NoneIsCandidate pool places.now best)
        (IsCandidate pool places.now best) }
{
    let Some(block) = bounds.find_below(best) else {
        return None;
    };
    first_in(places, pool, best, block)
}

/// Reckons the least bound of a block anew.
fn reckon_block(bounds: &mut LeastBounds, places: &[Place], pool: Pool, block: usize)
    requires inside { block < length bounds.old }
    requires there { 64 * block ≤ length places.now }
    ensures { IsBlockSet pool places.now block bounds.old bounds.new }
{
    bounds.set(block, least_in(places, pool, block));
}

/// Reckons the least bound of one block anew, and those of all blocks from another one on.
fn reckon(bounds: &mut LeastBounds, places: &[Place], pool: Pool, home: usize, from: usize)
    requires but { AreBlockLeastBut pool places.now bounds.old home from
        (length places.now / 64 + 1) }
    requires home { 64 * home ≤ length places.now }
    requires from { from ≤ length places.now / 64 + 1 }
    ensures { AreBlockLeast pool places.now bounds.new }
{
    for block in from..places.len() / 64 + 1 {
        reckon_block(bounds, places, pool, block);
    }
    reckon_block(bounds, places, pool, home);
}

/// Adds blocks without bounds, until there is one for each of so many places and for the next.
fn make_room(bounds: &mut LeastBounds, count: usize) -> Result<(), Memory>
    ensures same { HaveSameBounds bounds.old bounds.new }
    ensures room { OnOk result (count < 64 * length bounds.new) }
{
    for _ in bounds.len()..count / 64 + 1 {
        bounds.push_none()?;
    }
    Ok(())
}

/// The least bounds of all blocks of places.
fn reckoned(alloc: Global, places: &[Place], pool: Pool) -> Result<LeastBounds, Memory>
    ensures { IfOk result (λ bounds. AreBlockLeast pool places.now bounds) }
{
    let mut bounds = LeastBounds::new(alloc);
    make_room(&mut bounds, places.len())?;
    reckon(&mut bounds, places, pool, 0, 0);
    Ok(bounds)
}

/// The first block of the places from a number on, the one behind all where there is none.
fn first_block(places: &[Place], first: usize) -> usize
    ensures { IsFirstBlock places.now first result }
{
    if first < places.len() {
        first / 64
    } else {
        places.len() / 64 + 1
    }
}

/// How many are out, where one place has changed.
fn counted(count: usize, before: bool, now: bool) -> usize
    requires some { one_if_out before ≤ count + one_if_out now }
    requires few { count + one_if_out now < 18446744073709551616 }
    ensures { result + one_if_out before ≡ count + one_if_out now }
{
    match (before, now) {
        (true, false) => count - 1,
        (false, true) => count + 1,
        _ => count,
    }
}

/// For each block of places the least kept bound of its leaves that are not known dead, of those
/// that are in, and of those that are in and not marked for the newest edition; and how many leaves
/// are out.
#[derive(Drop)]
pub(crate) struct Blocks {
    alive: LeastBounds,
    inside: LeastBounds,
    unmarked: LeastBounds,
    out: usize,
}

impl Blocks {
    /// Of places of which none is out.
    pub(crate) fn new(alloc: Global, places: &[Place], edition: u32) -> Result<Blocks, Memory>
        requires { out_count places.now ≡ 0 }
        ensures { IfOk result (AreReckoned places.now edition) }
    {
        Ok(Blocks {
            alive: reckoned(alloc, places, Pool::Alive)?,
            inside: reckoned(alloc, places, Pool::Inside)?,
            unmarked: reckoned(alloc, places, Pool::Unmarked(edition))?,
            out: 0,
        })
    }

    /// The least kept bound of the leaves that are not known dead, none where all are.
    pub(crate) fn least_bound(&self) -> Option<u64>
        ensures { (places : List Place) (edition : ℕ) → AreReckoned places edition self.now
            → IsLeastBound places result }
    {
        self.alive.least()
    }

    /// How many leaves are out.
    pub(crate) fn count_out(&self) -> usize
        ensures { (places : List Place) (edition : ℕ) → AreReckoned places edition self.now
            → result ≡ out_count places }
    {
        self.out
    }

    /// Whether no leaf is wanted.
    pub(crate) fn is_ripe(&self, best: Option<u64>) -> bool
        ensures { (places : List Place) (edition : ℕ) → AreReckoned places edition self.now
            → (IsTrue result ↔ NoneWanted best places) }
    {
        self.alive.find_below(best).is_none()
    }

    /// A leaf that may be taken.
    pub(crate) fn takeable(
        &self,
        places: &[Place],
        edition: u32,
        best: Option<u64>,
        free: u32,
    ) -> Option<usize>
        requires { AreReckoned places.now edition self.now }
        ensures { MatchOption result (NoneTakeable edition best free places.now)
            (λ n. (p : Place) × (slice_get places.now n ≡ Some p)
            × IsTakeable edition best free p) }
    {
        if free > 0 {
            return candidate(&self.inside, places, Pool::Inside, best);
        }
        candidate(&self.unmarked, places, Pool::Unmarked(edition), best)
    }

    /// Makes room for so many places.
    pub(crate) fn make_room(&mut self, count: usize) -> Result<(), Memory>
        ensures same { AreSameBlocks self.old self.new }
        ensures room { OnOk result (HaveRoom count self.new) }
    {
        make_room(&mut self.alive, count)?;
        make_room(&mut self.inside, count)?;
        make_room(&mut self.unmarked, count)
    }

    /// Reckons anew what has changed: the block of the place of a number, which was another place
    /// before, and the blocks of the places from a number on, which are new.
    pub(crate) fn change(
        &mut self,
        places: &[Place],
        edition: u32,
        number: usize,
        before: Place,
        first: usize,
    )
        requires inside { number < length places.now }
        requires changed { (old : List Place) × (now : Place)
            × HaveChanged old places.now number first before now
            × AreReckoned old edition self.old }
        requires room { HaveRoom (length places.now) self.old }
        ensures { AreReckoned places.now edition self.new }
    {
        let now = places[number];
        self.out = counted(self.out, before.out.is_some(), now.out.is_some());
        let home = number / 64;
        let from = first_block(places, first);
        reckon(&mut self.alive, places, Pool::Alive, home, from);
        reckon(&mut self.inside, places, Pool::Inside, home, from);
        reckon(
            &mut self.unmarked,
            places,
            Pool::Unmarked(edition),
            home,
            from,
        );
    }

    /// Reckons anew which leaves are not marked for the newest edition, where it is another.
    pub(crate) fn rebase(&mut self, places: &[Place], edition: u32)
        requires { (before : ℕ) × AreReckoned places.now before self.old }
        ensures { AreReckoned places.now edition self.new }
    {
        reckon(&mut self.unmarked, places, Pool::Unmarked(edition), 0, 0);
    }
}
