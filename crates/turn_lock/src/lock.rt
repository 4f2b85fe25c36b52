//! The lock.
ghost use Rattle.std.specs.Prelude.{◌≡◌};

use crate::bell::Bell;
use crate::pass::{Pass, View};
use crate::steps::{COUNT, InOrder, LOCK, Look, Opening, Settle, TakeBack};
use crate::{Busy, History, Memory};
use atomic_table::Table;
use std::alloc::{Allocator, Global};
use std::marker::Brand;
use std::snapshot::Snapshot;
use std::sync::Wait;
use std::sync::atomic::AtomicU64;
use std::thread::yield_now;

// How often a waiting caller tries before it sleeps.
const SPINS: u32 = 20;

/// A state behind a lock, which sections change in turn.
#[derive(Drop)]
pub struct Turn<S: History, A: Allocator = Global> {
    pub(crate) table: Table<Option<S>, View<S::Entry, S::Terms>, Opening<S>, InOrder, A>,
    // How many wait for the turn asleep, or are about to.
    pub(crate) sleepers: AtomicU64,
    pub(crate) bell: Bell,
    ghost two_words: { table.shared.table_id.words ≡ 2 },
    ghost one_slot: { table.shared.table_id.slots ≡ 1 },
}

impl<S: History, A: Allocator> Turn<S, A> {
    ghost use Rattle.std.specs.Prelude.{◌≡◌, ℕ, ◌+◌, ◌<◌, ◌≤◌, [], ◌∷◌, ◌++◌, Some, false, true, IfOk, IfErr, Contains, length, List};
    ghost use Rattle.turn_lock.specs.Known.{StartsWith, first_known, given_known, with_given, joined_known, with_miss, with_count, longer_of, shorter_of, AreApart, IsLast};
    ghost use Rattle.turn_lock.specs.Section.{MayRun, RunsOnce, OwnsPlaces, IsFreshFrom};
    ghost use Rattle.turn_lock.specs.Turn.{lock_of, own_lock, view};

    /// A lock round a state with an empty history, and the first pass, which is this caller's.
    /// Where there is no memory, the state is dropped.
    pub fn new(alloc: A, state: S, caller: u32) -> Result<(Turn<S, A>, Pass<S>), Memory>
    where
        A: Clone,
        requires empty { S.entries state ≡ [] }
        requires kept { S.kept state }
        ensures { IfOk result (λ made. (own_lock made.1 ≡ lock_of made.0)
            × (view made.1 ≡ first_known caller (S.terms state))) }
    {
        let opening = Opening {
            caller,
            state: Snapshot::of(&state),
        };
        let mut slots = Vec::new(alloc.clone()?);
        let Ok(()) = slots.push(Some(state)) else {
            return Err(Memory);
        };
        let Ok((table, seat)) = Table::new(alloc, &[0, 0], slots, &opening) else {
            return Err(Memory);
        };
        let turn = Turn {
            table,
            sleepers: AtomicU64::new(0),
            bell: Bell::new(),
        };
        Ok((turn, Pass { seat }))
    }

    /// A pass for another caller, from the first pass. It begins with what this one has seen.
    pub fn split(&self, pass: &mut Pass<S>, caller: u32) -> Pass<S>
        requires lock { own_lock pass.old ≡ lock_of self.now }
        requires first { (view pass.old).first ≡ true }
        requires new_caller { (caller ≡ (view pass.old).caller → ⊥)
            × (Contains (view pass.old).given caller → ⊥) }
        ensures lock { (own_lock pass.new ≡ own_lock pass.old)
            × (own_lock result ≡ own_lock pass.old) }
        ensures view { view pass.new ≡ with_given (view pass.old) caller }
        ensures given { view result ≡ given_known (view pass.old) caller }
        ensures owns { OwnsPlaces S.named (view result) }
    {
        let mut seat = self.give::<Brand>(&mut pass.seat, caller);
        self.table.shared.load::<Settle>(&mut seat, LOCK);
        Pass { seat }
    }

    /// Puts what a pass knows into the first pass, and ends it.
    pub fn join(&self, pass: &mut Pass<S>, other: Pass<S>)
        requires lock { own_lock pass.old ≡ lock_of self.now }
        requires first { (view pass.old).first ≡ true }
        requires other_lock { own_lock other ≡ lock_of self.now }
        ensures lock { own_lock pass.new ≡ own_lock pass.old }
        ensures view { view pass.new ≡ joined_known (view pass.old) (view other) }
        ensures apart { AreApart (view pass.old).mine (view other).mine }
        ensures one { StartsWith (longer_of (view pass.old).seen (view other).seen)
            (shorter_of (view pass.old).seen (view other).seen) }
        ensures fresh { IsFreshFrom S.named (view pass.old).caller (length (view pass.old).seen)
            (longer_of (view pass.old).seen (view other).seen) }
        ensures owns { OwnsPlaces S.named (view pass.new) }
    {
        let Pass { seat } = other;
        self.table
            .shared
            .join_seat::<TakeBack>(&mut pass.seat, seat);
        self.table.shared.load::<Settle>(&mut pass.seat, LOCK);
    }

    /// Runs the section on the state, alone. Waits for the turn.
    pub fn with<W: Wait, R, F: FnOnce(&mut S) -> R>(
        &self,
        rt: &W,
        pass: &mut Pass<S>,
        section: F,
    ) -> R
        requires lock { own_lock pass.old ≡ lock_of self.now }
        requires section { MayRun S.entries S.named S.terms S.kept F.FnOnce section
            (view pass.old) }
        ensures lock { own_lock pass.new ≡ own_lock pass.old }
        ensures ran { RunsOnce S.entries S.named S.terms S.kept F.FnOnce section (view pass.old)
            result (view pass.new) }
    {
        let mut spins = 0;
        for _ in rt.forever() {
            if self.take(&mut pass.seat) {
                return self.run(&mut pass.seat, section);
            }
            if spins < SPINS {
                spins += 1;
                yield_now();
            } else {
                self.sleep(rt);
            }
        }
        unreachable!()
    }

    /// Runs the section as `with` does where one try gets the turn. `Busy` comes only where that
    /// try found it taken.
    pub fn try_with<R, F: FnOnce(&mut S) -> R>(
        &self,
        pass: &mut Pass<S>,
        section: F,
    ) -> Result<R, Busy>
        requires lock { own_lock pass.old ≡ lock_of self.now }
        requires section { MayRun S.entries S.named S.terms S.kept F.FnOnce section
            (view pass.old) }
        ensures lock { own_lock pass.new ≡ own_lock pass.old }
        ensures ran { IfOk result
            (λ answer. RunsOnce S.entries S.named S.terms S.kept F.FnOnce section (view pass.old)
            answer (view pass.new) × ((view pass.new).tries ≡ (view pass.old).tries)) }
        ensures busy { IfErr result (λ _. view pass.new ≡ with_miss (view pass.old)) }
    {
        let taken = self.take(&mut pass.seat);
        if taken {
            Ok(self.run(&mut pass.seat, section))
        } else {
            Err(Busy)
        }
    }

    /// The count of entries, as one load found it.
    pub fn grown(&self, pass: &mut Pass<S>) -> u64
        requires { own_lock pass.old ≡ lock_of self.now }
        ensures lock { own_lock pass.new ≡ own_lock pass.old }
        ensures view { view pass.new ≡ with_count (view pass.old) result }
        ensures seen { length (view pass.old).seen ≤ result }
        ensures rises { (view pass.old).count ≤ result }
    {
        self.table.shared.load::<Look>(&mut pass.seat, COUNT)
    }

    /// How many entries were added, as `rest` counts them.
    pub fn moves(&self) -> u64 {
        self.bell.moves()
    }

    /// Sleeps until an entry is added, where none was since `moves` gave this number, and for two
    /// milliseconds at most. It may return at any time.
    pub fn rest<W: Wait>(&self, rt: &W, moves: u64) {
        self.bell.rest(rt, moves);
    }

    /// Ends the lock, and gives the state. Each other pass was joined.
    pub fn close(self, pass: Pass<S>) -> S
        requires lock { own_lock pass ≡ lock_of self }
        requires last { IsLast (view pass) }
        ensures terms { (view pass).terms ≡ Some (S.terms result) }
        ensures kept { S.kept result }
        ensures seen { S.entries result ≡ (view pass).seen }
        ensures count { (view pass).count ≤ length (S.entries result) }
        ensures places { (place : ℕ) → place < length (S.entries result)
            → Contains (view pass).mine place }
    {
        let Turn { table, .. } = self;
        let Pass { seat } = pass;
        let mut closed = table.close_with(seat);
        let state = closed.take(0);
        closed.free();
        match state {
            Some(state) => state,
            None => unreachable!(),
        }
    }
}
