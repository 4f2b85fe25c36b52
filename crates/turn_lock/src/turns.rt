//! How the lock is taken, used and given back.
ghost use Rattle.std.specs.Prelude.{◌≡◌, ◌<◌, ◌^◌, Some, length, nat_lt};
ghost use Rattle.std.specs.Fn.{FnOnceReturnsAtMut, FnOnceTakesAtMut};

use crate::History;
use crate::lock::Turn;
use crate::pass::View;
use crate::steps::{COUNT, Enter, Give, LOCK, Look, Receiver, Release, Take};
use atomic_table::Seat;
use std::alloc::Allocator;
use std::sync::Wait;
use std::sync::atomic::Ordering::SeqCst;

// Runs the section on the state where it lies, and says whether it added an entry.
fn run_on<S: History, R, F: FnOnce(&mut S) -> R>(slot: &mut Option<S>, section: F) -> (R, bool)
    requires takes { (state : S) × (slot.old ≡ Some state)
        × FnOnceTakesAtMut F.FnOnce section state }
    ensures ran { (before : S) × (after : S) × (slot.old ≡ Some before) × (slot.new ≡ Some after)
        × FnOnceReturnsAtMut F.FnOnce section before result.0 after
        × (result.1 ≡ nat_lt (length (S.entries before)) (length (S.entries after)))
        × (length (S.entries after) < 2 ^ 64) }
{
    match slot {
        Some(state) => {
            let before = state.count();
            let answer = section(state);
            let grew = before < state.count();
            (answer, grew)
        }
        None => unreachable!(),
    }
}

impl<S: History, A: Allocator> Turn<S, A> {
    ghost use Rattle.std.specs.Prelude.{◌≡◌, ℕ, ◌+◌, ◌<◌, ◌≤◌, ◌^◌, [], ◌∷◌, ◌++◌, None, Some, false, true, MatchBool, Contains, length};
    ghost use Rattle.turn_lock.specs.View.{given_view, giving, known_of};
    ghost use Rattle.turn_lock.specs.Section.{MayRun, MayFind, MayLeave, AddsEntry};
    ghost use Rattle.std.specs.Fn.{FnOnceReturnsAtMut};
    ghost use Rattle.turn_lock.specs.Steps.{Took, Missed, HasTurn, HasCounted, Left, GaveBack, Begins, Agrees};
    ghost use Rattle.turn_lock.specs.Turn.{lock_of};

    // A seat for the caller, which the call names by its type argument.
    pub(crate) fn give<C: Receiver>(
        &self,
        seat: &mut Seat<Option<S>, View<S::Entry, S::Terms>>,
        caller: u32,
    ) -> Seat<Option<S>, View<S::Entry, S::Terms>>
        requires named { caller ≡ C.caller }
        requires table { seat.old.table_id ≡ lock_of self.now }
        requires first { (seat.old.me.0.first ≡ true) × (seat.old.me.0.spent ≡ false) }
        requires new_caller { (caller ≡ seat.old.me.0.caller → ⊥)
            × (Contains seat.old.me.0.given caller → ⊥) }
        ensures table { (seat.new.table_id ≡ seat.old.table_id)
            × (result.table_id ≡ seat.old.table_id) }
        ensures left { seat.new.me ≡ (giving seat.old.me.0 caller, seat.old.me.1) }
        ensures right { result.me ≡ (given_view seat.old.me.0 caller, []) }
    {
        self.table.shared.split_seat::<Give<C>>(seat)
    }

    // Tries once to take the turn, and the state with it.
    pub(crate) fn take(&self, seat: &mut Seat<Option<S>, View<S::Entry, S::Terms>>) -> bool
        requires table { seat.old.table_id ≡ lock_of self.now }
        requires idle { (seat.old.me.0.holding ≡ false) × (seat.old.me.0.spent ≡ false) }
        ensures table { seat.new.table_id ≡ seat.old.table_id }
        ensures turn { MatchBool result
            (Took S.entries S.named S.terms S.kept seat.old.me seat.new.me)
            (Missed S.entries S.named S.terms S.kept seat.old.me seat.new.me) }
    {
        self.table.shared.compare_exchange::<Take>(seat, LOCK, 0, 1) == 0
    }

    // Runs the section with the turn, and gives the turn back.
    pub(crate) fn run<R, F: FnOnce(&mut S) -> R>(
        &self,
        seat: &mut Seat<Option<S>, View<S::Entry, S::Terms>>,
        section: F,
    ) -> R
        requires table { seat.old.table_id ≡ lock_of self.now }
        requires turn { HasTurn seat.old.me.0 }
        requires carries { (state : S) × (seat.old.me.1 ≡ (0, Some state) ∷ [])
            × (S.entries state ≡ seat.old.me.0.held)
            × Agrees S.terms S.kept seat.old.me.0 state }
        requires begins { Begins S.named seat.old.me.0 seat.old.me.0.held }
        requires section { MayRun S.entries S.named S.terms S.kept F.FnOnce section
            (known_of seat.old.me.0) }
        ensures table { (seat.new.table_id ≡ seat.old.table_id) × (seat.new.me.1 ≡ []) }
        ensures ran { (before : S) × (after : S)
            × FnOnceReturnsAtMut F.FnOnce section before result after
            × MayFind S.entries S.named S.terms S.kept (known_of seat.old.me.0) before
            × MayLeave S.entries S.named S.terms S.kept seat.old.me.0.caller before after
            × Left S.named seat.old.me.0 (S.entries before) (S.entries after) seat.new.me.0 }
    {
        let slot = seat.slot_mut(&self.table.shared, 0);
        let (answer, grew) = run_on(slot, section);
        self.give_back(seat, grew);
        answer
    }

    // Counts what was added, and gives the turn and the state back.
    fn give_back(&self, seat: &mut Seat<Option<S>, View<S::Entry, S::Terms>>, grew: bool)
        requires table { seat.old.table_id ≡ lock_of self.now }
        requires turn { HasTurn seat.old.me.0 }
        requires carries { (state : S) × (seat.old.me.1 ≡ (0, Some state) ∷ [])
            × (length (S.entries state) < 2 ^ 64)
            × Agrees S.terms S.kept seat.old.me.0 state
            × MatchBool grew (AddsEntry S.named seat.old.me.0.caller seat.old.me.0.held
            (S.entries state)) (S.entries state ≡ seat.old.me.0.held) }
        ensures table { (seat.new.table_id ≡ seat.old.table_id) × (seat.new.me.1 ≡ []) }
        ensures left { (state : S) → seat.old.me.1 ≡ (0, Some state) ∷ []
            → GaveBack S.named seat.old.me.0 grew (S.entries state) seat.new.me.0 }
    {
        self.count_entry(seat, grew);
        self.table.shared.store::<Release>(seat, LOCK, 0);
        self.wake();
        self.bell.ring(grew);
    }

    // Counts the entry that was added, if one was, and sees the whole history.
    fn count_entry(&self, seat: &mut Seat<Option<S>, View<S::Entry, S::Terms>>, grew: bool)
        requires table { seat.old.table_id ≡ lock_of self.now }
        requires turn { HasTurn seat.old.me.0 }
        requires carries { (state : S) × (seat.old.me.1 ≡ (0, Some state) ∷ [])
            × (length (S.entries state) < 2 ^ 64)
            × MatchBool grew (AddsEntry S.named seat.old.me.0.caller seat.old.me.0.held
            (S.entries state)) (S.entries state ≡ seat.old.me.0.held) }
        ensures table { (seat.new.table_id ≡ seat.old.table_id) × (seat.new.me.1 ≡ seat.old.me.1) }
        ensures counted { (state : S) → seat.old.me.1 ≡ (0, Some state) ∷ []
            → HasCounted S.named seat.old.me.0 grew (S.entries state) seat.new.me.0 }
    {
        if grew {
            self.table.shared.fetch_add::<Enter>(seat, COUNT, 1);
        } else {
            self.table.shared.load::<Look>(seat, COUNT);
        }
    }

    // Sleeps while the turn is taken.
    pub(crate) fn sleep<W: Wait>(&self, rt: &W) {
        self.sleepers.fetch_add(1, SeqCst);
        self.table.shared.park(rt, LOCK, 1);
        self.sleepers.fetch_sub(1, SeqCst);
    }

    // Wakes a sleeper, where there is one: one that comes later finds the turn free.
    fn wake(&self) {
        if self.sleepers.load(SeqCst) > 0 {
            self.table.shared.wake_one(LOCK);
        }
    }
}
