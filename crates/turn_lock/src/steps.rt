//! The rule of the lock's table, and its steps.
use crate::History;
use crate::pass::View;
use atomic_table::{Join, Play, Split, TableRule};
use std::marker::{Brand, PhantomData};
use std::snapshot::Snapshot;

/// The word that is 1 while a pass has the turn.
pub(crate) const LOCK: usize = 0;

/// The word with the count of entries.
pub(crate) const COUNT: usize = 1;

/// What a lock begins with, in clauses alone but for the caller.
#[derive(Drop)]
pub struct Opening<S> {
    pub caller: u32,
    pub state: Snapshot<S>,
}

pub struct InOrder;

impl<S: History> TableRule<Option<S>, View<S::Entry, S::Terms>, Opening<S>> for InOrder {
    ghost use Rattle.turn_lock.specs.Order.{Ordered};
    ghost use Rattle.turn_lock.specs.View.{first_view};

    ghost holds = { λ _. Ordered S.entries S.named S.terms S.kept };

    ghost first = { λ opening. first_view opening.caller (S.terms opening.state.value) };
}

pub(crate) struct Take;

impl<S: History> Play<Option<S>, View<S::Entry, S::Terms>> for Take {
    ghost use Rattle.turn_lock.specs.Steps.{Takes};

    ghost then = { Takes S.entries S.named S.terms S.kept };
}

pub(crate) struct Enter;

impl<S: History> Play<Option<S>, View<S::Entry, S::Terms>> for Enter {
    ghost use Rattle.turn_lock.specs.Steps.{Enters};

    ghost then = { Enters S.entries S.named S.terms S.kept };
}

pub(crate) struct Look;

impl<S: History> Play<Option<S>, View<S::Entry, S::Terms>> for Look {
    ghost use Rattle.turn_lock.specs.Steps.{Counts};

    ghost then = { Counts S.entries S.named S.terms S.kept };
}

pub(crate) struct Release;

impl<S: History> Play<Option<S>, View<S::Entry, S::Terms>> for Release {
    ghost use Rattle.turn_lock.specs.Steps.{Releases};

    ghost then = { Releases S.entries S.named S.terms S.kept };
}

pub(crate) struct Settle;

impl<S: History> Play<Option<S>, View<S::Entry, S::Terms>> for Settle {
    ghost use Rattle.turn_lock.specs.Steps.{Settles};

    ghost then = { Settles S.entries S.named S.terms S.kept };
}

/// Names the caller that a pass is given to.
pub(crate) trait Receiver {
    ghost use Rattle.std.specs.Prelude.{ℕ};

    ghost caller: { ℕ };
}

impl Receiver for Brand {
    ghost caller = { 0 };
}

pub(crate) struct Give<C: Receiver> {
    receiver: PhantomData<C>,
}

impl<E, T, C: Receiver> Split<View<E, T>> for Give<C> {
    ghost use Rattle.turn_lock.specs.View.{giving, given_view};

    ghost left = { λ v. giving v C.caller };

    ghost right = { λ v. given_view v C.caller };
}

pub(crate) struct TakeBack;

impl<E, T> Join<View<E, T>> for TakeBack {
    ghost use Rattle.turn_lock.specs.View.{joining, spent_view};

    ghost both = { joining };

    ghost spent = { spent_view };
}
