ghost use Rattle.std.specs.Prelude.{◌≡◌, ◌≤◌, [], ◌∷◌, ◌++◌, Some, IfOk, OnOk, OnErr, length};
ghost use Rattle.std.specs.Borrow.{sem};
ghost use Rattle.disp_model.specs.declared.fixing.Change.TheVariants.{Fix, Withdraw};
ghost use Rattle.disp_model.specs.declared.limits.TheConstants.{MOST_CHANGES};
ghost use Rattle.disp_model.specs.declared.reply.Reply.TheVariants.{Accepted};
ghost use Rattle.disp_model.specs.Changes.{standing_of, change_at};
ghost use Rattle.disp_model.specs.Replies.{IsReply, IsEdition};
ghost use Rattle.fixing_editions.specs.Edition.{changes_after, with_changes};

use crate::kept::{Kept, enter, settle, take_back, without_fixings};
use crate::reply::reply_to;
use crate::withdrawal::{fixing_at, reply_to_withdrawal};
use disp_model::{Change, Copied, Fixing, Memory, Problem, Refusal, Reply};
use std::alloc::Global;
use std::marker::Model;

/// A problem and the changes that are accepted, in their order. They are an edition's: each was
/// accepted behind the ones before it.
#[derive(Drop)]
pub struct Editions {
    problem: Problem,
    changes: Vec<Change>,
    kept: Kept,
}

impl Model for Editions {
    ghost use Rattle.fixing_editions.specs.Edition.{Edition, IsKeptOf};

    ghost Value = { Edition };

    ghost view = { λ e. record { problem = e.problem; changes = e.changes.items } };

    ghost invariant = { λ e. IsKeptOf e.problem e.changes.items e.kept };
}

impl Editions {
    ghost use Rattle.fixing_editions.specs.Settled.{RestsAs};

    /// The problem without changes, in a copy of its own.
    pub fn new(alloc: Global, problem: &Problem) -> Result<Editions, Memory>
        ensures { IfOk result (λ editions.
            editions ≡ record { problem = problem.now; changes = [] }) }
    {
        let problem = problem.copy()?;
        let by_train = without_fixings(alloc, problem.trains.len())?;
        Ok(Editions {
            problem,
            changes: Vec::new(alloc),
            kept: Kept {
                withdrawn: Vec::new(alloc),
                by_train,
                standing: Vec::new(alloc),
                stale: false,
            },
        })
    }

    /// The problem.
    pub fn problem(&self) -> &Problem
        ensures { result.now ≡ self.now.problem }
    {
        &self.problem
    }

    /// The accepted changes, in order.
    pub fn changes(&self) -> &[Change]
        ensures all { result.now ≡ self.now.changes }
        ensures edition { IsEdition self.now.problem self.now.changes }
        ensures fits { length self.now.changes ≤ MOST_CHANGES }
    {
        self.changes.as_slice()
    }

    /// The fixings that stand, in order. It takes no memory, and time linear in the changes where
    /// one was taken back since the last call.
    pub fn fixings(&mut self) -> &[Fixing]
        ensures* rests { sem 𝓛 (RestsAs self.entry) }
        ensures all { result.now ≡ standing_of self.old.changes }
        ensures edition { IsEdition self.old.problem self.old.changes }
        ensures fits { length result.now ≤ MOST_CHANGES }
    {
        settle(&mut self.kept, self.changes.as_slice());
        self.kept.standing.as_slice()
    }

    /// Asks for a change. An accepted one is added behind the others, and makes the edition of
    /// their number; nothing else changes them. A fixing takes time linear in the operations of its
    /// train, their successors and that train's own fixings that stand, a withdrawal in those
    /// fixings alone.
    pub fn ask(&mut self, change: Change) -> Result<Reply, Memory>
        ensures reply { IfOk result (λ reply.
            IsReply self.old.problem self.old.changes change reply) }
        ensures kept { IfOk result (λ reply.
            self.new ≡ with_changes self.old (changes_after self.old.changes change reply)) }
        ensures err { OnErr result (self.new ≡ self.old) }
    {
        match change {
            Change::Fix(fixing) => self.ask_fixing(fixing),
            Change::Withdraw { number } => self.ask_withdrawal(number),
        }
    }

    /// Asks for a fixing.
    fn ask_fixing(&mut self, fixing: Fixing) -> Result<Reply, Memory>
        ensures reply { IfOk result (λ reply.
            IsReply self.old.problem self.old.changes (Fix fixing) reply) }
        ensures kept { IfOk result (λ reply.
            self.new ≡ with_changes self.old (changes_after self.old.changes (Fix fixing) reply)) }
        ensures err { OnErr result (self.new ≡ self.old) }
    {
        let alloc = *self.changes.allocator();
        let reply = reply_to(
            alloc,
            &self.problem,
            &self.changes,
            &self.kept.by_train,
            fixing,
        )?;
        match reply {
            Reply::Accepted(number) => {
                self.accept_fixing(number, fixing)?;
                Ok(Reply::Accepted(number))
            }
            Reply::Known(number) => Ok(Reply::Known(number)),
            Reply::Refused(why) => Ok(Reply::Refused(why)),
        }
    }

    /// Adds a fixing that is accepted.
    fn accept_fixing(&mut self, number: u32, fixing: Fixing) -> Result<(), Memory>
        requires { IsReply self.old.problem self.old.changes (Fix fixing) (Accepted number) }
        ensures ok { OnOk result
            (self.new ≡ with_changes self.old (self.old.changes ++ Fix fixing ∷ [])) }
        ensures err { OnErr result (self.new ≡ self.old) }
    {
        self.changes.push(Change::Fix(fixing))?;
        match enter(&mut self.kept, number, fixing) {
            Ok(()) => Ok(()),
            Err(no) => {
                self.changes.pop();
                Err(no)
            }
        }
    }

    /// Asks for a withdrawal.
    fn ask_withdrawal(&mut self, number: u64) -> Result<Reply, Memory>
        ensures reply { IfOk result (λ reply.
            IsReply self.old.problem self.old.changes (Withdraw number) reply) }
        ensures kept { IfOk result (λ reply.
            self.new
            ≡ with_changes self.old (changes_after self.old.changes (Withdraw number) reply)) }
        ensures err { OnErr result (self.new ≡ self.old) }
    {
        let Some(fixing) = fixing_at(&self.changes, number) else {
            return Ok(Reply::Refused(Refusal::NoSuchChange));
        };
        match reply_to_withdrawal(&self.changes, &self.kept.withdrawn, number, fixing) {
            Reply::Accepted(by) => {
                self.accept_withdrawal(by, number, fixing)?;
                Ok(Reply::Accepted(by))
            }
            Reply::Known(by) => Ok(Reply::Known(by)),
            Reply::Refused(why) => Ok(Reply::Refused(why)),
        }
    }

    /// Adds a withdrawal of this fixing that is accepted.
    fn accept_withdrawal(&mut self, by: u32, number: u64, fixing: Fixing) -> Result<(), Memory>
        requires accepted { IsReply self.old.problem self.old.changes (Withdraw number)
            (Accepted by) }
        requires there { change_at self.old.changes number ≡ Some (Fix fixing) }
        ensures ok { OnOk result
            (self.new ≡ with_changes self.old (self.old.changes ++ Withdraw number ∷ [])) }
        ensures err { OnErr result (self.new ≡ self.old) }
    {
        self.changes.push(Change::Withdraw { number })?;
        match take_back(&mut self.kept, by, number as u32, fixing) {
            Ok(()) => Ok(()),
            Err(no) => {
                self.changes.pop();
                Err(no)
            }
        }
    }
}
