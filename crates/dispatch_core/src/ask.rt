ghost use Rattle.std.specs.Prelude.{◌≡◌, ◌<◌, ◌++◌, ◌∷◌, [], IfOk, OnOk, OnErr, length};
ghost use Rattle.disp_model.specs.Changes.{standing_of};
ghost use Rattle.disp_model.specs.History.{changes_of, last_plan};
ghost use Rattle.disp_model.specs.declared.entry.Entry.TheVariants.{Unread};
ghost use Rattle.dispatch_core.specs.States.{entered};
ghost use Rattle.dispatch_core.specs.Falling.{AreFallen};
ghost use Rattle.dispatch_core.specs.Kept.{IsCostUnder};
ghost use Rattle.dispatch_core.specs.Replies.{Asks, ShowsStanding, with_ended, with_left};

use crate::machine::Core;
use crate::settling::{failing, fall_back, standing};
use disp_model::{Change, Entry, Fixing, Mark, Memory, Reply, Standing, Unasked};
use solution_verifier::verify;
use std::alloc::Global;

impl Core {
    /// Asks for a change. An accepted one makes a new edition, whose tree is the same, but for
    /// leaves that no longer hold.
    pub(crate) fn ask(
        &mut self,
        alloc: Global,
        feed: u32,
        line: u64,
        change: Change,
    ) -> Result<Reply, Memory>
        ensures ok { IfOk result (λ told. Asks self.old feed line change told self.new) }
        ensures err { OnErr result (self.new ≡ self.old) }
    {
        let fixings = self.fixings_with(alloc, change)?;
        let fallen = self.fallen_by(alloc, change, fixings.as_slice())?;
        let best = self.standing_cost(fixings.as_slice());
        self.history.reserve(1)?;
        let reply = self.editions.ask(change)?;
        self.history.push_reserved(Entry::Asked {
            feed,
            line,
            change,
            reply,
        });
        let Reply::Accepted(number) = reply else {
            return Ok(reply);
        };
        self.nodes.rebase(number);
        fall_back(&mut self.nodes, fallen.as_slice());
        self.best = best;
        self.mark = Mark::Working;
        self.spent = 0;
        Ok(reply)
    }

    /// The fixings that stand where a change is accepted.
    fn fixings_with(&self, alloc: Global, change: Change) -> Result<Vec<Fixing>, Memory>
        ensures { IfOk result (λ fixings. fixings.items
            ≡ standing_of (changes_of self.now.history ++ change ∷ [])) }
    {
        let mut changes = self.editions.changes().to_vec(alloc)?;
        changes.push(change)?;
        standing(alloc, changes.as_slice())
    }

    /// The leaves that do not hold any more under the fixings that stand where a change is
    /// accepted. Where it is a fixing all hold.
    fn fallen_by(
        &self,
        alloc: Global,
        change: Change,
        fixings: &[Fixing],
    ) -> Result<Vec<u128>, Memory>
        ensures { IfOk result (λ fallen.
            AreFallen self.now.problem fixings.now self.now.nodes change fallen.items) }
    {
        match change {
            Change::Fix(_) => Ok(Vec::new(alloc)),
            Change::Withdraw { .. } => {
                failing(alloc, self.editions.problem(), fixings, &self.nodes)
            }
        }
    }

    /// What the last published plan costs, where it is valid with these fixings.
    fn standing_cost(&self, fixings: &[Fixing]) -> Option<u64>
        ensures { IsCostUnder self.now.problem fixings.now (last_plan self.now.history) result }
    {
        let Entry::Published { plan, cost, .. } = &self.history[self.last?] else {
            return None;
        };
        match verify(self.editions.problem(), fixings, plan, None) {
            Ok(_) => Some(*cost),
            Err(_) => None,
        }
    }

    /// Notes that a line of a feed asks nothing.
    pub(crate) fn unread(&mut self, feed: u32, line: u64, why: Unasked) -> Result<(), Memory>
        ensures ok { OnOk result (self.new ≡ entered self.old (Unread feed line why)) }
        ensures err { OnErr result (self.new ≡ self.old) }
    {
        self.history.push(Entry::Unread { feed, line, why })?;
        Ok(())
    }

    /// ShowsStanding a feed where the search stands.
    pub(crate) fn show(&mut self, feed: u32, line: u64) -> Result<Standing, Memory>
        ensures ok { IfOk result (λ standing. ShowsStanding self.old feed line standing self.new) }
        ensures err { OnErr result (self.new ≡ self.old) }
    {
        let standing = self.standing();
        self.history.push(Entry::Shown {
            feed,
            line,
            standing,
        })?;
        Ok(standing)
    }

    /// Notes that a feed has no more lines.
    pub(crate) fn feed_end(&mut self, feed: u32)
        requires { feed < length self.old.ended }
        ensures { self.new ≡ with_ended self.old feed }
    {
        self.ended[feed as usize] = true;
    }

    /// Notes that a searcher leaves.
    pub(crate) fn leave(&mut self, searcher: u32)
        requires { searcher < length self.old.left }
        ensures { self.new ≡ with_left self.old searcher }
    {
        self.left[searcher as usize] = true;
    }
}
