//! The core as the lock keeps it.
ghost use Rattle.std.specs.Prelude.{◌≡◌, ◌≤◌, IfOk, IfErr, OnErr, length};
ghost use Rattle.dispatch_core.specs.declared.event.StepNo.TheVariants.{Memory as OutOfMemory};
ghost use Rattle.dispatch_core.specs.Asked.{MayStep};
ghost use Rattle.dispatch_core.specs.Replies.{Steps, TakesMemory};
ghost use Rattle.shared_board.specs.Fresh.{IsEditionIn, IsNewsOf};

use crate::news::{Edition, News};
use crate::terms::Terms;
use disp_model::{Copied, Entry, List, Memory};
use dispatch_core::{Core, CoreEvent, CoreReply, StepNo};
use std::alloc::Global;
use turn_lock::History;

#[derive(Drop)]
pub struct Stored {
    pub core: Core,
}

impl History for Stored {
    type Entry = Entry;

    type Terms = Terms;

    ghost use Rattle.dispatch_core.specs.States.{IsSound};
    ghost use Rattle.shared_board.specs.Callers.{caller_of, terms_of};

    ghost entries = { λ stored. stored.core.history };

    ghost named = { caller_of };

    ghost terms = { λ stored. terms_of stored.core };

    ghost kept = { λ stored. IsSound stored.core };

    fn count(&self) -> u64 {
        self.core.history().len() as u64
    }
}

/// Copies of these entries.
fn copies(alloc: Global, entries: &[Entry]) -> Result<List<Entry>, Memory>
    ensures { IfOk result (λ list. list ≡ entries.now) }
{
    let mut list = Vec::with_capacity(alloc, entries.len())?;
    for entry in entries {
        list.push(entry.copy()?)?;
    }
    Ok(List::from_vec(list))
}

impl Stored {
    /// One event of the core.
    pub(crate) fn step(&mut self, alloc: Global, event: CoreEvent) -> Result<CoreReply, StepNo>
        requires { MayStep self.old.core event }
        ensures ok { IfOk result (λ told. Steps self.old.core event told self.new.core) }
        ensures back { IfErr result (λ no. no ≡ OutOfMemory event) }
        ensures memory { IfErr result (λ _. TakesMemory event) }
        ensures err { OnErr result (self.new.core ≡ self.old.core) }
    {
        self.core.step(alloc, event)
    }

    /// The entries behind the first ones, and whether all is ended; and how many entries there are.
    pub(crate) fn news(&self, alloc: Global, fetched: u64) -> Result<(News, u64), Memory>
        requires { fetched ≤ length self.now.core.history }
        ensures { IfOk result (IsNewsOf self.now.core fetched) }
    {
        let history = self.core.history();
        let entries = copies(alloc, &history[fetched as usize..])?;
        let news = News {
            entries,
            ended: self.core.ended(),
        };
        Ok((news, history.len() as u64))
    }

    /// The newest edition.
    pub(crate) fn edition(&self, alloc: Global) -> Result<Edition, Memory>
        ensures { IfOk result (IsEditionIn self.now.core.history) }
    {
        let fixings = self.core.fixings(alloc)?;
        Ok(Edition {
            number: self.core.edition(),
            fixings: List::from_vec(fixings),
        })
    }
}
