ghost use Rattle.std.specs.Prelude.{◌≡◌, IfOk, MatchOption};
ghost use Rattle.disp_model.specs.History.{newest, edition_of, IsStanding};
ghost use Rattle.dispatch_core.specs.Replies.{IsCurrent, NotCurrent, IsNextReply};
ghost use Rattle.dispatch_core.specs.States.{IsSound};

use crate::event::CoreReply;
use crate::flags::open_count;
use crate::machine::Core;
use crate::settling::standing;
use disp_model::{Fixing, Mark, Memory, Standing};
use std::alloc::Global;

impl Core {
    /// The number of the newest edition; what else holds of the run.
    pub fn edition(&self) -> u32
        ensures number { result ≡ newest self.now.history }
        ensures sound { IsSound self.now }
    {
        self.editions.changes().len() as u32
    }

    /// The fixings that stand in the newest edition.
    ///
    /// # Errors
    ///
    /// `Memory` where memory runs out.
    pub fn fixings(&self, alloc: Global) -> Result<Vec<Fixing>, Memory>
        ensures { IfOk result (λ fixings. fixings.items ≡ edition_of self.now.history) }
    {
        standing(alloc, self.editions.changes())
    }

    /// Where the search stands.
    pub fn standing(&self) -> Standing
        ensures { IsStanding self.now.problem self.now.history result }
    {
        Standing {
            edition: self.edition(),
            best: self.best,
            mark: self.mark,
        }
    }

    /// Why nothing is done for a named edition, if that is so.
    pub(crate) fn not_current(&self, edition: u32) -> Option<CoreReply>
        ensures { MatchOption result (IsCurrent self.now edition) (NotCurrent self.now edition) }
    {
        let newest = self.edition();
        if newest < edition {
            return Some(CoreReply::Ahead(newest));
        }
        if edition < newest {
            return Some(CoreReply::Newer(newest));
        }
        match self.mark {
            Mark::Working => None,
            mark => Some(CoreReply::Closed(mark)),
        }
    }

    /// What there is to do.
    pub(crate) fn next(&self) -> CoreReply
        ensures { IsNextReply self.now result }
    {
        if self.mark == Mark::Working {
            return CoreReply::Work(self.edition());
        }
        match open_count(self.ended.as_slice()) {
            0 => CoreReply::Over,
            count => CoreReply::FeedsOpen(count as u64),
        }
    }
}
