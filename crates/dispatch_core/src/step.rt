ghost use Rattle.std.specs.Prelude.{◌≡◌, IfOk, IfErr, OnErr};
ghost use Rattle.dispatch_core.specs.declared.event.StepNo.TheVariants.{Memory as OutOfMemory};
ghost use Rattle.dispatch_core.specs.Asked.{MayStep};
ghost use Rattle.dispatch_core.specs.Replies.{Steps, TakesMemory};

use crate::event::{CoreEvent, CoreReply, StepNo};
use crate::machine::Core;
use std::alloc::Global;

impl Core {
    /// Takes one event, and gives its reply.
    ///
    /// # Errors
    ///
    /// The event and `Memory` where memory runs out; then nothing has changed. `Next`, `FeedEnd`,
    /// `Leave` and `GiveBack` take none.
    pub fn step(&mut self, alloc: Global, event: CoreEvent) -> Result<CoreReply, StepNo>
        requires { MayStep self.old event }
        ensures ok { IfOk result (λ told. Steps self.old event told self.new) }
        ensures back { IfErr result (λ no. no ≡ OutOfMemory event) }
        ensures memory { IfErr result (λ _. TakesMemory event) }
        ensures err { OnErr result (self.new ≡ self.old) }
    {
        match event {
            CoreEvent::Ask { feed, line, change } => match self.ask(alloc, feed, line, change) {
                Ok(told) => Ok(CoreReply::Asked(told)),
                Err(_) => Err(StepNo::Memory(event)),
            },
            CoreEvent::Unread { feed, line, why } => match self.unread(feed, line, why) {
                Ok(()) => Ok(CoreReply::Noted),
                Err(_) => Err(StepNo::Memory(event)),
            },
            CoreEvent::Show { feed, line } => match self.show(feed, line) {
                Ok(standing) => Ok(CoreReply::Shown(standing)),
                Err(_) => Err(StepNo::Memory(event)),
            },
            CoreEvent::FeedEnd { feed } => {
                self.feed_end(feed);
                Ok(CoreReply::Noted)
            }
            CoreEvent::Leave { searcher } => {
                self.leave(searcher);
                Ok(CoreReply::Noted)
            }
            CoreEvent::Next => Ok(self.next()),
            CoreEvent::Take {
                searcher,
                edition,
                want,
            } => match self.take(alloc, searcher, edition, want) {
                Ok(told) => Ok(told),
                Err(_) => Err(StepNo::Memory(event)),
            },
            CoreEvent::Grow { searcher, fragment } => match self.grow(alloc, searcher, fragment) {
                Ok(told) => Ok(told),
                Err((fragment, _)) => {
                    Err(StepNo::Memory(CoreEvent::Grow { searcher, fragment }))
                }
            },
            CoreEvent::GiveBack { work, examined } => Ok(self.give_back(work, examined)),
            CoreEvent::Publish { edition, plan } => match self.publish(alloc, edition, plan) {
                Ok(told) => Ok(told),
                Err((plan, _)) => Err(StepNo::Memory(CoreEvent::Publish { edition, plan })),
            },
            CoreEvent::Settle { edition } => match self.settle(alloc, edition) {
                Ok(told) => Ok(told),
                Err(_) => Err(StepNo::Memory(event)),
            },
            CoreEvent::Stop { edition } => match self.stop(edition) {
                Ok(told) => Ok(told),
                Err(_) => Err(StepNo::Memory(event)),
            },
        }
    }
}
