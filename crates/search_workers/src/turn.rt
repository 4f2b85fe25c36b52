ghost use Rattle.std.specs.Prelude.{IfOk};
ghost use Rattle.dispatch_core.specs.Asked.{MayStep};
ghost use Rattle.dispatch_core.specs.Replies.{Steps};
ghost use Rattle.search_workers.specs.Searched.{CoreGoesOn, IsSearchEvent, IsTurn};

use disp_model::Memory;
use dispatch_core::{Core, CoreEvent, CoreReply};
use open_nodes::Work;
use std::alloc::Global;

/// The number of the one searcher.
pub(crate) const SEARCHER: u32 = 0;

/// What there is for a searcher to do.
#[derive(Drop)]
pub(crate) enum Turn {
    /// The leaf of this work is to be grown.
    Work(Work),
    /// The edition is settled or stopped.
    Closed,
    /// The core is to be asked again.
    On,
}

/// Asks something of the core. Fails for memory alone; then nothing has changed.
pub(crate) fn tell(alloc: Global, core: &mut Core, event: CoreEvent) -> Result<CoreReply, Memory>
    requires may { MayStep core.old event }
    requires search { IsSearchEvent event }
    ensures on { CoreGoesOn core.old core.new }
    ensures told { IfOk result (λ told. Steps core.old event told core.new) }
{
    match core.step(alloc, event) {
        Ok(told) => Ok(told),
        Err(_) => Err(Memory),
    }
}

/// Takes a leaf of the newest edition, to grow so many branches. Where none is wanted, settles it;
/// where none may be taken, stops it.
pub(crate) fn next_turn(alloc: Global, core: &mut Core, want: u32) -> Result<Turn, Memory>
    ensures on { CoreGoesOn core.old core.new }
    ensures turn { IfOk result (IsTurn core.new) }
{
    let edition = core.edition();
    let take = CoreEvent::Take {
        searcher: SEARCHER,
        edition,
        want,
    };
    match tell(alloc, core, take)? {
        CoreReply::Taken(work) => Ok(Turn::Work(work)),
        CoreReply::Closed(_) => Ok(Turn::Closed),
        CoreReply::Ripe => {
            tell(alloc, core, CoreEvent::Settle { edition })?;
            Ok(Turn::On)
        }
        CoreReply::Dry(_) => {
            tell(alloc, core, CoreEvent::Stop { edition })?;
            Ok(Turn::On)
        }
        _ => Ok(Turn::On),
    }
}
