ghost use Rattle.std.specs.Prelude.{◌≡◌, ◌↔◌, IsTrue, IfOk, false, replicate, length, slice_set, true, ◌<◌};
ghost use Rattle.dispatch_core.specs.Replies.{open_feed_count};

use disp_model::Memory;
use std::alloc::Global;

/// So many flags that are not set.
pub(crate) fn flags(alloc: Global, count: u32) -> Result<Vec<bool>, Memory>
    ensures { IfOk result (λ flags. flags.items ≡ replicate count false) }
{
    Ok(vec![in alloc; false; count as usize]?)
}

/// How many flags are not set.
pub(crate) fn open_count(flags: &[bool]) -> usize
    ensures { result ≡ open_feed_count flags.now }
{
    flags.iter().filter(|flag| !**flag).count()
}

/// Whether all flags are set.
pub(crate) fn none_open(flags: &[bool]) -> bool
    ensures { IsTrue result ↔ (open_feed_count flags.now ≡ 0) }
{
    open_count(flags) == 0
}
