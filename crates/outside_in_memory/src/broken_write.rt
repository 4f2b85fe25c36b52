// A write that is to break.
ghost use Rattle.std.specs.Prelude.{◌≡◌};
ghost use Rattle.outside_in_memory.specs.BrokenWrite.{sent_by};

/// A write that is to break.
#[derive(Clone, Copy, Debug, PartialEq, Eq)]
pub struct BrokenWrite {
    /// The number of the call, counted from 1.
    pub call: u64,
    /// How many bytes of the piece go out first; all of a shorter piece.
    pub sent: usize,
}

// How many bytes go out in the call of this number before it breaks, if it is to break.
pub(crate) fn sent_by(broken: &[BrokenWrite], call: u64) -> Option<usize>
    ensures { result ≡ sent_by broken.now call }
{
    broken
        .iter()
        .find(|entry| entry.call == call)
        .map(|entry| entry.sent)
}
