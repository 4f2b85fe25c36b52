// Files by name, as the program sees them.
ghost use Rattle.std.specs.Prelude.{◌≡◌, ◌≢◌, ◌<◌, ◌≤◌, ◌↔◌, ◌+◌, ◌-◌, false, List, ℕ, length, Option, Some, IfOk, IfSome, IsOk, OnOk, OnErr, IsErrOf, IsSomeAnd, ◌⊎◌};
ghost use Rattle.disp_outside.specs.Lines.{HasLinesOf};
ghost use Rattle.disp_outside.specs.States.{ShelfState};
ghost use Rattle.disp_outside.specs.declared.shelf.FetchNo.TheVariants.{Memory};
ghost use Rattle.disp_outside.specs.declared.shelf.PutNo.TheVariants.{Memory as PutMemory};

use crate::{Feed, FeedNo};
use std::alloc::{AllocError, Global};

/// Why a file was not fetched.
#[derive(Clone, Copy, Debug, PartialEq, Eq)]
pub enum FetchNo {
    /// The file could not be read.
    Failed,
    /// The file has more bytes than the limit.
    TooLong,
    /// There was no room.
    Memory,
}

impl From<AllocError> for FetchNo {
    ghost from_gives = { λ _ no. no ≡ Memory };

    fn from(_: AllocError) -> Self {
        FetchNo::Memory
    }
}

/// Why a file was not put.
#[derive(Clone, Copy, Debug, PartialEq, Eq)]
pub enum PutNo {
    /// The file could not be written.
    Failed,
    /// There was no room.
    Memory,
}

impl From<AllocError> for PutNo {
    ghost from_gives = { λ _ no. no ≡ PutMemory };

    fn from(_: AllocError) -> Self {
        PutNo::Memory
    }
}

/// Files by name.
///
/// A name is its bytes. A shelf may tell what a name holds, and then an answer is about those
/// bytes.
pub trait Shelf: Send {
    /// A file that is read line by line.
    type Feed: Feed + Drop;

    /// The names that the shelf knows.
    ghost knows: { Self → List ℕ → Type 0 };

    /// What names hold, where it is told: nothing is told, or there is no file, or there is a file
    /// of these bytes; and how often readings and puttings of a name have failed.
    ghost state: { Self → ShelfState };

    /// How many of its feeds are open: those that it gave, but for those that were closed.
    ghost open_feeds: { Self → ℕ };

    /// The bytes of a file of at most `limit` bytes.
    ///
    /// # Errors
    ///
    /// `TooLong` for a longer file, `Failed` where the reading failed, or there is no such file,
    /// and `Memory`, with which all is as before.
    fn fetch(&mut self, alloc: Global, name: &str, limit: u64) -> Result<Vec<u8>, FetchNo>
        ensures bytes { IfOk result
            (λ bytes. IfSome ((state self.old).holds name.now) (λ file. file ≡ Some bytes.items)) }
        ensures within { IfOk result (λ bytes. length bytes.items ≤ limit) }
        ensures too_long { IsErrOf result FetchNo.TooLong →
            IfSome ((state self.old).holds name.now)
            (λ file. IsSomeAnd file (λ bytes. limit < length bytes)) }

        // A fault is told exactly where it is counted, and no other count changes.
        ensures failed { IsErrOf result FetchNo.Failed
            ↔ ((state self.old).reading name.now < (state self.new).reading name.now) }
        ensures counted { (state self.old).reading name.now ≤ (state self.new).reading name.now }
        ensures other_counts { (other : List ℕ) → other ≢ name.now → (state self.new).reading other
            ≡ (state self.old).reading other }
        ensures putting_counts { (other : List ℕ) → (state self.new).putting other
            ≡ (state self.old).putting other }

        ensures held { (other : List ℕ) → (state self.new).holds other
            ≡ (state self.old).holds other }
        ensures known { IsErrOf result FetchNo.Memory ⊎ knows self.new name.now }
        ensures still_known { (other : List ℕ) → knows self.old other → knows self.new other }
        ensures memory { IsErrOf result FetchNo.Memory → (other : List ℕ) → knows self.new other
            → knows self.old other }
        ensures feeds { open_feeds self.new ≡ open_feeds self.old };

    /// Makes these the bytes of the name's file.
    ///
    /// # Errors
    ///
    /// `Failed` where the file could not be written, and then the name may hold anything; `Memory`,
    /// with which all is as before.
    fn put(&mut self, alloc: Global, name: &str, bytes: &[u8]) -> Result<(), PutNo>
        ensures bytes { IsOk result
            → IfSome ((state self.new).holds name.now) (λ file. file ≡ Some bytes.now) }

        // A fault is told exactly where it is counted, and no other count changes.
        ensures failed { IsErrOf result PutNo.Failed
            ↔ ((state self.old).putting name.now < (state self.new).putting name.now) }
        ensures counted { (state self.old).putting name.now ≤ (state self.new).putting name.now }
        ensures other_counts { (other : List ℕ) → other ≢ name.now → (state self.new).putting other
            ≡ (state self.old).putting other }
        ensures reading_counts { (other : List ℕ) → (state self.new).reading other
            ≡ (state self.old).reading other }

        ensures held { (other : List ℕ) → other ≢ name.now → (state self.new).holds other
            ≡ (state self.old).holds other }
        ensures known { IsErrOf result PutNo.Memory ⊎ knows self.new name.now }
        ensures still_known { (other : List ℕ) → knows self.old other → knows self.new other }
        ensures memory { IsErrOf result PutNo.Memory → (other : List ℕ) → knows self.new other
            → knows self.old other }
        ensures memory_held { IsErrOf result PutNo.Memory → (state self.new).holds name.now
            ≡ (state self.old).holds name.now }
        ensures feeds { open_feeds self.new ≡ open_feeds self.old };

    /// A feed of the lines that the name holds.
    ///
    /// # Errors
    ///
    /// `Failed` where there is no such file, or it could not be opened, and `Memory`, with which
    /// all is as before.
    fn feed(&mut self, alloc: Global, name: &str) -> Result<Self::Feed, FeedNo>
        ensures name { IfOk result (λ feed. Self.Feed.name feed ≡ name.now) }
        ensures lines { IfOk result
            (λ feed. HasLinesOf ((state self.old).holds name.now) (Self.Feed.lines feed)) }
        ensures open { IfOk result (λ feed. Self.Feed.has_ended feed ≡ false) }
        ensures unbroken { IfOk result (λ feed. Self.Feed.faults feed ≡ 0) }

        // A fault is told exactly where it is counted, and no other count changes.
        ensures failed { IsErrOf result FeedNo.Failed
            ↔ ((state self.old).reading name.now < (state self.new).reading name.now) }
        ensures counted { (state self.old).reading name.now ≤ (state self.new).reading name.now }
        ensures other_counts { (other : List ℕ) → other ≢ name.now → (state self.new).reading other
            ≡ (state self.old).reading other }
        ensures putting_counts { (other : List ℕ) → (state self.new).putting other
            ≡ (state self.old).putting other }

        ensures held { (other : List ℕ) → (state self.new).holds other
            ≡ (state self.old).holds other }
        ensures known { IsErrOf result FeedNo.Memory ⊎ knows self.new name.now }
        ensures still_known { (other : List ℕ) → knows self.old other → knows self.new other }
        ensures memory { IsErrOf result FeedNo.Memory → (other : List ℕ) → knows self.new other
            → knows self.old other }

        // One more is open where a feed is given, and no more where none is.
        ensures opened { OnOk result
            (open_feeds self.new ≡ open_feeds self.old + 1) }
        ensures unopened { OnErr result
            (open_feeds self.new ≡ open_feeds self.old) };

    /// Ends a feed. What failed in it counts as one fault of reading its name.
    fn close(&mut self, feed: Self::Feed)
        requires { knows self.old (Self.Feed.name feed) }

        // The count rises exactly where a call of the feed has failed, and no other count changes.
        ensures failed { (0 < Self.Feed.faults feed)
            ↔ ((state self.old).reading (Self.Feed.name feed)
            < (state self.new).reading (Self.Feed.name feed)) }
        ensures counted { (state self.old).reading (Self.Feed.name feed)
            ≤ (state self.new).reading (Self.Feed.name feed) }
        ensures other_counts { (other : List ℕ) → other ≢ Self.Feed.name feed
            → (state self.new).reading other ≡ (state self.old).reading other }
        ensures putting_counts { (other : List ℕ) → (state self.new).putting other
            ≡ (state self.old).putting other }

        ensures held { (other : List ℕ) → (state self.new).holds other
            ≡ (state self.old).holds other }
        ensures known { (other : List ℕ) → knows self.new other ↔ knows self.old other }

        // One less is open.
        ensures closed { open_feeds self.new ≡ open_feeds self.old - 1 };
}
