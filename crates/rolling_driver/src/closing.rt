ghost use Rattle.std.specs.Prelude.{◌≡◌, ◌-◌, ℕ, List, All, false, length};
ghost use Rattle.rolling_driver.specs.Opened.{AreNew};

use disp_outside::Shelf;
use feed_runs::Reader;

/// Closes feeds of which nothing was read.
pub fn close_feeds<S: Shelf>(shelf: &mut S, feeds: Vec<S::Feed>)
    requires feeds { AreNew S.Feed.has_ended S.Feed.faults feeds.items }
    requires known { All (λ feed. S.knows shelf.old (S.Feed.name feed)) feeds.items }
    ensures counts { (name : List ℕ) → (S.state shelf.new).reading name
        ≡ (S.state shelf.old).reading name }
    ensures puttings { (name : List ℕ) → (S.state shelf.new).putting name
        ≡ (S.state shelf.old).putting name }
    ensures held { (name : List ℕ) → (S.state shelf.new).holds name
        ≡ (S.state shelf.old).holds name }
    ensures still_known { (name : List ℕ) → S.knows shelf.old name → S.knows shelf.new name }
    ensures closed { S.open_feeds shelf.new
        ≡ S.open_feeds shelf.old - length feeds.items }
{
    for feed in feeds {
        shelf.close(feed);
    }
}

/// Closes the feeds of readers, of which nothing was read.
pub(crate) fn close_readers<S: Shelf>(shelf: &mut S, readers: Vec<Reader<S::Feed>>)
    requires feeds { All (λ r. (S.Feed.has_ended r.feed ≡ false) × (S.Feed.faults r.feed ≡ 0))
        readers.items }
    requires known { All (λ r. S.knows shelf.old (S.Feed.name r.feed)) readers.items }
    ensures counts { (name : List ℕ) → (S.state shelf.new).reading name
        ≡ (S.state shelf.old).reading name }
    ensures puttings { (name : List ℕ) → (S.state shelf.new).putting name
        ≡ (S.state shelf.old).putting name }
    ensures held { (name : List ℕ) → (S.state shelf.new).holds name
        ≡ (S.state shelf.old).holds name }
    ensures still_known { (name : List ℕ) → S.knows shelf.old name → S.knows shelf.new name }
    ensures closed { S.open_feeds shelf.new
        ≡ S.open_feeds shelf.old - length readers.items }
{
    for reader in readers {
        let Reader { feed, .. } = reader;
        shelf.close(feed);
    }
}
