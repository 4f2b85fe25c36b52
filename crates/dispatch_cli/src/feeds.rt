ghost use Rattle.std.specs.Prelude.{◌≡◌, ◌≢◌, ◌+◌, All, List, ℕ, [], OnOk, OnErr, IfOk, IfErr, length};
ghost use Rattle.rolling_driver.specs.Opened.{AreNew};
ghost use Rattle.dispatch_cli.specs.Feeds.{AreOpened, OpensOne, StopsFeed, StopsFeeds};

use crate::roll_no::RollNo;
use disp_model::Text;
use disp_outside::{FeedNo, Shelf};
use rolling_driver::close_feeds;
use std::alloc::Global;

/// Opens the feed of a name, which has this number, behind those that are open.
fn open_next<S: Shelf>(
    alloc: Global,
    shelf: &mut S,
    name: &str,
    number: u64,
    feeds: &mut Vec<S::Feed>,
) -> Result<(), RollNo>
    ensures ok { OnOk result
        (OpensOne S.Feed.name S.Feed.lines S.Feed.has_ended S.Feed.faults (S.state shelf.old).holds
        name.now feeds.old.items feeds.new.items) }
    ensures known { OnOk result (S.knows shelf.new name.now) }
    ensures quiet { OnOk result
        ((S.state shelf.new).reading name.now ≡ (S.state shelf.old).reading name.now) }
    ensures same { OnErr result (feeds.new.items ≡ feeds.old.items) }
    ensures no { IfErr result (StopsFeed name.now number (S.state shelf.old).reading
        (S.state shelf.new).reading) }
    ensures others { (other : List ℕ) → other ≢ name.now
        → (S.state shelf.new).reading other ≡ (S.state shelf.old).reading other }
    ensures still { (other : List ℕ) → S.knows shelf.old other → S.knows shelf.new other }
    ensures puttings { (other : List ℕ) → (S.state shelf.new).putting other
        ≡ (S.state shelf.old).putting other }
    ensures held { (other : List ℕ) → (S.state shelf.new).holds other
        ≡ (S.state shelf.old).holds other }
    ensures opened { OnOk result (S.open_feeds shelf.new
        ≡ S.open_feeds shelf.old + 1) }
    ensures unopened { OnErr result (S.open_feeds shelf.new
        ≡ S.open_feeds shelf.old) }
{
    feeds.reserve(1)?;
    match shelf.feed(alloc, name) {
        Ok(feed) => {
            feeds.push_reserved(feed);
            Ok(())
        }
        Err(FeedNo::Failed) => Err(RollNo::FeedFailed(number)),
        Err(FeedNo::Memory) => Err(RollNo::Memory),
    }
}

/// Opens the feeds of names, in order, up to the first that is not opened.
fn open_each<S: Shelf>(
    alloc: Global,
    shelf: &mut S,
    names: &[Text],
    feeds: &mut Vec<S::Feed>,
) -> Result<(), RollNo>
    requires none { feeds.old.items ≡ [] }
    ensures ok { OnOk result
        (AreOpened S.Feed.name S.Feed.lines S.Feed.has_ended S.Feed.faults (S.state shelf.old).holds
        names.now feeds.new.items) }
    ensures known { All (λ feed. S.knows shelf.new (S.Feed.name feed)) feeds.new.items }
    ensures are_new { AreNew S.Feed.has_ended S.Feed.faults feeds.new.items }
    ensures quiet { OnOk result ((name : List ℕ) → (S.state shelf.new).reading name
        ≡ (S.state shelf.old).reading name) }
    ensures no { IfErr result (StopsFeeds names.now (S.state shelf.old).reading
        (S.state shelf.new).reading) }
    ensures puttings { (name : List ℕ) → (S.state shelf.new).putting name
        ≡ (S.state shelf.old).putting name }
    ensures held { (name : List ℕ) → (S.state shelf.new).holds name
        ≡ (S.state shelf.old).holds name }
    ensures opened { S.open_feeds shelf.new
        ≡ S.open_feeds shelf.old + length feeds.new.items }
{
    let mut number = 0;
    for name in names {
        match open_next(alloc, shelf, name.as_str(), number, feeds) {
            Ok(()) => number += 1,
            Err(no) => return Err(no),
        }
    }
    Ok(())
}

/// Opens the feeds of names, in order. Where one cannot be opened, those before it are closed.
///
/// # Errors
///
/// `FeedFailed` of the first feed that could not be opened, and `Memory`.
pub(crate) fn open_feeds<S: Shelf>(
    alloc: Global,
    shelf: &mut S,
    names: &[Text],
) -> Result<Vec<S::Feed>, RollNo>
    ensures ok { IfOk result (λ feeds.
        AreOpened S.Feed.name S.Feed.lines S.Feed.has_ended S.Feed.faults (S.state shelf.old).holds
        names.now feeds.items) }
    ensures known { IfOk result
        (λ feeds. All (λ feed. S.knows shelf.new (S.Feed.name feed)) feeds.items) }
    ensures quiet { OnOk result ((name : List ℕ) → (S.state shelf.new).reading name
        ≡ (S.state shelf.old).reading name) }
    ensures no { IfErr result (StopsFeeds names.now (S.state shelf.old).reading
        (S.state shelf.new).reading) }
    ensures puttings { (name : List ℕ) → (S.state shelf.new).putting name
        ≡ (S.state shelf.old).putting name }
    ensures held { (name : List ℕ) → (S.state shelf.new).holds name
        ≡ (S.state shelf.old).holds name }
    ensures opened { IfOk result (λ feeds. S.open_feeds shelf.new
        ≡ S.open_feeds shelf.old + length feeds.items) }
    ensures unopened { OnErr result (S.open_feeds shelf.new
        ≡ S.open_feeds shelf.old) }
{
    let mut feeds = Vec::new(alloc);
    match open_each(alloc, shelf, names, &mut feeds) {
        Ok(()) => Ok(feeds),
        Err(no) => {
            close_feeds(shelf, feeds);
            Err(no)
        }
    }
}
