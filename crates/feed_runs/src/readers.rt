ghost use Rattle.std.specs.Prelude.{◌≡◌, ◌-◌, ℕ, List, true, All, IfOk, IfErr, map, length};
ghost use Rattle.shared_board.specs.Board.{board_of, own_board, known, fetched, lines};
ghost use Rattle.joined_passes.specs.Joined.{Joins};
ghost use Rattle.feed_runs.specs.Readers.{MayRead, AreReaders, CountsFeeds, with_readers};

use crate::reader::Reader;
use disp_outside::{Feed, Shelf};
use feed_reader::Reading;
use joined_passes::join_next;
use shared_board::{Board, Pass};
use std::alloc::Global;

/// A reader for each feed, in order, with a pass that begins with what the first pass has seen.
///
/// # Errors
///
/// The feeds where memory runs out.
pub fn readers_of<F: Feed + Drop>(
    alloc: Global,
    board: &Board,
    first: &mut Pass,
    feeds: Vec<F>,
) -> Result<Vec<Reader<F>>, Vec<F>>
    requires board { own_board first.old ≡ board_of board.now }
    requires may { MayRead (known first.old) (length feeds.items) }
    ensures board { own_board first.new ≡ own_board first.old }
    ensures counts { (fetched first.new ≡ fetched first.old) × (lines first.new ≡ lines first.old) }
    ensures first { IfOk result
        (λ readers. known first.new ≡ with_readers (known first.old) (length feeds.items)) }
    ensures feeds { IfOk result (λ readers. map (λ r. r.feed) readers.items ≡ feeds.items) }
    ensures readers { IfOk result
        (λ readers. AreReaders board.now (known first.old) readers.items) }
    ensures back { IfErr result (λ back. back ≡ feeds) }
{
    let Ok(mut readers) = Vec::with_capacity(alloc, feeds.len()) else {
        return Err(feeds);
    };
    let mut number = 0;
    for feed in feeds {
        let pass = board.split(first, number);
        readers.push_reserved(Reader {
            pass,
            feed,
            reading: Reading::Ended,
        });
        number += 1;
    }
    Ok(readers)
}

/// Puts what the passes of readers know into the first pass, one after the other, ends them, and
/// closes their feeds, which the shelf gave.
pub fn join_readers<S: Shelf>(
    board: &Board,
    first: &mut Pass,
    shelf: &mut S,
    readers: Vec<Reader<S::Feed>>,
)
    requires board { own_board first.old ≡ board_of board.now }
    requires first { (known first.old).first ≡ true }
    requires boards { All (λ r. own_board r.pass ≡ board_of board.now) readers.items }
    requires known { All (λ r. S.knows shelf.old (S.Feed.name r.feed)) readers.items }
    ensures board { own_board first.new ≡ own_board first.old }
    ensures first { (known first.new).first ≡ true }
    ensures joins { Joins first.old (map (λ r. r.pass) readers.items) first.new }
    ensures counts { CountsFeeds S.Feed.name S.Feed.faults (map (λ r. r.feed) readers.items)
        (S.state shelf.old).reading (S.state shelf.new).reading }
    ensures puttings { (name : List ℕ) → (S.state shelf.new).putting name
        ≡ (S.state shelf.old).putting name }
    ensures held { (name : List ℕ) → (S.state shelf.new).holds name
        ≡ (S.state shelf.old).holds name }
    ensures still_known { (name : List ℕ) → S.knows shelf.old name → S.knows shelf.new name }
    ensures closed { S.open_feeds shelf.new
        ≡ S.open_feeds shelf.old - length readers.items }
{
    for reader in readers {
        let Reader { pass, feed, .. } = reader;
        join_next(board, first, pass);
        shelf.close(feed);
    }
}
