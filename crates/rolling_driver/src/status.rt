ghost use Rattle.std.specs.Prelude.{◌≡◌, ◌↔◌, List, IsTrue, Any, map};
ghost use Rattle.feed_reader.specs.declared.read.Reading.{Reading as ReadingOf};
ghost use Rattle.rolling_driver.specs.Status.{AreEnded, HasFailed, IsStatus, WantsMemory, roll_status_of_mark};

use disp_model::Mark;
use feed_reader::Reading;
use feed_runs::Reader;
use journal_printer::PrintNo;

/// How the readings of the feeds ended.
#[derive(Clone, Copy, Debug, PartialEq, Eq)]
pub(crate) struct Ended {
    /// Memory ran out in one.
    memory: bool,
    /// There are too many lines in one.
    too_many: bool,
    /// One failed.
    failed: bool,
}

/// Whether two readings ended alike.
fn are_alike(one: Reading, other: Reading) -> bool
    ensures { IsTrue result ↔ (one ≡ other) }
{
    one == other
}

/// Whether the reading of some feed ended so.
fn has<F>(readers: &[Reader<F>], one: Reading) -> bool
    ensures { IsTrue result ↔ Any (λ r. r.reading ≡ one) readers.now }
{
    for reader in readers {
        if are_alike(reader.reading, one) {
            return true;
        }
    }
    false
}

/// How the readings of the feeds ended.
pub(crate) fn ended_of<F>(readers: &[Reader<F>]) -> Ended
    ensures { AreEnded (map (λ r. r.reading) readers.now) result }
{
    Ended {
        memory: has(readers, Reading::Memory),
        too_many: has(readers, Reading::TooMany),
        failed: has(readers, Reading::Failed),
    }
}

/// The status for a mark that is not worked on any more.
fn status_of_mark(mark: Mark) -> u8
    ensures { result ≡ roll_status_of_mark mark }
{
    match mark {
        Mark::Working => 5,
        Mark::Optimal(_) => 0,
        Mark::Infeasible => 1,
        Mark::Stopped { .. } => 3,
    }
}

/// Whether memory ran out, or the newest edition is still worked on.
fn wants_memory(mark: Mark, ended: Ended, printed: Result<(), PrintNo>) -> bool
    ensures { (readings : List ReadingOf) → AreEnded readings ended
        → (IsTrue result ↔ WantsMemory mark readings printed) }
{
    if mark == Mark::Working {
        return true;
    }
    match printed {
        Ok(()) => ended.memory,
        Err(PrintNo::Unput) => ended.memory,
        Err(PrintNo::Unwritten) => ended.memory,
        Err(PrintNo::Memory) => true,
    }
}

/// Whether a putting, a write or the reading of a feed failed.
fn has_failed(ended: Ended, printed: Result<(), PrintNo>) -> bool
    ensures { (readings : List ReadingOf) → AreEnded readings ended
        → (IsTrue result ↔ HasFailed readings printed) }
{
    match printed {
        Ok(()) => ended.failed,
        Err(PrintNo::Unput) => true,
        Err(PrintNo::Unwritten) => true,
        Err(PrintNo::Memory) => ended.failed,
    }
}

/// The status of a run: want of memory stands before feeds that are too long, these before what
/// failed, and that before the mark of the newest edition.
pub(crate) fn status_of(mark: Mark, ended: Ended, printed: Result<(), PrintNo>) -> u8
    ensures { (readings : List ReadingOf) → AreEnded readings ended
        → IsStatus mark readings printed result }
{
    if wants_memory(mark, ended, printed) {
        return 5;
    }
    if ended.too_many {
        return 2;
    }
    if has_failed(ended, printed) {
        return 4;
    }
    status_of_mark(mark)
}
