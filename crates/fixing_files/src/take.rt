ghost use Rattle.std.specs.Prelude.{◌≡◌, ◌≤◌, ◌<◌, ◌↔◌, ◌++◌, ◌∷◌, [], false, true, length, Ok, IfErr, IfSome, OnOk, OnErr, IsErrOf, MatchOption};
ghost use Rattle.disp_model.specs.declared.limits.TheConstants.{MOST_LINES};
ghost use Rattle.disp_model.specs.declared.fixing.Change.{Change};
ghost use Rattle.fixing_lines.specs.Requests.{IsAsked};
ghost use Rattle.fixing_files.specs.Files.{TakesChange, RefusesChange, TakesText, RefusesText, TakesFirst, RefusesNext, RefusesEnd, TakesAll, RefusesFile, Leaves, TakesInTurn, AskInTurn, NotesText, NotesNext};

use disp_model::{Change, MOST_LINES, Memory, Refusal, Reply};
use disp_outside::{Feed, FeedLine, LineBuf};
use fixing_editions::Editions;
use fixing_lines::{Request, read_request};

/// Why a line ends the reading.
#[derive(Clone, Copy, Debug, PartialEq, Eq)]
pub enum LineNo {
    /// The line asks for no change.
    Unreadable,
    /// The line has more than 256 bytes.
    Long,
    /// The line stands behind as many as are read.
    TooMany,
    /// The change is refused.
    Refused(Refusal),
}

/// Why a file of fixings is not taken.
#[derive(Clone, Copy, Debug, PartialEq, Eq)]
pub enum FileNo {
    /// The line of this number, counted from 1, is not taken.
    Line(u64, LineNo),
    /// A line could not be read.
    Failed,
    /// Memory ran out.
    Memory,
}

impl From<Memory> for FileNo {
    ghost use Rattle.std.specs.Prelude.{◌≡◌};
    ghost use Rattle.fixing_files.specs.declared.take.FileNo.TheVariants.{Memory as OutOfMemory};

    ghost from_gives = { λ _ no. no ≡ OutOfMemory };

    fn from(_refused: Memory) -> FileNo {
        FileNo::Memory
    }
}

/// The change that a line asks for.
fn change_of(line: &[u8]) -> Option<Change>
    ensures { MatchOption result ((change : Change) → IsAsked line.now change → ⊥)
        (IsAsked line.now) }
{
    match read_request(line) {
        Request::Ask(change) => Some(change),
        Request::Show | Request::Unreadable => None,
    }
}

/// Asks for a change.
fn ask_for(editions: &mut Editions, change: Change, number: u64) -> Result<(), FileNo>
    ensures problem { editions.new.problem ≡ editions.old.problem }
    ensures ok { OnOk result
        (TakesChange editions.old.problem editions.old.changes change editions.new.changes) }
    ensures same { OnErr result (editions.new.changes ≡ editions.old.changes) }
    ensures no { IfErr result
        (RefusesChange editions.old.problem editions.old.changes change number) }
{
    match editions.ask(change)? {
        Reply::Accepted(_) => Ok(()),
        Reply::Known(_) => Ok(()),
        Reply::Refused(why) => Err(FileNo::Line(number, LineNo::Refused(why))),
    }
}

/// Asks for the change of a line, and notes it.
fn take_line(
    editions: &mut Editions,
    asked: &mut Vec<Change>,
    line: &[u8],
    number: u64,
) -> Result<(), FileNo>
    ensures problem { editions.new.problem ≡ editions.old.problem }
    ensures ok { OnOk result
        (TakesText editions.old.problem editions.old.changes line.now editions.new.changes) }
    ensures noted { OnOk result
        (NotesText editions.old.problem editions.old.changes line.now editions.new.changes
        asked.old.items asked.new.items) }
    ensures same { OnErr result (editions.new.changes ≡ editions.old.changes) }
    ensures no { IfErr result
        (RefusesText editions.old.problem editions.old.changes line.now number) }
{
    let Some(change) = change_of(line) else {
        return Err(FileNo::Line(number, LineNo::Unreadable));
    };
    let Ok(()) = asked.reserve(1) else {
        return Err(FileNo::Memory);
    };
    ask_for(editions, change, number)?;
    asked.push_reserved(change);
    Ok(())
}

/// Takes the next line, and says whether there was none.
fn take_next<F: Feed>(
    feed: &mut F,
    editions: &mut Editions,
    asked: &mut Vec<Change>,
    line: &mut LineBuf,
    number: u64,
) -> Result<bool, FileNo>
    requires { F.has_ended feed.old ≡ false }
    ensures problem { editions.new.problem ≡ editions.old.problem }
    ensures given { result ≡ Ok false → IfSome (F.lines feed.old) (λ lines.
        TakesFirst editions.old.problem editions.old.changes lines (F.lines feed.new)
        editions.new.changes) }
    ensures noted { result ≡ Ok false
        → NotesNext editions.old.problem editions.old.changes (F.lines feed.old)
        editions.new.changes asked.old.items asked.new.items }
    ensures quiet { result ≡ Ok true → asked.new.items ≡ asked.old.items }
    ensures open { result ≡ Ok false → F.has_ended feed.new ≡ false }
    ensures end { result ≡ Ok true
        → IfSome (F.lines feed.old) (λ lines. lines ≡ [])
        × (editions.new.changes ≡ editions.old.changes) }
    ensures ended { result ≡ Ok true → F.has_ended feed.new ≡ true }
    ensures no { IfErr result
        (RefusesNext editions.old.problem editions.old.changes (F.lines feed.old) (F.lines feed.new)
        number) }
    ensures same { OnErr result (editions.new.changes ≡ editions.old.changes) }
    ensures failed { IsErrOf result FileNo.Failed ↔ (F.faults feed.old < F.faults feed.new) }
    ensures counted { F.faults feed.old ≤ F.faults feed.new }
    ensures name { F.name feed.new ≡ F.name feed.old }
{
    match feed.line(line) {
        FeedLine::Got => {
            take_line(editions, asked, line.as_slice(), number)?;
            Ok(false)
        }
        FeedLine::End => Ok(true),
        FeedLine::Long => Err(FileNo::Line(number, LineNo::Long)),
        FeedLine::Failed => Err(FileNo::Failed),
    }
}

/// Sees that no line is left.
fn see_end<F: Feed>(feed: &mut F, line: &mut LineBuf) -> Result<(), FileNo>
    requires { F.has_ended feed.old ≡ false }
    ensures ok { OnOk result (IfSome (F.lines feed.old) (λ lines. lines ≡ [])) }
    ensures ended { OnOk result (F.has_ended feed.new ≡ true) }
    ensures no { IfErr result (RefusesEnd (F.lines feed.old) (F.lines feed.new)) }
    ensures failed { IsErrOf result FileNo.Failed ↔ (F.faults feed.old < F.faults feed.new) }
    ensures counted { F.faults feed.old ≤ F.faults feed.new }
    ensures name { F.name feed.new ≡ F.name feed.old }
{
    match feed.line(line) {
        FeedLine::End => Ok(()),
        FeedLine::Failed => Err(FileNo::Failed),
        FeedLine::Got | FeedLine::Long => Err(FileNo::Line(MOST_LINES + 1, LineNo::TooMany)),
    }
}

/// Asks for the changes of a feed's lines, one after the other, and notes what each line asks for.
///
/// # Errors
///
/// `Line` with the number of the first line that asks for no change (an empty one and `show` too),
/// has more than 256 bytes, asks for a change that is refused, or is the line 1048577, and why: the
/// changes then are those of the lines before, and no line behind is read. `Failed` exactly where
/// the feed failed; then, and where memory ran out, the changes are those of the first so many
/// lines.
pub fn take_fixings<F: Feed>(
    feed: &mut F,
    editions: &mut Editions,
    asked: &mut Vec<Change>,
) -> Result<(), FileNo>
    requires new { editions.old.changes ≡ [] }
    requires nothing { asked.old.items ≡ [] }
    requires open { F.has_ended feed.old ≡ false }
    ensures problem { editions.new.problem ≡ editions.old.problem }
    ensures ok { OnOk result (IfSome (F.lines feed.old) (λ lines.
        TakesAll editions.old.problem [] lines editions.new.changes)) }
    ensures taken { OnOk result
        (TakesInTurn editions.old.problem [] asked.new.items editions.new.changes) }
    ensures asks { OnOk result
        (IfSome (F.lines feed.old) (λ lines. AskInTurn lines asked.new.items)) }
    ensures few { OnOk result (IfSome (F.lines feed.old) (λ lines. length lines ≤ MOST_LINES)) }
    ensures ended { OnOk result (F.has_ended feed.new ≡ true) }
    ensures no { IfErr result (RefusesFile editions.old.problem (F.lines feed.old)) }
    ensures left { IfErr result (λ no. IfSome (F.lines feed.old) (λ lines.
        Leaves editions.old.problem lines (F.lines feed.new) editions.new.changes no)) }

    // A fault is told exactly where it is counted.
    ensures failed { IsErrOf result FileNo.Failed ↔ (F.faults feed.old < F.faults feed.new) }
    ensures counted { F.faults feed.old ≤ F.faults feed.new }
    ensures name { F.name feed.new ≡ F.name feed.old }
{
    let mut line = LineBuf::new();
    for number in 1..=MOST_LINES {
        match take_next(feed, editions, asked, &mut line, number) {
            Ok(false) => {}
            Ok(true) => return Ok(()),
            Err(no) => return Err(no),
        }
    }
    see_end(feed, &mut line)
}
