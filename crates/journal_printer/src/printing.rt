ghost use Rattle.std.specs.Prelude.{◌≡◌, ◌<◌, ◌≤◌, ◌↔◌, ℕ, List, [], ◌∷◌, OnOk, IsErrOf, option_map};
ghost use Rattle.disp_outside.specs.Sink.{WritesPart};
ghost use Rattle.fixing_lines.specs.Entries.{entry_text};
ghost use Rattle.text_puts.specs.Outside.{outside, Writes};
ghost use Rattle.text_puts.specs.Puts.{PutMisses, PutsOnly, StandsAfter};
ghost use Rattle.journal_printer.specs.Journal.{entry_puts};
ghost use Rattle.journal_printer.specs.Printing.{Prints};

use crate::no::PrintNo;
use crate::trees::entry_puts;
use disp_model::{Entry, Text};
use disp_outside::{PutNo, Shelf, Sink, WriteNo};
use fixing_lines::write_entry;
use std::alloc::Global;
use text_puts::put_all;

/// Puts what is to be put before the line of an entry.
fn put_tree<S: Shelf>(
    alloc: Global,
    shelf: &mut S,
    trees: Option<&Text>,
    entry: &Entry,
) -> Result<(), PutNo>
    ensures ok { OnOk result
        (StandsAfter (entry_puts (option_map (λ prefix. prefix.now) trees.entry) entry.now)
        (S.state shelf.old).holds (S.state shelf.new).holds) }
    ensures failed { IsErrOf result PutNo.Failed
        → PutMisses (entry_puts (option_map (λ prefix. prefix.now) trees.entry) entry.now)
        (S.state shelf.old).holds (S.state shelf.new).holds
        (S.state shelf.old).putting (S.state shelf.new).putting }
    ensures memory { IsErrOf result PutNo.Memory
        → (name : List ℕ) → (S.state shelf.new).holds name ≡ (S.state shelf.old).holds name }
    ensures risen { (name : List ℕ) → (S.state shelf.old).putting name
        < (S.state shelf.new).putting name → IsErrOf result PutNo.Failed }
    ensures others { (name : List ℕ)
        → PutsOnly (entry_puts (option_map (λ prefix. prefix.now) trees.entry) entry.now)
        (S.state shelf.old).holds (S.state shelf.new).holds
        (S.state shelf.old).putting (S.state shelf.new).putting name }
    ensures readings { (name : List ℕ) → (S.state shelf.new).reading name
        ≡ (S.state shelf.old).reading name }
    ensures known { (name : List ℕ) → S.knows shelf.old name → S.knows shelf.new name }
    ensures feeds { S.open_feeds shelf.new ≡ S.open_feeds shelf.old }
{
    let Ok(puts) = entry_puts(alloc, trees, entry) else {
        return Err(PutNo::Memory);
    };
    put_all(alloc, shelf, puts.as_slice())
}

/// Writes the line of an entry, at once, where it has one.
fn write_line<O: Sink>(alloc: Global, out: &mut O, entry: &Entry) -> Result<(), WriteNo>
    ensures ok { OnOk result
        (Writes (O.state out.old).written (O.state out.new).written (entry_text entry.now)) }
    ensures part { IsErrOf result WriteNo.Failed
        → WritesPart (O.state out.old).written (O.state out.new).written (entry_text entry.now) }
    ensures memory { IsErrOf result WriteNo.Memory → (O.state out.new).written
        ≡ (O.state out.old).written }
    ensures failed { IsErrOf result WriteNo.Failed
        ↔ ((O.state out.old).faults < (O.state out.new).faults) }
    ensures counted { (O.state out.old).faults ≤ (O.state out.new).faults }
{
    let Ok(line) = write_entry(alloc, entry) else {
        return Err(WriteNo::Memory);
    };
    if line.is_empty() {
        return Ok(());
    }
    out.write(line.as_slice())
}

/// Prints one entry.
fn print_entry<S: Shelf, O: Sink>(
    alloc: Global,
    shelf: &mut S,
    out: &mut O,
    trees: Option<&Text>,
    entry: &Entry,
) -> Result<(), PrintNo>
    ensures printed { Prints (option_map (λ prefix. prefix.now) trees.entry) (entry.now ∷ [])
        (outside (S.state shelf.old) (O.state out.old))
        (outside (S.state shelf.new) (O.state out.new)) result }
    ensures known { (name : List ℕ) → S.knows shelf.old name → S.knows shelf.new name }
    ensures feeds { S.open_feeds shelf.new ≡ S.open_feeds shelf.old }
{
    put_tree(alloc, shelf, trees, entry)?;
    write_line(alloc, out, entry)?;
    Ok(())
}

/// Prints entries of the journal, one after the other, up to the first that fails.
///
/// The line of each is one write; a growth of the tree has no line, and nothing is written for it.
/// Where `trees` is given, and before its line is written, the tree of a settled edition is put
/// under that name followed by the number of the edition in decimal.
///
/// # Errors
///
/// `Unput` where a tree could not be put: then its name may hold anything, and all before it is
/// printed. `Unwritten` where a line could not be written, or some of it alone: its tree, if there
/// is one, is put. `Memory` where memory ran out: all before that entry is printed, and nothing of
/// its line is written.
pub fn print_entries<S: Shelf, O: Sink>(
    alloc: Global,
    shelf: &mut S,
    out: &mut O,
    trees: Option<&Text>,
    entries: &[Entry],
) -> Result<(), PrintNo>
    ensures printed { Prints (option_map (λ prefix. prefix.now) trees.entry) entries.now
        (outside (S.state shelf.old) (O.state out.old))
        (outside (S.state shelf.new) (O.state out.new)) result }
    ensures known { (name : List ℕ) → S.knows shelf.old name → S.knows shelf.new name }
    ensures feeds { S.open_feeds shelf.new ≡ S.open_feeds shelf.old }
{
    for entry in entries {
        print_entry(alloc, shelf, out, trees, entry)?;
    }
    Ok(())
}
