ghost use Rattle.std.specs.Prelude.{◌≡◌, ◌≤◌, ◌-◌, ℕ, List, All, IfOk, OnErr, length, option_map};
ghost use Rattle.disp_model.specs.declared.limits.TheConstants.{MOST_CALLERS};
ghost use Rattle.text_puts.specs.Outside.{outside};
ghost use Rattle.rolling_driver.specs.Opened.{AreNew};
ghost use Rattle.rolling_driver.specs.Rolled.{IsRolled, fed};

use crate::ending::end_run;
use crate::opening::{Run, open_run};
use crate::running::run_all;
use crate::status::{ended_of, status_of};
use disp_model::{Entry, Memory, Problem, Settings, Text};
use disp_outside::{Gate, Shelf, Sink};
use std::alloc::Global;
use std::sync::Wait;
use std::thread::Threads;

/// How a run ended: its journal, and the status of the program.
#[derive(Drop)]
pub struct Rolled {
    pub journal: Vec<Entry>,
    pub status: u8,
}

/// Runs feeds and searchers on a problem until all feeds have ended and the newest edition is
/// settled or stopped, and prints the journal as it comes: the line of each entry, and before that
/// of a settled edition its tree, which is put under `trees` and the edition's number. The feeds
/// are closed, whatever comes.
///
/// # Errors
///
/// `Memory` where memory runs out before the run starts; then nothing is entered, printed or put.
pub fn roll<R: Threads + Wait + Sync, S: Shelf, O: Sink, G: Gate>(
    rt: &R,
    alloc: Global,
    problem: &Problem,
    settings: Settings,
    workers: u32,
    feeds: Vec<S::Feed>,
    trees: Option<&Text>,
    shelf: &mut S,
    out: &mut O,
    gate: &G,
) -> Result<Rolled, Memory>
    requires workers { workers ≤ MOST_CALLERS }
    requires few { length feeds.items ≤ MOST_CALLERS }
    requires feeds { AreNew S.Feed.has_ended S.Feed.faults feeds.items }
    requires known { All (λ feed. S.knows shelf.old (S.Feed.name feed)) feeds.items }
    ensures rolled { IfOk result (λ rolled.
        IsRolled problem.now settings (option_map (λ prefix. prefix.now) trees.entry)
        (fed S.Feed.name S.Feed.lines feeds.items)
        (outside (S.state shelf.old) (O.state out.old))
        (outside (S.state shelf.new) (O.state out.new)) rolled.journal.items rolled.status) }
    ensures refused { OnErr result (
        outside (S.state shelf.new) (O.state out.new)
        ≡ outside (S.state shelf.old) (O.state out.old)) }
    ensures still_known { (name : List ℕ) → S.knows shelf.old name → S.knows shelf.new name }
    ensures closed { S.open_feeds shelf.new
        ≡ S.open_feeds shelf.old - length feeds.items }
{
    let Run {
        board,
        mut first,
        crew,
        mut readers,
        mut searchers,
    } = open_run(alloc, problem, settings, workers, feeds, shelf)?;
    let printed = run_all(
        rt,
        alloc,
        &board,
        &crew,
        settings.rule,
        gate,
        readers.as_mut_slice(),
        searchers.as_mut_slice(),
        &mut first,
        shelf,
        out,
        trees,
    );
    let ended = ended_of(readers.as_slice());
    let (core, printed) = end_run(
        rt, alloc, board, first, readers, searchers, printed, shelf, out, trees,
    );
    let mark = core.standing().mark;
    Ok(Rolled {
        status: status_of(mark, ended, printed),
        journal: core.into_history(),
    })
}
