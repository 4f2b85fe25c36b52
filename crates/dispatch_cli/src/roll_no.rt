ghost use Rattle.std.specs.Prelude.{◌≡◌, ◌≢◌, List, ℕ, IfOk, string_bytes};
ghost use Rattle.dispatch_cli.specs.declared.roll_no.RollNo.TheVariants.{TooManyFeeds, FeedFailed};
ghost use Rattle.dispatch_cli.specs.Stops.{StopsWith, Tells, roll_line_of};

use answered_tasks::{Cause, give_up, stop};
use disp_model::Memory;
use disp_outside::{Sink, WriteNo};
use std::alloc::{AllocError, Global};

/// What stops a `roll` before it has begun.
#[derive(Drop)]
pub enum RollNo {
    /// So many feeds are given, which is more than 64.
    TooManyFeeds(u64),
    /// There is no problem, for this cause.
    Problem(Cause),
    /// The feed of this number, counted from 0, could not be opened.
    FeedFailed(u64),
    /// Memory ran out.
    Memory,
}

impl From<AllocError> for RollNo {
    ghost use Rattle.std.specs.Prelude.{◌≡◌};
    ghost use Rattle.dispatch_cli.specs.declared.roll_no.RollNo.TheVariants.{Memory as OutOfMemory};

    ghost from_gives = { λ _ no. no ≡ OutOfMemory };

    fn from(_refused: AllocError) -> RollNo {
        RollNo::Memory
    }
}

/// The line for too many feeds.
fn many_line(alloc: Global, count: u64) -> Result<String, Memory>
    ensures { IfOk result (λ text. string_bytes text ≡ roll_line_of (TooManyFeeds count)) }
{
    Ok(format!(in alloc; "TooMany feeds {count}\n")?)
}

/// The line for a feed that could not be opened.
fn failed_line(alloc: Global, number: u64) -> Result<String, Memory>
    ensures { IfOk result (λ text. string_bytes text ≡ roll_line_of (FeedFailed number)) }
{
    Ok(format!(in alloc; "feed {number}: Failed\n")?)
}

/// Writes a line, if there was room for it, and gives the status.
fn tell<O: Sink>(out: &mut O, line: Result<String, Memory>, status: u8) -> u8
    requires { status ≢ 5 }
    ensures { (text : List ℕ) → IfOk line (λ line. string_bytes line ≡ text)
        → Tells (O.state out.old).faults (O.state out.new).faults (O.state out.old).written
        (O.state out.new).written
        text text status result }
{
    let Ok(line) = line else {
        return give_up(out);
    };
    match out.write(line.as_bytes()) {
        Err(WriteNo::Memory) => give_up(out),
        Ok(()) | Err(WriteNo::Failed) => status,
    }
}

/// Tells what stopped a `roll`, and gives the status.
pub(crate) fn stop_roll<O: Sink>(alloc: Global, out: &mut O, no: &RollNo) -> u8
    ensures { StopsWith (O.state out.old).faults (O.state out.new).faults (O.state out.old).written
        (O.state out.new).written no.now result }
{
    match no {
        RollNo::TooManyFeeds(count) => tell(out, many_line(alloc, *count), 2),
        RollNo::Problem(cause) => stop(alloc, out, cause),
        RollNo::FeedFailed(number) => tell(out, failed_line(alloc, *number), 4),
        RollNo::Memory => give_up(out),
    }
}
