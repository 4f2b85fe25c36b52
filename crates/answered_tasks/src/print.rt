ghost use Rattle.std.specs.Prelude.{◌≡◌, ◌≤◌, ◌<◌, ◌↔◌, List, OnOk, OnErr, IsErrOf};
ghost use Rattle.std.specs.List.{concat};
ghost use Rattle.disp_outside.specs.Sink.{WritesPart};
ghost use Rattle.answered_tasks.specs.declared.cause.Cause.TheVariants.{Memory as OutOfMemory};
ghost use Rattle.text_puts.specs.Outside.{Writes};
ghost use Rattle.answered_tasks.specs.Causes.{line_of, IsAnswerStatus};
ghost use Rattle.answered_tasks.specs.Endings.{Finishes, Halts};

use crate::cause::Cause;
use disp_model::List;
use disp_outside::{Sink, WriteNo};
use std::alloc::Global;

/// Writes the lines, each at once, up to the first that is not written whole.
pub(crate) fn print<O: Sink>(out: &mut O, lines: &[List<u8>]) -> Result<(), WriteNo>
    ensures ok { OnOk result (Writes (O.state out.old).written (O.state out.new).written
        (concat lines.now)) }
    ensures err { OnErr result
        (WritesPart (O.state out.old).written (O.state out.new).written (concat lines.now)) }
    ensures failed { IsErrOf result WriteNo.Failed
        ↔ ((O.state out.old).faults < (O.state out.new).faults) }
    ensures counted { (O.state out.old).faults ≤ (O.state out.new).faults }
{
    for line in lines {
        out.write(line.as_slice())?;
    }
    Ok(())
}

/// Tells that memory ran out, and gives the status for it.
pub fn give_up<O: Sink>(out: &mut O) -> u8
    ensures status { result ≡ 5 }
    ensures part { WritesPart (O.state out.old).written (O.state out.new).written
        (line_of OutOfMemory) }
    ensures counted { (O.state out.old).faults ≤ (O.state out.new).faults }
{
    let _ = out.write(b"memory\n");
    5
}

/// Writes the lines of an answer, and gives the status: that of the answer where all went out.
pub(crate) fn finish<O: Sink>(out: &mut O, lines: &[List<u8>], status: u8) -> u8
    requires { IsAnswerStatus status }
    ensures { Finishes (O.state out.old).faults (O.state out.new).faults (O.state out.old).written
        (O.state out.new).written
        (concat lines.now) status result }
{
    match print(out, lines) {
        Ok(()) => status,
        Err(WriteNo::Failed) => 4,
        Err(WriteNo::Memory) => give_up(out),
    }
}

/// Tells what stopped the run, and gives the status.
pub fn stop<O: Sink>(alloc: Global, out: &mut O, cause: &Cause) -> u8
    ensures { Halts (O.state out.old).faults (O.state out.new).faults (O.state out.old).written
        (O.state out.new).written
        cause.now result }
{
    let Ok(line) = cause.line(alloc) else {
        return give_up(out);
    };
    match out.write(line.as_bytes()) {
        Err(WriteNo::Memory) => give_up(out),
        Ok(()) | Err(WriteNo::Failed) => cause.status(),
    }
}
