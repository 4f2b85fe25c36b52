// Writing a whole piece to a writer that may take a part at a time.
ghost use Rattle.std.specs.Prelude.{◌≡◌, ◌≤◌, ℕ, length, take, [], IsOk, OnOk, OnErr, IfOk, IsErrOf};
ghost use Rattle.std.specs.Io.KnownBytes.{Appends, Keeps};
ghost use Rattle.disp_outside.specs.Sink.{PutsOut};

use crate::WriteNo;
use crate::turns::MOST_TURNS;
use std::io;
use std::io::{ErrorKind, Write};

// One write of a piece that is not empty: how many bytes were taken, or 0 where the write was
// interrupted.
fn write_some<W: Write>(writer: &mut W, piece: &[u8]) -> Result<usize, WriteNo>
    ensures within { IfOk result (λ count. count ≤ length piece.now) }
    ensures taken { IfOk result
        (λ count. Appends (W.contents writer.old) (W.contents writer.new) (take count piece.now)) }
    ensures none { OnErr result (Keeps (W.contents writer.old) (W.contents writer.new)) }
{
    match writer.write(piece) {
        Ok(0) => Err(WriteNo::Failed),
        Ok(count) => Ok(count),
        Err(error) => no_of(&error),
    }
}

// An interrupted write goes on.
fn no_of(error: &io::Error) -> Result<usize, WriteNo>
    ensures { IfOk result (λ count. count ≡ 0) }
{
    match error.kind() {
        ErrorKind::Interrupted => Ok(0),
        ErrorKind::OutOfMemory => Err(WriteNo::Memory),
        _ => Err(WriteNo::Failed),
    }
}

/// Writes all of the piece. `Memory` only where nothing of it went out.
pub fn write_whole<W: Write>(writer: &mut W, piece: &[u8]) -> Result<(), WriteNo>
    ensures ok { OnOk result (Appends (W.contents writer.old) (W.contents writer.new) piece.now) }
    ensures part { OnErr result
        (PutsOut (W.contents writer.old) (W.contents writer.new) piece.now) }
    ensures memory { IsErrOf result WriteNo.Memory
        → Keeps (W.contents writer.old) (W.contents writer.new) }
    ensures empty { piece.now ≡ [] → IsOk result }
{
    let mut rest = piece;
    for _ in 0..MOST_TURNS {
        if rest.is_empty() {
            return Ok(());
        }
        match write_some(writer, rest) {
            Ok(count) => rest = &rest[count..],
            Err(WriteNo::Memory) if rest.len() == piece.len() => return Err(WriteNo::Memory),
            Err(_) => return Err(WriteNo::Failed),
        }
    }
    Err(WriteNo::Failed)
}
