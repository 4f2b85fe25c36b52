// Reading all that a reader has, up to a limit.
ghost use Rattle.std.specs.Prelude.{◌≡◌, ◌≤◌, ◌<◌, Some, true, length, take, unwrap_or, vec_len, OnOk, IfOk, IfSome, IfNone, IsErrOf};
ghost use Rattle.std.specs.Io.KnownBytes.{Consumes, IsAtEnd};
ghost use Rattle.disp_outside.specs.Reading.{LosesRead, IsPast};

use crate::FetchNo;
use crate::turns::MOST_TURNS;
use std::alloc::Global;
use std::io;
use std::io::{ErrorKind, Read};

// How many bytes one read asks for at most.
const CHUNK: usize = 1 << 16;

// An interrupted read goes on.
fn no_of(error: &io::Error) -> Result<Option<usize>, FetchNo>
    ensures read { IfOk result (λ read. read ≡ Some 0) }
    ensures err { IsErrOf result FetchNo.TooLong → ⊥ }
{
    match error.kind() {
        ErrorKind::Interrupted => Ok(Some(0)),
        ErrorKind::OutOfMemory => Err(FetchNo::Memory),
        _ => Err(FetchNo::Failed),
    }
}

// One read into a buffer that is not empty: how many bytes came, 0 where the read was interrupted,
// or `None` at the end.
fn read_some<R: Read>(reader: &mut R, buffer: &mut [u8]) -> Result<Option<usize>, FetchNo>
    requires { 0 < length buffer.old }
    ensures within { IfOk result (λ read. IfSome read (λ count. count ≤ length buffer.new)) }
    ensures read { IfOk result
        (λ read. Consumes (R.remaining reader.old) (R.remaining reader.new)
        (take (unwrap_or read 0) buffer.new)) }
    ensures end { IfOk result (λ read. IfNone read (IsAtEnd (R.remaining reader.new))) }
    ensures err { IsErrOf result FetchNo.TooLong → ⊥ }
{
    match reader.read(buffer) {
        Ok(0) => Ok(None),
        Ok(count) => Ok(Some(count)),
        Err(error) => no_of(&error),
    }
}

// Puts the bytes of one read behind those that are there, and says whether that was the end. It
// asks for one byte more than the limit leaves.
fn append_some<R: Read>(reader: &mut R, bytes: &mut Vec<u8>, limit: u64) -> Result<bool, FetchNo>
    requires { vec_len bytes.old ≤ limit }
    ensures within { OnOk result (vec_len bytes.new ≤ limit) }
    ensures adds { OnOk result
        (LosesRead (R.remaining reader.old) (R.remaining reader.new) bytes.old.items
        bytes.new.items) }
    ensures end { IfOk result (λ is_end. is_end ≡ true → IsAtEnd (R.remaining reader.new)) }
    ensures too_long { IsErrOf result FetchNo.TooLong
        → IsPast limit (vec_len bytes.old) (R.remaining reader.old) }
{
    let left = limit - bytes.len() as u64;
    let asked = if left < CHUNK as u64 {
        left as usize + 1
    } else {
        CHUNK
    };
    let mut buffer = [0; CHUNK];
    let Some(count) = read_some(reader, &mut buffer[..asked])? else {
        return Ok(true);
    };
    if count as u64 > left {
        return Err(FetchNo::TooLong);
    }
    bytes.extend_from_slice(&buffer[..count])?;
    Ok(false)
}

/// All that the reader has, where that is at most `limit` bytes; `TooLong` where it is more.
pub fn read_whole<R: Read>(alloc: Global, reader: &mut R, limit: u64) -> Result<Vec<u8>, FetchNo>
    ensures bytes { IfOk result
        (λ bytes. IfSome (R.remaining reader.old) (λ all. all ≡ bytes.items)) }
    ensures within { IfOk result (λ bytes. length bytes.items ≤ limit) }
    ensures too_long { IsErrOf result FetchNo.TooLong
        → IfSome (R.remaining reader.old) (λ all. limit < length all) }
{
    let mut bytes = Vec::new(alloc);
    for _ in 0..MOST_TURNS {
        if append_some(reader, &mut bytes, limit)? {
            return Ok(bytes);
        }
    }
    Err(FetchNo::Failed)
}
