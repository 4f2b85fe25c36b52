// Giving a copy of a file in memory.
ghost use Rattle.std.specs.Prelude.{◌≡◌, ◌≤◌, ◌<◌, ◌↔◌, length, IfOk, OnOk, IsErrOf};

use disp_outside::FetchNo;
use std::alloc::Global;

/// The bytes of the file, where they are at most `limit`; `TooLong` where they are more.
pub fn copy_within(alloc: Global, file: &[u8], limit: u64) -> Result<Vec<u8>, FetchNo>
    ensures bytes { IfOk result (λ bytes. bytes.items ≡ file.now) }
    ensures within { OnOk result (length file.now ≤ limit) }
    ensures too_long { IsErrOf result FetchNo.TooLong ↔ (limit < length file.now) }
    ensures unbroken { ¬ IsErrOf result FetchNo.Failed }
{
    if file.len() as u64 > limit {
        return Err(FetchNo::TooLong);
    }
    Ok(file.to_vec(alloc)?)
}
