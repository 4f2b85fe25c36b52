ghost use Rattle.std.specs.Prelude.{◌≡◌, ◌<◌, ℕ, List, OnOk, IsErrOf};
ghost use Rattle.text_puts.specs.Puts.{PutMisses, PutsOnly, PutsSome, StandsAfter};

use crate::put::Put;
use disp_outside::{PutNo, Shelf};
use std::alloc::Global;

/// Puts one text after the other, up to the first that is not put.
///
/// # Errors
///
/// `Failed` where a text could not be put, and then its name may hold anything; `Memory`, with
/// which its name holds what it held before.
pub fn put_all<S: Shelf>(alloc: Global, shelf: &mut S, puts: &[Put]) -> Result<(), PutNo>
    ensures ok { OnOk result (StandsAfter puts.now (S.state shelf.old).holds
        (S.state shelf.new).holds) }
    ensures failed { IsErrOf result PutNo.Failed
        → PutMisses puts.now (S.state shelf.old).holds (S.state shelf.new).holds
        (S.state shelf.old).putting (S.state shelf.new).putting }
    ensures memory { IsErrOf result PutNo.Memory
        → PutsSome puts.now (S.state shelf.old).holds (S.state shelf.new).holds }
    ensures risen { (name : List ℕ) → (S.state shelf.old).putting name
        < (S.state shelf.new).putting name → IsErrOf result PutNo.Failed }
    ensures others { (name : List ℕ)
        → PutsOnly puts.now (S.state shelf.old).holds (S.state shelf.new).holds
        (S.state shelf.old).putting (S.state shelf.new).putting name }
    ensures readings { (name : List ℕ) → (S.state shelf.new).reading name
        ≡ (S.state shelf.old).reading name }
    ensures known { (name : List ℕ) → S.knows shelf.old name → S.knows shelf.new name }
    ensures feeds { S.open_feeds shelf.new ≡ S.open_feeds shelf.old }
{
    for due in puts {
        shelf.put(alloc, due.name.as_str(), due.bytes.as_slice())?;
    }
    Ok(())
}
