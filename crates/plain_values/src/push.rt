ghost use Rattle.std.specs.Prelude.{◌≡◌, OnOk, OnErr, string_bytes};
ghost use Rattle.plain_values.specs.Texts.{Adds};

use crate::memory::Memory;

/// Adds a text at the end of another. Where memory runs out that one is as before.
pub fn push_text(text: &mut String, piece: &str) -> Result<(), Memory>
    ensures ok { OnOk result (Adds (string_bytes text.old) (string_bytes text.new) piece.now) }
    ensures err { OnErr result (string_bytes text.new ≡ string_bytes text.old) }
{
    text.push_str(piece)?;
    Ok(())
}
