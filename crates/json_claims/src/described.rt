ghost use Rattle.std.specs.Prelude.{◌≡◌, ◌++◌, ℕ, List, OnOk, OnErr, string_bytes};
ghost use Rattle.plain_values.specs.Texts.{Adds};

use plain_values::Memory;

/// A place of a text or a refusal of it, for which a text is printed.
pub trait Described {
    ghost description: { Self → List ℕ };

    /// Adds the text that is printed. Where memory runs out a part of it may stand there.
    fn describe(&self, text: &mut String) -> Result<(), Memory>
        ensures { OnOk result
            (Adds (string_bytes text.old) (string_bytes text.new) (description self.now)) };
}

/// Adds a word, and behind it what is printed for a value.
pub fn describe_behind<D: Described>(text: &mut String, word: &str, value: &D) -> Result<(), Memory>
    ensures { OnOk result (Adds (string_bytes text.old) (string_bytes text.new)
        (word.now ++ D.description value.now)) }
{
    text.push_str(word)?;
    value.describe(text)?;
    Ok(())
}

/// Adds all that is printed for a value. Where memory runs out the text is as before.
pub fn describe_whole<D: Described>(text: &mut String, value: &D) -> Result<(), Memory>
    ensures ok { OnOk result
        (string_bytes text.new ≡ string_bytes text.old ++ D.description value.now) }
    ensures err { OnErr result (string_bytes text.new ≡ string_bytes text.old) }
{
    let mut whole = String::new(*text.allocator());
    value.describe(&mut whole)?;
    text.push_str(whole.as_str())?;
    Ok(())
}
