ghost use Rattle.std.specs.Prelude.{◌≡◌, string_bytes};

use crate::copied::Copied;
use crate::memory::Memory;
use std::marker::Model;

/// A text, which contracts see as the list of its bytes in UTF-8.
#[derive(Drop)]
pub struct Text {
    text: String,
}

impl Model for Text {
    ghost use Rattle.std.specs.Prelude.{List, ℕ, string_bytes};

    ghost Value = { List ℕ };

    ghost view = { λ t. string_bytes t.text };
}

impl Text {
    /// The text of a string.
    pub fn from_string(text: String) -> Text
        ensures { result ≡ string_bytes text }
    {
        Text { text }
    }

    /// The text as a string slice.
    pub fn as_str(&self) -> &str
        ensures { result.now ≡ self.now }
    {
        self.text.as_str()
    }
}

impl Copied for Text {
    fn copy(&self) -> Result<Text, Memory> {
        let alloc = *self.text.allocator();
        let text = String::from_str(alloc, self.text.as_str())?;
        Ok(Text { text })
    }
}
