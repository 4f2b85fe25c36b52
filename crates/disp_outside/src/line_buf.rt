// One line of a feed.
ghost use Rattle.std.specs.Prelude.{◌≡◌, ◌≤◌, ◌+◌, ◌==◌, ◌↔◌, ◌++◌, IsTrue, true, false, [], List, ℕ, length, take, position};
ghost use Rattle.std.specs.Io.BufRead.{strip_last};

use std::marker::Model;

/// How many bytes a line has at most, before its LF.
pub const MOST_LINE_BYTES: usize = 256;

/// Where the first LF is.
pub fn line_feed_at(bytes: &[u8]) -> Option<usize>
    ensures { result ≡ position (λ byte. byte == 10) bytes.now }
{
    bytes.iter().position(|byte| *byte == b'\n')
}

/// Room for the bytes of one line.
#[derive(Drop)]
pub struct LineBuf {
    bytes: [u8; MOST_LINE_BYTES],
    count: usize,
}

impl Model for LineBuf {
    ghost Value = { List ℕ };

    ghost view = { λ line. take line.count line.bytes };

    ghost invariant = { λ line. line.count ≤ 256 };
}

impl LineBuf {
    /// An empty line.
    pub fn new() -> Self
        ensures { result ≡ [] }
    {
        LineBuf {
            bytes: [0; MOST_LINE_BYTES],
            count: 0,
        }
    }

    /// The bytes of the line.
    pub fn as_slice(&self) -> &[u8]
        ensures bytes { result.now ≡ self.now }
        ensures room { length result.now ≤ 256 }
    {
        &self.bytes[..self.count]
    }

    /// Makes these the bytes of the line.
    pub fn set(&mut self, bytes: &[u8])
        requires { length bytes.now ≤ 256 }
        ensures { self.new ≡ bytes.now }
    {
        self.bytes[..bytes.len()].copy_from_slice(bytes);
        self.count = bytes.len();
    }

    pub(crate) fn clear(&mut self)
        ensures { self.new ≡ [] }
    {
        self.count = 0;
    }

    // Puts the bytes behind those that are there, where there is room for all, and says whether
    // there was.
    pub(crate) fn append(&mut self, bytes: &[u8]) -> bool
        ensures fits { IsTrue result ↔ (length self.old + length bytes.now ≤ 256) }
        ensures added { result ≡ true → self.new ≡ self.old ++ bytes.now }
        ensures kept { result ≡ false → self.new ≡ self.old }
    {
        if bytes.len() > MOST_LINE_BYTES - self.count {
            return false;
        }
        let end = self.count + bytes.len();
        self.bytes[self.count..end].copy_from_slice(bytes);
        self.count = end;
        true
    }

    // Drops a CR at the end.
    pub(crate) fn drop_carriage_return(&mut self)
        ensures { self.new ≡ strip_last 13 self.old }
    {
        if let [.., b'\r'] = self.as_slice() {
            self.count -= 1;
        }
    }
}
