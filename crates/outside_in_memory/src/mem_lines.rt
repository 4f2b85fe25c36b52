// The lines of bytes in memory.
ghost use Rattle.std.specs.Prelude.{◌≡◌, ◌≢◌, ◌≤◌, ◌<◌, ◌+◌, ◌⊎◌, [], ◌∷◌, Some, IfSome, IfNone, length, drop, vec_len};
ghost use Rattle.std.specs.Io.BufRead.{take_through};
ghost use Rattle.disp_outside.specs.Lines.{feed_lines, text_of, without_end, GivesLine, Skips};

use disp_outside::{FeedLine, LineBuf, MOST_LINE_BYTES, line_feed_at};

// The first line, with its LF.
fn first_line(bytes: &[u8]) -> &[u8]
    ensures { result.now ≡ take_through 10 bytes.now }
{
    match line_feed_at(bytes) {
        Some(at) => &bytes[..at + 1],
        None => bytes,
    }
}

// The first line of the bytes from there on, with its LF, if there is one.
fn line_from(bytes: &[u8], at: usize) -> Option<&[u8]>
    requires { at ≤ length bytes.now }
    ensures none { IfNone result (feed_lines (drop at bytes.now) ≡ []) }
    ensures line { IfSome result
        (λ line. feed_lines (drop at bytes.now)
        ≡ line.now ∷ feed_lines (drop (at + length line.now) bytes.now)) }
    ensures within { IfSome result (λ line. at + length line.now ≤ length bytes.now) }
    ensures some { IfSome result (λ line. 0 < length line.now) }
{
    let rest = &bytes[at..];
    if rest.is_empty() {
        return None;
    }
    Some(first_line(rest))
}

// The line without its LF.
fn without_line_feed(line: &[u8]) -> &[u8]
    ensures { result.now ≡ without_end line.now }
{
    match line {
        [front @ .., b'\n'] => front,
        _ => line,
    }
}

// What the line says.
fn text_in(line: &[u8]) -> &[u8]
    ensures { result.now ≡ text_of line.now }
{
    match line {
        [front @ .., b'\r', b'\n'] => front,
        [front @ .., b'\n'] => front,
        _ => line,
    }
}

/// Bytes that are given line by line.
#[derive(Drop)]
pub struct MemLines {
    bytes: Vec<u8>,
    at: usize,
    ghost within: { at ≤ vec_len bytes },
}

impl MemLines {
    ghost use Rattle.outside_in_memory.specs.MemLines.{lines_left};

    pub fn new(bytes: Vec<u8>) -> Self
        ensures { lines_left result ≡ feed_lines bytes.items }
    {
        MemLines { bytes, at: 0 }
    }

    /// The next line. It never fails.
    pub fn next(&mut self, into: &mut LineBuf) -> FeedLine
        ensures got { result ≡ FeedLine.Got
            → GivesLine (Some (lines_left self.old)) (Some (lines_left self.new)) into.new }
        ensures long { result ≡ FeedLine.Long
            → Skips (Some (lines_left self.old)) (Some (lines_left self.new)) }
        ensures end { result ≡ FeedLine.End → (lines_left self.old ≡ [])
            × (lines_left self.new ≡ []) }
        ensures steady { result ≢ FeedLine.Failed }
        ensures at { self.old.at ≤ self.new.at }
        ensures on { (result ≡ FeedLine.End) ⊎ (self.old.at < self.new.at) }
        ensures held { self.new.bytes ≡ self.old.bytes }
    {
        let Some(line) = line_from(&self.bytes, self.at) else {
            return FeedLine::End;
        };
        self.at += line.len();
        if without_line_feed(line).len() > MOST_LINE_BYTES {
            return FeedLine::Long;
        }
        into.set(text_in(line));
        FeedLine::Got
    }
}
