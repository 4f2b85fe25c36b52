//! A state with a history of notes.
ghost use Rattle.std.specs.Prelude.{◌≡◌, ◌<◌, ℕ, [], ◌∷◌, ◌++◌, IsNone, IfOk, MatchBool, Some};

use std::alloc::{AllocError, Global};
use turn_lock::History;

#[derive(Clone, Copy, Debug, PartialEq, Eq)]
pub struct Note {
    pub by: Option<u32>,
    pub value: u32,
}

#[derive(Drop)]
pub struct Log {
    pub number: u32,
    pub notes: Vec<Note>,
}

impl History for Log {
    type Entry = Note;

    type Terms = u32;

    ghost entries = { λ log. log.notes.items };

    ghost named = { λ note. note.by };

    ghost terms = { λ log. log.number };

    ghost kept = { λ log. log.number < 9 };

    fn count(&self) -> u64 {
        self.notes.len() as u64
    }
}

impl Log {
    /// A log with a number and room for a few notes.
    pub fn new(alloc: Global, number: u32) -> Result<Log, AllocError>
        ensures { IfOk result (λ log. (log.notes.items ≡ []) × (log.number ≡ number)) }
    {
        Ok(Log {
            number,
            notes: Vec::with_capacity(alloc, 8)?,
        })
    }

    /// Adds a note by this caller, if there is a value and memory, and says whether it did.
    pub fn note(&mut self, by: u32, value: Option<u32>) -> bool
        ensures number { self.new.number ≡ self.old.number }
        ensures none { IsNone value → self.new.notes.items ≡ self.old.notes.items }
        ensures added { MatchBool result
            ((n : ℕ) × (self.new.notes.items ≡ self.old.notes.items
            ++ record { by = Some by; value = n } ∷ []))
            (self.new.notes.items ≡ self.old.notes.items) }
    {
        let Some(value) = value else {
            return false;
        };
        self.notes
            .push(Note {
                by: Some(by),
                value,
            })
            .is_ok()
    }
}
