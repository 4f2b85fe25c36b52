// How a gate holds a thread.
use std::sync::atomic::AtomicBool;
use std::sync::atomic::Ordering::SeqCst;
use std::thread::yield_now;

/// How often a held thread looks before it gives up.
const LOOKS: u64 = 200_000_000;

/// Something that has happened, and how long others waited for it.
#[derive(Drop)]
pub(crate) struct Sign {
    is_given: AtomicBool,
    was_missed: AtomicBool,
}

impl Sign {
    /// Nothing has happened.
    pub(crate) fn new() -> Sign {
        Sign {
            is_given: AtomicBool::new(false),
            was_missed: AtomicBool::new(false),
        }
    }

    /// It has happened.
    pub(crate) fn give(&self) {
        self.is_given.store(true, SeqCst);
    }

    /// Holds the caller until it has happened, or for that many looks.
    pub(crate) fn wait(&self) {
        for _ in 0..LOOKS {
            if self.is_given.load(SeqCst) {
                return;
            }
            yield_now();
        }
        self.was_missed.store(true, SeqCst);
    }

    /// It has happened, and whoever waited for it saw it.
    pub(crate) fn was_seen(&self) -> bool {
        self.is_given.load(SeqCst) && !self.was_missed.load(SeqCst)
    }
}
