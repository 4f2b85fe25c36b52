//! What those who have nothing to do sleep on.
use std::sync::Wait;
use std::sync::atomic::AtomicU64;
use std::sync::atomic::Ordering::SeqCst;
use std::time::Duration;

// The longest rest, in milliseconds: what adds no entry is found by then.
const LONGEST: u64 = 2;

/// Counts the entries that are added, and wakes those who rest.
#[derive(Drop)]
pub(crate) struct Bell {
    moves: AtomicU64,
    // How many rest, or are about to.
    resters: AtomicU64,
}

impl Bell {
    pub(crate) fn new() -> Bell {
        Bell {
            moves: AtomicU64::new(0),
            resters: AtomicU64::new(0),
        }
    }

    pub(crate) fn moves(&self) -> u64 {
        self.moves.load(SeqCst)
    }

    // Wakes all who rest, where an entry was added. Whoever comes later finds another count.
    pub(crate) fn ring(&self, grew: bool) {
        if grew {
            self.moves.fetch_add(1, SeqCst);
            if self.resters.load(SeqCst) > 0 {
                self.moves.wake_all();
            }
        }
    }

    // Sleeps for a while, as long as the count is this one.
    pub(crate) fn rest<W: Wait>(&self, rt: &W, moves: u64) {
        self.resters.fetch_add(1, SeqCst);
        let low = (moves & 0xffff_ffff) as u32;
        self.moves
            .park_timeout(rt, low, Duration::from_millis(LONGEST));
        self.resters.fetch_sub(1, SeqCst);
    }
}
