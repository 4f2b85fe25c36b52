// A file in memory, some of whose readings break.
ghost use Rattle.std.specs.Prelude.{◌≡◌, ◌≤◌, ◌<◌, ◌+◌, ◌⊎◌, false, length, IfOk, OnOk, IsErrOf, Contains};
ghost use Rattle.disp_outside.specs.Lines.{feed_lines};
ghost use Rattle.outside_in_memory.specs.MemFeed.{feed_name, lines_left, feed_fault_count, has_ended, broken_calls, call_count};
ghost use Rattle.outside_in_memory.specs.MemFile.{IsReadingCounted, IsOpeningCounted};

use crate::MemFeed;
use crate::copying::copy_within;
use disp_outside::{FeedNo, FetchNo};
use std::alloc::Global;

/// A file in memory.
#[derive(Drop)]
pub struct MemFile {
    pub bytes: Vec<u8>,
    /// The numbers of the readings that break, counted from 1.
    pub broken: Vec<u64>,
    /// The numbers of the calls that break in each of its feeds, counted from 1.
    pub broken_lines: Vec<u64>,
    /// How many readings there were, but for those without room.
    pub calls: u64,
}

impl MemFile {
    pub fn read(&mut self, alloc: Global, limit: u64) -> Result<Vec<u8>, FetchNo>
        ensures bytes { IfOk result (λ bytes. bytes.items ≡ self.old.bytes.items) }
        ensures within { OnOk result (length self.old.bytes.items ≤ limit) }
        ensures too_long { IsErrOf result FetchNo.TooLong → limit < length self.old.bytes.items }

        // It breaks exactly in the readings of the list.
        ensures failed { IsErrOf result FetchNo.Failed
            → Contains self.old.broken.items (self.old.calls + 1) }
        ensures broken { Contains self.old.broken.items (self.old.calls + 1)
            → IsErrOf result FetchNo.Failed ⊎ IsErrOf result FetchNo.Memory }

        ensures counted { IsReadingCounted result self.old.calls self.new.calls }
        ensures held { self.new.bytes ≡ self.old.bytes }
        ensures list { self.new.broken ≡ self.old.broken }
        ensures lines { self.new.broken_lines ≡ self.old.broken_lines }
    {
        let Some(call) = self.calls.checked_add(1) else {
            return Err(FetchNo::Memory);
        };
        if self.broken.contains(&call) {
            self.calls = call;
            return Err(FetchNo::Failed);
        }
        match copy_within(alloc, &self.bytes, limit) {
            Ok(bytes) => {
                self.calls = call;
                Ok(bytes)
            }
            Err(FetchNo::Memory) => Err(FetchNo::Memory),
            Err(no) => {
                self.calls = call;
                Err(no)
            }
        }
    }

    /// A feed of this name. It is a reading.
    pub fn open(&mut self, alloc: Global, name: &str) -> Result<MemFeed, FeedNo>
        ensures name { IfOk result (λ feed. feed_name feed ≡ name.now) }
        ensures left { IfOk result (λ feed. lines_left feed ≡ feed_lines self.old.bytes.items) }
        ensures faults { IfOk result (λ feed. feed_fault_count feed ≡ 0) }
        ensures going { IfOk result (λ feed. has_ended feed ≡ false) }
        ensures calls { IfOk result (λ feed. broken_calls feed ≡ self.old.broken_lines.items) }
        ensures first { IfOk result (λ feed. call_count feed ≡ 0) }

        // It breaks exactly in the readings of the list.
        ensures failed { IsErrOf result FeedNo.Failed
            → Contains self.old.broken.items (self.old.calls + 1) }
        ensures broken { Contains self.old.broken.items (self.old.calls + 1)
            → IsErrOf result FeedNo.Failed ⊎ IsErrOf result FeedNo.Memory }

        ensures counted { IsOpeningCounted result self.old.calls self.new.calls }
        ensures held { self.new.bytes ≡ self.old.bytes }
        ensures list { self.new.broken ≡ self.old.broken }
        ensures lines { self.new.broken_lines ≡ self.old.broken_lines }
    {
        let Some(call) = self.calls.checked_add(1) else {
            return Err(FeedNo::Memory);
        };
        if self.broken.contains(&call) {
            self.calls = call;
            return Err(FeedNo::Failed);
        }
        let feed = MemFeed::new(alloc, name, &self.bytes, &self.broken_lines)?;
        self.calls = call;
        Ok(feed)
    }
}
