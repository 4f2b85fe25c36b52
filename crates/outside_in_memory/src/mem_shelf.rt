// Files in memory, some of whose readings and puttings break.
ghost use Rattle.std.specs.Prelude.{◌≡◌, ◌≢◌, ◌≤◌, ◌<◌, ◌↔◌, ◌⊎◌, ◌+◌, ◌-◌, ◌^◌, min, false, Some, None, [], List, ℕ, length, IsOk, OnOk, OnErr, IfOk, IfSome, OnSome, IsSomeAnd, IsErrOf};
ghost use Rattle.std.specs.Option.{option_map};
ghost use Rattle.disp_outside.specs.Lines.{HasLinesOf};
ghost use Rattle.outside_in_memory.specs.MemFile.{IsReadingCounted, IsOpeningCounted};

use crate::MemFeed;
use crate::mem_file::MemFile;
use disp_outside::{FeedNo, FetchNo, PutNo, Shelf};
use fault_counts::FaultCounts;
use std::alloc::{AllocError, Global};
use std::collections::BTreeMap;

/// Files in memory, which it tells. A reading fails where there is no such file, and in the calls
/// that it is told to; a putting fails in the calls that it is told to, and then the name's file
/// stays.
#[derive(Drop)]
pub struct MemShelf {
    alloc: Global,
    files: BTreeMap<String, MemFile>,
    faults: FaultCounts,
    put_faults: FaultCounts,
    broken_puts: Vec<u64>,
    puts: u64,
    open_feeds: u64,
}

impl MemShelf {
    ghost use Rattle.outside_in_memory.specs.MemShelf.{held_file, broken_calls, broken_lines, call_count, broken_puts, put_count, reading_faults, putting_faults, KnowsName, open_count, KeepsFile, KeepsPuts};

    /// A shelf of no files.
    pub fn new(alloc: Global) -> Self
        ensures files { (name : List ℕ) → held_file result name ≡ None }
        ensures faults { (name : List ℕ) → reading_faults result name ≡ 0 }
        ensures put_faults { (name : List ℕ) → putting_faults result name ≡ 0 }
        ensures broken_puts { broken_puts result ≡ [] }
        ensures puts { put_count result ≡ 0 }
        ensures feeds { open_count result ≡ 0 }
        ensures names { (name : List ℕ) → ¬ KnowsName result name }
    {
        MemShelf {
            alloc,
            files: BTreeMap::new(alloc),
            faults: FaultCounts::new(alloc),
            put_faults: FaultCounts::new(alloc),
            broken_puts: Vec::new(alloc),
            puts: 0,
            open_feeds: 0,
        }
    }

    /// Makes this the name's file. Its readings of these numbers, counted from 1, fail.
    #[tactic(auto, using(std::proofs::lemmas::Map::Text::text_keys))]
    pub fn place(&mut self, name: &str, bytes: &[u8], broken: &[u64]) -> Result<(), AllocError>
        ensures file { OnOk result (held_file self.new name.now ≡ Some bytes.now) }
        ensures broken { OnOk result (broken_calls self.new name.now ≡ broken.now) }
        ensures lines { OnOk result (broken_lines self.new name.now ≡ []) }
        ensures calls { OnOk result (call_count self.new name.now ≡ 0) }
        ensures others { (other : List ℕ) → other ≢ name.now → KeepsFile self.old self.new other }
        ensures err { OnErr result ((other : List ℕ) → KeepsFile self.old self.new other) }
        ensures faults { (other : List ℕ) → reading_faults self.new other
            ≡ reading_faults self.old other }
        ensures put_faults { (other : List ℕ) → putting_faults self.new other
            ≡ putting_faults self.old other }
        ensures names { (other : List ℕ) → KnowsName self.new other ↔ KnowsName self.old other }
        ensures puts { KeepsPuts self.old self.new }
        ensures feeds { open_count self.new ≡ open_count self.old }
    {
        self.set_file(name, bytes, broken)
    }

    // Changes the files alone.
    #[tactic(auto, using(std::proofs::lemmas::Map::Text::text_keys))]
    fn set_file(&mut self, name: &str, bytes: &[u8], broken: &[u64]) -> Result<(), AllocError>
        ensures file { OnOk result (held_file self.new name.now ≡ Some bytes.now) }
        ensures broken { OnOk result (broken_calls self.new name.now ≡ broken.now) }
        ensures lines { OnOk result (broken_lines self.new name.now ≡ []) }
        ensures calls { OnOk result (call_count self.new name.now ≡ 0) }
        ensures others { (other : List ℕ) → other ≢ name.now → KeepsFile self.old self.new other }
        ensures err { OnErr result ((other : List ℕ) → KeepsFile self.old self.new other) }
        ensures rest { self.new ≡ record self.old { files = self.new.files } }
    {
        let key = String::from_str(self.alloc, name)?;
        let file = MemFile {
            bytes: bytes.to_vec(self.alloc)?,
            broken: broken.to_vec(self.alloc)?,
            broken_lines: Vec::new(self.alloc),
            calls: 0,
        };
        self.files.insert(key, file)?;
        Ok(())
    }

    /// Makes the puttings of these numbers fail, counted from 1 over all names.
    pub fn break_puts(&mut self, calls: &[u64]) -> Result<(), AllocError>
        ensures calls { OnOk result (broken_puts self.new ≡ calls.now) }
        ensures err { OnErr result (broken_puts self.new ≡ broken_puts self.old) }
        ensures puts { put_count self.new ≡ put_count self.old }
        ensures files { (name : List ℕ) → KeepsFile self.old self.new name }
        ensures faults { (name : List ℕ) → reading_faults self.new name
            ≡ reading_faults self.old name }
        ensures put_faults { (name : List ℕ) → putting_faults self.new name
            ≡ putting_faults self.old name }
        ensures names { (name : List ℕ) → KnowsName self.new name ↔ KnowsName self.old name }
        ensures feeds { open_count self.new ≡ open_count self.old }
    {
        self.broken_puts = calls.to_vec(self.alloc)?;
        Ok(())
    }

    /// Makes the calls of these numbers fail in each later feed of the name's file, counted from 1,
    /// if there is one.
    #[tactic(auto, using(std::proofs::lemmas::Map::Text::text_keys))]
    pub fn break_lines(&mut self, name: &str, calls: &[u64]) -> Result<(), AllocError>
        ensures lines { OnOk result
            (OnSome (held_file self.old name.now) (broken_lines self.new name.now ≡ calls.now)) }
        ensures others { (other : List ℕ) → other ≢ name.now → KeepsFile self.old self.new other }
        ensures file { held_file self.new name.now ≡ held_file self.old name.now }
        ensures broken { broken_calls self.new name.now ≡ broken_calls self.old name.now }
        ensures calls { call_count self.new name.now ≡ call_count self.old name.now }
        ensures err { OnErr result
            (broken_lines self.new name.now ≡ broken_lines self.old name.now) }
        ensures rest { self.new ≡ record self.old { files = self.new.files } }
    {
        let calls = calls.to_vec(self.alloc)?;
        if let Some(file) = self.files.get_mut(name) {
            file.broken_lines = calls;
        }
        Ok(())
    }

    /// How many of its feeds are open.
    pub fn open_feeds(&self) -> u64
        ensures { result ≡ open_count self.now }
    {
        self.open_feeds
    }

    /// How often a putting under the name has failed, and the greatest number where it is more.
    pub fn put_faults(&self, name: &str) -> u64
        ensures { result ≡ min (putting_faults self.now name.now) (2 ^ 64 - 1) }
    {
        self.put_faults.count(name)
    }

    /// The bytes of the name's file, if there is one.
    pub fn file(&self, name: &str) -> Option<&[u8]>
        ensures { option_map (λ bytes. bytes.now) result ≡ held_file self.now name.now }
    {
        self.files.get(name).map(|file| file.bytes.as_slice())
    }

    /// How often a reading of the name has failed, and the greatest number where it is more.
    pub fn faults(&self, name: &str) -> u64
        ensures { result ≡ min (reading_faults self.now name.now) (2 ^ 64 - 1) }
    {
        self.faults.count(name)
    }
}

impl Shelf for MemShelf {
    ghost use Rattle.outside_in_memory.specs.MemShelf.{held_file, broken_calls, broken_lines, call_count, broken_puts, put_count, reading_faults, putting_faults, KnowsName, open_count, NextBreaks, NextPutBreaks, KeepsFile, KeepsPuts, HasNoBreaks};
    ghost use Rattle.outside_in_memory.specs.MemFeed.{feed_name, lines_left, feed_fault_count, has_ended, broken_calls as feed_broken, call_count as feed_calls};

    type Feed = MemFeed;

    ghost knows = { λ shelf name. KnowsName shelf name };

    ghost state = { λ shelf. record {
      holds = λ name. Some (held_file shelf name);
      reading = reading_faults shelf;
      putting = putting_faults shelf;
    } };

    ghost open_feeds = { λ shelf. open_count shelf };

    #[tactic(auto, using(std::proofs::lemmas::Map::Text::text_keys))]
    fn fetch(&mut self, alloc: Global, name: &str, limit: u64) -> Result<Vec<u8>, FetchNo>
        ensures bytes { IfOk result
            (λ bytes. IfSome (Some (held_file self.old name.now))
            (λ file. file ≡ Some bytes.items)) }
        ensures within { IfOk result (λ bytes. length bytes.items ≤ limit) }
        ensures too_long { IsErrOf result FetchNo.TooLong →
            IfSome (Some (held_file self.old name.now))
            (λ file. IsSomeAnd file (λ bytes. limit < length bytes)) }
        ensures failed { IsErrOf result FetchNo.Failed
            ↔ (reading_faults self.old name.now < reading_faults self.new name.now) }
        ensures counted { reading_faults self.old name.now ≤ reading_faults self.new name.now }
        ensures other_counts { (other : List ℕ) → other ≢ name.now → reading_faults self.new other
            ≡ reading_faults self.old other }
        ensures putting_counts { (other : List ℕ) → putting_faults self.new other
            ≡ putting_faults self.old other }
        ensures held { (other : List ℕ) → Some (held_file self.new other)
            ≡ Some (held_file self.old other) }
        ensures known { IsErrOf result FetchNo.Memory ⊎ KnowsName self.new name.now }
        ensures still_known { (other : List ℕ) → KnowsName self.old other
            → KnowsName self.new other }
        ensures memory { IsErrOf result FetchNo.Memory → (other : List ℕ) → KnowsName self.new other
            → KnowsName self.old other }
        ensures feeds { open_count self.new ≡ open_count self.old }

        // It fails exactly where there is no file, and in the calls of the list.
        ensures breaks { IsErrOf result FetchNo.Failed → NextBreaks self.old name.now }
        ensures broken { NextBreaks self.old name.now → IsErrOf result FetchNo.Failed
            ⊎ IsErrOf result FetchNo.Memory }
        ensures calls { OnSome (held_file self.old name.now)
            (IsReadingCounted result (call_count self.old name.now)
            (call_count self.new name.now)) }
        ensures once { IsErrOf result FetchNo.Failed → reading_faults self.new name.now
            ≡ reading_faults self.old name.now + 1 }
        ensures list { broken_calls self.new name.now ≡ broken_calls self.old name.now }
        ensures line_lists { broken_lines self.new name.now ≡ broken_lines self.old name.now }
        ensures others { (other : List ℕ) → other ≢ name.now → KeepsFile self.old self.new other }
        ensures puts { KeepsPuts self.old self.new }
    {
        self.faults.make_room(alloc, name)?;
        let Some(file) = self.files.get_mut(name) else {
            self.faults.add(name);
            return Err(FetchNo::Failed);
        };
        match file.read(alloc, limit) {
            Ok(bytes) => {
                self.faults.know(name);
                Ok(bytes)
            }
            Err(FetchNo::Failed) => {
                self.faults.add(name);
                Err(FetchNo::Failed)
            }
            Err(FetchNo::TooLong) => {
                self.faults.know(name);
                Err(FetchNo::TooLong)
            }
            Err(FetchNo::Memory) => Err(FetchNo::Memory),
        }
    }

    #[tactic(auto, using(std::proofs::lemmas::Map::Text::text_keys))]
    fn put(&mut self, alloc: Global, name: &str, bytes: &[u8]) -> Result<(), PutNo>
        ensures bytes { IsOk result
            → IfSome (Some (held_file self.new name.now)) (λ file. file ≡ Some bytes.now) }
        ensures failed { IsErrOf result PutNo.Failed
            ↔ (putting_faults self.old name.now < putting_faults self.new name.now) }
        ensures counted { putting_faults self.old name.now ≤ putting_faults self.new name.now }
        ensures other_counts { (other : List ℕ) → other ≢ name.now → putting_faults self.new other
            ≡ putting_faults self.old other }
        ensures reading_counts { (other : List ℕ) → reading_faults self.new other
            ≡ reading_faults self.old other }
        ensures held { (other : List ℕ) → other ≢ name.now → Some (held_file self.new other)
            ≡ Some (held_file self.old other) }
        ensures known { IsErrOf result PutNo.Memory ⊎ KnowsName self.new name.now }
        ensures still_known { (other : List ℕ) → KnowsName self.old other
            → KnowsName self.new other }
        ensures memory { IsErrOf result PutNo.Memory → (other : List ℕ) → KnowsName self.new other
            → KnowsName self.old other }
        ensures memory_held { IsErrOf result PutNo.Memory → Some (held_file self.new name.now)
            ≡ Some (held_file self.old name.now) }
        ensures feeds { open_count self.new ≡ open_count self.old }

        // It fails exactly in the calls of the list, and then the file stays.
        ensures breaks { IsErrOf result PutNo.Failed → NextPutBreaks self.old }
        ensures broken { NextPutBreaks self.old → IsErrOf result PutNo.Failed
            ⊎ IsErrOf result PutNo.Memory }
        ensures stays { IsErrOf result PutNo.Failed → KeepsFile self.old self.new name.now }
        ensures memory_file { IsErrOf result PutNo.Memory → KeepsFile self.old self.new name.now }
        ensures once { IsErrOf result PutNo.Failed → putting_faults self.new name.now
            ≡ putting_faults self.old name.now + 1 }
        ensures afresh { IsOk result → HasNoBreaks self.new name.now }
        ensures calls { (IsErrOf result PutNo.Memory → put_count self.new ≡ put_count self.old)
            × (IsErrOf result PutNo.Memory ⊎ (put_count self.new ≡ put_count self.old + 1)) }
        ensures list { broken_puts self.new ≡ broken_puts self.old }
        ensures others { (other : List ℕ) → other ≢ name.now → KeepsFile self.old self.new other }
    {
        let Some(call) = self.puts.checked_add(1) else {
            return Err(PutNo::Memory);
        };
        self.faults.make_room(alloc, name)?;
        self.put_faults.make_room(alloc, name)?;
        if self.broken_puts.contains(&call) {
            self.puts = call;
            self.faults.know(name);
            self.put_faults.add(name);
            return Err(PutNo::Failed);
        }
        self.set_file(name, bytes, &[])?;
        self.puts = call;
        self.faults.know(name);
        self.put_faults.know(name);
        Ok(())
    }

    #[tactic(auto, using(std::proofs::lemmas::Map::Text::text_keys))]
    fn feed(&mut self, alloc: Global, name: &str) -> Result<MemFeed, FeedNo>
        ensures name { IfOk result (λ feed. feed_name feed ≡ name.now) }
        ensures lines { IfOk result
            (λ feed. HasLinesOf (Some (held_file self.old name.now)) (Some (lines_left feed))) }
        ensures open { IfOk result (λ feed. has_ended feed ≡ false) }
        ensures unbroken { IfOk result (λ feed. feed_fault_count feed ≡ 0) }
        ensures failed { IsErrOf result FeedNo.Failed
            ↔ (reading_faults self.old name.now < reading_faults self.new name.now) }
        ensures counted { reading_faults self.old name.now ≤ reading_faults self.new name.now }
        ensures other_counts { (other : List ℕ) → other ≢ name.now → reading_faults self.new other
            ≡ reading_faults self.old other }
        ensures putting_counts { (other : List ℕ) → putting_faults self.new other
            ≡ putting_faults self.old other }
        ensures held { (other : List ℕ) → Some (held_file self.new other)
            ≡ Some (held_file self.old other) }
        ensures known { IsErrOf result FeedNo.Memory ⊎ KnowsName self.new name.now }
        ensures still_known { (other : List ℕ) → KnowsName self.old other
            → KnowsName self.new other }
        ensures memory { IsErrOf result FeedNo.Memory → (other : List ℕ) → KnowsName self.new other
            → KnowsName self.old other }
        ensures opened { OnOk result (open_count self.new ≡ open_count self.old + 1) }
        ensures unopened { OnErr result (open_count self.new ≡ open_count self.old) }

        // It fails exactly where there is no file, and in the readings of the list.
        ensures breaks { IsErrOf result FeedNo.Failed → NextBreaks self.old name.now }
        ensures broken { NextBreaks self.old name.now → IsErrOf result FeedNo.Failed
            ⊎ IsErrOf result FeedNo.Memory }
        ensures calls { OnSome (held_file self.old name.now)
            (IsOpeningCounted result (call_count self.old name.now)
            (call_count self.new name.now)) }
        ensures list { broken_calls self.new name.now ≡ broken_calls self.old name.now }
        ensures others { (other : List ℕ) → other ≢ name.now → KeepsFile self.old self.new other }

        // The feed fails in the calls that the file's list names.
        ensures line_list { IfOk result
            (λ feed. broken_lines self.old name.now ≡ feed_broken feed) }
        ensures first_line { IfOk result (λ feed. feed_calls feed ≡ 0) }

        ensures once { IsErrOf result FeedNo.Failed → reading_faults self.new name.now
            ≡ reading_faults self.old name.now + 1 }
        ensures line_lists { broken_lines self.new name.now ≡ broken_lines self.old name.now }
        ensures puts { KeepsPuts self.old self.new }
    {
        let Some(open_feeds) = self.open_feeds.checked_add(1) else {
            return Err(FeedNo::Memory);
        };
        self.faults.make_room(alloc, name)?;
        let Some(file) = self.files.get_mut(name) else {
            self.faults.add(name);
            return Err(FeedNo::Failed);
        };
        match file.open(alloc, name) {
            Ok(feed) => {
                self.faults.know(name);
                self.open_feeds = open_feeds;
                Ok(feed)
            }
            Err(FeedNo::Failed) => {
                self.faults.add(name);
                Err(FeedNo::Failed)
            }
            Err(FeedNo::Memory) => Err(FeedNo::Memory),
        }
    }

    fn close(&mut self, feed: MemFeed)
        requires { KnowsName self.old (feed_name feed) }
        ensures failed { (0 < feed_fault_count feed)
            ↔ (reading_faults self.old (feed_name feed)
            < reading_faults self.new (feed_name feed)) }
        ensures counted { reading_faults self.old (feed_name feed)
            ≤ reading_faults self.new (feed_name feed) }
        ensures other_counts { (other : List ℕ) → other ≢ feed_name feed
            → reading_faults self.new other ≡ reading_faults self.old other }
        ensures putting_counts { (other : List ℕ) → putting_faults self.new other
            ≡ putting_faults self.old other }
        ensures held { (other : List ℕ) → Some (held_file self.new other)
            ≡ Some (held_file self.old other) }
        ensures known { (other : List ℕ) → KnowsName self.new other ↔ KnowsName self.old other }
        ensures closed { open_count self.new ≡ open_count self.old - 1 }

        ensures once { 0 < feed_fault_count feed → reading_faults self.new (feed_name feed)
            ≡ reading_faults self.old (feed_name feed) + 1 }
        ensures files { (other : List ℕ) → KeepsFile self.old self.new other }
        ensures puts { KeepsPuts self.old self.new }
    {
        self.open_feeds = self.open_feeds.saturating_sub(1);
        if let Some(ticket) = feed.into_fault() {
            self.faults.add_closed(ticket);
        }
    }
}
