// The files of the system, by their paths.
ghost use Rattle.std.specs.Prelude.{◌≡◌, ◌≤◌, ◌-◌, ◌^◌, min, false, None, List, ℕ, length, IfOk};
ghost use Rattle.disp_outside.specs.FileFeed.{feed_name, fault_count as feed_faults, has_ended};

use crate::reading::read_whole;
use crate::writing::write_whole;
use crate::{FeedNo, FetchNo, FileFeed, PutNo, Shelf};
use fault_counts::{FaultCounts, Ticket};
use std::alloc::Global;
use std::fs;
use std::io::ErrorKind;
use std::rt::Files;

/// The files of the system: a name is a path. It tells nothing of what a file holds.
#[derive(Drop)]
pub struct FileShelf<R> {
    files: R,
    faults: FaultCounts,
    put_faults: FaultCounts,
    open_feeds: u64,
}

impl<R: Files> FileShelf<R> {
    ghost use Rattle.disp_outside.specs.FileShelf.{fault_count_of, put_fault_count_of, KnowsName, open_count};

    /// A shelf that knows no name yet.
    pub fn new(alloc: Global, files: R) -> Self
        ensures names { (name : List ℕ) → KnowsName result name → ⊥ }
        ensures faults { (name : List ℕ) → fault_count_of result name ≡ 0 }
        ensures put_faults { (name : List ℕ) → put_fault_count_of result name ≡ 0 }
        ensures feeds { open_count result ≡ 0 }
    {
        FileShelf {
            files,
            faults: FaultCounts::new(alloc),
            put_faults: FaultCounts::new(alloc),
            open_feeds: 0,
        }
    }

    /// How often a reading of the name has failed, and the greatest number where it is more.
    pub fn faults(&self, name: &str) -> u64
        ensures { result ≡ min (fault_count_of self.now name.now) (2 ^ 64 - 1) }
    {
        self.faults.count(name)
    }

    /// How often a putting under the name has failed, and the greatest number where it is more.
    pub fn put_faults(&self, name: &str) -> u64
        ensures { result ≡ min (put_fault_count_of self.now name.now) (2 ^ 64 - 1) }
    {
        self.put_faults.count(name)
    }

    /// How many of its feeds are open.
    pub fn open_feeds(&self) -> u64
        ensures { result ≡ open_count self.now }
    {
        self.open_feeds
    }
}

// The bytes of the file of this path.
fn read_file<R: Files>(alloc: Global, files: &R, path: &str, limit: u64) -> Result<Vec<u8>, FetchNo>
    ensures { IfOk result (λ bytes. length bytes.items ≤ limit) }
{
    match fs::open(files, path) {
        Ok(mut file) => read_whole(alloc, &mut file, limit),
        Err(error) if error.kind() == ErrorKind::OutOfMemory => Err(FetchNo::Memory),
        Err(_) => Err(FetchNo::Failed),
    }
}

// Makes these the bytes of the file of this path. Once the file is opened it has lost what it held,
// so whatever comes then is a fault.
fn write_file<R: Files>(files: &R, path: &str, bytes: &[u8]) -> Result<(), PutNo> {
    match fs::create(files, path) {
        Ok(mut file) => match write_whole(&mut file, bytes) {
            Ok(()) => Ok(()),
            Err(_) => Err(PutNo::Failed),
        },
        Err(error) if error.kind() == ErrorKind::OutOfMemory => Err(PutNo::Memory),
        Err(_) => Err(PutNo::Failed),
    }
}

// A feed of the file of this path.
fn open_feed<R: Files>(alloc: Global, files: &R, path: &str) -> Result<FileFeed<R::File>, FeedNo>
    ensures name { IfOk result (λ feed. feed_name feed ≡ path.now) }
    ensures unbroken { IfOk result (λ feed. feed_faults feed ≡ 0) }
    ensures open { IfOk result (λ feed. has_ended feed ≡ false) }
{
    let ticket = Ticket::new(alloc, path)?;
    match fs::open(files, path) {
        Ok(file) => Ok(FileFeed::new(ticket, file)),
        Err(error) if error.kind() == ErrorKind::OutOfMemory => Err(FeedNo::Memory),
        Err(_) => Err(FeedNo::Failed),
    }
}

impl<R: Files + Send> Shelf for FileShelf<R>
where
    R::File: Send,
{
    ghost use Rattle.disp_outside.specs.FileShelf.{fault_count_of, put_fault_count_of, KnowsName, open_count};

    type Feed = FileFeed<R::File>;

    ghost knows = { λ shelf name. KnowsName shelf name };

    ghost state = { λ shelf. record {
      holds = λ _. None;
      reading = fault_count_of shelf;
      putting = put_fault_count_of shelf;
    } };

    ghost open_feeds = { λ shelf. open_count shelf };

    // Room for a fault is made first, so that each fault is counted.
    fn fetch(&mut self, alloc: Global, name: &str, limit: u64) -> Result<Vec<u8>, FetchNo> {
        self.faults.make_room(alloc, name)?;
        match read_file(alloc, &self.files, name, limit) {
            Ok(bytes) => {
                self.faults.know(name);
                Ok(bytes)
            }
            Err(FetchNo::Failed) => {
                self.faults.add(name);
                Err(FetchNo::Failed)
            }
            Err(FetchNo::TooLong) => {
                self.faults.know(name);
                Err(FetchNo::TooLong)
            }
            Err(FetchNo::Memory) => Err(FetchNo::Memory),
        }
    }

    fn put(&mut self, alloc: Global, name: &str, bytes: &[u8]) -> Result<(), PutNo> {
        self.faults.make_room(alloc, name)?;
        self.put_faults.make_room(alloc, name)?;
        match write_file(&self.files, name, bytes) {
            Ok(()) => {
                self.faults.know(name);
                self.put_faults.know(name);
                Ok(())
            }
            Err(PutNo::Failed) => {
                self.faults.know(name);
                self.put_faults.add(name);
                Err(PutNo::Failed)
            }
            Err(PutNo::Memory) => Err(PutNo::Memory),
        }
    }

    fn feed(&mut self, alloc: Global, name: &str) -> Result<FileFeed<R::File>, FeedNo> {
        let Some(open_feeds) = self.open_feeds.checked_add(1) else {
            return Err(FeedNo::Memory);
        };
        self.faults.make_room(alloc, name)?;
        match open_feed(alloc, &self.files, name) {
            Ok(feed) => {
                self.faults.know(name);
                self.open_feeds = open_feeds;
                Ok(feed)
            }
            Err(FeedNo::Failed) => {
                self.faults.add(name);
                Err(FeedNo::Failed)
            }
            Err(FeedNo::Memory) => Err(FeedNo::Memory),
        }
    }

    fn close(&mut self, feed: FileFeed<R::File>) {
        self.open_feeds = self.open_feeds.saturating_sub(1);
        if let Some(ticket) = feed.into_fault() {
            self.faults.add_closed(ticket);
        }
    }
}
