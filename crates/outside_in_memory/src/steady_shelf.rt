// Files in memory whose readings and puttings never fail.
ghost use Rattle.std.specs.Prelude.{◌≡◌, ◌≢◌, Some, [], List, ℕ, OnOk, OnErr};

use crate::SteadyFeed;
use crate::copying::copy_within;
use disp_outside::{FeedNo, FetchNo, PutNo, Shelf};
use std::alloc::{AllocError, Global};
use std::collections::BTreeMap;

/// Files in memory, which it tells. Each name holds a file, an empty one at first, and nothing
/// fails, but for want of memory.
#[derive(Drop)]
pub struct SteadyShelf {
    alloc: Global,
    files: BTreeMap<String, Vec<u8>>,
    open_feeds: u64,
}

impl SteadyShelf {
    ghost use Rattle.outside_in_memory.specs.SteadyShelf.{held_bytes, steady_open_count};

    /// A shelf of empty files.
    pub fn new(alloc: Global) -> Self
        ensures files { (name : List ℕ) → held_bytes result name ≡ [] }
        ensures feeds { steady_open_count result ≡ 0 }
    {
        SteadyShelf {
            alloc,
            files: BTreeMap::new(alloc),
            open_feeds: 0,
        }
    }

    /// Makes these the bytes of the name's file.
    #[tactic(auto, using(std::proofs::lemmas::Map::Text::text_keys))]
    pub fn place(&mut self, name: &str, bytes: &[u8]) -> Result<(), AllocError>
        ensures placed { OnOk result (held_bytes self.new name.now ≡ bytes.now) }
        ensures others { (other : List ℕ) → other ≢ name.now → held_bytes self.new other
            ≡ held_bytes self.old other }
        ensures err { OnErr result ((other : List ℕ) → held_bytes self.new other
            ≡ held_bytes self.old other) }
        ensures feeds { steady_open_count self.new ≡ steady_open_count self.old }
    {
        let key = String::from_str(self.alloc, name)?;
        let file = bytes.to_vec(self.alloc)?;
        self.files.insert(key, file)?;
        Ok(())
    }

    /// The bytes of the name's file.
    pub fn file(&self, name: &str) -> &[u8]
        ensures { result.now ≡ held_bytes self.now name.now }
    {
        match self.files.get(name) {
            Some(file) => file,
            None => &[],
        }
    }

    /// How many of its feeds are open.
    pub fn open_feeds(&self) -> u64
        ensures { result ≡ steady_open_count self.now }
    {
        self.open_feeds
    }
}

impl Shelf for SteadyShelf {
    ghost use Rattle.outside_in_memory.specs.SteadyShelf.{held_bytes, steady_open_count};

    type Feed = SteadyFeed;

    ghost knows = { λ _ _. Unit {0} };

    ghost state = { λ shelf. record {
      holds = λ name. Some (Some (held_bytes shelf name));
      reading = λ _. 0;
      putting = λ _. 0;
    } };

    ghost open_feeds = { λ shelf. steady_open_count shelf };

    fn fetch(&mut self, alloc: Global, name: &str, limit: u64) -> Result<Vec<u8>, FetchNo> {
        copy_within(alloc, self.file(name), limit)
    }

    fn put(&mut self, _alloc: Global, name: &str, bytes: &[u8]) -> Result<(), PutNo> {
        self.place(name, bytes)?;
        Ok(())
    }

    fn feed(&mut self, alloc: Global, name: &str) -> Result<SteadyFeed, FeedNo> {
        let Some(open_feeds) = self.open_feeds.checked_add(1) else {
            return Err(FeedNo::Memory);
        };
        let feed = SteadyFeed::new(alloc, name, self.file(name))?;
        self.open_feeds = open_feeds;
        Ok(feed)
    }

    fn close(&mut self, _feed: SteadyFeed) {
        self.open_feeds = self.open_feeds.saturating_sub(1);
    }
}
