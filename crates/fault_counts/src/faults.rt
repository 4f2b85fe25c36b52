// How often something has failed, by name.
ghost use Rattle.std.specs.Prelude.{◌≡◌, ◌≢◌, ◌+◌, ◌-◌, ◌^◌, ◌↔◌, ℕ, List, OnOk, min, string_bytes};

use crate::chain::Chain;
use crate::ticket::Ticket;
use std::alloc::{AllocError, Global};
use std::collections::BTreeMap;

/// The count of one name: what was counted in calls, and a link for each closed feed that had
/// failed.
#[derive(Drop)]
pub struct FaultCount {
    pub is_known: bool,
    pub counted: u64,
    pub closed: Chain,
}

impl FaultCount {
    ghost use Rattle.fault_counts.specs.FaultCount.{whole_count};

    // The count, and the greatest number where it is more.
    fn total(&self) -> u64
        ensures { result ≡ min (whole_count self.now) (2 ^ 64 - 1) }
    {
        self.counted.saturating_add(self.closed.len())
    }
}

/// Counts of faults by name. A name gets a place first, and is known from `know` or `add` on.
#[derive(Drop)]
pub struct FaultCounts {
    counts: BTreeMap<String, FaultCount>,
}

impl FaultCounts {
    ghost use Rattle.fault_counts.specs.Faults.{fault_count, Knows, HasRoom};

    pub fn new(alloc: Global) -> Self
        ensures names { (name : List ℕ) → ¬ Knows result name }
        ensures counts { (name : List ℕ) → fault_count result name ≡ 0 }
    {
        FaultCounts {
            counts: BTreeMap::new(alloc),
        }
    }

    /// The count, and the greatest number where it is more.
    pub fn count(&self, name: &str) -> u64
        ensures { result ≡ min (fault_count self.now name.now) (2 ^ 64 - 1) }
    {
        match self.counts.get(name) {
            Some(count) => count.total(),
            None => 0,
        }
    }

    /// Makes a place for the name's count, and sees that the count can rise. A count at its last
    /// value has no room.
    #[tactic(auto, using(std::proofs::lemmas::Map::Text::text_keys))]
    pub fn make_room(&mut self, alloc: Global, name: &str) -> Result<(), AllocError>
        ensures room { OnOk result (HasRoom self.new name.now) }
        ensures counts { (other : List ℕ) → fault_count self.new other
            ≡ fault_count self.old other }
        ensures names { (other : List ℕ) → Knows self.new other ↔ Knows self.old other }
    {
        if let Some(count) = self.counts.get(name) {
            return if count.counted < u64::MAX {
                Ok(())
            } else {
                Err(AllocError)
            };
        }
        let key = String::from_str(alloc, name)?;
        let count = FaultCount {
            is_known: false,
            counted: 0,
            closed: Chain::Empty,
        };
        self.counts.insert(key, count)?;
        Ok(())
    }

    /// Makes the name known.
    #[tactic(auto, using(std::proofs::lemmas::Map::Text::text_keys))]
    pub fn know(&mut self, name: &str)
        requires { HasRoom self.old name.now }
        ensures known { Knows self.new name.now }
        ensures names { (other : List ℕ) → Knows self.old other → Knows self.new other }
        ensures counts { (other : List ℕ) → fault_count self.new other
            ≡ fault_count self.old other }
    {
        if let Some(count) = self.counts.get_mut(name) {
            count.is_known = true;
        }
    }

    /// Counts one more fault of the name, and makes it known.
    #[tactic(auto, using(std::proofs::lemmas::Map::Text::text_keys))]
    pub fn add(&mut self, name: &str)
        requires { HasRoom self.old name.now }
        ensures known { Knows self.new name.now }
        ensures names { (other : List ℕ) → Knows self.old other → Knows self.new other }
        ensures counted { fault_count self.new name.now ≡ fault_count self.old name.now + 1 }
        ensures other_counts { (other : List ℕ) → other ≢ name.now → fault_count self.new other
            ≡ fault_count self.old other }
    {
        if let Some(count) = self.counts.get_mut(name) {
            count.counted += 1;
            count.is_known = true;
        }
    }

    /// Counts the fault of a closed feed, in the room that the feed has brought.
    #[tactic(auto, using(std::proofs::lemmas::Map::Text::text_keys))]
    pub fn add_closed(&mut self, ticket: Ticket)
        requires { Knows self.old (string_bytes ticket.name) }
        ensures names { (other : List ℕ) → Knows self.old other ↔ Knows self.new other }
        ensures counted { fault_count self.new (string_bytes ticket.name)
            ≡ fault_count self.old (string_bytes ticket.name) + 1 }
        ensures other_counts { (other : List ℕ) → other ≢ string_bytes ticket.name
            → fault_count self.new other ≡ fault_count self.old other }
    {
        let Ticket { name, link } = ticket;
        if let Some(count) = self.counts.get_mut(name.as_str()) {
            count.closed.add(link);
        }
    }
}
