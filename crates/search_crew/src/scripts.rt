//! How searchers agree on a script: the first one that comes to its end hands it over.
ghost use Rattle.search_crew.specs.Crews.{IsSameHand};

use crate::crew::{Crew, Hand};
use crossbeam_deque::{Steal, Worker};
use disp_model::Memory;
use std::alloc::Global;
use tree_dives::Script;

/// A script of the search of an edition from the root, for another searcher.
#[derive(Drop)]
pub(crate) struct Handed {
    pub edition: u32,
    pub script: Script,
}

/// Puts so many copies of a script of an edition where others find them, as far as there is room.
fn put_copies(
    alloc: Global,
    scripts: &mut Worker<Handed>,
    count: usize,
    edition: u32,
    script: &Script,
) -> Result<(), Memory> {
    for _ in 0..count {
        let script = script.copied(alloc)?;
        if scripts.push(Handed { edition, script }).is_err() {
            return Ok(());
        }
    }
    Ok(())
}

impl Crew {
    /// A script of an edition that some searcher hands over, if one does.
    pub(crate) fn script(&self, edition: u32) -> Option<Script> {
        for offer in self.offers.iter() {
            if let Steal::Success(handed) = offer.scripts.steal() {
                if handed.edition == edition {
                    return Some(handed.script);
                }
            }
        }
        None
    }
}

impl Hand {
    /// Hands a script of an edition over to so many others. Fails for memory alone.
    pub(crate) fn hand_over(
        &mut self,
        alloc: Global,
        count: usize,
        edition: u32,
        script: &Script,
    ) -> Result<(), Memory>
        ensures { IsSameHand self.old self.new }
    {
        put_copies(alloc, &mut self.scripts, count, edition, script)
    }
}
