use crate::ages::Ages;
use crate::facts::Facts;
use crate::links::Links;
use crate::spots::{NEVER, length_of};
use disp_model::{Decision, Memory};
use incremental_paths::{Arc, Paths};
use std::alloc::Global;
use std::mem;

/// The trains that are to be looked at again: those with an operation that starts at another time
/// than at the node that was looked at last, or whose routes may be others.
#[derive(Drop)]
pub(crate) struct Changes {
    /// When each operation started.
    lengths: Vec<u64>,
    /// The operations that may start at another time.
    waiting: Vec<u32>,
    stale: Vec<bool>,
    trains: Vec<u32>,
    /// Whether the routes of each train may be others than when it was looked at last.
    decided: Vec<bool>,
    ages: Ages,
}

/// The train whose routes a decision is about.
fn train_of(decision: Decision) -> Option<u32> {
    match decision {
        Decision::Go { op, .. } => Some(op.train),
        Decision::Run(op) => Some(op.train),
        Decision::Skip(op) => Some(op.train),
        Decision::First { .. } => None,
    }
}

impl Changes {
    /// So many operations of so many trains, all of which are to be looked at.
    pub(crate) fn new(alloc: Global, count: usize, trains: usize) -> Result<Changes, Memory> {
        let mut lengths = Vec::with_capacity(alloc, count)?;
        for _ in 0..count {
            lengths.push(NEVER)?;
        }
        let mut changes = Changes {
            lengths,
            waiting: Vec::new(alloc),
            stale: Vec::with_capacity(alloc, trains)?,
            trains: Vec::with_capacity(alloc, trains)?,
            decided: Vec::with_capacity(alloc, trains)?,
            ages: Ages::new(alloc)?,
        };
        for train in 0..trains {
            changes.stale.push(true)?;
            changes.decided.push(true)?;
            changes
                .trains
                .push(u32::try_from(train).unwrap_or(u32::MAX))?;
        }
        Ok(changes)
    }

    /// Begins a turn.
    pub(crate) fn begin_turn(&mut self) {
        self.ages.begin_turn();
    }

    /// When trains were last found otherwise.
    pub(crate) fn ages(&self) -> &Ages {
        &self.ages
    }

    /// Notes that a train is to be looked at.
    fn note(&mut self, train: u32) -> Result<(), Memory> {
        self.ages.note(train);
        let Some(stale) = self.stale.get_mut(train as usize) else {
            return Ok(());
        };
        if !*stale {
            *stale = true;
            self.trains.push(train)?;
        }
        Ok(())
    }

    /// Notes the trains whose routes these decisions are about.
    pub(crate) fn note_decided(&mut self, decisions: &[Decision]) -> Result<(), Memory> {
        for decision in decisions {
            if let Some(train) = train_of(*decision) {
                self.note(train)?;
                if let Some(decided) = self.decided.get_mut(train as usize) {
                    *decided = true;
                }
            }
        }
        Ok(())
    }

    /// Whether the routes of a train may be others than when this was asked last.
    pub(crate) fn take_decided(&mut self, train: u32) -> bool {
        match self.decided.get_mut(train as usize) {
            Some(decided) => mem::replace(decided, false),
            None => true,
        }
    }

    /// Takes arcs away until so many are left, and notes where they led to.
    pub(crate) fn unlink(
        &mut self,
        facts: &Facts,
        links: &mut Links,
        left: usize,
    ) -> Result<(), Memory> {
        for _ in left..links.len() {
            if let Some(ends) = links.pop() {
                self.ages.note(facts.op(ends.from).train);
                self.waiting.push(ends.to)?;
            }
        }
        Ok(())
    }

    /// Keeps the arcs behind those that are kept, and notes where they lead to.
    pub(crate) fn link(
        &mut self,
        facts: &Facts,
        links: &mut Links,
        arcs: &[Arc],
    ) -> Result<(), Memory> {
        for place in links.len()..arcs.len() {
            if let Some(arc) = arcs.get(place) {
                links.push(*arc)?;
                self.ages.note(facts.op(arc.from).train);
                self.waiting.push(arc.to)?;
            }
        }
        Ok(())
    }

    /// Keeps when an operation starts. Says whether that is another time than before.
    fn keep(&mut self, number: u32, length: u64) -> bool {
        match self.lengths.get_mut(number as usize) {
            Some(known) if *known != length => {
                *known = length;
                true
            }
            _ => false,
        }
    }

    /// Has the operations wait to which arcs lead from one.
    fn wait_behind(&mut self, links: &Links, number: u32) -> Result<(), Memory> {
        for link in links.behind(number).iter().rev() {
            self.waiting.push(link.to)?;
        }
        Ok(())
    }

    /// Notes the trains of the operations that start at another time, from those that wait on along
    /// the arcs.
    pub(crate) fn spread(
        &mut self,
        facts: &Facts,
        links: &Links,
        paths: &Paths,
    ) -> Result<(), Memory> {
        for _ in 0..u64::MAX {
            let Some(number) = self.waiting.pop() else {
                return Ok(());
            };
            if self.keep(number, length_of(paths, number)) {
                self.note(facts.op(number).train)?;
                self.wait_behind(links, number)?;
            }
        }
        Ok(())
    }

    /// A train that is to be looked at; it is not any more then.
    pub(crate) fn next_train(&mut self) -> Option<u32> {
        let train = self.trains.pop()?;
        if let Some(stale) = self.stale.get_mut(train as usize) {
            *stale = false;
        }
        Some(train)
    }
}
