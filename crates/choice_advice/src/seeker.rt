use crate::links::Links;
use crate::spots::length_of;
use disp_model::Memory;
use incremental_paths::Paths;
use std::alloc::Global;

/// Looks for ways along arcs: room for one look after another.
#[derive(Drop)]
pub(crate) struct Seeker {
    stamps: Vec<u64>,
    stamp: u64,
    waiting: Vec<u32>,
}

/// Whether an operation stands before another in the order of the arcs, and starts no later.
fn may_lead(paths: &Paths, from: u32, to: u32) -> bool {
    if from as usize >= paths.size() || to as usize >= paths.size() {
        return false;
    }
    paths.order().place(from) < paths.order().place(to)
        && length_of(paths, from) <= length_of(paths, to)
}

impl Seeker {
    /// A look over so many operations.
    pub(crate) fn new(alloc: Global, count: usize) -> Result<Seeker, Memory> {
        let mut stamps = Vec::with_capacity(alloc, count)?;
        for _ in 0..count {
            stamps.push(0)?;
        }
        Ok(Seeker {
            stamps,
            stamp: 0,
            waiting: Vec::new(alloc),
        })
    }

    /// Has an operation wait that was not seen in this look.
    fn put(&mut self, number: u32) {
        let Some(stamp) = self.stamps.get_mut(number as usize) else {
            return;
        };
        if *stamp == self.stamp {
            return;
        }
        *stamp = self.stamp;
        if self.waiting.push(number).is_err() {
            self.waiting.clear();
        }
    }

    /// Goes on from an operation along its arcs. Says whether one leads to the end of the way.
    fn go_on(&mut self, links: &Links, paths: &Paths, number: u32, end: u32) -> bool {
        for link in links.behind(number).iter().rev() {
            if link.to == end {
                return true;
            }
            if may_lead(paths, link.to, end) {
                self.put(link.to);
            }
        }
        false
    }

    /// Whether arcs lead from one operation to another.
    pub(crate) fn leads(&mut self, links: &Links, paths: &Paths, from: u32, to: u32) -> bool {
        if !may_lead(paths, from, to) {
            return false;
        }
        self.stamp = self.stamp.saturating_add(1);
        self.waiting.clear();
        self.put(from);
        for _ in 0..self.stamps.len() {
            let Some(number) = self.waiting.pop() else {
                return false;
            };
            if self.go_on(links, paths, number, to) {
                return true;
            }
        }
        false
    }
}
