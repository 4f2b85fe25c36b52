use disp_model::{Decision, Memory};
use std::alloc::Global;

/// How many arcs there were at a depth.
#[derive(Clone, Copy)]
struct Stop {
    depth: usize,
    arcs: usize,
}

/// The decisions down to the node that was looked at last, and how many arcs there were on the way.
#[derive(Drop)]
pub(crate) struct Course {
    decisions: Vec<Decision>,
    stops: Vec<Stop>,
    /// So many of its decisions the graph has surely kept.
    sure: usize,
}

/// Whether two decisions are the same. Most are orders, which are told apart first.
fn are_same(one: &Decision, other: &Decision) -> bool {
    match (one, other) {
        (Decision::First { a, b }, Decision::First { a: c, b: d }) => a == c && b == d,
        _ => one == other,
    }
}

/// How many decisions two lists have in common at their front.
fn common(one: &[Decision], other: &[Decision]) -> usize {
    let mut count = 0usize;
    for (one, other) in one.iter().zip(other) {
        if !are_same(one, other) {
            return count;
        }
        count = count.saturating_add(1);
    }
    count
}

impl Course {
    /// No decisions.
    pub(crate) fn new(alloc: Global) -> Course {
        Course {
            decisions: Vec::new(alloc),
            stops: Vec::new(alloc),
            sure: 0,
        }
    }

    /// Notes that the graph may have been moved to any node that shares so many decisions.
    pub(crate) fn lose_behind(&mut self, depth: usize) {
        self.sure = self.sure.min(depth);
    }

    /// How many of its decisions a node has too.
    pub(crate) fn shared_with(&self, decisions: &[Decision]) -> usize {
        let sure = self.sure.min(decisions.len());
        let more = decisions.get(sure..).unwrap_or(&[]);
        common(self.behind(sure), more).saturating_add(sure)
    }

    /// The decisions behind so many.
    pub(crate) fn behind(&self, depth: usize) -> &[Decision] {
        match self.decisions.get(depth..) {
            Some(behind) => behind,
            None => &[],
        }
    }

    /// Goes back to a depth, and says how many arcs are known to be there.
    pub(crate) fn go_back(&mut self, depth: usize) -> usize {
        self.decisions.truncate(depth);
        for _ in 0..self.stops.len() {
            match self.stops.last() {
                Some(stop) if stop.depth > depth => {}
                Some(stop) => return stop.arcs,
                None => return 0,
            }
            self.stops.pop();
        }
        0
    }

    /// Goes down by these decisions, to where there are so many arcs.
    pub(crate) fn go_down(&mut self, decisions: &[Decision], arcs: usize) -> Result<(), Memory> {
        self.decisions.extend_from_slice(decisions)?;
        self.stops.push(Stop {
            depth: self.decisions.len(),
            arcs,
        })?;
        self.sure = self.decisions.len();
        Ok(())
    }
}
