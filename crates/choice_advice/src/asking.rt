use crate::meetings::{Asked, Met};
use crate::seeker::Seeker;
use crate::spots::length_of;
use crate::view::View;
use disp_model::Memory;
use std::alloc::Global;

/// How many new arcs at most are looked at to see whether they can close a cycle.
const MOST_FRESH: usize = 16;

/// When the operations start from which a new arc leads, and to which.
#[derive(Clone, Copy)]
struct Fresh {
    from: u64,
    to: u64,
}

/// Tells whether an order of two that meet closes a cycle. Where none did at the turn before, only
/// the new arcs matter.
#[derive(Drop)]
pub(crate) struct Asking {
    fresh: Vec<Fresh>,
    /// Whether these are all new arcs.
    all: bool,
}

/// Whether the order of one operation before another would close a cycle.
fn closes(view: View, seeker: &mut Seeker, one: u32, other: u32) -> bool {
    let behind = view.spots.at(one).behind;
    view.leads(seeker, other, behind)
}

impl Asking {
    /// No new arcs are known.
    pub(crate) fn new(alloc: Global) -> Asking {
        Asking {
            fresh: Vec::new(alloc),
            all: false,
        }
    }

    /// Takes in the new arcs of a turn, if they are few.
    pub(crate) fn begin(&mut self, view: View) -> Result<(), Memory> {
        self.fresh.clear();
        let links = view.links.fresh();
        self.all = links.len() <= MOST_FRESH;
        if !self.all {
            return Ok(());
        }
        let paths = view.graph.paths();
        for link in links {
            self.fresh.push(Fresh {
                from: length_of(paths, link.from),
                to: length_of(paths, link.to),
            })?;
        }
        Ok(())
    }

    /// Whether a way along a new arc may lead from an operation that starts at a time to one that
    /// starts no later than another time.
    fn may_lead(&self, start: u64, until: u64) -> bool {
        for fresh in &self.fresh {
            if fresh.from >= start && fresh.to <= until {
                return true;
            }
        }
        false
    }

    /// Whether it is known that no order of two that meet closes a cycle.
    fn is_known(&self, view: View, met: &Met) -> bool {
        let meeting = &met.meeting;
        self.all
            && met.asked.arcs.saturating_add(1) >= view.links.turn()
            && met.is_as_at(view.spots, met.asked.turn)
            && !self.may_lead(meeting.one_start, meeting.other_until)
            && !self.may_lead(meeting.other_start, meeting.one_until)
    }

    /// Whether an order of two that meet closes a cycle.
    pub(crate) fn closes(&self, view: View, seeker: &mut Seeker, met: &mut Met) -> bool {
        let (one, other) = (met.meeting.one, met.meeting.other);
        if !self.is_known(view, met)
            && (closes(view, seeker, one, other) || closes(view, seeker, other, one))
        {
            met.asked = Asked::NOTHING;
            return true;
        }
        met.asked = Asked {
            turn: view.spots.turn(),
            arcs: view.links.turn(),
        };
        false
    }
}
