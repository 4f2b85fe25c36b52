use crate::asking::Asking;
use crate::clash::{Clash, dead_weight, first_of, own_weight};
use crate::meetings::{Meeting, Meetings, Met, Pushed};
use crate::pusher::Pusher;
use crate::seeker::Seeker;
use crate::spots::NEVER;
use crate::view::View;
use disp_model::Memory;
use std::alloc::Global;

/// For how many clashes at most it is asked at a node whether an order of theirs closes a cycle.
const MOST_ASKED: u32 = 64;

/// Of how many clashes at most a quick look asks what their orders push.
const FEW: usize = 8;

/// So many turns, at most, it is taken for what it was then what the orders of two that meet push,
const MOST_TURNS: u64 = 16;

/// where the clash that comes first weighs more than so many times as much.
const FAR: u64 = 2;

/// By what one clash comes before another.
#[derive(Clone, Copy, PartialEq, Eq)]
pub(crate) enum By {
    Toll,
    Time,
}

/// Of how many clashes it is asked at a node what their orders push. The more, the smaller is the
/// tree of a search, and the longer is a look.
#[derive(Clone, Copy, Debug, PartialEq, Eq)]
pub enum Care {
    /// Of all.
    Thorough,
    /// Of a few that come first by their own trains.
    Quick,
}

/// Two that meet, by the resource and their place among those that meet there, and how much their
/// orders weigh by their own trains.
#[derive(Clone, Copy)]
struct Candidate {
    resource: u32,
    place: usize,
    weight: u64,
}

/// The place of a candidate that weighs least of some; 0 where there are none.
fn lightest(candidates: &[Candidate]) -> usize {
    let mut found = 0;
    let mut least = u64::MAX;
    for (place, candidate) in candidates.iter().enumerate() {
        if candidate.weight < least {
            least = candidate.weight;
            found = place;
        }
    }
    found
}

/// Whether arcs ask for the order of one operation before another.
fn is_asked(view: View, seeker: &mut Seeker, one: u32, other: u32) -> bool {
    let behind = view.spots.at(one).behind;
    view.leads(seeker, behind, other)
}

/// Looks for the clash that comes first: room for one look after another.
#[derive(Drop)]
pub(crate) struct Clashes {
    care: Care,
    /// The one that comes first of those of which all is known.
    first: Option<Clash>,
    /// The others that weigh most by their own trains, where few are kept, and the place of one of
    /// these that weighs least.
    few: Vec<Candidate>,
    lightest: usize,
    pusher: Pusher,
    by: By,
    /// Whether those count that only touch.
    touching: bool,
    /// Whether one order of the first one closes a cycle, so that the other one is left.
    closes: bool,
    asked: u32,
    asking: Asking,
}

impl Clashes {
    /// A look over so many operations.
    pub(crate) fn new(alloc: Global, count: usize, care: Care) -> Result<Clashes, Memory> {
        Ok(Clashes {
            care,
            first: None,
            few: Vec::with_capacity(alloc, FEW)?,
            lightest: 0,
            pusher: Pusher::new(alloc, count)?,
            by: By::Toll,
            touching: false,
            closes: false,
            asked: 0,
            asking: Asking::new(alloc),
        })
    }

    /// Begins a look.
    fn begin(&mut self, view: View, by: By, touching: bool) -> Result<(), Memory> {
        self.first = None;
        self.few.clear();
        self.by = by;
        self.touching = touching;
        self.closes = false;
        self.asked = 0;
        self.asking.begin(view)
    }

    /// What the orders of two that meet do with all that they push, by what is known of it or by a
    /// look.
    fn pushed(&mut self, view: View, met: &mut Met) -> Pushed {
        match met.pushed_within(view.ages, view.room) {
            Some(pushed) => pushed,
            None => {
                met.pushed = self.pusher.pushed(view, &met.meeting);
                met.pushed
            }
        }
    }

    /// Whether the clash of two that meet was far behind the one that comes first, when it was last
    /// looked at what their orders push, a few turns ago.
    fn was_far(&self, view: View, met: &Met, failures: u64) -> bool {
        let (Some(first), Some(pushed)) = (&self.first, met.pushed_lately(view.ages, MOST_TURNS))
        else {
            return false;
        };
        let clash = Clash::of(met.meeting, pushed.within(view.room), failures);
        clash.is_behind(first, FAR)
    }

    /// Looks at the clash of two that meet, by tolls with all that they push, unless it was far
    /// behind the one that comes first a few turns ago.
    fn take_pushed(&mut self, view: View, met: &mut Met) {
        let failures = view.failures.of_resource(met.meeting.resource);
        if self.was_far(view, met, failures) {
            return;
        }
        let pushed = self.pushed(view, met);
        let clash = Clash::of(met.meeting, pushed, failures);
        self.first = first_of(self.first, clash);
    }

    /// Looks at the clash of two that meet, by time.
    fn take_timed(&mut self, view: View, met: &mut Met) {
        let clash = Clash {
            weight: dead_weight(view, met),
            delay: 0,
            meeting: met.meeting,
            tolls: None,
        };
        self.first = first_of(self.first, clash);
    }

    /// Keeps two that meet, if they are among the few that weigh most by their own trains.
    fn keep(&mut self, view: View, met: &mut Met, place: usize) -> Result<(), Memory> {
        let known = match self.few.get(self.lightest) {
            Some(lightest) if self.few.len() >= FEW => lightest.weight.saturating_add(1),
            _ => 0,
        };
        let Some(weight) = own_weight(view, met, known) else {
            return Ok(());
        };
        let candidate = Candidate {
            resource: met.meeting.resource,
            place,
            weight,
        };
        if self.few.len() < FEW {
            self.few.push(candidate)?;
        } else if let Some(lightest) = self.few.get_mut(self.lightest) {
            *lightest = candidate;
        }
        self.lightest = lightest(&self.few);
        Ok(())
    }

    /// Whether it is asked of two that meet if one order of theirs closes a cycle.
    fn asks(&mut self) -> bool {
        if self.asked >= MOST_ASKED {
            return false;
        }
        self.asked = self.asked.saturating_add(1);
        true
    }

    /// Has the clash of two that meet come first, since one order of theirs closes a cycle.
    fn put_first(&mut self, meeting: Meeting) {
        self.closes = true;
        self.few.clear();
        self.first = Some(Clash {
            weight: NEVER,
            delay: 0,
            meeting,
            tolls: None,
        });
    }

    /// Looks at two that meet, which stand at a place among those that meet on a resource.
    fn take(
        &mut self,
        view: View,
        seeker: &mut Seeker,
        met: &mut Met,
        place: usize,
    ) -> Result<(), Memory> {
        if self.asks() && self.asking.closes(view, seeker, met) {
            self.put_first(met.meeting);
            return Ok(());
        }
        match (self.by, self.care) {
            (By::Time, _) => self.take_timed(view, met),
            (By::Toll, Care::Thorough) => self.take_pushed(view, met),
            (By::Toll, Care::Quick) => self.keep(view, met, place)?,
        }
        Ok(())
    }

    /// Whether two that meet count.
    fn counts(&self, view: View, seeker: &mut Seeker, meeting: &Meeting) -> bool {
        if !meeting.touches {
            return true;
        }
        let (one, other) = (meeting.one, meeting.other);
        self.touching && !is_asked(view, seeker, one, other) && !is_asked(view, seeker, other, one)
    }

    /// Looks at all that meet on a resource.
    fn look_at(&mut self, view: View, seeker: &mut Seeker, all: &mut [Met]) -> Result<(), Memory> {
        for (place, met) in all.iter_mut().enumerate() {
            if self.closes {
                return Ok(());
            }
            if self.counts(view, seeker, &met.meeting) {
                self.take(view, seeker, met, place)?;
            }
        }
        Ok(())
    }

    /// Looks at the few that are kept by all that they push.
    fn look_at_few(&mut self, view: View, meetings: &mut Meetings) {
        for _ in 0..self.few.len() {
            let Some(candidate) = self.few.pop() else {
                return;
            };
            if let Some(met) = meetings.met_mut(candidate.resource, candidate.place) {
                self.take_pushed(view, met);
            }
        }
    }

    /// The clash that comes first.
    pub(crate) fn find(
        &mut self,
        view: View,
        seeker: &mut Seeker,
        meetings: &mut Meetings,
        by: By,
        touching: bool,
    ) -> Result<Option<Clash>, Memory> {
        self.begin(view, by, touching)?;
        for all in meetings.each_mut().iter_mut() {
            self.look_at(view, seeker, all.as_mut_slice())?;
        }
        self.look_at_few(view, meetings);
        Ok(self.first)
    }
}
