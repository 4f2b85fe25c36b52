use crate::ages::Ages;
use crate::holders::{Holder, Moved, Span};
use crate::spots::{NEVER, Spots};
use disp_model::Memory;
use std::alloc::Global;

/// How many meetings on a resource are kept at most.
const MOST_KEPT: usize = 512;

/// Two forced operations, of two trains, that hold a resource at a time, or of which one ends when
/// the other starts.
#[derive(Clone, Copy)]
pub(crate) struct Meeting {
    pub resource: u32,
    /// The operation that starts first, when it starts, and until when it keeps others out.
    pub one: u32,
    pub one_start: u64,
    pub one_until: u64,
    /// The other operation.
    pub other: u32,
    pub other_start: u64,
    pub other_until: u64,
    /// Whether they only touch.
    pub touches: bool,
}

/// How much the orders of two that meet weigh, as long as their trains are not looked at again.
#[derive(Clone, Copy)]
pub(crate) struct Weighed {
    pub weight: u64,
    /// Whether they weigh just that; no more otherwise.
    pub exact: bool,
    /// The turn at which that was found.
    pub turn: u64,
}

impl Weighed {
    /// Of a turn before any train was looked at.
    const NOTHING: Weighed = Weighed {
        weight: NEVER,
        exact: false,
        turn: 0,
    };
}

/// When it was found that no order of two that meet closes a cycle: the turn of the trains, and
/// that of the arcs.
#[derive(Clone, Copy)]
pub(crate) struct Asked {
    pub turn: u64,
    pub arcs: u64,
}

impl Asked {
    /// Before any train was looked at.
    pub(crate) const NOTHING: Asked = Asked { turn: 0, arcs: 0 };
}

/// What one order of two that meet does with all that it pushes.
#[derive(Clone, Copy)]
pub(crate) struct Push {
    /// What it costs more: never where that is as much as the room.
    pub toll: u64,
    /// By how much later the operations start that it pushes, in sum, as far as it was looked.
    pub delay: u64,
}

impl Push {
    /// Nothing is pushed.
    pub(crate) const NOTHING: Push = Push { toll: 0, delay: 0 };

    /// It leaves no plan that is wanted.
    const CLOSED: Push = Push {
        toll: NEVER,
        delay: 0,
    };

    /// The same where it leaves no plan that is wanted.
    pub(crate) fn closed(&self) -> Push {
        Push {
            toll: NEVER,
            ..*self
        }
    }

    /// The same in a room.
    fn within(&self, room: u64) -> Push {
        if self.toll < room {
            *self
        } else {
            self.closed()
        }
    }

    /// Pushes one more operation, which costs so much more and starts so much later.
    pub(crate) fn add(&mut self, rise: u64, delay: u64) {
        self.toll = self.toll.saturating_add(rise);
        self.delay = self.delay.saturating_add(delay);
    }
}

/// What the two orders of two that meet do with all that they push, as long as the trains that
/// this depends on are as they were.
#[derive(Clone, Copy)]
pub(crate) struct Pushed {
    /// Where the one goes first, and where the other does.
    pub there: Push,
    pub back: Push,
    pub room: u64,
    /// The sets of these trains.
    pub sets: u64,
    /// The turn at which that was found.
    pub turn: u64,
}

impl Pushed {
    /// Nothing was found, in no room.
    const NOTHING: Pushed = Pushed {
        there: Push::CLOSED,
        back: Push::CLOSED,
        room: 0,
        sets: 0,
        turn: 0,
    };

    /// Whether that is known in a room.
    fn is_known(&self, ages: &Ages, room: u64) -> bool {
        (room <= self.room || self.there.toll.max(self.back.toll) < NEVER)
            && ages.are_as_at(self.sets, self.turn)
    }

    /// The same in a room.
    pub(crate) fn within(&self, room: u64) -> Pushed {
        Pushed {
            there: self.there.within(room),
            back: self.back.within(room),
            ..*self
        }
    }
}

/// Two that meet, their trains, and what is known of how much their orders weigh, of what these
/// push, and of whether one of them closes a cycle.
#[derive(Clone, Copy)]
pub(crate) struct Met {
    pub meeting: Meeting,
    pub one_train: u32,
    pub other_train: u32,
    pub weighed: Weighed,
    pub pushed: Pushed,
    pub asked: Asked,
}

impl Met {
    /// Whether neither train was looked at again since a turn.
    pub(crate) fn is_as_at(&self, spots: &Spots, turn: u64) -> bool {
        spots.is_as_at(self.one_train, turn) && spots.is_as_at(self.other_train, turn)
    }

    /// What its orders did with all that they pushed when it was looked at last, no more than so
    /// many turns ago.
    pub(crate) fn pushed_lately(&self, ages: &Ages, turns: u64) -> Option<&Pushed> {
        if self.pushed.turn > 0 && ages.turn() <= self.pushed.turn.saturating_add(turns) {
            Some(&self.pushed)
        } else {
            None
        }
    }

    /// What its orders do with all that they push in a room, where that is known.
    pub(crate) fn pushed_within(&self, ages: &Ages, room: u64) -> Option<Pushed> {
        if self.pushed.is_known(ages, room) {
            Some(self.pushed.within(room))
        } else {
            None
        }
    }
}

/// How the operations that list a resource meet, for each resource.
#[derive(Drop)]
pub(crate) struct Meetings {
    each: Vec<Vec<Met>>,
    /// Those set aside that stay behind others that are looked at again.
    behind: Vec<Met>,
}

impl Meeting {
    /// The number of the lower train's operation.
    pub(crate) fn first(&self) -> u32 {
        self.one.min(self.other)
    }

    /// The number of the other one.
    pub(crate) fn second(&self) -> u32 {
        self.one.max(self.other)
    }

    /// Two holders of which the second starts no earlier, where they meet.
    fn of(one: &Holder, other: &Holder) -> Option<Meeting> {
        let overlaps = one.start < other.until() && other.start < one.until();
        if !overlaps && other.start != one.end {
            return None;
        }
        Some(Meeting {
            resource: one.resource,
            one: one.number,
            one_start: one.start,
            one_until: one.until(),
            other: other.number,
            other_start: other.start,
            other_until: other.until(),
            touches: !overlaps,
        })
    }
}

/// Keeps how a holder meets later ones.
fn meet(met: &mut Vec<Met>, one: &Holder, later: &[Holder]) -> Result<(), Memory> {
    if !one.forced {
        return Ok(());
    }
    for other in later {
        if one.until() < other.start || met.len() >= MOST_KEPT {
            return Ok(());
        }
        if !other.forced || other.train == one.train {
            continue;
        }
        if let Some(meeting) = Meeting::of(one, other) {
            met.push(Met {
                meeting,
                one_train: one.train,
                other_train: other.train,
                weighed: Weighed::NOTHING,
                pushed: Pushed::NOTHING,
                asked: Asked::NOTHING,
            })?;
        }
    }
    Ok(())
}

/// Keeps how the first holders, up to those that start later than a time, meet later ones.
fn meet_until(met: &mut Vec<Met>, holders: &[Holder], until: u64) -> Result<(), Memory> {
    let mut later = holders;
    for _ in holders {
        let Some((one, behind)) = later.split_first() else {
            return Ok(());
        };
        if one.start > until || one.start == NEVER {
            return Ok(());
        }
        meet(met, one, behind)?;
        later = behind;
    }
    Ok(())
}

/// From when on it matters that forced holders have moved in a time: the start of the first holder
/// that keeps others out then, or that time.
fn first_start(holders: &[Holder], span: &Span) -> u64 {
    for holder in holders {
        if holder.start >= span.from {
            return span.from;
        }
        if holder.forced && holder.until() >= span.from {
            return holder.start;
        }
    }
    span.from
}

/// The holders that start no earlier than a time.
fn holders_from(holders: &[Holder], start: u64) -> &[Holder] {
    let place = holders.partition_point(|holder| holder.start < start);
    holders.get(place..).unwrap_or(&[])
}

/// Those met of which the first one starts later than a time.
fn met_behind(met: &[Met], time: u64) -> &[Met] {
    let place = met.partition_point(|met| met.meeting.one_start <= time);
    met.get(place..).unwrap_or(&[])
}

impl Meetings {
    /// No meetings yet on so many resources.
    pub(crate) fn new(alloc: Global, resources: usize) -> Result<Meetings, Memory> {
        let mut each = Vec::with_capacity(alloc, resources)?;
        for _ in 0..resources {
            each.push(Vec::new(alloc))?;
        }
        Ok(Meetings {
            each,
            behind: Vec::new(alloc),
        })
    }

    /// Looks again at how the holders of a resource meet, where a forced one has moved.
    pub(crate) fn look_again(&mut self, moved: &Moved) -> Result<(), Memory> {
        if !moved.forced.is_some() {
            return Ok(());
        }
        let Some(met) = self.each.get_mut(moved.resource as usize) else {
            return Ok(());
        };
        if met.len() >= MOST_KEPT {
            met.clear();
            return meet_until(met, moved.holders, NEVER);
        }
        let start = first_start(moved.holders, &moved.forced);
        self.behind.clear();
        self.behind
            .extend_from_slice(met_behind(met, moved.forced.until))?;
        let before = met.partition_point(|met| met.meeting.one_start < start);
        met.truncate(before);
        let holders = holders_from(moved.holders, start);
        meet_until(met, holders, moved.forced.until)?;
        met.extend_from_slice(&self.behind)?;
        met.truncate(MOST_KEPT);
        Ok(())
    }

    /// Two that hold a resource at a time, where there are some.
    pub(crate) fn any_overlap(&self) -> Option<Meeting> {
        for all in &self.each {
            for met in all {
                if !met.meeting.touches {
                    return Some(met.meeting);
                }
            }
        }
        None
    }

    /// Two that meet on a resource, by their place among those that do.
    pub(crate) fn met_mut(&mut self, resource: u32, place: usize) -> Option<&mut Met> {
        self.each.get_mut(resource as usize)?.get_mut(place)
    }

    /// How those meet that list each resource.
    pub(crate) fn each_mut(&mut self) -> &mut [Vec<Met>] {
        self.each.as_mut_slice()
    }
}
