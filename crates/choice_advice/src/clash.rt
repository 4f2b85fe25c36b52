use crate::meetings::{Meeting, Met, Pushed, Weighed};
use crate::spots::NEVER;
use crate::tolls::{most_toll, toll};
use crate::view::View;

/// So often the cheaper order of a clash counts, where the dearer one counts once.
const CHEAPER: u64 = 4;

/// What the dearer order of a clash counts at most.
const MOST_DEARER: u64 = 1 << 50;

/// A weight counts so often, and once more for each order on its resource that failed.
const EVEN: u64 = 256;

/// By how much an order counts as delaying what it pushes at most.
const MOST_DELAY: u64 = 1 << 24;

/// What the two orders of a clash cost with all that they push, never where one leaves no plan that
/// is wanted. Each is named by the operation that goes first.
#[derive(Clone, Copy)]
pub(crate) struct Tolls {
    /// That of the order that costs less; of the lower number where both cost the same.
    pub cheaper: u32,
    pub least: u64,
    pub dearer: u32,
    pub most: u64,
}

/// Two forced operations that meet, and how much their order decides.
#[derive(Clone, Copy)]
pub(crate) struct Clash {
    /// What its orders cost, as `weight` adds it up, the more the more orders on its resource
    /// failed; never where one of them closes a cycle.
    pub weight: u64,
    /// By how much they delay what they push, likewise.
    pub delay: u64,
    pub meeting: Meeting,
    /// What its orders cost with all that they push, where that is known.
    pub tolls: Option<Tolls>,
}

/// What two orders weigh that cost so much.
pub(crate) fn weight(one: u64, other: u64) -> u64 {
    let dearer = one.max(other).min(MOST_DEARER);
    one.min(other)
        .saturating_mul(CHEAPER)
        .saturating_add(dearer)
}

/// The same where so many orders on the resource failed. An order that leaves no plan still counts
/// for more than all else.
fn by_failures(weight: u64, failures: u64) -> u64 {
    if weight >= MOST_DEARER {
        return weight;
    }
    weight
        .saturating_mul(EVEN.saturating_add(failures))
        .min(MOST_DEARER - 1)
}

/// How much two orders delay that delay what they push by so much: little where one of them does.
fn both_delays(there: u64, back: u64) -> u64 {
    there.min(MOST_DELAY).saturating_mul(back.min(MOST_DELAY))
}

impl Tolls {
    /// By what it costs to have the one of two that meet go first, and the other.
    fn of(meeting: &Meeting, one: u64, other: u64) -> Tolls {
        if one < other || (one == other && meeting.first() == meeting.one) {
            Tolls {
                cheaper: meeting.one,
                least: one,
                dearer: meeting.other,
                most: other,
            }
        } else {
            Tolls {
                cheaper: meeting.other,
                least: other,
                dearer: meeting.one,
                most: one,
            }
        }
    }

    /// How many of the two orders leave no plan that is wanted.
    fn closed(&self) -> u64 {
        if self.least == NEVER {
            2
        } else if self.most == NEVER {
            1
        } else {
            0
        }
    }
}

impl Clash {
    /// Two that meet, by what their orders push, where so many orders on their resource failed.
    pub(crate) fn of(meeting: Meeting, pushed: Pushed, failures: u64) -> Clash {
        let (there, back) = (pushed.there, pushed.back);
        let tolls = Tolls::of(&meeting, there.toll, back.toll);
        let delay = both_delays(there.delay, back.delay);
        Clash {
            weight: by_failures(weight(tolls.least, tolls.most), failures),
            delay: delay.saturating_mul(failures.saturating_add(1)),
            meeting,
            tolls: Some(tolls),
        }
    }

    /// How many of its orders are known to leave no plan that is wanted.
    pub(crate) fn closed_orders(&self) -> u64 {
        match &self.tolls {
            Some(tolls) => tolls.closed(),
            None => 0,
        }
    }

    /// When the later one of the two starts.
    fn later(&self) -> u64 {
        self.meeting.one_start.max(self.meeting.other_start)
    }

    /// Whether it stays behind another even if it weighs so many times as much, or where both weigh
    /// the same, delays so many times as much.
    pub(crate) fn is_behind(&self, other: &Clash, times: u64) -> bool {
        if self.weight != other.weight {
            return self.weight.saturating_mul(times) < other.weight;
        }
        self.delay.saturating_mul(times) < other.delay
    }

    /// Whether it comes before another.
    pub(crate) fn is_before(&self, other: &Clash) -> bool {
        if self.weight != other.weight {
            return self.weight > other.weight;
        }
        if self.delay != other.delay {
            return self.delay > other.delay;
        }
        if self.later() != other.later() {
            return self.later() < other.later();
        }
        let (meeting, behind) = (&self.meeting, &other.meeting);
        if meeting.first() != behind.first() {
            return meeting.first() < behind.first();
        }
        meeting.second() < behind.second()
    }
}

/// The one of a clash that may be known and another that comes first.
pub(crate) fn first_of(known: Option<Clash>, clash: Clash) -> Option<Clash> {
    match known {
        Some(before) if !clash.is_before(&before) => known,
        _ => Some(clash),
    }
}

/// What the orders of two that meet weigh at most by their own trains.
fn most_weight(view: View, meeting: &Meeting) -> Weighed {
    let one = most_toll(view.spots, meeting.one, meeting.other_until);
    let other = most_toll(view.spots, meeting.other, meeting.one_until);
    Weighed {
        weight: weight(one, other),
        exact: false,
        turn: view.spots.turn(),
    }
}

/// What the orders of two that meet weigh by their own trains.
fn exact_weight(view: View, meeting: &Meeting) -> Weighed {
    let one = toll(view.facts, view.spots, meeting.one, meeting.other_until);
    let other = toll(view.facts, view.spots, meeting.other, meeting.one_until);
    Weighed {
        weight: weight(one, other),
        exact: true,
        turn: view.spots.turn(),
    }
}

/// What is known of how much the orders of two that meet weigh, or what they weigh at most.
fn weighed(view: View, met: &mut Met) -> Weighed {
    if !met.is_as_at(view.spots, met.weighed.turn) {
        met.weighed = most_weight(view, &met.meeting);
    }
    met.weighed
}

/// What the orders of two that meet weigh by their own trains; none where that is less than what is
/// known.
pub(crate) fn own_weight(view: View, met: &mut Met, known: u64) -> Option<u64> {
    let mut found = weighed(view, met);
    if found.weight < known {
        return None;
    }
    if !found.exact {
        found = exact_weight(view, &met.meeting);
        met.weighed = found;
    }
    if found.weight < known {
        None
    } else {
        Some(found.weight)
    }
}

/// What the orders of two that meet weigh where one of them leaves no plan, and otherwise nothing.
pub(crate) fn dead_weight(view: View, met: &mut Met) -> u64 {
    own_weight(view, met, MOST_DEARER).unwrap_or(0)
}
