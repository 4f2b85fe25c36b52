ghost use Rattle.std.specs.Prelude.{◌↔◌, IsTrue};
ghost use Rattle.disp_model.specs.Earliest.{IsBelow};
ghost use Rattle.first_overlaps.specs.Holds.{IsEarlierMeeting};

use disp_model::Op;

/// Two operations that hold a resource at a time, or touch, that of the lower train first: one ends
/// when the other starts, and their order is not decided.
#[derive(Clone, Copy)]
pub(crate) struct Meeting {
    pub a: Op,
    pub b: Op,
    /// Whether they hold a resource at a time for sure.
    pub overlaps: bool,
}

/// Whether an operation comes before another, by train and number.
pub fn is_below(one: Op, other: Op) -> bool
    ensures { IsTrue result ↔ IsBelow one other }
{
    one.train < other.train || (one.train == other.train && one.op < other.op)
}

/// The meeting of an operation that may be known, or another of its, whichever comes first.
pub(crate) fn first_of(known: Option<Meeting>, meeting: Meeting) -> Option<Meeting>
    ensures { IsEarlierMeeting known meeting result }
{
    match known {
        Some(first) if is_below(first.b, meeting.b) => known,
        Some(first) if first.b == meeting.b && first.overlaps => known,
        _ => Some(meeting),
    }
}
