ghost use Rattle.std.specs.Prelude.{◌≡◌, ◌<◌, false, Some, IfSome, All, Contains, ℕ, length};
ghost use Rattle.first_overlaps.specs.declared.hold.Hold.{Hold as HoldOf};
ghost use Rattle.first_overlaps.specs.declared.holder.Holder.{Holder as HolderOf};
ghost use Rattle.first_overlaps.specs.Holds.{hold_by, IsHold, IsMeetingOf, IsEarlierMeeting, IsSeenLater, HoldMeets, HoldsMeet};

use crate::hold::{Hold, do_overlap, hold_apart};
use crate::holder::Holder;
use crate::meeting::{Meeting, first_of};
use crate::span::Span;
use event_graph::Graph;

/// What is seen of an operation and those of later trains: the first that it overlaps or touches,
/// and whether it is apart from all of them.
#[derive(Clone, Copy)]
pub(crate) struct Seen {
    pub first: Option<Meeting>,
    pub apart: bool,
}

/// What a holder holds by these spans, where it is forced.
pub(crate) fn hold_of(spans: &[Option<Span>], holder: &Holder) -> Option<Hold>
    requires { holder.now.number < length spans.now }
    ensures { result ≡ hold_by spans.now holder.now }
{
    match spans[holder.number as usize] {
        Some(span) => Some(Hold {
            op: holder.op,
            span,
            release: holder.release,
        }),
        None => None,
    }
}

/// What is seen with a meeting more.
fn seen_meeting(hold: &Hold, other: &Hold, overlaps: bool, seen: Seen) -> Seen
    ensures first { IsEarlierMeeting seen.first
        (record { a = hold.now.op; b = other.now.op; overlaps = overlaps }) result.first }
    ensures apart { result.apart ≡ false }
{
    let meeting = Meeting {
        a: hold.op,
        b: other.op,
        overlaps,
    };
    Seen {
        first: first_of(seen.first, meeting),
        apart: false,
    }
}

/// What is seen with one pair more.
fn seen_with(graph: &Graph, hold: &Hold, other: &Hold, seen: Seen) -> Seen
    requires holds { (resource : ℕ) × IsHold graph.now resource hold.now
        × IsHold graph.now resource other.now }
    requires trains { hold.now.op.train < other.now.op.train }
    ensures found { IfSome seen.first (IsMeetingOf graph.now hold.now.op)
        → IfSome result.first (IsMeetingOf graph.now hold.now.op) }
    ensures later { IsSeenLater seen result }
    ensures met { HoldMeets graph.now hold.now other.now result }
{
    if hold_apart(hold, other) {
        return seen;
    }
    if do_overlap(hold, other) {
        return seen_meeting(hold, other, true, seen);
    }
    if graph.is_decided(hold.op, other.op) || graph.is_decided(other.op, hold.op) {
        return Seen {
            first: seen.first,
            apart: false,
        };
    }
    seen_meeting(hold, other, false, seen)
}

/// What is seen with a holder more, where it is forced and of a later train.
fn seen_beside(
    graph: &Graph,
    hold: &Hold,
    spans: &[Option<Span>],
    holder: &Holder,
    seen: Seen,
) -> Seen
    requires number { holder.now.number < length spans.now }
    requires holds { (resource : ℕ) × IsHold graph.now resource hold.now
        × ((other : HoldOf) → hold_by spans.now holder.now ≡ Some other
        → IsHold graph.now resource other) }
    ensures found { IfSome seen.first (IsMeetingOf graph.now hold.now.op)
        → IfSome result.first (IsMeetingOf graph.now hold.now.op) }
    ensures later { IsSeenLater seen result }
    ensures met { (other : HoldOf) → hold.now.op.train < holder.now.op.train
        → hold_by spans.now holder.now ≡ Some other → HoldMeets graph.now hold.now other result }
{
    if holder.op.train <= hold.op.train {
        return seen;
    }
    match hold_of(spans, holder) {
        Some(other) => seen_with(graph, hold, &other, seen),
        None => seen,
    }
}

/// What is seen with those of these holders more that are of later trains.
pub(crate) fn seen_on(
    graph: &Graph,
    hold: &Hold,
    spans: &[Option<Span>],
    holders: &[Holder],
    known: Seen,
) -> Seen
    requires numbers { All (λ y. y.number < length spans.now) holders.now }
    requires hold { (resource : ℕ) × IsHold graph.now resource hold.now
        × ((y : HolderOf) (other : HoldOf) → Contains holders.now y
        → hold_by spans.now y ≡ Some other → IsHold graph.now resource other) }
    ensures found { IfSome known.first (IsMeetingOf graph.now hold.now.op)
        → IfSome result.first (IsMeetingOf graph.now hold.now.op) }
    ensures later { IsSeenLater known result }
    ensures met { HoldsMeet graph.now hold.now spans.now holders.now result }
{
    let mut seen = known;
    for holder in holders {
        seen = seen_beside(graph, hold, spans, holder, seen);
    }
    seen
}
