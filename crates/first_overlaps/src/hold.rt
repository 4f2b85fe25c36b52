ghost use Rattle.std.specs.Prelude.{◌≡◌, ◌↔◌, ◌<◌, ◌+◌, IsTrue};
ghost use Rattle.first_overlaps.specs.Holds.{hold_on, IsOver, HoldApart, DoOverlap};

use crate::span::Span;
use disp_model::{Listing, Op};

/// A forced operation that lists a resource: when it starts and ends, and the release time.
#[derive(Clone, Copy)]
pub(crate) struct Hold {
    pub op: Op,
    pub span: Span,
    pub release: u32,
}

/// What an operation that runs so holds by a listing.
pub(crate) fn hold_on(op: Op, span: Span, listing: &Listing) -> Hold
    ensures { result ≡ hold_on op span listing.now }
{
    Hold {
        op,
        span,
        release: listing.release,
    }
}

/// Whether one is over, with its release time, when the other starts, and ends before that.
fn is_over(one: &Hold, other: &Hold) -> bool
    ensures { IsTrue result ↔ IsOver one.now other.now }
{
    one.span.end < other.span.start && u64::from(one.release) <= other.span.start - one.span.end
}

/// Whether one of two is over before the other starts.
pub(crate) fn hold_apart(one: &Hold, other: &Hold) -> bool
    ensures { IsTrue result ↔ HoldApart one.now other.now }
{
    is_over(one, other) || is_over(other, one)
}

/// Whether one starts before the other is over with its release time.
fn starts_within(one: &Hold, other: &Hold) -> bool
    ensures { IsTrue result ↔ (one.now.span.start < other.now.span.end + other.now.release) }
{
    one.span.start < other.span.end || one.span.start - other.span.end < u64::from(other.release)
}

/// Whether each of two starts before the other is over with its release time.
pub(crate) fn do_overlap(one: &Hold, other: &Hold) -> bool
    ensures { IsTrue result ↔ DoOverlap one.now other.now }
{
    starts_within(other, one) && starts_within(one, other)
}
