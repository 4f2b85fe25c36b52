ghost use Rattle.std.specs.Prelude.{◌≡◌, ◌≢◌, ◌↔◌, IsTrue};
ghost use Rattle.disp_model.specs.Earliest.{IsPairUpTo};
ghost use Rattle.branch_rules.specs.Pairs.{IsPairOf, IsEarlier};

use disp_model::{Event, Op};
use first_overlaps::is_below;

/// Operations of two trains, that of the lower train first.
#[derive(Clone, Copy)]
pub(crate) struct Pair {
    pub a: Op,
    pub b: Op,
}

/// The operation that an event starts.
fn op_of(event: &Event) -> Op
    ensures { result ≡ record { train = event.now.train; op = event.now.operation } }
{
    Op {
        train: event.train,
        op: event.operation,
    }
}

/// The operations of two events of different trains.
pub(crate) fn pair_of(one: &Event, other: &Event) -> Pair
    requires { one.now.train ≢ other.now.train }
    ensures { IsPairOf one.now other.now result }
{
    let (a, b) = (op_of(one), op_of(other));
    if one.train < other.train {
        Pair { a, b }
    } else {
        Pair { a: b, b: a }
    }
}

/// Whether a pair comes no later than another, by its first operation and then its second.
fn is_up_to(one: Pair, other: Pair) -> bool
    ensures { IsTrue result ↔ IsPairUpTo one.a one.b other.a other.b }
{
    is_below(one.a, other.a) || (one.a == other.a && (is_below(one.b, other.b) || one.b == other.b))
}

/// The one of a pair and one that may be known that comes first.
pub(crate) fn earlier(known: Option<Pair>, pair: Pair) -> Option<Pair>
    ensures { IsEarlier known pair result }
{
    match known {
        Some(first) if is_up_to(first, pair) => known,
        _ => Some(pair),
    }
}
