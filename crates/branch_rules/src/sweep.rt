ghost use Rattle.std.specs.Prelude.{MatchOption, IfOk};
ghost use Rattle.branch_rules.specs.Pairs.{RiseAlong, IsFirstPair, NoneClash};
ghost use Rattle.branch_rules.specs.Behind.{AreOfTrains};

use crate::behind::Behind;
use crate::pair::Pair;
use disp_model::{Event, Memory, Problem};
use std::alloc::Global;

/// The first pair of operations of different trains whose events do not keep apart, in a plan whose
/// times do not fall. It looks, from the last event to the first, at the events of each resource
/// that start before it is released, and at no others.
pub(crate) fn first_clash(
    alloc: Global,
    problem: &Problem,
    events: &[Event],
) -> Result<Option<Pair>, Memory>
    requires rise { RiseAlong events.now }
    requires trains { AreOfTrains problem.now events.now }
    ensures { IfOk result (λ first. MatchOption first (NoneClash problem.now events.now)
        (IsFirstPair problem.now events.now)) }
{
    let mut behind = Behind::none(alloc, problem)?;
    let mut first = None;
    for place in (0..events.len()).rev() {
        first = behind.first_with(problem, events, place, first);
        behind.take(problem, events, place)?;
    }
    Ok(first)
}
