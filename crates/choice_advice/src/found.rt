ghost use Rattle.std.specs.Prelude.{◌≡◌};

use crate::adviser::Advice;
use crate::clash::Clash;
use crate::clashes::{By, Care, Clashes};
use crate::facts::Facts;
use crate::forks::{Fork, Forks};
use crate::holders::{Holder, Moved};
use crate::layers::Crossings;
use crate::meetings::{Meeting, Meetings};
use crate::seeker::Seeker;
use crate::view::View;
use crate::ways::Ways;
use disp_model::Memory;
use std::alloc::Global;

/// What an adviser has found of meetings, of forks and of crossings, and room for looks at clashes
/// and ways.
#[derive(Drop)]
pub(crate) struct Found {
    meetings: Meetings,
    clashes: Clashes,
    forks: Forks,
    crossings: Crossings,
    ways: Ways,
    seeker: Seeker,
    /// The clash that came first, where one was looked for.
    pub clash: Option<Clash>,
}

impl Found {
    /// Nothing found yet of so many operations of so many trains and so many resources, to look
    /// with so much care.
    pub(crate) fn new(
        alloc: Global,
        count: usize,
        trains: usize,
        resources: usize,
        care: Care,
    ) -> Result<Found, Memory> {
        Ok(Found {
            meetings: Meetings::new(alloc, resources)?,
            clashes: Clashes::new(alloc, count, care)?,
            forks: Forks::new(alloc, count, trains)?,
            crossings: Crossings::new(alloc, count, trains)?,
            ways: Ways::new(alloc, count)?,
            seeker: Seeker::new(alloc, count)?,
            clash: None,
        })
    }

    /// Notes that a train is to be looked at again.
    pub(crate) fn forget(&mut self, train: u32) {
        self.forks.forget(train);
        self.crossings.forget(train);
    }

    /// Looks again at how the holders of a resource meet of which some have moved, and notes what
    /// is to be looked at again of each.
    pub(crate) fn note_moved(&mut self, moved: &Moved) -> Result<(), Memory> {
        self.meetings.look_again(moved)?;
        for holder in moved.holders {
            if holder.start >= moved.span.until {
                return Ok(());
            }
            self.note_holder(moved, holder);
        }
        Ok(())
    }

    /// Notes what is to be looked at again of a holder of a resource of which some have moved.
    fn note_holder(&mut self, moved: &Moved, holder: &Holder) {
        if holder.forced {
            return;
        }
        if moved.forced.meets(holder) {
            self.forks.forget_before(holder.train, holder.number);
        }
        if moved.span.meets(holder) {
            self.crossings.forget_at(holder.train, holder.number);
        }
    }

    /// The clash that comes first.
    fn first_clash(&mut self, view: View, by: By, touching: bool) -> Result<Option<Clash>, Memory> {
        let (seeker, meetings) = (&mut self.seeker, &mut self.meetings);
        let clash = self.clashes.find(view, seeker, meetings, by, touching)?;
        self.clash = clash;
        Ok(clash)
    }

    /// The fork that comes first.
    fn first_fork(&mut self, view: View) -> Option<Fork>
        requires { view.graph.now.problem ≡ view.problem.now }
    {
        self.forks.first(view, &mut self.seeker, &mut self.ways)
    }
}

/// The order of two that hold a resource at a time.
fn order_of_overlap(facts: &Facts, meeting: &Meeting) -> Advice {
    Advice::Order {
        a: facts.op(meeting.first()),
        b: facts.op(meeting.second()),
        resource: meeting.resource,
    }
}

/// The order of two that clash, where the routes part at a fork.
fn order_of(facts: &Facts, clash: Clash, fork: Option<u32>) -> Option<Advice> {
    let meeting = &clash.meeting;
    if !meeting.touches {
        return Some(order_of_overlap(facts, meeting));
    }
    let (a, b) = (facts.op(meeting.first()), facts.op(meeting.second()));
    let resource = meeting.resource;
    let fork = facts.op(fork?);
    Some(Advice::Touch {
        a,
        b,
        resource,
        fork,
    })
}

/// The route at a fork.
fn route_of(facts: &Facts, fork: Fork) -> Advice {
    Advice::Route(facts.op(fork.number))
}

/// What comes first by tolls.
pub(crate) fn by_toll(
    view: View,
    found: &mut Found,
    layered: &[bool],
) -> Result<Option<Advice>, Memory>
    requires { view.graph.now.problem ≡ view.problem.now }
{
    let number = view.spots.fork();
    let clash = found.first_clash(view, By::Toll, number.is_some())?;
    if let Some(clash) = clash {
        if clash.weight > 0 {
            return Ok(order_of(view.facts, clash, number));
        }
    }
    if let Some(crossing) = found.crossings.first(view, layered) {
        return Ok(Some(Advice::Run(view.facts.op(crossing.number))));
    }
    if let Some(clash) = clash {
        return Ok(order_of(view.facts, clash, number));
    }
    let Some(fork) = found.first_fork(view) else {
        return Ok(None);
    };
    Ok(Some(route_of(view.facts, fork)))
}

/// What is seen to be open at once, else what comes first by tolls.
pub(crate) fn by_any(
    view: View,
    found: &mut Found,
    layered: &[bool],
) -> Result<Option<Advice>, Memory>
    requires { view.graph.now.problem ≡ view.problem.now }
{
    match found.meetings.any_overlap() {
        Some(meeting) => Ok(Some(order_of_overlap(view.facts, &meeting))),
        None => by_toll(view, found, layered),
    }
}

/// What comes first by time.
pub(crate) fn by_time(view: View, found: &mut Found) -> Result<Option<Advice>, Memory>
    requires { view.graph.now.problem ≡ view.problem.now }
{
    let fork = found.first_fork(view);
    if let Some(fork) = fork {
        if fork.live < 2 {
            return Ok(Some(route_of(view.facts, fork)));
        }
    }
    let number = view.spots.fork();
    if let Some(clash) = found.first_clash(view, By::Time, number.is_some())? {
        return Ok(order_of(view.facts, clash, number));
    }
    let Some(fork) = fork else {
        return Ok(None);
    };
    Ok(Some(route_of(view.facts, fork)))
}
