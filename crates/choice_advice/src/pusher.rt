use crate::facts::Facts;
use crate::meetings::{Meeting, Push, Pushed};
use crate::queue::Queue;
use crate::spots::{NEVER, length_of};
use crate::view::View;
use disp_model::Memory;
use incremental_paths::Paths;
use std::alloc::Global;

/// How many operations push on at most in a look: beyond so many it would take long, and hardly
/// ever changes what is picked.
const MOST_PUSHED: usize = 256;

/// When an operation starts that is pushed, and in which look it was.
#[derive(Clone, Copy)]
struct Delay {
    look: u64,
    time: u64,
}

/// Starts operations later, and all to which arcs lead from them: room for one look after another.
#[derive(Drop)]
pub(crate) struct Pusher {
    each: Vec<Delay>,
    look: u64,
    /// The sets of the trains on whose operations the look depends.
    sets: u64,
    /// The operations that are pushed and push on, by their places in the order of the arcs.
    waiting: Queue,
}

/// What an operation costs more that is pushed from a start to a time; never where it may not start
/// so late.
fn rise_of(facts: &Facts, number: u32, start: u64, time: u64) -> u64 {
    if !facts.matters(number) {
        return 0;
    }
    facts.rise(number, start, time).unwrap_or(NEVER)
}

impl Pusher {
    /// A look over so many operations.
    pub(crate) fn new(alloc: Global, count: usize) -> Result<Pusher, Memory> {
        let mut each = Vec::with_capacity(alloc, count)?;
        for _ in 0..count {
            each.push(Delay { look: 0, time: 0 })?;
        }
        Ok(Pusher {
            each,
            look: 0,
            sets: 0,
            waiting: Queue::new(alloc, count)?,
        })
    }

    /// When an operation starts that is pushed.
    fn time(&self, number: u32) -> u64 {
        match self.each.get(number as usize) {
            Some(delay) => delay.time,
            None => NEVER,
        }
    }

    /// Has an operation start no earlier than a time. Says whether it is pushed for the first time
    /// in this look.
    fn delay(&mut self, number: u32, time: u64) -> bool {
        let Some(known) = self.each.get_mut(number as usize) else {
            return false;
        };
        if known.look == self.look {
            known.time = known.time.max(time);
            return false;
        }
        *known = Delay {
            look: self.look,
            time,
        };
        true
    }

    /// Pushes an operation to a time, where it starts earlier.
    fn push(&mut self, facts: &Facts, paths: &Paths, number: u32, time: u64) {
        self.sets |= facts.set(number);
        let Some(start) = paths.lengths().get(number as usize) else {
            return;
        };
        if time > *start && self.delay(number, time) && (number as usize) < paths.size() {
            self.waiting
                .put(paths.order().place(number) as usize, number);
        }
    }

    /// Pushes those to which arcs lead from an operation that starts at a time.
    fn push_on(&mut self, view: View, number: u32, time: u64) {
        let paths = view.graph.paths();
        for link in view.links.behind(number) {
            self.push(view.facts, paths, link.to, time.saturating_add(link.length));
        }
    }

    /// What it does to have an operation start only at a time: it leaves no plan that is wanted
    /// where an operation may not start so late, or where that pushes one that is to come before.
    /// Where very many are pushed it counts the first of them.
    fn pushed_to(&mut self, view: View, number: u32, time: u64, before: u32) -> Push {
        let paths = view.graph.paths();
        self.look = self.look.saturating_add(1);
        self.waiting.clear();
        self.push(view.facts, paths, number, time);
        let mut push = Push::NOTHING;
        for _ in 0..MOST_PUSHED {
            let Some(number) = self.waiting.take() else {
                return push;
            };
            if number == before {
                return push.closed();
            }
            let (start, time) = (length_of(paths, number), self.time(number));
            let rise = rise_of(view.facts, number, start, time);
            push.add(rise, time.saturating_sub(start));
            if push.toll >= view.room {
                return push.closed();
            }
            self.push_on(view, number, time);
        }
        push
    }

    /// What the two orders of two that meet do with all that they push.
    pub(crate) fn pushed(&mut self, view: View, meeting: &Meeting) -> Pushed {
        self.sets = 0;
        let (one, other) = (meeting.one, meeting.other);
        let behind = view.spots.at(one).behind;
        let there = self.pushed_to(view, other, meeting.one_until, behind);
        let behind = view.spots.at(other).behind;
        let back = self.pushed_to(view, one, meeting.other_until, behind);
        Pushed {
            there,
            back,
            room: view.room,
            sets: self.sets,
            turn: view.ages.turn(),
        }
    }
}
