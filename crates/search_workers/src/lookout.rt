use crate::amount::Amount;
use crate::trials::Trials;
use disp_model::{Problem, Rule, Settings};

/// At how many nodes one searcher of a problem looks at a time, at most.
const NODES: Amount = Amount {
    for_train: 1500,
    fewest: 4096,
    most: 150_000,
    for_operations: 700_000_000,
};

/// At so many nodes it looks before anything else, and each time where changes may come.
const FEW_NODES: u32 = 4096;

/// It is looked on for the first time once so many nodes were grown.
const FIRST_DUE: u64 = 4096;

/// And then each time that so many times as many were.
const TIMES: u64 = 4;

/// Behind a rehearsal that came to no end it looks at so many times as many nodes as that.
const FOR_REHEARSED: u32 = 2;

/// The numbers of the draws of one searcher lie so far from each other.
const DRAWS_APART: u32 = 64;

/// When the next look is due.
#[derive(Clone, Copy, Debug)]
enum Due {
    /// Before anything is grown.
    First,
    /// Once so many nodes were grown.
    At(u64),
    /// Not any more.
    Never,
}

/// When a searcher looks for better plans, and at how many nodes: at few before anything else, at
/// twice as many as a rehearsal that came to no end did, and then each time that it has grown four
/// times as many nodes, at no more than were grown since. Few long looks find better plans than
/// many short ones. Each look is by draws of its own; but where changes may come the first ones,
/// and those between rehearsals, are the same for all searchers, so that all come to the same
/// script. Nothing rests on it.
#[derive(Clone, Copy, Debug)]
pub struct Lookout {
    /// The place of the searcher.
    place: u32,
    /// The number of the next look's draws, but for the place.
    draws: u32,
    /// At how many nodes it looks at a time, at most.
    most: u32,
    /// At how many nodes it is still to look before it waits for some to be grown.
    first: u32,
    /// How many nodes were grown.
    grown: u64,
    /// How many of them before the last look.
    before: u64,
    due: Due,
    /// When the search is rehearsed.
    pub(crate) trials: Trials,
}

/// A look that is due.
#[derive(Clone, Copy, Debug)]
pub(crate) struct Look {
    /// The number of its draws.
    pub draws: u32,
    /// At how many nodes it looks.
    pub nodes: u32,
}

impl Lookout {
    /// The lookout of a searcher at this place that looks at so many nodes at first. Where no
    /// branch is allowed it never looks.
    fn of(place: u32, first: u32, budget: u32, trials: Trials) -> Lookout {
        let due = match budget {
            0 => Due::Never,
            _ => Due::First,
        };
        Lookout {
            place,
            draws: 0,
            most: first,
            first,
            grown: 0,
            before: 0,
            due,
            trials,
        }
    }

    /// The lookout of a searcher at a place of so many where the problem stays as it is: the more
    /// trains there are, the more it looks at a time, and the more searchers, the less. Under the
    /// free rule several searchers agree on a script.
    pub fn steady(problem: &Problem, place: u32, count: u32, settings: Settings) -> Lookout {
        let Settings { budget, rule } = settings;
        let nodes = NODES.of(problem).saturating_mul(2) / count.saturating_add(1).max(1);
        let trials = if count > 1 && rule == Rule::Free {
            Trials::shared(problem, budget)
        } else {
            Trials::steady(problem, budget)
        };
        Lookout::of(place, nodes, budget, trials)
    }

    /// The lookout of a searcher of a problem at a place where changes may come: it is never away
    /// for long.
    pub fn prompt(problem: &Problem, place: u32, budget: u32) -> Lookout {
        let trials = Trials::prompt(problem, budget);
        let lookout = Lookout::of(place, NODES.of(problem), budget, trials);
        Lookout {
            most: FEW_NODES.min(lookout.most),
            ..lookout
        }
    }

    /// Counts so many nodes that were grown.
    pub(crate) fn count(&mut self, nodes: u64) {
        self.grown = self.grown.saturating_add(nodes);
    }

    /// The look that is due, if one is, and the next one is due later then. Where rehearsals come
    /// first the rest of the first look waits for them.
    pub(crate) fn next(&mut self, rehearsals_first: bool) -> Option<Look> {
        match self.due {
            Due::First if self.draws == 0 => Some(self.look_first(FEW_NODES)),
            Due::First if rehearsals_first => None,
            Due::First => Some(self.look_first(self.most)),
            Due::At(grown) if grown <= self.grown => {
                let nodes = self.nodes_on();
                self.wait();
                Some(self.look(nodes, self.place))
            }
            Due::At(_) | Due::Never => None,
        }
    }

    /// A look behind a rehearsal at so many nodes that came to no end, if one is due: a part of the
    /// first look, or one behind a better plan.
    pub(crate) fn look_between(&mut self, is_better: bool, nodes: u32) -> Option<Look> {
        let nodes = nodes.saturating_mul(FOR_REHEARSED).min(self.most);
        match self.due {
            Due::First => Some(self.look_first(nodes)),
            Due::At(_) | Due::Never if is_better => Some(self.look(nodes, self.apart())),
            Due::At(_) | Due::Never => None,
        }
    }

    /// A part of the first look, at so many nodes at most.
    fn look_first(&mut self, nodes: u32) -> Look {
        let nodes = nodes.min(self.first);
        self.first = self.first.saturating_sub(nodes);
        if self.first == 0 {
            self.wait();
        }
        self.look(nodes, self.apart())
    }

    /// How far the draws of the first looks, and of those between rehearsals, lie from those of the
    /// first searcher: these looks are the same for all where each comes to a script by itself.
    fn apart(&self) -> u32 {
        if self.trials.are_shared() {
            self.place
        } else {
            0
        }
    }

    /// A look at so many nodes, by draws that lie so far from those of the first searcher.
    fn look(&mut self, nodes: u32, apart: u32) -> Look {
        let look = Look {
            draws: self.draws.wrapping_add(apart),
            nodes,
        };
        self.draws = self.draws.wrapping_add(DRAWS_APART);
        look
    }

    /// Has the next look wait for some nodes to be grown.
    fn wait(&mut self) {
        self.before = self.grown;
        self.due = Due::At(self.grown.saturating_mul(TIMES).max(FIRST_DUE));
    }

    /// At how many nodes it is to look on.
    fn nodes_on(&self) -> u32 {
        let grown = self.grown.saturating_sub(self.before);
        u32::try_from(grown).unwrap_or(u32::MAX).min(self.most)
    }

    /// Looks no more: there is no better plan.
    pub(crate) fn end_looks(&mut self) {
        self.due = Due::Never;
    }

    /// Looks no more, and rehearses no more.
    pub(crate) fn end(&mut self) {
        self.end_looks();
        self.trials.end();
    }
}
