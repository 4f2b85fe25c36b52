use crate::amount::count_operations;
use disp_model::Problem;

/// At so many nodes a search is rehearsed first, at most,
const FIRST_NODES: u32 = 8192;

/// and then each time that no better plan was found, at so many times as many.
const TIMES: u32 = 4;

/// So often in turn, at most, from the root before a leaf grows,
const AT_ROOT: u32 = 16;

/// and so often where changes may come,
const PROMPT_AT_ROOT: u32 = 1;

/// each time then at this part of all the nodes that there may be, and at no more than of a first
/// rehearsal.
const PROMPT_PART: u32 = 32;

/// So many times the budget, at most, are all the nodes of the rehearsals of a search,
const FOR_BRANCH: u32 = 4;

/// and so many,
const MOST_NODES: u32 = 400_000;

/// also so many for the square of the operations, since a node takes the longer, the more there
/// are.
const FOR_SQUARE: u64 = 1_200_000_000_000;

/// At how many nodes the search of a problem is rehearsed, at most.
fn most_nodes(problem: &Problem) -> u32 {
    let operations = count_operations(problem).max(1);
    let most = FOR_SQUARE / operations.saturating_mul(operations).max(1);
    u32::try_from(most).unwrap_or(u32::MAX).min(MOST_NODES)
}

/// A part of a rehearsal from the root.
#[derive(Clone, Copy, Debug)]
pub(crate) struct Part {
    /// At how many nodes it looks,
    pub nodes: u32,
    /// and at how many a look behind it is reckoned.
    pub look: u32,
    /// Whether it is the first part,
    pub begins: bool,
    /// or the last one.
    pub ends: bool,
}

/// At how many nodes the search is rehearsed from the root before a leaf grows, and below that leaf
/// where no script says anything of it. A rehearsal from the root that did not come to its end
/// begins anew, with what was learned of what fails and with the best plan. Where changes may come
/// it is done in parts, so that a searcher is never away for long; so it is where several
/// searchers rehearse, each in its own way, so that they soon follow the first script that one of
/// them comes to. Nothing rests on it.
#[derive(Clone, Copy, Debug)]
pub(crate) struct Trials {
    /// At how many nodes the present one from the root looks,
    whole: u32,
    /// and the next one.
    next: u32,
    /// At how many the present one is still to look.
    here: u32,
    /// At how many nodes a part looks, at most.
    part: u32,
    /// At how many all that are still to come look.
    left: u32,
    /// So many parts there are in turn, at most.
    at_once: u32,
    /// Whether several searchers rehearse, each in its own way.
    shared: bool,
}

impl Trials {
    /// Those of a search by so many branches where the problem stays as it is.
    pub(crate) fn steady(problem: &Problem, budget: u32) -> Trials {
        Trials {
            whole: 0,
            next: FIRST_NODES,
            here: 0,
            part: u32::MAX,
            left: budget.saturating_mul(FOR_BRANCH).min(most_nodes(problem)),
            at_once: AT_ROOT,
            shared: false,
        }
    }

    /// Those of one of several searchers by so many branches where the problem stays as it is.
    pub(crate) fn shared(problem: &Problem, budget: u32) -> Trials {
        Trials {
            part: FIRST_NODES,
            at_once: 1,
            shared: true,
            ..Trials::steady(problem, budget)
        }
    }

    /// Those of a search where changes may come.
    pub(crate) fn prompt(problem: &Problem, budget: u32) -> Trials {
        let part = most_nodes(problem) / PROMPT_PART;
        Trials {
            part: part.max(1).min(FIRST_NODES),
            at_once: PROMPT_AT_ROOT,
            ..Trials::steady(problem, budget)
        }
    }

    /// So many nodes, as far as there are still some to come.
    fn take(&mut self, nodes: u32) -> Option<u32> {
        let nodes = nodes.min(self.part).min(self.left);
        self.left = self.left.saturating_sub(nodes);
        if nodes == 0 { None } else { Some(nodes) }
    }

    /// The next part of a rehearsal from the root, if there is still one to come.
    pub(crate) fn next(&mut self) -> Option<Part> {
        let begins = self.here == 0;
        if begins {
            self.whole = self.next;
            self.here = self.whole;
            self.next = self.whole.saturating_mul(TIMES);
        }
        let nodes = self.take(self.here)?;
        self.here = self.here.saturating_sub(nodes);
        let look = if self.shared { self.whole } else { nodes };
        Some(Part {
            nodes,
            look,
            begins,
            ends: self.here == 0,
        })
    }

    /// A better plan is known than before: the next one looks at no more nodes than the present one.
    pub(crate) fn note_better(&mut self) {
        self.next = self.whole;
    }

    /// How many from the root there are in turn before a leaf grows, at most.
    pub(crate) fn at_once(&self) -> u32 {
        self.at_once
    }

    /// Whether several searchers rehearse, each in its own way.
    pub(crate) fn are_shared(&self) -> bool {
        self.shared
    }

    /// Whether no leaf grows before those from the root came to an end.
    pub(crate) fn come_first(&self) -> bool {
        self.shared && self.left > 0
    }

    /// At how many nodes to look below a leaf now, if there is still one to come.
    pub(crate) fn next_below(&mut self) -> Option<u32> {
        self.take(FIRST_NODES)
    }

    /// None is to come any more.
    pub(crate) fn end(&mut self) {
        self.left = 0;
    }
}
