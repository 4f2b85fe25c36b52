use crate::decision::Choice;
use crate::fixing::Change;
use crate::plan::Plan;
use crate::reply::Reply;
use crate::tree::{Tree, Verdict};
use plain_values::{Copied, List, Memory};

/// How far an edition is settled.
#[derive(Clone, Copy, Debug, PartialEq, Eq)]
pub enum Mark {
    Working,
    Optimal(u64),
    Infeasible,
    Stopped { spent: u64, bound: u64 },
}

/// Where the search stands: the newest edition, the cost of its best plan, and how far it is
/// settled.
#[derive(Clone, Copy, Debug, PartialEq, Eq)]
pub struct Standing {
    pub edition: u32,
    pub best: Option<u64>,
    pub mark: Mark,
}

/// A leaf that became a branch: its node, and what the branch chooses.
#[derive(Clone, Copy, Debug, PartialEq, Eq)]
pub struct Split {
    pub node: u128,
    pub choice: Choice,
}

/// Why a line of a feed asks nothing.
#[derive(Clone, Copy, Debug, PartialEq, Eq)]
pub enum Unasked {
    Unreadable,
    Long,
    TooMany,
}

/// An entry of the history.
#[derive(Drop)]
pub enum Entry {
    /// A feed asked for a change in its line, and got the reply.
    Asked {
        feed: u32,
        line: u64,
        change: Change,
        reply: Reply,
    },
    /// A line of a feed asks nothing.
    Unread {
        feed: u32,
        line: u64,
        why: Unasked,
    },
    /// A feed was shown where the search stands.
    Shown {
        feed: u32,
        line: u64,
        standing: Standing,
    },
    /// A searcher grew the tree below a node, with work that it took when the history had `seen`
    /// entries.
    Grown {
        searcher: u32,
        edition: u32,
        seen: u64,
        node: u128,
        splits: List<Split>,
    },
    /// A plan for an edition, and its cost.
    Published {
        edition: u32,
        plan: Plan,
        cost: u64,
    },
    /// A verdict on an edition, and the tree that shows it.
    Settled {
        edition: u32,
        verdict: Verdict,
        tree: Tree,
    },
    /// The budget of an edition is spent; no valid plan costs less than the bound.
    Stopped {
        edition: u32,
        spent: u64,
        bound: u64,
    },
}

impl Copied for Split {
    fn copy(&self) -> Result<Split, Memory> {
        Ok(*self)
    }
}

impl Copied for Entry {
    fn copy(&self) -> Result<Entry, Memory> {
        match self {
            Entry::Asked {
                feed,
                line,
                change,
                reply,
            } => Ok(Entry::Asked {
                feed: *feed,
                line: *line,
                change: *change,
                reply: *reply,
            }),
            Entry::Unread { feed, line, why } => Ok(Entry::Unread {
                feed: *feed,
                line: *line,
                why: *why,
            }),
            Entry::Shown {
                feed,
                line,
                standing,
            } => Ok(Entry::Shown {
                feed: *feed,
                line: *line,
                standing: *standing,
            }),
            Entry::Grown {
                searcher,
                edition,
                seen,
                node,
                splits,
            } => Ok(Entry::Grown {
                searcher: *searcher,
                edition: *edition,
                seen: *seen,
                node: *node,
                splits: splits.copy()?,
            }),
            Entry::Published {
                edition,
                plan,
                cost,
            } => Ok(Entry::Published {
                edition: *edition,
                plan: plan.copy()?,
                cost: *cost,
            }),
            Entry::Settled {
                edition,
                verdict,
                tree,
            } => Ok(Entry::Settled {
                edition: *edition,
                verdict: *verdict,
                tree: tree.copy()?,
            }),
            Entry::Stopped {
                edition,
                spent,
                bound,
            } => Ok(Entry::Stopped {
                edition: *edition,
                spent: *spent,
                bound: *bound,
            }),
        }
    }
}
