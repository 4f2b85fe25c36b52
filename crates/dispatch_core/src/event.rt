use disp_model::{Change, Mark, Plan, Reply, Standing, Unasked, Verdict};
use open_nodes::{Fragment, Work};
use solution_verifier::Fault;

/// What a feed or a searcher asks of the core.
#[derive(Drop)]
pub enum CoreEvent {
    /// A feed asks for a change in its line.
    Ask {
        feed: u32,
        line: u64,
        change: Change,
    },
    /// A line of a feed asks nothing.
    Unread {
        feed: u32,
        line: u64,
        why: Unasked,
    },
    /// A feed asks where the search stands.
    Show {
        feed: u32,
        line: u64,
    },
    /// A feed has no more lines.
    FeedEnd {
        feed: u32,
    },
    /// A searcher leaves.
    Leave {
        searcher: u32,
    },
    /// What is there to do.
    Next,
    /// A searcher wants a leaf of an edition, to grow at most so many branches.
    Take {
        searcher: u32,
        edition: u32,
        want: u32,
    },
    /// A searcher grew the leaf of its work.
    Grow {
        searcher: u32,
        fragment: Fragment,
    },
    /// A work comes back without growth.
    GiveBack {
        work: Work,
        examined: bool,
    },
    /// A plan was found for an edition.
    Publish {
        edition: u32,
        plan: Plan,
    },
    /// No leaf of the edition should be wanted any more.
    Settle {
        edition: u32,
    },
    /// The budget of the edition should be spent.
    Stop {
        edition: u32,
    },
}

/// What the core replies.
#[derive(Drop)]
pub enum CoreReply {
    /// The change got this reply.
    Asked(Reply),
    /// It is noted.
    Noted,
    /// Where the search stands.
    Shown(Standing),
    /// The newest edition is worked on.
    Work(u32),
    /// The newest edition is closed, and so many feeds have not ended, at least one.
    FeedsOpen(u64),
    /// The newest edition is closed, and all feeds have ended.
    Over,
    /// The named edition is above the newest, which is this.
    Ahead(u32),
    /// The named edition is below the newest, which is this.
    Newer(u32),
    /// The named edition is settled or stopped.
    Closed(Mark),
    /// No leaf is wanted.
    Ripe,
    /// A wanted leaf.
    Taken(Work),
    /// A leaf is wanted, none may be taken, and so many leaves are out, at least one.
    AllOut(u64),
    /// A leaf is wanted, none may be taken and none is out: the budget is spent.
    Dry(u32),
    /// No work that equals this one in every field is out.
    Gone(u128),
    /// The tree has grown by so many splits.
    Grown(u32),
    /// The plan is not valid for the newest edition, by this first fault.
    Invalid(Fault),
    /// The best plan costs this, and no more than the plan.
    NotBetter(u64),
    /// The plan is published with its cost.
    Published(u64),
    /// This leaf is wanted, the first one in preorder, and this is its kept bound.
    StillOpen { node: u128, bound: u64 },
    /// The edition is settled.
    Settled(Verdict),
    /// So much is spent, which is below the budget.
    NotSpent(u32),
    /// This wanted leaf is the first that is not examined for the edition.
    Unexamined(u128),
    /// The edition is stopped; no valid plan costs less than this.
    Stopped(u64),
}

/// Why a step was not taken: memory ran out. The event is handed back.
#[derive(Drop)]
pub enum StepNo {
    Memory(CoreEvent),
}
