//! The words of the dispatcher: plain values (problems, plans, changes, trees, histories), and in
//! `specs/` the definitions of what a valid plan is, what it costs and which cost is least, of
//! nodes, bounds and trees, and of legal histories. Values that hold lists are copied by
//! `Copied::copy`, equal to what they are copied from. Nothing here reads, searches or judges: the
//! crates above do, and their contracts cite these definitions; what follows from them is in
//! `disp_laws`.
#![tactic(auto)]

mod answer;
mod decision;
mod entry;
mod fixing;
mod limits;
mod plan;
mod problem;
mod reply;
mod settings;
mod train;
mod tree;

pub use answer::{Alone, Answer, Unfinished};
pub use decision::{Choice, Decision};
pub use entry::{Entry, Mark, Split, Standing, Unasked};
pub use fixing::{Change, Fixing};
pub use limits::{
    GREATEST_COST, GREATEST_EVENT_TIME, GREATEST_NUMBER, MOST_CALLERS, MOST_CHANGES,
    MOST_COMPONENTS, MOST_EVENTS, MOST_FILE_BYTES, MOST_LINE_BYTES, MOST_LINES, MOST_OPERATIONS,
    MOST_TRAINS,
};
pub use plain_values::{Copied, List, Memory, Text};
pub use plan::{Event, Plan};
pub use problem::Problem;
pub use reply::{Refusal, Reply};
pub use settings::{Rule, Settings};
pub use train::{Component, Listing, Op, Operation, Train};
pub use tree::{ComponentWalk, Leaf, TrainWalks, Tree, TreeNode, Verdict};
