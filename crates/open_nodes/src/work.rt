ghost use Rattle.std.specs.Prelude.{◌≡◌};
ghost use Rattle.open_nodes.specs.States.{errand_of};

use crate::place::Errand;
use disp_model::{Decision, List, Split};
use packed_nodes::PackedNode;

/// A leaf that is out: its number, its kept bound, the edition, the decisions above it, the best
/// cost and the place in the history when it was taken, and how many branches it may grow.
#[derive(Drop)]
pub struct Work {
    pub node: u128,
    pub bound: u64,
    pub edition: u32,
    pub decisions: List<Decision>,
    pub best: Option<u64>,
    pub seen: u64,
    pub allowance: u32,
}

impl Work {
    /// What the leaf was given out with.
    pub(crate) fn errand(&self) -> Errand
        ensures { result ≡ errand_of self.now }
    {
        Errand {
            bound: self.bound,
            edition: self.edition,
            best: self.best,
            seen: self.seen,
            allowance: self.allowance,
        }
    }
}

/// What grew below the leaf of a work: the nodes in preorder, each packed by who made it, and the
/// kept bounds of the leaves among them, 0 for one that is known dead.
#[derive(Drop)]
pub struct Fragment {
    pub work: Work,
    pub subtree: List<PackedNode>,
    pub bounds: List<u64>,
}

impl Fragment {
    /// The work alone, which takes no memory.
    pub fn into_work(self) -> Work
        ensures { result ≡ self.work }
    {
        let Fragment { work, .. } = self;
        work
    }
}

/// What `Nodes::take` answers.
#[derive(Drop)]
pub enum Take {
    /// No leaf is wanted.
    Ripe,
    /// A wanted leaf.
    Taken(Work),
    /// A leaf is wanted, none may be taken, and so many leaves are out, at least one.
    AllOut(usize),
    /// A leaf is wanted, none may be taken, and none is out.
    Dry,
}

/// What `Nodes::grow` answers.
#[derive(Drop)]
pub enum Growth {
    /// The tree has grown by these splits.
    Grown(List<Split>),
    /// No work that equals this one in every field is out.
    Gone(u128),
}

/// What `Nodes::give_back` answers.
#[derive(Clone, Copy, Debug, PartialEq, Eq)]
pub enum GiveBack {
    /// The leaf is in again.
    Back,
    /// No work that equals this one in every field is out.
    Gone(u128),
}
