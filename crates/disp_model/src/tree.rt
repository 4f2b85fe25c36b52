use crate::decision::Choice;
use crate::train::Op;
use plain_values::{Copied, List, Memory};

/// A walk of operations to the operation of a component.
#[derive(Drop)]
pub struct ComponentWalk {
    /// The component, by its place in the problem.
    pub component: u32,
    pub walk: List<Op>,
}

/// A train, and walks to operations of it, which show what its components cost at least.
#[derive(Drop)]
pub struct TrainWalks {
    pub train: u32,
    pub walks: List<List<Op>>,
}

/// Why a place of the tree needs no branch.
#[derive(Drop)]
pub enum Leaf {
    /// Some train has no allowed route.
    NoRoute,
    /// Operations with an arc from each to the next, and from the last to the first.
    Cycle(List<Op>),
    /// A walk longer than the upper of its end.
    Late(List<Op>),
    /// Walks to distinct components that cost as much as the verdict.
    Costs(List<ComponentWalk>),
    /// Walks to distinct components, and other trains, which cost together as much as the verdict.
    Shares {
        walks: List<ComponentWalk>,
        trains: List<TrainWalks>,
    },
}

/// A node of a tree.
#[derive(Drop)]
pub enum TreeNode {
    /// A branch, with as many children.
    Branch { choice: Choice, children: u32 },
    Leaf(Leaf),
}

/// A tree: its nodes in preorder, the children of a branch in the order of its choice.
pub type Tree = List<TreeNode>;

/// What a tree shows: no valid plan costs less, or none is valid.
#[derive(Clone, Copy, Debug, PartialEq, Eq)]
pub enum Verdict {
    Optimal(u64),
    Infeasible,
}

impl Copied for Verdict {
    fn copy(&self) -> Result<Verdict, Memory> {
        Ok(*self)
    }
}

impl Copied for ComponentWalk {
    fn copy(&self) -> Result<ComponentWalk, Memory> {
        Ok(ComponentWalk {
            component: self.component,
            walk: self.walk.copy()?,
        })
    }
}

impl Copied for TrainWalks {
    fn copy(&self) -> Result<TrainWalks, Memory> {
        Ok(TrainWalks {
            train: self.train,
            walks: self.walks.copy()?,
        })
    }
}

impl Copied for Leaf {
    fn copy(&self) -> Result<Leaf, Memory> {
        match self {
            Leaf::NoRoute => Ok(Leaf::NoRoute),
            Leaf::Cycle(nodes) => Ok(Leaf::Cycle(nodes.copy()?)),
            Leaf::Late(walk) => Ok(Leaf::Late(walk.copy()?)),
            Leaf::Costs(walks) => Ok(Leaf::Costs(walks.copy()?)),
            Leaf::Shares { walks, trains } => Ok(Leaf::Shares {
                walks: walks.copy()?,
                trains: trains.copy()?,
            }),
        }
    }
}

impl Copied for TreeNode {
    fn copy(&self) -> Result<TreeNode, Memory> {
        match self {
            TreeNode::Branch { choice, children } => Ok(TreeNode::Branch {
                choice: *choice,
                children: *children,
            }),
            TreeNode::Leaf(leaf) => Ok(TreeNode::Leaf(leaf.copy()?)),
        }
    }
}
