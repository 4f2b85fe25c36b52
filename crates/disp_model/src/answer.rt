use crate::plan::Plan;
use crate::tree::Tree;
use plain_values::{Copied, Memory};

/// Why a search ended without a verdict.
#[derive(Clone, Copy, Debug, PartialEq, Eq)]
pub enum Unfinished {
    /// So many branchings were spent, the whole budget.
    Budget(u64),
    /// There is a newer edition, of this number.
    Newer(u32),
}

/// How a search ended.
#[derive(Clone, Copy, Debug, PartialEq, Eq)]
pub enum Answer {
    Optimal(u64),
    Infeasible,
    Unfinished(Unfinished),
    Memory,
}

/// What a search on one thread found: its answer, the best plan, the tree, how many branchings it
/// spent, and the cost that no valid plan is below.
#[derive(Drop)]
pub struct Alone {
    pub answer: Answer,
    pub plan: Option<Plan>,
    pub tree: Tree,
    pub spent: u64,
    pub bound: u64,
}

impl Copied for Answer {
    fn copy(&self) -> Result<Answer, Memory> {
        Ok(*self)
    }
}

impl Copied for Alone {
    fn copy(&self) -> Result<Alone, Memory> {
        let plan = match &self.plan {
            Some(plan) => Some(plan.copy()?),
            None => None,
        };
        Ok(Alone {
            answer: self.answer,
            plan,
            tree: self.tree.copy()?,
            spent: self.spent,
            bound: self.bound,
        })
    }
}
