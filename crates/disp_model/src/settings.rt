use plain_values::{Copied, Memory};

/// How the search branches.
#[derive(Clone, Copy, Debug, PartialEq, Eq)]
pub enum Rule {
    /// The routes of all trains first, in the order of the trains, then the first clash of the
    /// earliest plan; a node's bound counts operations that each allowed route has.
    Fixed,
    /// Any open choice; a node's bound counts the share of each train.
    Free,
}

/// What a run is given: how many branchings it may spend on an edition, and how it branches.
#[derive(Clone, Copy, Debug, PartialEq, Eq)]
pub struct Settings {
    pub budget: u32,
    pub rule: Rule,
}

impl Copied for Settings {
    fn copy(&self) -> Result<Settings, Memory> {
        Ok(*self)
    }
}
