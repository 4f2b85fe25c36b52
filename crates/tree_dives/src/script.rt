use disp_model::{Choice, Decision, Memory};
use std::alloc::Global;

/// A child of a scripted branch that branches too.
#[derive(Clone, Copy)]
pub struct Below {
    /// The decision that leads to it.
    pub decision: Decision,
    /// Where its branch stands.
    pub place: usize,
}

/// What a script says of a node.
#[derive(Drop)]
struct Branch {
    choice: Choice,
    below: Vec<Below>,
    /// How many branches a tree has that follows the script from here on.
    size: usize,
}

/// Which choices to take from a node down: branches that were thought out before, each behind those
/// to which it leads. It is advice, and nothing rests on it.
#[derive(Drop)]
pub struct Script {
    /// The decisions of the node where it begins.
    above: Vec<Decision>,
    branches: Vec<Branch>,
    /// Where the branch of that node stands.
    first: Option<usize>,
}

/// Whether a decision is one of those between which a choice is.
fn is_between(choice: Choice, decision: Decision) -> bool {
    match (choice, decision) {
        (Choice::Route(at), Decision::Go { op, .. }) => at == op,
        (Choice::Order(one, other), Decision::First { a, b }) => {
            (a == one && b == other) || (a == other && b == one)
        }
        (Choice::Run(at), Decision::Run(op)) => at == op,
        (Choice::Run(at), Decision::Skip(op)) => at == op,
        _ => false,
    }
}

impl Branch {
    /// A copy. Fails for memory alone.
    fn copied(&self, alloc: Global) -> Result<Branch, Memory> {
        Ok(Branch {
            choice: self.choice,
            below: Vec::from_slice(alloc, self.below.as_slice())?,
            size: self.size,
        })
    }

    /// Where the branch behind a decision stands.
    fn behind(&self, decision: Decision) -> Option<usize> {
        for below in self.below.iter() {
            if below.decision == decision {
                return Some(below.place);
            }
        }
        None
    }
}

impl Script {
    /// A script that says nothing yet of what is below the node of these decisions. Fails for
    /// memory alone.
    pub fn new(alloc: Global, above: &[Decision]) -> Result<Script, Memory> {
        Ok(Script {
            above: Vec::from_slice(alloc, above)?,
            branches: Vec::new(alloc),
            first: None,
        })
    }

    /// A copy. Fails for memory alone.
    pub fn copied(&self, alloc: Global) -> Result<Script, Memory> {
        let mut branches = Vec::with_capacity(alloc, self.branches.len())?;
        for branch in self.branches.iter() {
            branches.push(branch.copied(alloc)?)?;
        }
        Ok(Script {
            above: Vec::from_slice(alloc, self.above.as_slice())?,
            branches,
            first: self.first,
        })
    }

    /// Whether it begins at the root, so that it says something of each part of the tree.
    pub fn is_whole(&self) -> bool {
        self.above.is_empty()
    }

    /// Adds a branch of which these children branch too, and gives its place. Fails for memory
    /// alone.
    pub fn add(&mut self, choice: Choice, below: Vec<Below>) -> Result<usize, Memory> {
        let place = self.branches.len();
        let mut size: usize = 1;
        for child in below.iter() {
            size = size.saturating_add(self.size(child.place));
        }
        self.branches.push(Branch {
            choice,
            below,
            size,
        })?;
        Ok(place)
    }

    /// How many branches a tree has that follows the script from the branch at a place on. Where
    /// several lead to one it has that as often.
    pub fn size(&self, place: usize) -> usize {
        match self.branches.get(place) {
            Some(branch) => branch.size,
            None => 0,
        }
    }

    /// How many branches a tree has that follows the script.
    pub fn branches(&self) -> usize {
        match self.first {
            Some(place) => self.size(place),
            None => 0,
        }
    }

    /// Has the script begin with the branch at a place.
    pub fn begin_at(&mut self, place: Option<usize>) {
        self.first = place;
    }

    /// The choice of the branch at a place.
    pub(crate) fn choice(&self, place: usize) -> Option<Choice> {
        Some(self.branches.get(place)?.choice)
    }

    /// How many branches there are.
    pub(crate) fn len(&self) -> usize {
        self.branches.len()
    }

    /// Where it begins.
    pub(crate) fn first(&self) -> Option<usize> {
        self.first
    }

    /// Those of some decisions that come behind the node where it begins, if they lead there.
    pub(crate) fn below<'a>(&self, decisions: &'a [Decision]) -> Option<&'a [Decision]> {
        decisions.strip_prefix(self.above.as_slice())
    }

    /// Whether a decision is one of the choice of the branch at a place.
    pub(crate) fn decides(&self, place: usize, decision: Decision) -> bool {
        match self.branches.get(place) {
            Some(branch) => is_between(branch.choice, decision),
            None => false,
        }
    }

    /// Where the branch stands behind a decision of the one at a place.
    pub(crate) fn behind(&self, place: usize, decision: Decision) -> Option<usize> {
        self.branches.get(place)?.behind(decision)
    }

    /// The branch behind the one at a place, of which the choice is not open: behind the decision
    /// that holds, or the first one where that is not known.
    pub(crate) fn passed(&self, place: usize, held: Option<Decision>) -> Option<usize> {
        let branch = self.branches.get(place)?;
        match held {
            Some(decision) => branch.behind(decision),
            None => Some(branch.below.first()?.place),
        }
    }
}
