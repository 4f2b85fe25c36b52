use disp_model::Decision;

/// What a searcher was given a leaf with.
#[derive(Clone, Copy, Debug, PartialEq, Eq)]
pub struct Errand {
    pub bound: u64,
    pub best: Option<u64>,
    pub seen: u64,
    pub edition: u32,
    pub allowance: u32,
}

/// The parent of a place, by its number, and the decision that leads from it.
#[derive(Clone, Copy, Debug, PartialEq, Eq)]
pub struct Above {
    pub parent: u32,
    pub decision: Decision,
}

/// A branch, a leaf that is known dead, or another leaf.
#[derive(Clone, Copy, Debug, PartialEq, Eq)]
pub enum Kind {
    Branch,
    Dead,
    Open,
}

/// A place of the tree. `shows` is the place of its node among all nodes that were kept, `next` the
/// number of the place behind it in preorder. Of a leaf `bound` is its kept bound, `out` what it is
/// out with, and `examined` the edition that it is marked for.
#[derive(Clone, Copy, Debug, PartialEq, Eq)]
pub struct Place {
    pub above: Option<Above>,
    pub next: Option<u32>,
    pub shows: u32,
    pub kind: Kind,
    pub bound: u64,
    pub out: Option<Errand>,
    pub examined: Option<u32>,
}
