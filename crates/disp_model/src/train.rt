use plain_values::{Copied, List, Memory};

/// The name of an operation: its train, and its number in that train.
#[derive(Clone, Copy, Debug, PartialEq, Eq, PartialOrd, Ord)]
pub struct Op {
    pub train: u32,
    pub op: u32,
}

/// A resource that an operation holds, by its number, and the release time: how long after the
/// operation's end another train may not hold it.
#[derive(Clone, Copy, Debug, PartialEq, Eq)]
pub struct Listing {
    pub resource: u32,
    pub release: u32,
}

/// An operation of a train. It may start from `lower` on, until `upper` where there is one, and
/// lasts `min` at least. After it comes one of `next`, operations of the same train; the last has
/// none.
#[derive(Drop)]
pub struct Operation {
    pub lower: u32,
    pub upper: Option<u32>,
    pub min: u32,
    pub listings: List<Listing>,
    pub next: List<u32>,
}

/// A train: its operations, which `next` refers to by their places in the list.
pub type Train = List<Operation>;

/// A part of the cost. Where the operation starts at t it costs `coeff` for each unit of time from
/// `threshold` to t, and `increment` from `threshold` on; where it is not run it costs nothing.
#[derive(Clone, Copy, Debug, PartialEq, Eq)]
pub struct Component {
    pub train: u32,
    pub operation: u32,
    pub threshold: u32,
    pub increment: u32,
    pub coeff: u32,
}

impl Copied for Op {
    fn copy(&self) -> Result<Op, Memory> {
        Ok(*self)
    }
}

impl Copied for Listing {
    fn copy(&self) -> Result<Listing, Memory> {
        Ok(*self)
    }
}

impl Copied for Component {
    fn copy(&self) -> Result<Component, Memory> {
        Ok(*self)
    }
}

impl Copied for Operation {
    fn copy(&self) -> Result<Operation, Memory> {
        Ok(Operation {
            lower: self.lower,
            upper: self.upper,
            min: self.min,
            listings: self.listings.copy()?,
            next: self.next.copy()?,
        })
    }
}
