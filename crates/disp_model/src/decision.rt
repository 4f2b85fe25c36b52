use crate::train::Op;
use plain_values::{Copied, Memory};

/// What a branch of the search decides. `Go`: where the operation is run, `next` of its train
/// follows it. `First`: where both are run, a stands before b. `Run`: the operation is run. `Skip`:
/// it is not.
#[derive(Clone, Copy, Debug, PartialEq, Eq)]
pub enum Decision {
    Go { op: Op, next: u32 },
    First { a: Op, b: Op },
    Run(Op),
    Skip(Op),
}

/// What a branch chooses. A route choice has a child `Go` for each successor of the operation, in
/// the problem's order; an order choice has the children `First { a, b }` and `First { b, a }`; a
/// choice whether an operation is run has the children `Run` and `Skip`.
#[derive(Clone, Copy, Debug, PartialEq, Eq)]
pub enum Choice {
    Route(Op),
    Order(Op, Op),
    Run(Op),
}

impl Copied for Decision {
    fn copy(&self) -> Result<Decision, Memory> {
        Ok(*self)
    }
}

impl Copied for Choice {
    fn copy(&self) -> Result<Choice, Memory> {
        Ok(*self)
    }
}
