/// Why a node of a tree is refused: the first of these that holds of it. All but the first two are
/// of leaves in places where every train has an allowed route.
#[derive(Clone, Copy, Debug, PartialEq, Eq)]
pub enum Why {
    /// A train, an operation or a component is named that is not there.
    BadName,
    /// The branch has a wrong choice or number of children, the node has no place, or the tree ends
    /// where a place is left.
    BadChoice,
    /// The leaf says that some train has no allowed route.
    HasRoute,
    /// A cycle has fewer than two operations.
    NotCycle,
    /// A walk has no operation.
    EmptyWalk,
    /// An operation is not forced.
    NotForced,
    /// No arc leads from an operation to the next, or from the last of a cycle to the first.
    BadArc,
    /// A walk that is to be late is not longer than the upper of its end.
    NotLate,
    /// Two walks are to one component.
    RepeatedComponent,
    /// A train is listed twice.
    RepeatedTrain,
    /// A walk is to a component of a listed train, or one of a listed train ends on another.
    WrongTrain,
    /// A walk ends elsewhere than at the operation of its component.
    WrongEnd,
    /// Costs are shown where the verdict is that no plan is valid.
    NoVerdict,
    /// The costs add up to `bound`, below the verdict's `cost`.
    BelowCost { bound: u128, cost: u64 },
}

/// What the checker answers of a tree: accepted, or the first node in preorder, counted from 0,
/// that is refused, and why.
#[derive(Clone, Copy, Debug, PartialEq, Eq)]
pub enum Checked {
    Accepted,
    Refused { node: usize, why: Why },
}
