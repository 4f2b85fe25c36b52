/// The first word of a node's line.
#[derive(Clone, Copy)]
pub(crate) enum Word {
    Route,
    Order,
    Run,
    NoRoute,
    Cycle,
    Late,
    Costs,
    Shares,
}

/// The version of a text.
#[derive(Clone, Copy)]
pub(crate) enum Version {
    First,
    Second,
    Third,
}
