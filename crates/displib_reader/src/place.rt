/// A key of an operation that the format names.
#[derive(Clone, Copy, Debug, PartialEq, Eq)]
pub enum OperationKey {
    StartLb,
    StartUb,
    MinDuration,
    Resources,
    Successors,
}

/// A key of a listing, a member of an operation's resources, that the format names.
#[derive(Clone, Copy, Debug, PartialEq, Eq)]
pub enum ListingKey {
    Resource,
    ReleaseTime,
}

/// A key of a component that the format names. `Kind` is the key `type`.
#[derive(Clone, Copy, Debug, PartialEq, Eq)]
pub enum ComponentKey {
    Kind,
    Train,
    Operation,
    Threshold,
    Increment,
    Coeff,
}

/// A place in the text of a problem. The numbers count the members of a list from 0: trains, then a
/// train's operations, then an operation's listings or successors; or components.
#[derive(Clone, Copy, Debug, PartialEq, Eq)]
pub enum Place {
    /// The whole value.
    Root,
    /// The list of trains.
    Trains,
    Train(u64),
    Operation(u64, u64),
    OperationKey(u64, u64, OperationKey),
    Listing(u64, u64, u64),
    ListingKey(u64, u64, u64, ListingKey),
    Successor(u64, u64, u64),
    /// The list of components.
    Objective,
    Component(u64),
    ComponentKey(u64, ComponentKey),
}
