/// An arc between two nodes.
#[derive(Clone, Copy, Debug, PartialEq, Eq)]
pub struct Arc {
    pub from: u32,
    pub to: u32,
    /// How much later the node `to` is, at least.
    pub length: u64,
}
