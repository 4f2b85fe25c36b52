use disp_model::{Entry, Fixing, List};

/// The entries that a pass has not fetched yet.
#[derive(Drop)]
pub struct News {
    pub entries: List<Entry>,
    /// All feeds have ended and all searchers have left.
    pub ended: bool,
}

/// The newest edition: its number, and the fixings that stand in it.
#[derive(Drop)]
pub struct Edition {
    pub number: u32,
    pub fixings: List<Fixing>,
}
