use disp_model::Entry;

/// How a run of the program ended.
#[derive(Drop)]
pub struct Done {
    /// The status with which the program ends.
    pub status: u8,
    /// The history of the search, empty where there was none.
    pub journal: Vec<Entry>,
}
