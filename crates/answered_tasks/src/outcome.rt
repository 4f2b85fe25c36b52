use disp_model::{Entry, List};
use text_puts::Put;

/// What a task comes to, before anything of it is put or written.
#[derive(Drop)]
pub struct Answer {
    /// The history of the search.
    pub journal: List<Entry>,
    /// What is to be put before the lines are written, in this order.
    pub puts: List<Put>,
    /// The lines to be written, each with its end.
    pub lines: List<List<u8>>,
    /// The status with which the program is to end.
    pub status: u8,
}
