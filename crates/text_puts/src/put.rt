use plain_values::{List, Text};

/// What is to be put on the shelf.
#[derive(Drop)]
pub struct Put {
    /// The name of the file.
    pub name: Text,
    /// What the file is to hold.
    pub bytes: List<u8>,
}
