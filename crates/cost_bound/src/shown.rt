use disp_model::{ComponentWalk, List};

/// What plans cost at least at a node, and walks to distinct components that show it.
#[derive(Drop)]
pub struct Bound {
    pub cost: u64,
    pub walks: List<ComponentWalk>,
}
