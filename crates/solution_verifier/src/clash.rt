/// An event that holds a resource against a later one: their places in the plan, and the resource.
#[derive(Clone, Copy)]
pub(crate) struct Clash {
    pub holder: usize,
    pub event: usize,
    pub resource: u32,
}
