use disp_model::Event;

/// An operation of a train's route: its event, and its node among the paths.
#[derive(Clone, Copy)]
pub(crate) struct Stop {
    pub(crate) event: Event,
    pub(crate) node: u32,
}
