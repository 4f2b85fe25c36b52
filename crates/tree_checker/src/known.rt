use decision_paths::DecisionPath;
use disp_model::Problem;
use node_facts::{FixingIndex, KnownTrains};
use problem_facts::OwnComponents;

/// A node, by its problem, fixings and decisions, with what is known of its trains, and the
/// components of each train.
#[derive(Clone, Copy)]
pub(crate) struct KnownNode<'a> {
    pub problem: &'a Problem,
    pub fixings: &'a FixingIndex,
    pub decisions: &'a DecisionPath,
    pub trains: &'a KnownTrains,
    pub own: &'a OwnComponents,
}
