ghost use Rattle.disp_model.specs.WellFormed.{IsWellFormed};

use crate::train::{Component, Train};
use plain_values::{Copied, List, Memory, Text};

/// A problem: trains, the components of the cost, and the names of the resources, which listings
/// refer to by their places. Each problem is well formed: its numbers and counts are within the
/// limits, each index refers to something, each train has one entry, one exit and no cycle, and its
/// costs fit 63 bits.
#[derive(Drop)]
pub struct Problem {
    pub trains: List<Train>,
    pub components: List<Component>,
    pub names: List<Text>,
    pub ghost well_formed: { IsWellFormed trains components names },
}

impl Copied for Problem {
    fn copy(&self) -> Result<Problem, Memory> {
        Ok(Problem {
            trains: self.trains.copy()?,
            components: self.components.copy()?,
            names: self.names.copy()?,
        })
    }
}
