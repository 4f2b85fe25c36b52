use disp_model::Problem;

/// How much is done for a problem: the more trains it has, the more, between two limits, but the
/// less the more operations it has, since each step takes the longer.
#[derive(Clone, Copy)]
pub(crate) struct Amount {
    /// For each train.
    pub for_train: u32,
    /// At least so much,
    pub fewest: u32,
    /// at most so much,
    pub most: u32,
    /// and at most so much for all operations together.
    pub for_operations: u64,
}

/// How many operations a problem has.
pub(crate) fn count_operations(problem: &Problem) -> u64 {
    let mut count = 0u64;
    for train in problem.trains.as_slice() {
        count = count.saturating_add(train.len() as u64);
    }
    count
}

impl Amount {
    /// The amount for a problem.
    pub(crate) fn of(&self, problem: &Problem) -> u32 {
        let trains = u32::try_from(problem.trains.len()).unwrap_or(u32::MAX);
        let room = self.for_operations / count_operations(problem).max(1);
        trains
            .saturating_mul(self.for_train)
            .max(self.fewest)
            .min(self.most)
            .min(u32::try_from(room).unwrap_or(u32::MAX))
    }
}
