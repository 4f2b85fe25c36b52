use disp_model::{Component, Memory, Operation};
use std::alloc::Global;

/// What the insertion asks of an operation of a train: the problem's window, made narrower by the
/// fixings, what it must go on to, and what its start costs.
#[derive(Drop)]
pub(crate) struct Stage {
    pub lower: u64,
    pub upper: u64,
    /// The one operation that may come next, where it is fixed.
    pub only: Option<u32>,
    /// Whether a fixing wants it to be run.
    pub wanted: bool,
    /// How many operations that are wanted stand before it in the order of the train.
    pub passed: usize,
    pub costs: Vec<Component>,
}

/// What a component costs at a start.
fn charge(component: &Component, time: u64) -> u64 {
    let threshold = u64::from(component.threshold);
    if time < threshold {
        return 0;
    }
    let late = u64::saturating_sub(time, threshold);
    u64::from(component.coeff)
        .saturating_mul(late)
        .saturating_add(u64::from(component.increment))
}

impl Stage {
    /// What a start at a time costs.
    pub(crate) fn cost(&self, time: u64) -> u64 {
        let mut total = 0u64;
        for component in self.costs.as_slice() {
            total = total.saturating_add(charge(component, time));
        }
        total
    }

    /// Lets it start at one time alone.
    pub(crate) fn start_at(&mut self, time: u64) {
        self.lower = self.lower.max(time);
        self.upper = self.upper.min(time);
        self.wanted = true;
    }

    /// Lets it start from a time on.
    pub(crate) fn start_from(&mut self, time: u64) {
        self.lower = self.lower.max(time);
    }

    /// Lets one operation alone come next.
    pub(crate) fn go_on_to(&mut self, next: u32) {
        self.only = Some(next);
        self.wanted = true;
    }
}

/// An operation as the problem has it, without costs.
fn stage_of(alloc: Global, operation: &Operation) -> Stage {
    let upper = match operation.upper {
        Some(upper) => u64::from(upper),
        None => u64::MAX,
    };
    Stage {
        lower: u64::from(operation.lower),
        upper,
        only: None,
        wanted: false,
        passed: 0,
        costs: Vec::new(alloc),
    }
}

/// The operations of a train as the problem has them, without costs.
pub(crate) fn stages_of(alloc: Global, train: &[Operation]) -> Result<Vec<Stage>, Memory> {
    let mut stages = Vec::with_capacity(alloc, train.len())?;
    for operation in train {
        stages.push(stage_of(alloc, operation))?;
    }
    Ok(stages)
}
