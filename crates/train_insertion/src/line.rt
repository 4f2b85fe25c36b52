use crate::order::order_of;
use crate::stage::{Stage, stages_of};
use disp_model::{Component, Fixing, Memory, Operation, Train};
use std::alloc::Global;

/// What the insertion asks of a train: its operations in an order in which each stands before all
/// that may follow it, and of each what the problem and the fixings say.
#[derive(Drop)]
pub(crate) struct Line {
    pub order: Vec<u32>,
    pub stages: Vec<Stage>,
    /// Whether a start of it is fixed.
    pub started: bool,
}

impl Line {
    /// What is asked of an operation.
    pub(crate) fn stage(&self, op: u32) -> Option<&Stage> {
        self.stages.get(op as usize)
    }

    /// When the train may be entered at the earliest.
    pub(crate) fn entry(&self) -> u64 {
        let Some(op) = self.order.first() else {
            return 0;
        };
        match self.stage(*op) {
            Some(stage) => stage.lower,
            None => 0,
        }
    }

    /// Whether an operation may come next after another: no fixing has another one come next, and
    /// none that is wanted is passed by.
    pub(crate) fn allows(&self, op: u32, next: u32) -> bool {
        let (Some(here), Some(there)) = (self.stage(op), self.stage(next)) else {
            return false;
        };
        if here.only.is_some_and(|only| only != next) {
            return false;
        }
        here.passed.saturating_add(usize::from(here.wanted)) == there.passed
    }

    /// Wants an operation.
    fn want(&mut self, op: u64) {
        if let Some(stage) = self.stages.get_mut(op as usize) {
            stage.wanted = true;
        }
    }

    /// Keeps a fixing of the train.
    fn keep(&mut self, op: u64, fixing: Fixing) {
        let Some(stage) = self.stages.get_mut(op as usize) else {
            return;
        };
        match fixing {
            Fixing::Started { time, .. } => {
                stage.start_at(time);
                self.started = true;
            }
            Fixing::Chosen { next, .. } => {
                stage.go_on_to(next.min(u64::from(u32::MAX)) as u32);
                self.want(next);
            }
            Fixing::NotBefore { time, .. } => stage.start_from(time),
        }
    }

    /// Counts for each operation the wanted ones that stand before it.
    fn count_wanted(&mut self) {
        let mut wanted = 0usize;
        for op in self.order.as_slice() {
            if let Some(stage) = self.stages.get_mut(*op as usize) {
                stage.passed = wanted;
                wanted = wanted.saturating_add(usize::from(stage.wanted));
            }
        }
    }
}

/// A train as the problem has it.
fn line_of(alloc: Global, train: &[Operation]) -> Result<Line, Memory> {
    Ok(Line {
        order: order_of(alloc, train)?,
        stages: stages_of(alloc, train)?,
        started: false,
    })
}

/// Keeps a fixing.
fn keep(lines: &mut Vec<Line>, fixing: Fixing) {
    let (train, op) = match fixing {
        Fixing::Started {
            at_train,
            at_op,
            ..
        } => (at_train, at_op),
        Fixing::Chosen {
            at_train,
            at_op,
            ..
        } => (at_train, at_op),
        Fixing::NotBefore {
            at_train,
            at_op,
            ..
        } => (at_train, at_op),
    };
    if let Some(line) = lines.get_mut(train as usize) {
        line.keep(op, fixing);
    }
}

/// Puts a component to the operation that it charges.
fn charge(lines: &mut Vec<Line>, component: &Component) -> Result<(), Memory> {
    if let Some(line) = lines.get_mut(component.train as usize) {
        if let Some(stage) = line.stages.get_mut(component.operation as usize) {
            stage.costs.push(*component)?;
        }
    }
    Ok(())
}

/// The trains as the problem has them, with what their starts cost.
fn charged_lines(
    alloc: Global,
    trains: &[Train],
    components: &[Component],
) -> Result<Vec<Line>, Memory> {
    let mut lines = Vec::with_capacity(alloc, trains.len())?;
    for train in trains {
        lines.push(line_of(alloc, train.as_slice())?)?;
    }
    for component in components {
        charge(&mut lines, component)?;
    }
    Ok(lines)
}

/// The trains of a problem under fixings.
pub(crate) fn lines_of(
    alloc: Global,
    trains: &[Train],
    components: &[Component],
    fixings: &[Fixing],
) -> Result<Vec<Line>, Memory> {
    let mut lines = charged_lines(alloc, trains, components)?;
    for fixing in fixings {
        keep(&mut lines, *fixing);
    }
    for line in lines.as_mut_slice() {
        line.count_wanted();
    }
    Ok(lines)
}
