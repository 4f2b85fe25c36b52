use crate::advice::{Start, no_runs};
use crate::holds::Holds;
use crate::labels::best_run;
use crate::line::Line;
use disp_model::{List, Memory, Operation};
use std::alloc::Global;

/// How good a table is: how many trains it has not, and then what the others cost.
#[derive(Clone, Copy, Debug, PartialEq, Eq, PartialOrd, Ord)]
pub(crate) struct Worth {
    pub missing: u32,
    pub cost: u64,
}

/// Runs of trains, and what they hold.
#[derive(Drop)]
pub(crate) struct Table {
    pub runs: Vec<List<Start>>,
    holds: Holds,
    pub worth: Worth,
    /// How often a train was put in along its best route.
    pub inserted: u32,
}

/// What a run costs.
fn cost_of(line: &Line, run: &[Start]) -> u64 {
    let mut total = 0u64;
    for start in run {
        if let Some(stage) = line.stage(start.op) {
            total = total.saturating_add(stage.cost(start.time));
        }
    }
    total
}

impl Table {
    /// The table without trains, of so many, and so many resources.
    pub(crate) fn new(alloc: Global, trains: usize, resources: usize) -> Result<Table, Memory> {
        Ok(Table {
            runs: no_runs(alloc, trains)?,
            holds: Holds::new(alloc, resources)?,
            worth: Worth {
                missing: 0,
                cost: 0,
            },
            inserted: 0,
        })
    }

    /// The table without trains, with room for what another one holds.
    pub(crate) fn like(alloc: Global, other: &Table) -> Result<Table, Memory> {
        Ok(Table {
            runs: no_runs(alloc, other.runs.len())?,
            holds: Holds::as_many(alloc, &other.holds)?,
            worth: Worth {
                missing: 0,
                cost: 0,
            },
            inserted: 0,
        })
    }

    /// Copies of the runs of the trains.
    pub(crate) fn copy_runs(&self, alloc: Global) -> Result<Vec<List<Start>>, Memory> {
        let mut runs = Vec::with_capacity(alloc, self.runs.len())?;
        for run in self.runs.as_slice() {
            runs.push(List::from_vec(Vec::from_slice(alloc, run.as_slice())?))?;
        }
        Ok(runs)
    }

    /// What a train costs.
    pub(crate) fn cost(&self, line: &Line, train: u32) -> u64 {
        cost_of(line, self.run(train))
    }

    /// What a train runs.
    pub(crate) fn run(&self, train: u32) -> &[Start] {
        match self.runs.get(train as usize) {
            Some(run) => run.as_slice(),
            None => &[],
        }
    }

    /// Adds a train with a run, or as missing where the run has no operations.
    pub(crate) fn add(
        &mut self,
        operations: &[Operation],
        line: &Line,
        train: u32,
        run: Vec<Start>,
    ) -> Result<(), Memory> {
        if run.is_empty() {
            self.worth.missing = self.worth.missing.saturating_add(1);
            return Ok(());
        }
        self.holds.take_run(operations, run.as_slice())?;
        self.worth.cost = self
            .worth
            .cost
            .saturating_add(cost_of(line, run.as_slice()));
        if let Some(place) = self.runs.get_mut(train as usize) {
            *place = List::from_vec(run);
        }
        Ok(())
    }

    /// What a train costs along its best route into the times that are free, 0 where it finds none.
    pub(crate) fn best_cost(
        &self,
        alloc: Global,
        operations: &[Operation],
        line: &Line,
    ) -> Result<u64, Memory> {
        let run = best_run(alloc, &self.holds, operations, line)?;
        Ok(cost_of(line, run.as_slice()))
    }

    /// Puts a train in, along its best route into the times that are free.
    pub(crate) fn insert(
        &mut self,
        alloc: Global,
        operations: &[Operation],
        line: &Line,
        train: u32,
    ) -> Result<(), Memory> {
        self.inserted = self.inserted.saturating_add(1);
        let run = best_run(alloc, &self.holds, operations, line)?;
        self.add(operations, line, train, run)
    }
}
