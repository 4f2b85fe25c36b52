ghost use Rattle.std.specs.Prelude.{◌≡◌, ◌<◌, ◌↔◌, ◌++◌, ◌∷◌, ℕ, [], All, IfOk, OnOk, IsTrue, false, length, map};
ghost use Rattle.disp_model.specs.Plan.{run_of};
ghost use Rattle.train_insertion.specs.Targets.{run_in, started_in, followed_in, start_at, RunAsIn};

use disp_model::{Event, List, Memory, Op, Problem};
use std::alloc::Global;
use std::marker::Model;

/// An operation of a train, and when it starts.
#[derive(Clone, Copy, Debug, PartialEq, Eq)]
pub struct Start {
    pub op: u32,
    pub time: u64,
}

/// What a search may aim at: for each train the operations that it runs, one after the other, each
/// with its start. A train without one has none.
#[derive(Drop)]
pub struct Target {
    runs: Vec<List<Start>>,
}

impl Model for Target {
    ghost use Rattle.std.specs.Prelude.{List};
    ghost use Rattle.train_insertion.specs.declared.advice.Start.{Start};

    ghost Value = { List (List Start) };

    ghost view = { λ t. t.runs.items };
}

/// A run without operations for each of so many trains.
pub(crate) fn no_runs(alloc: Global, trains: usize) -> Result<Vec<List<Start>>, Memory>
    ensures { IfOk result (λ runs. RunAsIn trains [] runs.items) }
{
    let mut runs = Vec::with_capacity(alloc, trains)?;
    for _ in 0..trains {
        runs.push(List::new(alloc))?;
    }
    Ok(runs)
}

/// When an operation starts in a run.
fn started_in(run: &[Start], op: u32) -> Option<u64>
    ensures { result ≡ started_in run.now op }
{
    for start in run {
        if start.op == op {
            return Some(start.time);
        }
    }
    None
}

/// The operation that follows an operation in a run.
fn followed_in(run: &[Start], op: u32) -> Option<u32>
    ensures { result ≡ followed_in false run.now op }
{
    let mut here = false;
    for start in run {
        if here {
            return Some(start.op);
        }
        here = start.op == op;
    }
    None
}

/// Adds an event behind the others of its train.
fn add(runs: &mut Vec<List<Start>>, event: &Event) -> Result<(), Memory>
    ensures long { length runs.new.items ≡ length runs.old.items }
    ensures each { OnOk result ((t : ℕ) → t < length runs.old.items → run_in runs.new.items t
        ≡ run_in runs.old.items t ++ map start_at (run_of t (event.now ∷ []))) }
{
    if let Some(run) = runs.get_mut(event.train as usize) {
        run.push(Start {
            op: event.operation,
            time: event.time,
        })?;
    }
    Ok(())
}

/// The target that a plan of so many trains is.
pub(crate) fn of_events(alloc: Global, trains: usize, plan: &[Event]) -> Result<Target, Memory>
    ensures { IfOk result (RunAsIn trains plan.now) }
{
    let mut runs = no_runs(alloc, trains)?;
    for event in plan {
        add(&mut runs, event)?;
    }
    Ok(Target::of_runs(runs))
}

impl Target {
    /// The target that has no train.
    pub fn none(alloc: Global) -> Target
        ensures { result ≡ [] }
    {
        Target {
            runs: Vec::new(alloc),
        }
    }

    /// The target of these runs.
    pub(crate) fn of_runs(runs: Vec<List<Start>>) -> Target
        ensures { result ≡ runs.items }
    {
        Target { runs }
    }

    /// The target that a plan is: each train runs what the plan has of it. Events of trains that
    /// the problem has not are left out.
    ///
    /// # Errors
    ///
    /// `Memory` where memory runs out.
    pub fn of_plan(alloc: Global, problem: &Problem, plan: &[Event]) -> Result<Target, Memory>
        ensures { IfOk result (RunAsIn (length problem.now.trains) plan.now) }
    {
        of_events(alloc, problem.trains.len(), plan)
    }

    /// Whether each train of it runs something.
    pub fn is_whole(&self) -> bool
        ensures { IsTrue result ↔ All (λ run. 0 < length run) self.now }
    {
        self.runs.iter().all(|run| run.len() > 0)
    }

    /// What a train runs; nothing, where it has none of that number.
    pub fn run(&self, train: u32) -> &[Start]
        ensures { result.now ≡ run_in self.now train }
    {
        match self.runs.get(train as usize) {
            Some(run) => run.as_slice(),
            None => &[],
        }
    }

    /// The operation that follows an operation of a train, where the train runs both.
    pub fn next_of(&self, op: Op) -> Option<u32>
        ensures { result ≡ followed_in false (run_in self.now op.train) op.op }
    {
        followed_in(self.run(op.train), op.op)
    }

    /// When an operation starts, where its train runs it.
    pub fn start_of(&self, op: Op) -> Option<u64>
        ensures { result ≡ started_in (run_in self.now op.train) op.op }
    {
        started_in(self.run(op.train), op.op)
    }
}
