use crate::advice::Start;
use crate::holds::Holds;
use crate::line::Line;
use crate::stage::Stage;
use crate::windows::{Window, Windows, windows_of};
use disp_model::{Memory, Operation};
use std::alloc::Global;

/// A window of an operation, by its place.
#[derive(Clone, Copy)]
pub(crate) struct Spot {
    pub op: u32,
    pub window: usize,
}

/// A way to start an operation: when, what the starts up to it cost, and from where it comes.
#[derive(Clone, Copy)]
pub(crate) struct Label {
    pub time: u64,
    pub cost: u64,
    pub before: Option<Spot>,
}

/// How an operation is entered: from `low` on and before `limit`, at a cost so far.
#[derive(Clone, Copy)]
struct Step {
    low: u64,
    limit: u64,
    cost: u64,
    before: Option<Spot>,
}

/// Whether a way is better than one that may be known: it costs less, or as much and starts
/// earlier.
fn is_better(label: Label, known: Option<Label>) -> bool {
    match known {
        None => true,
        Some(known) => {
            label.cost < known.cost || (label.cost == known.cost && label.time < known.time)
        }
    }
}

/// Enters an operation in a window, where it can be entered and is better than what is known.
fn enter(window: &mut Window, stage: &Stage, min: u64, step: Step) {
    let time = step.low.max(stage.lower).max(window.from);
    let end = time.saturating_add(min);
    if time > stage.upper || time >= step.limit || end >= window.until {
        return;
    }
    let label = Label {
        time,
        cost: step.cost.saturating_add(stage.cost(time)),
        before: step.before,
    };
    if is_better(label, window.label) {
        window.label = Some(label);
    }
}

/// Enters an operation in each of its windows.
fn enter_each(windows: &mut Windows, op: u32, stage: &Stage, min: u64, step: Step) {
    let (begin, end) = windows.range_behind(op, step.low);
    for place in begin..end {
        let Some(window) = windows.get_mut(place) else {
            break;
        };
        if window.from >= step.limit {
            break;
        }
        enter(window, stage, min, step);
    }
}

/// A search for the best run of a train.
#[derive(Drop)]
struct Search<'a> {
    train: &'a [Operation],
    line: &'a Line,
    windows: Windows,
}

/// Enters an operation from a step.
fn enter_op(search: &mut Search<'_>, op: u32, step: Step) {
    let Some(operation) = search.train.get(op as usize) else {
        return;
    };
    let Some(stage) = search.line.stage(op) else {
        return;
    };
    let min = u64::from(operation.min);
    enter_each(&mut search.windows, op, stage, min, step);
}

/// Goes on from a spot to what may come next.
fn go_on(search: &mut Search<'_>, operation: &Operation, spot: Spot) {
    let Some(window) = search.windows.get(spot.window) else {
        return;
    };
    let Some(label) = window.label else {
        return;
    };
    let step = Step {
        low: label.time.saturating_add(u64::from(operation.min)),
        limit: window.until,
        cost: label.cost,
        before: Some(spot),
    };
    for next in operation.next.as_slice() {
        if search.line.allows(spot.op, *next) {
            enter_op(search, *next, step);
        }
    }
}

/// Goes on from each window of an operation.
fn go_on_each(search: &mut Search<'_>, op: u32) {
    let train = search.train;
    let Some(operation) = train.get(op as usize) else {
        return;
    };
    let (begin, end) = search.windows.range(op);
    for window in begin..end {
        go_on(search, operation, Spot { op, window });
    }
}

/// The window of an operation with the way that costs least, the earliest of several.
fn best_spot(windows: &Windows, op: u32) -> Option<Spot> {
    let mut best = None;
    let mut least = u64::MAX;
    let (begin, end) = windows.range(op);
    for window in begin..end {
        if let Some(label) = windows.get(window)?.label {
            if best.is_none() || label.cost < least {
                least = label.cost;
                best = Some(Spot { op, window });
            }
        }
    }
    best
}

/// The way to a spot, of at most so many operations.
fn run_to(
    alloc: Global,
    windows: &Windows,
    last: Option<Spot>,
    most: usize,
) -> Result<Vec<Start>, Memory> {
    let mut run = Vec::new(alloc);
    let mut here = last;
    for _ in 0..most {
        let Some(spot) = here else {
            break;
        };
        let Some(label) = windows.get(spot.window).and_then(|window| window.label) else {
            break;
        };
        run.push(Start {
            op: spot.op,
            time: label.time,
        })?;
        here = label.before;
    }
    run.reverse();
    Ok(run)
}

/// Goes through the operations of a train in their order.
fn go_through(search: &mut Search<'_>) {
    let line = search.line;
    if let Some(entry) = line.order.first() {
        let step = Step {
            low: 0,
            limit: u64::MAX,
            cost: 0,
            before: None,
        };
        enter_op(search, *entry, step);
    }
    for op in line.order.as_slice() {
        go_on_each(search, *op);
    }
}

/// The best run of a train in the times that are free: in each window as cheap as it can be, and
/// then as early. None, where there is none. It takes time in the windows of the operations.
pub(crate) fn best_run(
    alloc: Global,
    holds: &Holds,
    train: &[Operation],
    line: &Line,
) -> Result<Vec<Start>, Memory> {
    let mut search = Search {
        train,
        line,
        windows: windows_of(alloc, holds, train)?,
    };
    go_through(&mut search);
    let windows = &search.windows;
    match line.order.last() {
        Some(exit) => run_to(alloc, windows, best_spot(windows, *exit), line.order.len()),
        None => Ok(Vec::new(alloc)),
    }
}
