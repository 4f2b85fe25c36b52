use crate::advice::{Start, Target};
use crate::draw::Draw;
use crate::line::{Line, lines_of};
use crate::table::{Table, Worth};
use disp_model::{Fixing, List, Memory, Problem, Train};
use std::alloc::Global;

/// How often a train is put in by default.
pub const INSERTIONS: u32 = 10_000;

/// How many places a train is moved at most.
const REACH: usize = 3;

/// Of so many trains that are drawn the one that is dearest beyond its least cost is moved.
const DRAWN: usize = 4;

/// So many moves of ten are to the front.
const TO_THE_FRONT: usize = 7;

/// A table may at first be dearer than the best one by this thousandth of its cost, and by less and
/// less as insertions are spent.
const SLACK: u64 = 20;

/// How many trains are taken over in the time in which one is put in.
const TAKEN_FOR_ONE: usize = 8;

/// What trains may be put into: so many resources, the trains, and each of them under the fixings.
#[derive(Drop)]
struct Task<'a> {
    resources: usize,
    trains: &'a [Train],
    lines: &'a [Line],
}

/// The table without trains.
fn no_table(alloc: Global, task: &Task<'_>) -> Result<Table, Memory> {
    Table::new(alloc, task.trains.len(), task.resources)
}

/// For each train its place in an order of them all, or else when it may be entered.
fn ranks_of(alloc: Global, lines: &[Line], order: &[u32]) -> Result<Vec<u64>, Memory> {
    let mut ranks = Vec::with_capacity(alloc, lines.len())?;
    for line in lines {
        ranks.push(line.entry())?;
    }
    if order.len() == lines.len() {
        for (place, train) in order.iter().enumerate() {
            if let Some(rank) = ranks.get_mut(*train as usize) {
                *rank = place as u64;
            }
        }
    }
    Ok(ranks)
}

/// Trains by their numbers: those of which a start is fixed first, then as in an order, or else by
/// when they may be entered.
fn first_order(alloc: Global, lines: &[Line], order: &[u32]) -> Result<Vec<u32>, Memory> {
    let ranks = ranks_of(alloc, lines, order)?;
    let mut keys = Vec::with_capacity(alloc, lines.len())?;
    for (train, line) in lines.iter().enumerate() {
        let rank = ranks.get(train).copied().unwrap_or(0);
        if let Ok(train) = u32::try_from(train) {
            keys.push((!line.started, rank, train))?;
        }
    }
    keys.sort_unstable();
    let mut order = Vec::with_capacity(alloc, keys.len())?;
    for key in keys.as_slice() {
        order.push(key.2)?;
    }
    Ok(order)
}

/// How the order of trains is changed.
#[derive(Clone, Copy, Debug, PartialEq, Eq)]
enum Move {
    /// The train at the first place is put at the second one.
    Shift,
    /// The trains at the two places change places.
    Swap,
}

/// A change of the order of trains, at two places.
#[derive(Clone, Copy, Debug, PartialEq, Eq)]
struct Trial {
    change: Move,
    from: usize,
    to: usize,
}

/// An order with the train at one place put at another.
fn shifted(alloc: Global, order: &[u32], from: usize, to: usize) -> Result<Vec<u32>, Memory> {
    let Some(train) = order.get(from) else {
        return Ok(Vec::from_slice(alloc, order)?);
    };
    let mut other = Vec::with_capacity(alloc, order.len())?;
    for (place, number) in order.iter().enumerate() {
        if place == to && to <= from {
            other.push(*train)?;
        }
        if place != from {
            other.push(*number)?;
        }
        if place == to && to > from {
            other.push(*train)?;
        }
    }
    Ok(other)
}

/// An order with the trains at two places changed.
fn swapped(alloc: Global, order: &[u32], one: usize, two: usize) -> Result<Vec<u32>, Memory> {
    let mut other = Vec::from_slice(alloc, order)?;
    if let (Some(first), Some(second)) = (order.get(one), order.get(two)) {
        if let Some(place) = other.get_mut(one) {
            *place = *second;
        }
        if let Some(place) = other.get_mut(two) {
            *place = *first;
        }
    }
    Ok(other)
}

/// An order after a trial.
fn changed(alloc: Global, order: &[u32], trial: Trial) -> Result<Vec<u32>, Memory> {
    match trial.change {
        Move::Shift => shifted(alloc, order, trial.from, trial.to),
        Move::Swap => swapped(alloc, order, trial.from, trial.to),
    }
}

/// The table of an order: the first trains as in an old table, so many, the others put in one by
/// one. It ends once it is worth less than this.
fn rebuilt(
    alloc: Global,
    task: &Task<'_>,
    old: &Table,
    order: &[u32],
    kept: usize,
    least: Worth,
) -> Result<Table, Memory> {
    let mut table = Table::like(alloc, old)?;
    for (place, train) in order.iter().enumerate() {
        if table.worth > least {
            break;
        }
        let old = if place < kept { Some(old) } else { None };
        put(alloc, task, &mut table, old, *train)?;
    }
    Ok(table)
}

/// Puts a train in: as in an old table, where one is given, else along its best route.
fn put(
    alloc: Global,
    task: &Task<'_>,
    table: &mut Table,
    old: Option<&Table>,
    train: u32,
) -> Result<(), Memory> {
    let Some(operations) = task.trains.get(train as usize) else {
        return Ok(());
    };
    let Some(line) = task.lines.get(train as usize) else {
        return Ok(());
    };
    match old {
        Some(old) => {
            let run = Vec::from_slice(alloc, old.run(train))?;
            table.add(operations.as_slice(), line, train, run)
        }
        None => table.insert(alloc, operations.as_slice(), line, train),
    }
}

/// What each train costs at least: its best run where it is alone.
fn floors_of(alloc: Global, task: &Task<'_>) -> Result<Vec<u64>, Memory> {
    let none = no_table(alloc, task)?;
    let mut floors = Vec::with_capacity(alloc, task.trains.len())?;
    for (train, line) in task.trains.iter().zip(task.lines) {
        floors.push(none.best_cost(alloc, train.as_slice(), line)?)?;
    }
    Ok(floors)
}

/// An order of trains, of which some stay in front, and the table that it makes; the best order so
/// far, the runs of its table, and its worth; and what all of it took.
#[derive(Drop)]
struct Climb {
    table: Table,
    order: Vec<u32>,
    front: usize,
    floors: Vec<u64>,
    best: Vec<u32>,
    runs: Vec<List<Start>>,
    worth: Worth,
    draw: Draw,
    spent: u32,
}

/// The first order, and its table.
fn start(alloc: Global, task: &Task<'_>, order: &[u32]) -> Result<Climb, Memory> {
    let order = first_order(alloc, task.lines, order)?;
    let least = Worth {
        missing: u32::MAX,
        cost: u64::MAX,
    };
    let none = no_table(alloc, task)?;
    let table = rebuilt(alloc, task, &none, order.as_slice(), 0, least)?;
    Ok(Climb {
        best: Vec::from_slice(alloc, order.as_slice())?,
        runs: table.copy_runs(alloc)?,
        worth: table.worth,
        spent: table.inserted,
        table,
        order,
        front: task.lines.iter().filter(|line| line.started).count(),
        floors: floors_of(alloc, task)?,
        draw: Draw::new(),
    })
}

/// What the train at a place of the order costs beyond its least cost.
fn excess(task: &Task<'_>, climb: &Climb, place: usize) -> u64 {
    let Some(train) = climb.order.get(place) else {
        return 0;
    };
    let floor = climb.floors.get(*train as usize).copied().unwrap_or(0);
    match task.lines.get(*train as usize) {
        Some(line) => climb.table.cost(line, *train).saturating_sub(floor),
        None => 0,
    }
}

/// The place of a train that may be moved: of some the dearest beyond its least cost.
fn drawn_place(task: &Task<'_>, climb: &mut Climb) -> usize {
    let count = climb.order.len().saturating_sub(climb.front);
    let mut dearest = climb.front.saturating_add(climb.draw.below(count));
    for _ in 1..DRAWN {
        let other = climb.front.saturating_add(climb.draw.below(count));
        if excess(task, climb, other) > excess(task, climb, dearest) {
            dearest = other;
        }
    }
    dearest
}

/// A change of the order that may help.
fn drawn(task: &Task<'_>, climb: &mut Climb) -> Trial {
    let from = drawn_place(task, climb);
    let far = climb.draw.below(REACH).saturating_add(1);
    let to = if climb.draw.below(10) < TO_THE_FRONT {
        from.saturating_sub(far).max(climb.front)
    } else {
        let last = climb.order.len().saturating_sub(1);
        from.saturating_add(far).min(last)
    };
    let change = if climb.draw.below(2) == 0 {
        Move::Swap
    } else {
        Move::Shift
    };
    Trial { change, from, to }
}

/// What a trial counts: the trains that it put in, and one for so many that it only took over.
fn trial_cost(inserted: u32, kept: usize) -> u32 {
    let taken = match u32::try_from(kept / TAKEN_FOR_ONE) {
        Ok(taken) => taken,
        Err(_) => u32::MAX,
    };
    inserted.saturating_add(taken).saturating_add(1)
}

/// The worth that a table must have to be gone on with, where so many of so many insertions are
/// spent.
fn least_worth(best: Worth, spent: u32, insertions: u32) -> Worth {
    let left = u64::from(insertions.saturating_sub(spent));
    let slack = (best.cost / 1000)
        .saturating_mul(SLACK)
        .saturating_mul(left);
    let more = slack.checked_div(u64::from(insertions)).unwrap_or(0);
    Worth {
        missing: best.missing,
        cost: best.cost.saturating_add(more),
    }
}

/// Changes the order, if the table is worth hardly less than the best one then.
fn try_change(
    alloc: Global,
    task: &Task<'_>,
    climb: &mut Climb,
    insertions: u32,
) -> Result<(), Memory> {
    let trial = drawn(task, climb);
    if trial.from == trial.to {
        climb.spent = climb.spent.saturating_add(1);
        return Ok(());
    }
    let order = changed(alloc, climb.order.as_slice(), trial)?;
    let least = least_worth(climb.worth, climb.spent, insertions);
    let kept = trial.from.min(trial.to);
    let table = rebuilt(alloc, task, &climb.table, order.as_slice(), kept, least)?;
    climb.spent = climb.spent.saturating_add(trial_cost(table.inserted, kept));
    if table.worth < climb.worth {
        climb.best = Vec::from_slice(alloc, order.as_slice())?;
        climb.runs = table.copy_runs(alloc)?;
        climb.worth = table.worth;
    }
    if table.worth <= least {
        climb.table = table;
        climb.order = order;
    }
    Ok(())
}

/// Whether no change can help: there is nothing to move, or nothing that costs.
fn is_done(climb: &Climb) -> bool {
    let count = climb.order.len().saturating_sub(climb.front);
    count < 2 || (climb.worth.missing == 0 && climb.worth.cost == 0)
}

/// The runs of the best table that changes of an order find, of so many insertions. The order is
/// the best one then.
fn climbed(
    alloc: Global,
    task: &Task<'_>,
    insertions: u32,
    order: &mut Vec<u32>,
) -> Result<Vec<List<Start>>, Memory> {
    let mut climb = start(alloc, task, order.as_slice())?;
    for _ in 0..insertions {
        if climb.spent >= insertions || is_done(&climb) {
            break;
        }
        try_change(alloc, task, &mut climb, insertions)?;
    }
    let Climb { best, runs, .. } = climb;
    *order = best;
    Ok(runs)
}

/// A target for trains under fixings.
pub(crate) fn target_of(
    alloc: Global,
    resources: usize,
    trains: &[Train],
    lines: &[Line],
    insertions: u32,
    order: &mut Vec<u32>,
) -> Result<Target, Memory> {
    let task = Task {
        resources,
        trains,
        lines,
    };
    Ok(Target::of_runs(climbed(alloc, &task, insertions, order)?))
}

/// A target for a problem under the fixings that stand: trains are put in one by one, those of
/// which a start is fixed first and then by when they may be entered, each along its best route
/// into the times that its resources are free. Then trains are moved in that order, those more
/// often that are dear, and the best table is kept, until so many have been put in. It begins with
/// the order that is given, where that has all trains, and leaves the best one in its place. A
/// train that finds no route is left out.
///
/// # Errors
///
/// `Memory` where memory runs out.
pub fn target(
    alloc: Global,
    problem: &Problem,
    fixings: &[Fixing],
    insertions: u32,
    order: &mut Vec<u32>,
) -> Result<Target, Memory> {
    let resources = problem.names.len();
    let trains = problem.trains.as_slice();
    let components = problem.components.as_slice();
    let lines = lines_of(alloc, trains, components, fixings)?;
    target_of(
        alloc,
        resources,
        trains,
        lines.as_slice(),
        insertions,
        order,
    )
}
