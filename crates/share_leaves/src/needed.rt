use disp_model::{Component, Memory, Operation};
use route_marks::Row;
use share_bound::cost_of;
use std::alloc::Global;

/// When operations are entered at the earliest, and what is known of their starts.
#[derive(Drop)]
struct Entered {
    /// When each is entered.
    times: Vec<u64>,
    /// Which start later than they are entered.
    later: Vec<bool>,
    /// At which something is paid.
    paid: Vec<bool>,
}

/// Keeps the earlier of two times for each operation of a row.
fn enter(times: &mut Vec<u64>, row: &[u32], time: u64) {
    for next in row {
        if let Some(known) = times.get_mut(*next as usize) {
            *known = time.min(*known);
        }
    }
}

/// Whether an operation is marked.
fn is_marked(marks: &[bool], op: u32) -> bool {
    marks.get(op as usize).copied() == Some(true)
}

/// Marks an operation.
fn mark(marks: &mut Vec<bool>, op: u32) {
    if let Some(mark) = marks.get_mut(op as usize) {
        *mark = true;
    }
}

/// Goes on from an operation to those of its row.
fn go_on(entered: &mut Entered, operations: &[Operation], op: u32, row: &[u32], lengths: &[u64]) {
    let at = op as usize;
    let (Some(operation), Some(length)) = (operations.get(at), lengths.get(at)) else {
        return;
    };
    let Some(time) = entered.times.get(at).copied() else {
        return;
    };
    if time < *length {
        mark(&mut entered.later, op);
    }
    let left = time.max(*length).saturating_add(u64::from(operation.min));
    enter(&mut entered.times, row, left);
}

/// When the operations of a train are entered at the earliest, and which start later than that.
fn enter_all(
    alloc: Global,
    operations: &[Operation],
    order: &[u32],
    rows: &[Row],
    lengths: &[u64],
) -> Result<Entered, Memory> {
    let mut entered = Entered {
        times: vec![in alloc; u64::MAX; operations.len()]?,
        later: vec![in alloc; false; operations.len()]?,
        paid: vec![in alloc; false; operations.len()]?,
    };
    if let Some(entry) = order.last() {
        enter(&mut entered.times, &[*entry], 0);
    }
    for place in (0..order.len()).rev() {
        if let Some(row) = rows.get(place) {
            go_on(
                &mut entered,
                operations,
                order[place],
                row.as_slice(),
                lengths,
            );
        }
    }
    Ok(entered)
}

/// Marks the operations at which a component costs something.
fn mark_paid(entered: &mut Entered, components: &[Component], lengths: &[u64]) {
    for component in components {
        let at = component.operation as usize;
        if let (Some(time), Some(length)) = (entered.times.get(at), lengths.get(at)) {
            if cost_of(component, *length.max(time)) > 0 {
                mark(&mut entered.paid, component.operation);
            }
        }
    }
}

/// Whether what is paid somewhere depends on when one of these is entered.
fn depends(entered: &Entered, needed: &[bool], row: &[u32]) -> bool {
    row.iter().any(|next| is_marked(needed, *next) && !is_marked(&entered.later, *next))
}

/// Which operations of a train decide what is paid at some operation, by their lengths and rows of
/// an order of them from the exit back: those that start later than they are entered, and behind
/// which none does so up to that one. It is advice: nothing is claimed of it.
pub(crate) fn deciding(
    alloc: Global,
    operations: &[Operation],
    components: &[Component],
    order: &[u32],
    rows: &[Row],
    lengths: &[u64],
) -> Result<Vec<bool>, Memory> {
    let mut entered = enter_all(alloc, operations, order, rows, lengths)?;
    mark_paid(&mut entered, components, lengths);
    let mut needed = vec![in alloc; false; operations.len()]?;
    let mut wanted = vec![in alloc; false; operations.len()]?;
    for place in 0..order.len() {
        let op = order[place];
        if let Some(row) = rows.get(place) {
            if is_marked(&entered.paid, op) || depends(&entered, &needed, row.as_slice()) {
                mark(&mut needed, op);
                if is_marked(&entered.later, op) {
                    mark(&mut wanted, op);
                }
            }
        }
    }
    Ok(wanted)
}
