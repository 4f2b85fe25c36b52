use disp_model::{Memory, Operation};
use std::alloc::Global;

/// Notes that one more of the operations before these is not in the order yet.
fn raise(waiting: &mut Vec<u32>, next: &[u32]) {
    for op in next {
        if let Some(count) = waiting.get_mut(*op as usize) {
            *count = count.saturating_add(1);
        }
    }
}

/// Notes that one of the operations before these is in the order now; those for which it was the
/// last are put in too.
fn lower(waiting: &mut Vec<u32>, order: &mut Vec<u32>, next: &[u32]) -> Result<(), Memory> {
    for op in next {
        if let Some(count) = waiting.get_mut(*op as usize) {
            *count = count.saturating_sub(1);
            if *count == 0 {
                order.push(*op)?;
            }
        }
    }
    Ok(())
}

/// For each operation how many operations it may follow.
fn counts(alloc: Global, train: &[Operation]) -> Result<Vec<u32>, Memory> {
    let mut waiting = vec![in alloc; 0u32; train.len()]?;
    for operation in train {
        raise(&mut waiting, operation.next.as_slice());
    }
    Ok(waiting)
}

/// The operations that may follow none.
fn entries(alloc: Global, waiting: &[u32]) -> Result<Vec<u32>, Memory> {
    let mut order = Vec::new(alloc);
    for (op, count) in waiting.iter().enumerate() {
        if *count == 0 {
            if let Ok(op) = u32::try_from(op) {
                order.push(op)?;
            }
        }
    }
    Ok(order)
}

/// The operations of a train, each before all that may follow it: the entry is the first, the exit
/// the last.
pub(crate) fn order_of(alloc: Global, train: &[Operation]) -> Result<Vec<u32>, Memory> {
    let mut waiting = counts(alloc, train)?;
    let mut order = entries(alloc, waiting.as_slice())?;
    for place in 0..train.len() {
        let Some(op) = order.get(place).copied() else {
            break;
        };
        if let Some(operation) = train.get(op as usize) {
            lower(&mut waiting, &mut order, operation.next.as_slice())?;
        }
    }
    Ok(order)
}
