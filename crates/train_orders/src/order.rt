ghost use Rattle.std.specs.Prelude.{◌≡◌, ◌+◌, ◌<◌, ◌^◌, ℕ, ◌∷◌, ◌++◌, [], true, IfOk, IfSome, OnOk, length, slice_get, Some};
ghost use Rattle.disp_model.specs.WellFormed.{IsAcyclic};
ghost use Rattle.train_orders.specs.Orders.{IsInside, IsOrder, Searches, IsAt, IsOpened, Opens, Closes, SearchSteps};

use disp_model::{Memory, Operation};
use std::alloc::Global;

/// How far a search has come that puts the operations of a train in an order.
#[derive(Drop)]
struct Search {
    /// Which operations the search has come to.
    opened: Vec<bool>,
    /// How many successors of each operation are known to stand in the order.
    passed: Vec<usize>,
    /// The operations that wait for their successors, each a successor of the one before.
    path: Vec<u32>,
    /// The operations so far, each behind all of its successors.
    order: Vec<u32>,
}

/// Comes to an operation for the first time.
fn open(search: &mut Search, number: u32) -> Result<(), Memory>
    requires { number < length search.old.opened.items }
    ensures { OnOk result (Opens number search.old search.new) }
{
    search.path.push(number)?;
    search.opened[number as usize] = true;
    Ok(())
}

/// Puts the operation at the end of the path into the order.
fn close(search: &mut Search, at: u32) -> Result<(), Memory>
    requires { IsAt search.old.path.items at }
    ensures { OnOk result (Closes at search.old search.new) }
{
    search.path.pop();
    search.order.push(at)?;
    Ok(())
}

/// The successor of an operation at a place among its successors.
fn successor(operation: &Operation, place: usize) -> Option<u32>
    ensures value { result ≡ slice_get operation.now.next place }
    ensures fits { IfSome result (λ _. place + 1 < 2 ^ 64) }
{
    operation.next.as_slice().get(place).copied()
}

/// Goes on from the operation at the end of the path: to its next successor, or past it.
fn step(search: &mut Search, train: &[Operation], at: u32) -> Result<(), Memory>
    requires inside { IsInside train.now }
    requires acyclic { IsAcyclic train.now }
    requires searches { Searches train.now search.old }
    requires at { IsAt search.old.path.items at }
    ensures { OnOk result (SearchSteps train.now search.old search.new) }
{
    let passed = search.passed[at as usize];
    match successor(&train[at as usize], passed) {
        Some(next) => {
            if search.opened[next as usize] {
                search.passed[at as usize] = passed + 1;
                Ok(())
            } else {
                open(search, next)?;
                Ok(())
            }
        }
        None => {
            close(search, at)?;
            Ok(())
        }
    }
}

/// Goes on until no operation waits.
fn finish(search: &mut Search, train: &[Operation]) -> Result<(), Memory>
    requires inside { IsInside train.now }
    requires acyclic { IsAcyclic train.now }
    requires searches { Searches train.now search.old }
    ensures searches { OnOk result (Searches train.now search.new) }
    ensures opened { OnOk result ((o : ℕ) → IsOpened search.old.opened.items o
        → IsOpened search.new.opened.items o) }
    ensures ends { OnOk result (search.new.path.items ≡ []) }
{
    while let Some(at) = search.path.last().copied() {
        step(search, train, at)?;
    }
    Ok(())
}

/// Comes to an operation, unless the search has been there, and to all that follow it.
fn visit(search: &mut Search, train: &[Operation], start: u32) -> Result<(), Memory>
    requires inside { IsInside train.now }
    requires acyclic { IsAcyclic train.now }
    requires searches { Searches train.now search.old }
    requires empty { search.old.path.items ≡ [] }
    requires start { start < length train.now }
    ensures searches { OnOk result (Searches train.now search.new) }
    ensures opened { OnOk result ((o : ℕ) → IsOpened search.old.opened.items o
        → IsOpened search.new.opened.items o) }
    ensures start { OnOk result (IsOpened search.new.opened.items start) }
    ensures ends { OnOk result (search.new.path.items ≡ []) }
{
    if search.opened[start as usize] {
        return Ok(());
    }
    open(search, start)?;
    finish(search, train)
}

/// The operations of a train, each behind all of its successors, so that the entry is the last.
/// Takes time linear in the operations and their successors.
pub fn order_of(alloc: Global, train: &[Operation]) -> Result<Vec<u32>, Memory>
    requires inside { IsInside train.now }
    requires acyclic { IsAcyclic train.now }
    requires fits { length train.now < 2 ^ 32 }
    ensures { IfOk result (λ order. IsOrder train.now order.items) }
{
    let mut search = Search {
        opened: vec![in alloc; false; train.len()]?,
        passed: vec![in alloc; 0; train.len()]?,
        path: Vec::new(alloc),
        order: Vec::with_capacity(alloc, train.len())?,
    };
    for start in 0..train.len() {
        visit(&mut search, train, start as u32)?;
    }
    Ok(search.order)
}
