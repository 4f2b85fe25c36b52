// When the operations of two trains may start: each train from 2 on, and its exit from 4 until 20.
use disp_model::{Fixing, Memory, Op, Problem};
use event_windows::{Window, operations, windows};
use std::alloc::Global;
use std::panic::Expect;
use std::process::Abort;
use worked_problems::two_windows;

fn started(at_train: u64, at_op: u64, time: u64) -> Fixing {
    Fixing::Started {
        at_train,
        at_op,
        time,
    }
}

fn not_before(at_train: u64, at_op: u64, time: u64) -> Fixing {
    Fixing::NotBefore {
        at_train,
        at_op,
        time,
    }
}

fn op(train: u32, op: u32) -> Op {
    Op { train, op }
}

fn window(lower: u64, upper: Option<u64>) -> Window {
    Window { lower, upper }
}

/// The window of a number.
fn window_at(
    alloc: Global,
    problem: &Problem,
    fixings: &[Fixing],
    number: usize,
) -> Result<Option<Window>, Memory> {
    let windows = windows(alloc, problem, fixings)?;
    Ok(windows.get(number).copied())
}

/// The window of a number is this one.
fn check(
    rt: &impl Abort,
    alloc: Global,
    problem: &Problem,
    fixings: &[Fixing],
    number: usize,
    wanted: Window,
) {
    let window = window_at(alloc, problem, fixings, number).expect(rt, "a window");
    assert_eq!(rt; window, Some(wanted));
}

#[test]
fn operations_stand_in_the_order_of_their_numbers(rt: HostRuntime) {
    let problem = two_windows(rt.alloc()).expect(&rt, "two windows");
    let ops = operations(rt.alloc(), &problem).expect(&rt, "operations");
    let wanted = [op(0, 0), op(0, 1), op(1, 0), op(1, 1)];
    assert_eq!(rt; ops.as_slice(), wanted.as_slice());
}

/// What fixings make of the windows.
fn check_all(rt: &impl Abort, alloc: Global, problem: &Problem) {
    let fixings = [started(0, 0, 7), started(0, 0, 9)];
    check(rt, alloc, problem, &fixings, 0, window(7, Some(7)));
    let fixings = [not_before(1, 0, 5), not_before(1, 0, 3)];
    check(rt, alloc, problem, &fixings, 2, window(5, None));
    let fixings = [not_before(1, 1, 5), started(1, 1, 4)];
    check(rt, alloc, problem, &fixings, 3, window(4, Some(4)));
    let fixings = [not_before(0, 1, 5), started(9, 1, 4)];
    check(rt, alloc, problem, &fixings, 1, window(5, Some(20)));
    let fixings = [started(9, 0, 8), not_before(0, 2, 9)];
    check(rt, alloc, problem, &fixings, 2, window(2, None));
}

#[test]
fn fixings_move_windows(rt: HostRuntime) {
    let problem = two_windows(rt.alloc()).expect(&rt, "two windows");
    check_all(&rt, rt.alloc(), &problem);
}
