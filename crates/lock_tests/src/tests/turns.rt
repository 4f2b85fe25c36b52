ghost use Rattle.std.specs.Prelude.{◌≡◌, ℕ, [], ◌∷◌, ◌++◌, IsNone, IsTrue};
ghost use Rattle.turn_lock.specs.Turn.{lock_of, own_lock, view};

mod log;

use log::{Log, Note};
use std::alloc::Allocator;
use std::sync::Wait;
use std::sync::atomic::AtomicBool;
use std::sync::atomic::Ordering::SeqCst;
use std::test::Fail;
use std::thread::{join, yield_now};
use turn_lock::{Busy, History, Pass, Turn};

// How often a thread looks at a flag before it gives up.
const LOOKS: u64 = 200_000_000;

// Whether the flag was raised within that many looks.
fn is_raised(flag: &AtomicBool) -> bool {
    for _ in 0..LOOKS {
        if flag.load(SeqCst) {
            return true;
        }
        yield_now();
    }
    false
}

// Adds a note under the lock, or nothing for no value.
fn note<R: Wait>(
    rt: &R,
    lock: &Turn<Log>,
    mut pass: Pass<Log>,
    by: u32,
    value: Option<u32>,
) -> (Pass<Log>, bool)
    requires lock { own_lock pass ≡ lock_of lock.now }
    requires caller { (view pass).caller ≡ by }
    ensures lock { own_lock result.0 ≡ lock_of lock.now }
    ensures role { ((view result.0).first ≡ (view pass).first) × ((view result.0).caller ≡ by)
        × ((view result.0).given ≡ (view pass).given) × ((view result.0).back ≡ (view pass).back) }
    ensures none { IsNone value → (view result.0).mine ≡ (view pass).mine }
    ensures one { IsTrue result.1 → (place : ℕ)
        × ((view result.0).mine ≡ (view pass).mine ++ place ∷ []) }
{
    let added = lock.with(rt, &mut pass, |log| log.note(by, value));
    (pass, added)
}

#[test]
fn two_callers_add_an_entry_each(rt: HostRuntime) -> Result<(), Fail> {
    let (lock, mut first) = Turn::new(rt.alloc(), Log::new(rt.alloc(), 7)?, 1)?;
    let second = lock.split(&mut first, 2);
    let ((first, _), (second, _)) = join(
        &rt,
        || note(&rt, &lock, first, 1, Some(10)),
        || note(&rt, &lock, second, 2, Some(20)),
    );
    let (mut first, _) = note(&rt, &lock, first, 1, None);
    assert!(rt; lock.grown(&mut first) == 2);
    lock.join(&mut first, second);
    let log = lock.close(first);
    assert!(rt; log.number == 7);
    let one = Note {
        by: Some(1),
        value: 10,
    };
    let two = Note {
        by: Some(2),
        value: 20,
    };
    assert!(rt;
        log.notes.as_slice() == [one, two].as_slice()
            || log.notes.as_slice() == [two, one].as_slice()
    );
    Ok(())
}

// Holds the turn, with one flag up, until the other is raised.
fn hold<R: Wait>(
    rt: &R,
    lock: &Turn<Log>,
    mut pass: Pass<Log>,
    held: &AtomicBool,
    done: &AtomicBool,
) -> (Pass<Log>, bool)
    requires { own_lock pass ≡ lock_of lock.now }
{
    let saw_done = lock.with(rt, &mut pass, |_log| {
        held.store(true, SeqCst);
        is_raised(done)
    });
    (pass, saw_done)
}

// Tries to add a note while the turn is held.
fn try_while_held(
    lock: &Turn<Log>,
    mut pass: Pass<Log>,
    held: &AtomicBool,
    done: &AtomicBool,
) -> (Pass<Log>, bool, Result<bool, Busy>)
    requires lock { own_lock pass ≡ lock_of lock.now }
    requires caller { (view pass).caller ≡ 1 }
    ensures lock { own_lock result.0 ≡ lock_of lock.now }
    ensures caller { (view result.0).caller ≡ 1 }
{
    let saw_held = is_raised(held);
    let answer = lock.try_with(&mut pass, |log| log.note(1, Some(10)));
    done.store(true, SeqCst);
    (pass, saw_held, answer)
}

#[test]
fn a_try_is_busy_while_a_section_runs(rt: HostRuntime) -> Result<(), Fail> {
    let (lock, mut first) = Turn::new(rt.alloc(), Log::new(rt.alloc(), 7)?, 1)?;
    let second = lock.split(&mut first, 2);
    let held = AtomicBool::new(false);
    let done = AtomicBool::new(false);
    let ((_second, saw_done), (mut first, saw_held, answer)) = join(
        &rt,
        || hold(&rt, &lock, second, &held, &done),
        || try_while_held(&lock, first, &held, &done),
    );
    assert!(rt; saw_held && saw_done, "a thread gave up");
    assert!(rt; answer == Err(Busy));
    assert!(rt; lock.try_with(&mut first, |log| log.note(1, Some(10))) == Ok(true));
    assert!(rt; lock.grown(&mut first) == 1);
    Ok(())
}

fn is_send<T: Send>(_value: &T) {}

fn is_sync<T: Sync>(_value: &T) {}

fn cross_threads<S: History + Send, A: Allocator + Send + Sync>(lock: &Turn<S, A>, pass: &Pass<S>) {
    is_send(lock);
    is_sync(lock);
    is_send(pass);
}

#[test]
fn a_lock_is_shared_and_its_passes_are_sent(rt: HostRuntime) -> Result<(), Fail> {
    let (lock, pass) = Turn::new(rt.alloc(), Log::new(rt.alloc(), 7)?, 1)?;
    cross_threads(&lock, &pass);
    Ok(())
}
