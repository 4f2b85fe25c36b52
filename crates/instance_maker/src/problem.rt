// The problem of a number.
ghost use Rattle.std.specs.Prelude.{◌≡◌, ◌≤◌, ◌<◌, ◌/◌, ◌^◌, ℕ, length, IfOk};
ghost use Rattle.instance_maker.specs.Draws.{pair_at, pairs_of};
ghost use Rattle.instance_maker.specs.Made.{made_train, made_late, made_trains, made_components, names_of, pair_count, IsMade};

use crate::draws::{Pair, pair_of, pairs_of};
use crate::parts::{first_late, first_train, name_of, second_late, second_train};
use disp_model::{Component, List, Memory, Problem, Text, Train};
use std::alloc::Global;

/// The train of a place, by its pair.
fn train_at(alloc: Global, pair: &Pair, t: u32) -> Result<Train, Memory>
    requires { t < 2000 }
    ensures { (number : ℕ) → pair.now ≡ pair_at number (t / 2)
        → IfOk result (λ train. train ≡ made_train number t) }
{
    if t % 2 == 0 {
        first_train(alloc, t / 2, pair)
    } else {
        second_train(alloc, t / 2, pair)
    }
}

/// The component of a place, by its pair.
fn late_at(pair: &Pair, t: u32) -> Component
    requires { t < 2000 }
    ensures { (number : ℕ) → pair.now ≡ pair_at number (t / 2) → result ≡ made_late number t }
{
    if t % 2 == 0 {
        first_late(t / 2, pair)
    } else {
        second_late(t / 2, pair)
    }
}

/// The trains of pairs.
fn trains_of(alloc: Global, pairs: &[Pair], count: u32) -> Result<List<Train>, Memory>
    requires few { count ≤ 2000 }
    requires enough { pair_count count ≤ length pairs.now }
    ensures { (number : ℕ) → pairs.now ≡ pairs_of number (pair_count count)
        → IfOk result (λ trains. trains ≡ made_trains number count) }
{
    let mut trains = List::new(alloc);
    for t in 0..count {
        let pair = pair_of(pairs, t / 2);
        trains.push(train_at(alloc, &pair, t)?)?;
    }
    Ok(trains)
}

/// Their components.
fn components_of(alloc: Global, pairs: &[Pair], count: u32) -> Result<List<Component>, Memory>
    requires few { count ≤ 2000 }
    requires enough { pair_count count ≤ length pairs.now }
    ensures { (number : ℕ) → pairs.now ≡ pairs_of number (pair_count count)
        → IfOk result (λ components. components ≡ made_components number count) }
{
    let mut components = List::new(alloc);
    for t in 0..count {
        let pair = pair_of(pairs, t / 2);
        components.push(late_at(&pair, t))?;
    }
    Ok(components)
}

/// The names of the first so many resources.
fn names_of(alloc: Global, count: u32) -> Result<List<Text>, Memory>
    ensures { IfOk result (λ names. names ≡ names_of count) }
{
    let mut names = List::new(alloc);
    for k in 0..count {
        names.push(name_of(alloc, k)?)?;
    }
    Ok(names)
}

/// The problem of a number, of so many trains.
///
/// # Errors
///
/// `Memory` where memory runs out.
pub fn make(alloc: Global, number: u32, trains: u32) -> Result<Problem, Memory>
    requires number { number < 2 ^ 31 }
    requires trains { trains ≤ 2000 }
    ensures { IfOk result (IsMade number trains) }
{
    let count = (trains + 1) / 2;
    let pairs = pairs_of(alloc, number, count)?;
    Ok(Problem {
        trains: trains_of(alloc, &pairs, trains)?,
        components: components_of(alloc, &pairs, trains)?,
        names: names_of(alloc, count)?,
    })
}
