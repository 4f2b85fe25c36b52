// The parts of a problem that is made.
ghost use Rattle.std.specs.Prelude.{◌≡◌, ◌≤◌, ◌<◌, ◌-◌, ◌++◌, [], ◌∷◌, IfOk, codes};
ghost use Rattle.std.specs.Fmt.{decimal};
ghost use Rattle.instance_maker.specs.Made.{made_lasting, train_from, late_from, grace, first_train, second_train, first_late, second_late};

use crate::draws::Pair;
use disp_model::{Component, List, Listing, Memory, Operation, Text, Train};
use std::alloc::Global;

/// An operation from a time on.
fn lasting(
    alloc: Global,
    lower: u32,
    min: u32,
    listings: &[Listing],
    next: &[u32],
) -> Result<Operation, Memory>
    ensures { IfOk result (λ o. o ≡ made_lasting lower min listings.now next.now) }
{
    Ok(Operation {
        lower,
        upper: None,
        min,
        listings: List::from_vec(listings.to_vec(alloc)?),
        next: List::from_vec(next.to_vec(alloc)?),
    })
}

/// A train from a time on, which holds the resource for so long.
fn train_from(alloc: Global, lower: u32, resource: u32, min: u32) -> Result<Train, Memory>
    ensures { IfOk result (λ train. train ≡ train_from lower resource min) }
{
    let listing = Listing {
        resource,
        release: 0,
    };
    let entry = lasting(alloc, lower, 5, &[], &[1])?;
    let block = lasting(alloc, 0, min, &[listing], &[2])?;
    let exit = lasting(alloc, 0, 0, &[], &[])?;
    Ok(List::from_vec(vec![in alloc; entry, block, exit]?))
}

/// The component of a train.
fn late_from(train: u32, threshold: u32) -> Component
    ensures { result ≡ late_from train threshold }
{
    Component {
        train,
        operation: 2,
        threshold,
        increment: 0,
        coeff: 1,
    }
}

/// The first train of a pair.
pub(crate) fn first_train(alloc: Global, k: u32, pair: &Pair) -> Result<Train, Memory>
    requires { k < 1000 }
    ensures { IfOk result (λ train. train ≡ first_train k pair.now) }
{
    train_from(alloc, 100 * k, k, u32::from(pair.first))
}

/// The second train of a pair.
pub(crate) fn second_train(alloc: Global, k: u32, pair: &Pair) -> Result<Train, Memory>
    requires { k < 1000 }
    ensures { IfOk result (λ train. train ≡ second_train k pair.now) }
{
    let lower = 100 * k + u32::from(pair.gap);
    train_from(alloc, lower, k, u32::from(pair.second))
}

/// The component of the first train of a pair.
pub(crate) fn first_late(k: u32, pair: &Pair) -> Component
    requires { k < 1000 }
    ensures { result ≡ first_late k pair.now }
{
    let first = pair.first;
    let threshold = 100 * k + 5 + u32::from(first);
    late_from(2 * k, threshold)
}

/// How much later the second train of a pair may be without a cost.
fn grace(k: u32, pair: &Pair) -> u8
    ensures { result ≡ grace k pair.now }
{
    if k < 4 {
        0
    } else {
        pair.first.saturating_sub(pair.gap)
    }
}

/// The component of the second train of a pair.
pub(crate) fn second_late(k: u32, pair: &Pair) -> Component
    requires { k < 1000 }
    ensures { result ≡ second_late k pair.now }
{
    let grace = u32::from(grace(k, pair));
    let threshold = 100 * k + u32::from(pair.gap) + 5 + u32::from(pair.second) + grace;
    late_from(2 * k + 1, threshold)
}

/// The name of a resource.
pub(crate) fn name_of(alloc: Global, k: u32) -> Result<Text, Memory>
    ensures { IfOk result (λ name. name ≡ codes "p" ++ decimal k) }
{
    Ok(Text::from_string(format!(in alloc; "p{k}")?))
}
