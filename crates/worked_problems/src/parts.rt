// What the problems are made of.
ghost use Rattle.std.specs.Prelude.{◌≡◌, IfOk};
ghost use Rattle.worked_problems.specs.Worked.{worked_component};

use disp_model::{Component, List, Listing, Memory, Operation, Text};
use std::alloc::Global;

/// An operation that may start from 0 until a time, lasts so long, holds resources, and goes on so.
pub(crate) fn lasting(
    alloc: Global,
    upper: Option<u32>,
    min: u32,
    listings: &[Listing],
    next: &[u32],
) -> Result<Operation, Memory>
    ensures { IfOk result
        (λ o. o
        ≡ record {
          lower = 0;
          upper = upper;
          min = min;
          listings = listings.now;
          next = next.now;
        }) }
{
    Ok(Operation {
        lower: 0,
        upper,
        min,
        listings: List::from_vec(Vec::from_slice(alloc, listings)?),
        next: List::from_vec(Vec::from_slice(alloc, next)?),
    })
}

/// A component that costs so much for each unit of time, and so much from 0 on.
pub(crate) fn costing(train: u32, operation: u32, coeff: u32, increment: u32) -> Component
    ensures { result ≡ worked_component train operation coeff increment }
{
    Component {
        train,
        operation,
        threshold: 0,
        increment,
        coeff,
    }
}

pub(crate) fn name(alloc: Global, text: &str) -> Result<Text, Memory>
    ensures { IfOk result (λ t. t ≡ text.now) }
{
    Ok(Text::from_string(String::from_str(alloc, text)?))
}
