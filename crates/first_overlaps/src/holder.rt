ghost use Rattle.std.specs.Prelude.{◌≡◌, ◌<◌, ◌+◌, ◌++◌, ◌∷◌, [], List, Contains, length, IfOk, OnOk};
ghost use Rattle.disp_model.specs.declared.problem.Problem.{Problem as ProblemOf};
ghost use Rattle.disp_model.specs.Arcs.{listings_of};
ghost use Rattle.disp_model.specs.Numbers.{number_of};
ghost use Rattle.event_windows.specs.Operations.{HasOperation, IsAtNumber, AreOperationsOf};
ghost use Rattle.first_overlaps.specs.Holders.{AreHeldBelow, AreHeldWith, AreHoldersOf};

use disp_model::{Listing, Memory, Op, Problem};
use problem_facts::listings_of;
use std::alloc::Global;

/// An operation that lists a resource, with its number and the release time.
#[derive(Clone, Copy)]
pub(crate) struct Holder {
    pub op: Op,
    pub number: u32,
    pub release: u32,
}

/// No holders yet of so many resources.
fn none_yet(alloc: Global, problem: &Problem) -> Result<Vec<Vec<Holder>>, Memory>
    ensures { IfOk result (λ each. AreHeldBelow problem.now 0 each.items) }
{
    let mut each = Vec::with_capacity(alloc, problem.names.len())?;
    for _ in 0..problem.names.len() {
        each.push(Vec::new(alloc))?;
    }
    Ok(each)
}

/// Puts a holder behind those of a listing's resource.
fn put(each: &mut Vec<Vec<Holder>>, holder: Holder, listing: Listing) -> Result<(), Memory>
    requires there { listing.resource < length each.old.items }
    requires release { holder.release ≡ listing.release }
    ensures count { length each.new.items ≡ length each.old.items }
    ensures held { (problem : ProblemOf) (listings : List Listing)
        → HasOperation problem holder.op → number_of problem holder.op ≡ holder.number
        → Contains (listings_of problem holder.op) listing
        → OnOk result (AreHeldWith problem holder.op listings each.old.items
        → AreHeldWith problem holder.op (listings ++ listing ∷ []) each.new.items) }
{
    each[listing.resource as usize].push(holder)?;
    Ok(())
}

/// Puts the operation of a number behind the holders of what it lists.
fn put_each(
    each: &mut Vec<Vec<Holder>>,
    problem: &Problem,
    op: Op,
    number: u32,
) -> Result<(), Memory>
    requires at { IsAtNumber problem.now op number }
    requires held { AreHeldBelow problem.now number each.old.items }
    ensures { OnOk result (AreHeldBelow problem.now (number + 1) each.new.items) }
{
    for listing in listings_of(problem, op) {
        let holder = Holder {
            op,
            number,
            release: listing.release,
        };
        put(each, holder, *listing)?;
    }
    Ok(())
}

/// The operations of a problem that list each resource.
pub(crate) fn holders_of(
    alloc: Global,
    problem: &Problem,
    ops: &[Op],
) -> Result<Vec<Vec<Holder>>, Memory>
    requires { AreOperationsOf problem.now ops.now }
    ensures { IfOk result (λ each. AreHoldersOf problem.now each.items) }
{
    let mut each = none_yet(alloc, problem)?;
    for (number, op) in ops.iter().enumerate() {
        put_each(&mut each, problem, *op, number as u32)?;
    }
    Ok(each)
}
