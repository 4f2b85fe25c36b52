ghost use Rattle.std.specs.Prelude.{◌≡◌, ◌==◌, ◌++◌, ◌∷◌, [], List, MatchOption};
ghost use Rattle.std.specs.List.{list_any};
ghost use Rattle.disp_model.specs.declared.train.Listing.{Listing};
ghost use Rattle.disp_model.specs.Arcs.{listings_of, shared_listings, Conflicts};
ghost use Rattle.problem_facts.specs.Conflicts.{IsShared, IsConflict};

use disp_model::{Listing, Op, Problem};

/// What an operation lists: nothing where there is no such operation.
pub fn listings_of(problem: &Problem, op: Op) -> &[Listing]
    ensures { result.now ≡ listings_of problem.now op }
{
    let Some(train) = problem.trains.as_slice().get(op.train as usize) else {
        return &[];
    };
    match train.as_slice().get(op.op as usize) {
        Some(operation) => operation.listings.as_slice(),
        None => &[],
    }
}

/// Whether a resource is among those listed.
fn lists(listings: &[Listing], resource: u32) -> bool
    ensures { result ≡ list_any (λ k. k.resource == resource) listings.now }
{
    listings.iter().any(|listing| listing.resource == resource)
}

/// The greater of a release time that may be known and that of a listing, if the others have its
/// resource.
fn raised(greatest: Option<u32>, listing: Listing, others: &[Listing]) -> Option<u32>
    ensures { (shared : List Listing) → IsShared shared greatest
        → IsShared (shared ++ shared_listings (listing ∷ []) others.now) result }
{
    if !lists(others, listing.resource) {
        return greatest;
    }
    match greatest {
        Some(release) => Some(release.max(listing.release)),
        None => Some(listing.release),
    }
}

/// The greatest release time of listings whose resource the others have too.
fn shared_release(listings: &[Listing], others: &[Listing]) -> Option<u32>
    ensures { IsShared (shared_listings listings.now others.now) result }
{
    let mut greatest = None;
    for listing in listings {
        greatest = raised(greatest, *listing, others);
    }
    greatest
}

/// The greatest release time of what an operation lists that another lists too; none where the two
/// do not conflict.
pub fn release_between(problem: &Problem, a: Op, b: Op) -> Option<u32>
    ensures { MatchOption result (Conflicts problem.now a b → ⊥) (IsConflict problem.now a b) }
{
    if a.train == b.train {
        return None;
    }
    shared_release(listings_of(problem, a), listings_of(problem, b))
}
