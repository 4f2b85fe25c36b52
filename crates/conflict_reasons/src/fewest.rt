ghost use Rattle.std.specs.Prelude.{◌≡◌, ◌<◌, length};

use crate::needs::{Need, are_met};
use crate::past::routes_with;
use crate::reasons::At;
use crate::tried::TriedRoutes;
use disp_model::{Decision, Memory};
use std::alloc::Global;

/// The decisions about the routes of a train: those before the search began, those at some places,
/// and of the others so many, from the first on.
fn decisions_at(
    alloc: Global,
    at: At,
    train: u32,
    kept: &[usize],
    count: usize,
) -> Result<Vec<Decision>, Memory> {
    let mut decisions = Vec::new(alloc);
    for decision in at.past.before(train) {
        decisions.push(*decision)?;
    }
    let others = at.past.routes_of(train).iter().take(count);
    for place in kept.iter().chain(others) {
        if let Some(decision) = at.past.decision(*place) {
            decisions.push(decision)?;
        }
    }
    Ok(decisions)
}

/// Whether these decisions about the routes of a train give all that is needed of them.
fn is_enough(
    alloc: Global,
    at: At,
    tried: &mut TriedRoutes,
    train: u32,
    needs: &[Need],
    kept: &[usize],
    count: usize,
) -> Result<bool, Memory>
    requires node { at.graph.now.problem ≡ at.problem.now }
    requires train { train < length at.problem.now.trains }
{
    if kept.is_empty() && count == 0 {
        if let Some(allowed) = at.past.allowed(train) {
            return Ok(are_met(needs, allowed));
        }
    }
    let decisions = decisions_at(alloc, at, train, kept, count)?;
    if let Some(routes) = tried.find(train, &decisions) {
        return Ok(are_met(needs, routes));
    }
    let routes = routes_with(at.problem, at.fixings, at.graph, train, &decisions)?;
    let enough = are_met(needs, &routes);
    tried.keep(train, decisions, routes)?;
    Ok(enough)
}

/// How many of the first decisions have to stand beside those that are kept, where so many are
/// enough and none are not.
fn fewest_beside(
    alloc: Global,
    at: At,
    tried: &mut TriedRoutes,
    train: u32,
    needs: &[Need],
    kept: &[usize],
    enough: usize,
) -> Result<usize, Memory>
    requires node { at.graph.now.problem ≡ at.problem.now }
    requires train { train < length at.problem.now.trains }
{
    let mut few: usize = 0;
    let mut enough = enough;
    for _ in 0..usize::BITS {
        if few.saturating_add(1) >= enough {
            return Ok(enough);
        }
        let middle = few.midpoint(enough);
        if is_enough(alloc, at, tried, train, needs, kept, middle)? {
            enough = middle;
        } else {
            few = middle;
        }
    }
    Ok(enough)
}

/// The places of decisions about the routes of a train that give what is needed, and none of which
/// can be spared; of all such the ones that were taken earliest.
pub(crate) fn fewest(
    alloc: Global,
    at: At,
    tried: &mut TriedRoutes,
    train: u32,
    needs: &[Need],
) -> Result<Vec<usize>, Memory>
    requires node { at.graph.now.problem ≡ at.problem.now }
    requires train { train < length at.problem.now.trains }
{
    let mut kept = Vec::new(alloc);
    let mut left = at.past.routes_of(train).len();
    for _ in 0..left {
        if left == 0 || is_enough(alloc, at, tried, train, needs, &kept, 0)? {
            return Ok(kept);
        }
        let count = fewest_beside(alloc, at, tried, train, needs, &kept, left)?;
        left = count.saturating_sub(1);
        if let Some(place) = at.past.routes_of(train).get(left) {
            kept.push(*place)?;
        }
    }
    Ok(kept)
}
