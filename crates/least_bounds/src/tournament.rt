ghost use Rattle.std.specs.Prelude.{◌≡◌, ◌↔◌, ℕ, ◌+◌, ◌*◌, ◌-◌, ◌<◌, ◌≤◌, IsTrue, IfOk, MatchOption, None, drop, length, slice_set};
ghost use Rattle.least_bounds.specs.Tournaments.{bound_at, lesser_bound, LiesBelow, NoneLiesBelow, IsTournament, IsChildBelow};

use plain_values::Memory;
use std::alloc::Global;

/// The lesser of two bounds, where there are any.
pub fn lesser(bound: Option<u64>, other: Option<u64>) -> Option<u64>
    ensures { result ≡ lesser_bound bound other }
{
    match (bound, other) {
        (Some(bound), Some(other)) => Some(bound.min(other)),
        (Some(bound), None) => Some(bound),
        (None, other) => other,
    }
}

/// The bound of a node, none past the end.
pub fn bound_at(nodes: &[Option<u64>], node: usize) -> Option<u64>
    ensures { result ≡ bound_at nodes.now node }
{
    match nodes.get(node) {
        Some(bound) => *bound,
        None => None,
    }
}

/// Whether there is a bound, and it is below the limit, if there is one.
pub fn lies_below(bound: Option<u64>, limit: Option<u64>) -> bool
    ensures { IsTrue result ↔ LiesBelow bound limit }
{
    match (bound, limit) {
        (None, _) => false,
        (Some(_), None) => true,
        (Some(bound), Some(limit)) => bound < limit,
    }
}

/// The lesser of the two nodes below one.
fn lesser_below(nodes: &[Option<u64>], node: usize) -> Option<u64>
    requires { node < length nodes.now }
    ensures { result
        ≡ lesser_bound (bound_at nodes.now (2 * node)) (bound_at nodes.now (2 * node + 1)) }
{
    lesser(bound_at(nodes, 2 * node), bound_at(nodes, 2 * node + 1))
}

/// Sets the bound of a place behind so many inner nodes, and goes up from there to the root.
pub fn set(nodes: &mut [Option<u64>], room: usize, place: usize, bound: Option<u64>)
    requires tree { IsTournament nodes.old room }
    requires inside { room + place < length nodes.old }
    ensures tree { IsTournament nodes.new room }
    ensures places { drop room nodes.new ≡ slice_set (drop room nodes.old) place bound }
{
    nodes[room + place] = bound;
    let mut node = (room + place) / 2;
    while node > 0 {
        nodes[node] = lesser_below(nodes, node);
        node /= 2;
    }
}

/// The one of the two nodes below one whose bound is below the limit, if either is.
fn child_below(nodes: &[Option<u64>], node: usize, limit: Option<u64>) -> usize
    requires { node < length nodes.now }
    ensures { IsChildBelow nodes.now node limit result }
{
    if lies_below(bound_at(nodes, 2 * node), limit) {
        2 * node
    } else {
        2 * node + 1
    }
}

/// A place behind so many inner nodes whose bound is below the limit: down from the root, by nodes
/// that are.
pub fn find_below(nodes: &[Option<u64>], room: usize, limit: Option<u64>) -> Option<usize>
    requires { IsTournament nodes.now room }
    ensures { MatchOption result (NoneLiesBelow (drop room nodes.now) limit)
        (λ place. LiesBelow (bound_at (drop room nodes.now) place) limit) }
{
    if !lies_below(bound_at(nodes, 1), limit) {
        return None;
    }
    let mut node = 1;
    while node < room {
        node = child_below(nodes, node, limit);
    }
    Some(node - room)
}

/// Reckons all inner nodes, the lowest first.
fn reckon(nodes: &mut [Option<u64>], room: usize)
    requires begins { room ≤ length nodes.old }
    requires ends { length nodes.old ≤ 2 * room }
    ensures tree { IsTournament nodes.new room }
    ensures places { drop room nodes.new ≡ drop room nodes.old }
{
    for node in (1..room).rev() {
        nodes[node] = lesser_below(nodes, node);
    }
}

/// The same places behind more inner nodes.
pub fn with_room(
    alloc: Global,
    places: &[Option<u64>],
    room: usize,
) -> Result<Vec<Option<u64>>, Memory>
    requires { length places.now ≤ room }
    ensures tree { IfOk result (λ nodes. IsTournament nodes.items room) }
    ensures places { IfOk result (λ nodes. drop room nodes.items ≡ places.now) }
{
    let mut nodes = vec![in alloc; None; room]?;
    nodes.extend_from_slice(places)?;
    reckon(&mut nodes, room);
    Ok(nodes)
}
