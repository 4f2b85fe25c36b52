ghost use Rattle.std.specs.Prelude.{◌≡◌, ◌+◌, ◌-◌, ◌<◌, ◌≤◌, ◌++◌, [], IfOk, IfErr, OnOk, OnErr, length, slice_get, slice_set, Some};
ghost use Rattle.disp_model.specs.Trees.{children_of};
ghost use Rattle.open_nodes.specs.Grafts.{leaf_as, children_at, new_place, next_given, first_or_zero, behind_first, branched, fills_as, fills, IsGraft, IsGrafted, grafted, ungrown, placed};

use crate::child::child;
use crate::place::{Above, Kind, Place};
use disp_model::{Choice, Decision, List, Memory, Problem, Split};
use packed_nodes::{Outline, PackedNode};
use std::alloc::Global;

/// The first bound, 0 where there is none.
fn first_or_zero(bounds: &[u64]) -> u64
    ensures { result ≡ first_or_zero bounds.now }
{
    match bounds {
        [] => 0,
        [bound, ..] => *bound,
    }
}

/// The bounds behind the first.
fn behind_first<'a>(bounds: &'a [u64]) -> &'a [u64]
    ensures { result.now ≡ behind_first bounds.now }
{
    match bounds {
        [] => &[],
        [_, rest @ ..] => rest,
    }
}

/// What follows a child: the place of this number where there is another child, else what was
/// behind the branch.
fn next_given(another: Option<Decision>, number: u32, behind: Option<u32>) -> Option<u32>
    ensures { result ≡ next_given another number behind }
{
    match another {
        Some(_) => Some(number),
        None => behind,
    }
}

/// The place of a new leaf.
fn new_place(parent: u32, decision: Decision, next: Option<u32>) -> Place
    ensures { result ≡ new_place parent decision next }
{
    Place {
        above: Some(Above { parent, decision }),
        next,
        shows: 0,
        kind: Kind::Open,
        bound: 0,
        out: None,
        examined: None,
    }
}

/// The places of the children of a branch, numbered from a number on. The last is followed by what
/// was behind the branch.
fn children_at(
    alloc: Global,
    problem: &Problem,
    choice: Choice,
    parent: u32,
    first: u32,
    behind: Option<u32>,
) -> Result<Vec<Place>, Memory>
    ensures { IfOk result (λ places. places.items
        ≡ children_at parent behind first (children_of problem.now choice)) }
{
    let mut places = Vec::new(alloc);
    let mut number = first;
    for k in 0..usize::MAX {
        let Some(decision) = child(problem, choice, k) else {
            return Ok(places);
        };
        let Some(after) = number.checked_add(1) else {
            return Err(Memory);
        };
        let next = next_given(child(problem, choice, k + 1), after, behind);
        places.push(new_place(parent, decision, next))?;
        number = after;
    }
    Err(Memory)
}

/// The greatest number that fits into the bits that a place has for it.
const GREATEST: usize = 4294967295;

/// A new place that is to be filled: the greatest number that there was before the fragment, the
/// place's own, how many nodes are kept before the one that fills it, and what it is so far.
#[derive(Clone, Copy)]
struct Vacancy {
    last: usize,
    number: u32,
    shows: u32,
    place: Place,
}

/// Makes a new place a branch, with new leaves for its children, and gives the number of the first.
fn branch_out(
    alloc: Global,
    problem: &Problem,
    vacancy: Vacancy,
    choice: Choice,
    grown: &mut Vec<Place>,
) -> Result<u32, Memory>
    requires { vacancy.number - vacancy.last < length grown.old.items }
    ensures { IfOk result (λ first. (first ≡ vacancy.last + length grown.old.items)
        × (grown.new.items ≡ branched problem.now vacancy.last vacancy.shows vacancy.number
        vacancy.place choice grown.old.items)) }
{
    let Vacancy {
        last,
        number,
        shows,
        place,
    } = vacancy;
    let Some(first) = last.checked_add(grown.len()) else {
        return Err(Memory);
    };
    if first > GREATEST {
        return Err(Memory);
    }
    let first = first as u32;
    let mut children = children_at(alloc, problem, choice, number, first, place.next)?;
    grown.append(&mut children)?;
    grown[(number as usize).saturating_sub(last)] = Place {
        next: Some(first),
        shows,
        kind: Kind::Branch,
        bound: 0,
        out: None,
        examined: None,
        ..place
    };
    Ok(first)
}

/// A place as it becomes a leaf of a kind that is in.
fn leaf_as(place: Place, shows: u32, kind: Kind, bound: u64) -> Place
    ensures { result ≡ leaf_as place shows kind bound }
{
    Place {
        shows,
        kind,
        bound,
        out: None,
        examined: None,
        ..place
    }
}

/// The next place that is filled, and the bounds that are left.
#[derive(Clone, Copy)]
struct Step<'a> {
    at: Option<u32>,
    left: &'a [u64],
}

/// Makes a new place a leaf of a kind.
fn fill_leaf<'a>(vacancy: Vacancy, kind: Kind, left: &'a [u64], grown: &mut Vec<Place>) -> Step<'a>
    requires { vacancy.number - vacancy.last < length grown.old.items }
    ensures grown { grown.new.items
        ≡ slice_set grown.old.items (vacancy.number - vacancy.last)
        (leaf_as vacancy.place vacancy.shows kind (first_or_zero left.now)) }
    ensures at { result.at ≡ vacancy.place.next }
    ensures left { result.left.now ≡ behind_first left.now }
{
    let leaf = leaf_as(vacancy.place, vacancy.shows, kind, first_or_zero(left));
    grown[(vacancy.number as usize).saturating_sub(vacancy.last)] = leaf;
    Step {
        at: vacancy.place.next,
        left: behind_first(left),
    }
}

/// What a leaf becomes with the new places behind it, and the splits.
#[derive(Drop)]
pub struct Grafted {
    pub grown: Vec<Place>,
    pub splits: List<Split>,
}

/// Fills a new place with a node, of which it is known what it is.
fn fill_as<'a>(
    alloc: Global,
    problem: &Problem,
    vacancy: Vacancy,
    node: Outline,
    left: &'a [u64],
    made: &mut Grafted,
) -> Result<Step<'a>, Memory>
    requires { vacancy.number - vacancy.last < length made.old.grown.items }
    ensures { IfOk result (λ step. IsGraft (fills_as problem.now vacancy.last vacancy.shows
        vacancy.number vacancy.place node (record {
          grown = made.old.grown.items;
          at = Some vacancy.number;
          bounds = left.now;
          splits = made.old.splits;
        })) made.new.grown.items step.at step.left.now made.new.splits) }
{
    match node {
        Outline::Branch(choice) => {
            made.splits.push(Split {
                node: vacancy.number as u128,
                choice,
            })?;
            let first = branch_out(alloc, problem, vacancy, choice, &mut made.grown)?;
            Ok(Step {
                at: Some(first),
                left,
            })
        }
        Outline::Dead => Ok(fill_leaf(vacancy, Kind::Dead, left, &mut made.grown)),
        Outline::Open => Ok(fill_leaf(vacancy, Kind::Open, left, &mut made.grown)),
    }
}

/// The place of an index, if there is one.
fn place_at(places: &[Place], index: usize) -> Option<Place>
    ensures { result ≡ slice_get places.now index }
{
    places.get(index).copied()
}

/// Fills the next place with a node, if there is one.
fn fill<'a>(
    alloc: Global,
    problem: &Problem,
    last: usize,
    shows: u32,
    step: Step<'a>,
    node: &PackedNode,
    made: &mut Grafted,
) -> Result<Step<'a>, Memory>
    ensures { IfOk result (λ next. IsGraft (fills problem.now last shows step.entry.at node.now
        (record {
          grown = made.old.grown.items;
          at = step.entry.at;
          bounds = step.entry.left.now;
          splits = made.old.splits;
        })) made.new.grown.items next.at next.left.now made.new.splits) }
{
    let Some(number) = step.at else {
        return Ok(step);
    };
    let Some(place) = place_at(&made.grown, (number as usize).saturating_sub(last)) else {
        return Ok(step);
    };
    let vacancy = Vacancy {
        last,
        number,
        shows,
        place,
    };
    fill_as(alloc, problem, vacancy, node.outline(), step.left, made)
}

/// Grows the nodes of a fragment from a leaf of a number, in preorder. `last` is the greatest
/// number there is, and `shows` how many nodes are kept. Where a number would not fit into the bits
/// that a place has for it, there is no memory.
pub fn graft(
    alloc: Global,
    problem: &Problem,
    last: usize,
    shows: usize,
    number: usize,
    place: Place,
    subtree: &[PackedNode],
    bounds: &[u64],
) -> Result<Grafted, Memory>
    requires { shows + length subtree.now < 18446744073709551616 }
    ensures { IfOk result (λ made. IsGrafted (grafted problem.now last shows subtree.now
        (ungrown place number bounds.now)) made.grown.items made.splits) }
{
    if number > GREATEST {
        return Err(Memory);
    }
    if shows + subtree.len() > GREATEST {
        return Err(Memory);
    }
    grown_from(alloc, problem, last, shows, number, place, subtree, bounds)
}

/// Grows them where all numbers of places and of kept nodes fit into those bits so far.
fn grown_from(
    alloc: Global,
    problem: &Problem,
    last: usize,
    shows: usize,
    number: usize,
    place: Place,
    subtree: &[PackedNode],
    bounds: &[u64],
) -> Result<Grafted, Memory>
    requires number { number ≤ 4294967295 }
    requires shows { shows + length subtree.now ≤ 4294967295 }
    ensures { IfOk result (λ made. IsGrafted (grafted problem.now last shows subtree.now
        (ungrown place number bounds.now)) made.grown.items made.splits) }
{
    let mut made = Grafted {
        grown: Vec::new(alloc),
        splits: List::new(alloc),
    };
    made.grown.push(Place { out: None, ..place })?;
    let mut step = Step {
        at: Some(number as u32),
        left: bounds,
    };
    for (k, node) in subtree.iter().enumerate() {
        let shown = shows + k;
        step = fill(alloc, problem, last, shown as u32, step, node, &mut made)?;
    }
    Ok(made)
}

/// Puts what a leaf has become into the places, and the nodes that show it to those that are kept.
/// Where memory runs out nothing has changed, and the nodes are given back.
pub fn put(
    places: &mut Vec<Place>,
    kept: &mut Vec<PackedNode>,
    number: usize,
    grown: &[Place],
    subtree: List<PackedNode>,
) -> Result<(), List<PackedNode>>
    requires { number < length places.old.items }
    ensures places { OnOk result (places.new.items ≡ placed places.old.items number grown.now) }
    ensures kept { OnOk result (kept.new.items ≡ kept.old.items ++ subtree) }
    ensures back { IfErr result (λ nodes. nodes ≡ subtree) }
    ensures same_places { OnErr result (places.new.items ≡ places.old.items) }
    ensures same_kept { OnErr result (kept.new.items ≡ kept.old.items) }
{
    let [root, fresh @ ..] = grown else {
        return keep(kept, subtree);
    };
    let first = places.len();
    if places.extend_from_slice(fresh).is_err() {
        return Err(subtree);
    }
    match keep(kept, subtree) {
        Ok(()) => {
            places[number] = *root;
            Ok(())
        }
        Err(nodes) => {
            places.truncate(first);
            Err(nodes)
        }
    }
}

/// Keeps nodes, or gives them back where memory runs out.
fn keep(kept: &mut Vec<PackedNode>, subtree: List<PackedNode>) -> Result<(), List<PackedNode>>
    ensures kept { OnOk result (kept.new.items ≡ kept.old.items ++ subtree) }
    ensures back { IfErr result (λ nodes. nodes ≡ subtree) }
    ensures same { OnErr result (kept.new.items ≡ kept.old.items) }
{
    let mut nodes = subtree.into_vec();
    match kept.append(&mut nodes) {
        Ok(()) => Ok(()),
        Err(_) => Err(List::from_vec(nodes)),
    }
}
