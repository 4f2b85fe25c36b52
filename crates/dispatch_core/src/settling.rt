ghost use Rattle.std.specs.Prelude.{◌≡◌, ◌↔◌, ◌<◌, ◌++◌, ◌∷◌, [], length, IfOk, OnOk, IsTrue, Some, slice_get, if◌then◌else◌};
ghost use Rattle.disp_model.specs.Changes.{standing_of};
ghost use Rattle.open_nodes.specs.declared.place.Place.{Place};
ghost use Rattle.dispatch_core.specs.States.{DoesNotHold};
ghost use Rattle.dispatch_core.specs.Falling.{noted_back, noted_by, fixings_left_standing, AreTakenBack, AreFailing, fallen_all};

use disp_model::{Change, Fixing, Memory, Problem, Verdict};
use open_nodes::Nodes;
use std::alloc::Global;
use tree_checker::check_leaf;

/// Notes that the change of a number, counted from 1, is taken back, where there is one.
fn note_back(taken: &mut [bool], number: u64)
    ensures { taken.new ≡ noted_back taken.old number }
{
    if 0 < number && number <= taken.len() as u64 {
        taken[number as usize - 1] = true;
    }
}

/// Notes which change another one takes back, if it does.
fn note(taken: &mut [bool], change: Change)
    ensures { taken.new ≡ noted_by taken.old change }
{
    match change {
        Change::Fix(_) => {}
        Change::Withdraw { number } => note_back(taken, number),
    }
}

/// Which of these changes are taken back, by their places.
fn taken_back(alloc: Global, changes: &[Change]) -> Result<Vec<bool>, Memory>
    ensures { IfOk result (λ taken. AreTakenBack changes.now taken.items) }
{
    let mut taken = vec![in alloc; false; changes.len()]?;
    for change in changes {
        note(&mut taken, *change);
    }
    Ok(taken)
}

/// Adds the fixing that a change leaves standing.
fn keep(fixings: &mut Vec<Fixing>, change: Change, taken: bool) -> Result<(), Memory>
    ensures { OnOk result
        (fixings.new.items ≡ fixings.old.items ++ fixings_left_standing change taken) }
{
    match change {
        Change::Fix(_) if taken => Ok(()),
        Change::Fix(fixing) => Ok(fixings.push(fixing)?),
        Change::Withdraw { .. } => Ok(()),
    }
}

/// The fixings that stand behind these changes.
pub(crate) fn standing(alloc: Global, changes: &[Change]) -> Result<Vec<Fixing>, Memory>
    ensures { IfOk result (λ fixings. fixings.items ≡ standing_of changes.now) }
{
    let taken = taken_back(alloc, changes)?;
    let mut fixings = Vec::new(alloc);
    for place in 0..changes.len() {
        keep(&mut fixings, changes[place], taken[place])?;
    }
    Ok(fixings)
}

/// Whether the leaf of a number, if there is one, holds for its kept bound under fixings.
fn holds(
    alloc: Global,
    problem: &Problem,
    fixings: &[Fixing],
    nodes: &Nodes,
    number: u128,
) -> Result<bool, Memory>
    requires { number < length nodes.now.places }
    ensures { IfOk result (λ holds. (place : Place) → slice_get nodes.now.places number ≡ Some place
        → (IsTrue holds ↔ (DoesNotHold problem.now fixings.now nodes.now number place → ⊥))) }
{
    let leaf = nodes.leaf(alloc, number)?;
    let (Some(leaf), Some(bound)) = (leaf, nodes.kept_bound(number)) else {
        return Ok(true);
    };
    let decisions = nodes.decisions(alloc, number)?;
    let verdict = Verdict::Optimal(bound);
    check_leaf(
        alloc,
        problem,
        fixings,
        decisions.as_slice(),
        verdict,
        &leaf,
    )
}

/// Adds a number, but where the leaf holds.
fn note_failing(failing: &mut Vec<u128>, number: u128, holds: bool) -> Result<(), Memory>
    ensures { OnOk result (failing.new.items
        ≡ (if holds then failing.old.items else (failing.old.items ++ number ∷ []))) }
{
    if holds {
        return Ok(());
    }
    failing.push(number)?;
    Ok(())
}

/// The numbers of the leaves that do not hold for their kept bounds under fixings.
pub(crate) fn failing(
    alloc: Global,
    problem: &Problem,
    fixings: &[Fixing],
    nodes: &Nodes,
) -> Result<Vec<u128>, Memory>
    ensures { IfOk result (λ failing. AreFailing problem.now fixings.now nodes.now
        (length nodes.now.places) failing.items) }
{
    let mut failing = Vec::new(alloc);
    for number in 0..nodes.count() as u128 {
        let holds = holds(alloc, problem, fixings, nodes, number)?;
        note_failing(&mut failing, number, holds)?;
    }
    Ok(failing)
}

/// Makes leaves fall back.
pub(crate) fn fall_back(nodes: &mut Nodes, numbers: &[u128])
    ensures { nodes.new ≡ fallen_all nodes.old numbers.now }
{
    for number in numbers {
        nodes.reset(*number);
    }
}
