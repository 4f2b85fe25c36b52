ghost use Rattle.std.specs.Prelude.{◌≡◌, ◌≤◌, All, IfOk, IfErr, OnOk, length, None, codes};
ghost use Rattle.serde_json.specs.View.{view};
ghost use Rattle.json_claims.specs.Json.{IsJson};
ghost use Rattle.displib_reader.specs.ProblemOf.{names_in};
ghost use Rattle.train_graphs.specs.Graphs.{AreInside, HaveGraphs};
ghost use Rattle.json_claims.specs.Field.{members_at};
ghost use Rattle.displib_reader.specs.Types.{first_unknown};
ghost use Rattle.displib_reader.specs.Outcome.{IsReadAs, IsRefused, IsPlain, IsLinked, HasTrains, BreaksGraphs, FindsComponents, HasComponents, Breaks, Answers};

use crate::component::{first_unknown, read_components};
use crate::counts::too_many;
use crate::fault::ProblemNo;
use crate::names::{list_names, read_names};
use crate::objective::check;
use crate::train::read_trains;
use disp_model::{
    Component, GREATEST_COST, List, MOST_OPERATIONS, MOST_TRAINS, Memory, Problem, Text, Train,
};
use json_claims::{Rule, Unread, members_at, read_json};
use serde_json::Value;
use std::alloc::Global;
use train_graphs::{first_loop, first_not_entered, first_not_left, greatest_sum};

/// The value of JSON bytes.
fn value_of(alloc: Global, bytes: &[u8]) -> Result<Value, ProblemNo>
    ensures ok { IfOk result (λ v. IsJson bytes.now (view v)) }
    ensures no { IfErr result (IsRefused bytes.now) }
{
    match read_json(alloc, bytes) {
        Ok(value) => Ok(value),
        Err(Unread::Memory) => Err(ProblemNo::Memory),
        Err(Unread::Nothing) => Err(ProblemNo::NotJson),
    }
}

/// Tests the rules on what stands at single places, but for indexes.
fn test_values(value: &Value) -> Result<(), ProblemNo>
    ensures ok { OnOk result (IsPlain (view value.now)) }
    ensures no { IfErr result (Breaks (view value.now)) }
{
    check(Rule::Shape, value).map_err(ProblemNo::Shape)?;
    check(Rule::Whole, value).map_err(ProblemNo::NotWhole)?;
    check(Rule::Limit, value).map_err(ProblemNo::TooLarge)?;
    Ok(())
}

/// Tests the counts and the indexes.
fn test_links(value: &Value) -> Result<(), ProblemNo>
    requires plain { IsPlain (view value.now) }
    ensures ok { OnOk result (IsLinked (view value.now)) }
    ensures no { IfErr result (Breaks (view value.now)) }
{
    if let Some((kind, count)) = too_many(value)? {
        return Err(ProblemNo::TooMany(kind, count));
    }
    check(Rule::Index, value).map_err(ProblemNo::BadIndex)?;
    Ok(())
}

/// Tests the graphs of the trains.
fn test_graphs(alloc: Global, trains: &[Train]) -> Result<(), ProblemNo>
    requires inside { All AreInside trains.now }
    requires small { All (λ train. length train ≤ MOST_OPERATIONS) trains.now }
    requires few { length trains.now ≤ MOST_TRAINS }
    ensures ok { OnOk result (HaveGraphs trains.now) }
    ensures no { IfErr result (BreaksGraphs trains.now) }
{
    if let Some((t, count)) = first_not_entered(alloc, trains)? {
        return Err(ProblemNo::NotOneEntry(t as u32, count));
    }
    if let Some((t, count)) = first_not_left(trains) {
        return Err(ProblemNo::NotOneExit(t as u32, count));
    }
    if let Some((t, o)) = first_loop(alloc, trains)? {
        return Err(ProblemNo::Loop(t as u32, o));
    }
    Ok(())
}

/// The trains of a value that keeps the rules on single places, and the names of their resources.
fn trains_and_names(alloc: Global, value: &Value) -> Result<(List<Train>, List<Text>), Memory>
    requires linked { IsLinked (view value.now) }
    ensures trains { IfOk result (λ p. HasTrains (view value.now) p.0) }
    ensures names { IfOk result (λ p. names_in (view value.now) ≡ p.1) }
{
    let names = read_names(alloc, value)?;
    match read_trains(alloc, &names, value) {
        Ok(trains) => Ok((trains, list_names(alloc, names)?)),
        Err(Unread::Memory) => Err(Memory),
        Err(Unread::Nothing) => unreachable!(),
    }
}

/// The components of a value that keeps the rules on single places and names known types alone.
fn components_of(alloc: Global, value: &Value) -> Result<List<Component>, Memory>
    requires linked { IsLinked (view value.now) }
    requires types { first_unknown 0 (members_at (codes "objective") (view value.now)) ≡ None }
    ensures { IfOk result (HasComponents (view value.now)) }
{
    match read_components(alloc, value) {
        Ok(components) => Ok(components),
        Err(Unread::Memory) => Err(Memory),
        Err(Unread::Nothing) => unreachable!(),
    }
}

/// The components, where each is of the one type that there is.
fn known_components(alloc: Global, value: &Value) -> Result<List<Component>, ProblemNo>
    requires linked { IsLinked (view value.now) }
    ensures { FindsComponents result (view value.now) }
{
    if let Some(c) = first_unknown(members_at(value, "objective")) {
        return Err(ProblemNo::UnknownObjective(c as u32));
    }
    Ok(components_of(alloc, value)?)
}

/// The problem of a JSON value.
fn problem_of(alloc: Global, value: &Value) -> Result<Problem, ProblemNo>
    ensures { Answers result (view value.now) }
{
    test_values(value)?;
    test_links(value)?;
    let (trains, names) = trains_and_names(alloc, value)?;
    test_graphs(alloc, trains.as_slice())?;
    let components = known_components(alloc, value)?;
    let sum = greatest_sum(trains.as_slice(), components.as_slice());
    if sum > u128::from(GREATEST_COST) {
        return Err(ProblemNo::TooCostly(sum));
    }
    Ok(Problem {
        trains,
        components,
        names,
    })
}

/// Reads a problem from its JSON text in the DISPLIB 2025 format.
///
/// Numbers are whole, from 0 to 2147483647. `null` counts as absent, but for a member of a list.
/// Keys that the format does not name are ignored, and a successor that is named twice counts once.
/// Resources are numbered in order of first appearance.
///
/// # Errors
///
/// The first rule that the text breaks, in the order of the variants of `ProblemNo`: each rule is
/// tested over the whole text before the next one, and names the first place, train or component
/// that breaks it. But `Memory` may come in place of any answer.
pub fn read_problem(alloc: Global, bytes: &[u8]) -> Result<Problem, ProblemNo>
    ensures ok { IfOk result (IsReadAs bytes.now) }
    ensures no { IfErr result (IsRefused bytes.now) }
{
    let value = value_of(alloc, bytes)?;
    problem_of(alloc, &value)
}
