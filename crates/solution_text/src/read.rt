ghost use Rattle.std.specs.Prelude.{◌≡◌, ◌≤◌, IfOk, IfErr, OnOk, Some};
ghost use Rattle.serde_json.specs.View.{view};
ghost use Rattle.json_claims.specs.Json.{IsJson};
ghost use Rattle.json_claims.specs.Gives.{Gives};
ghost use Rattle.solution_text.specs.PlanOf.{event_of, plan_of, stated_of, events_given};
ghost use Rattle.solution_text.specs.Reading.{IsReadAsSolution, IsRefusedSolution, IsPlainSolution, BreaksSolution, KeepsSolutionRules, AnswersSolution};

use crate::claims::check;
use crate::fault::SolutionNo;
use disp_model::{
    Event, GREATEST_COST, GREATEST_EVENT_TIME, GREATEST_NUMBER, List, MOST_EVENTS, Memory, Plan,
};
use json_claims::{
    Rule, Unread, array_at, index_at, members_at, number_at, optional_number, read_json,
};
use serde_json::Value;
use std::alloc::Global;

/// The value of JSON bytes.
fn value_of(alloc: Global, bytes: &[u8]) -> Result<Value, SolutionNo>
    ensures ok { IfOk result (λ v. IsJson bytes.now (view v)) }
    ensures no { IfErr result (IsRefusedSolution bytes.now) }
{
    match read_json(alloc, bytes) {
        Ok(value) => Ok(value),
        Err(Unread::Memory) => Err(SolutionNo::Memory),
        Err(Unread::Nothing) => Err(SolutionNo::NotJson),
    }
}

/// An event.
#[tactic(auto, unfolding(crate::specs::PlanOf::event_of))]
fn read_event(value: &Value) -> Result<Event, Unread>
    ensures { Gives result (event_of (view value.now)) }
{
    let operation = index_at(value, "operation", GREATEST_NUMBER).ok_or(Unread::Nothing)?;
    let time = number_at(value, "time", GREATEST_EVENT_TIME).ok_or(Unread::Nothing)?;
    let train = index_at(value, "train", GREATEST_NUMBER).ok_or(Unread::Nothing)?;
    Ok(Event {
        time,
        train,
        operation,
    })
}

/// The events.
fn read_events(alloc: Global, value: &Value) -> Result<Plan, Unread>
    ensures { Gives result (plan_of (view value.now)) }
{
    let values = array_at(value, "events").ok_or(Unread::Nothing)?;
    let mut events = Vec::new(alloc);
    for item in values {
        events.push(read_event(item)?)?;
    }
    Ok(List::from_vec(events))
}

/// Tests the rules on what stands at single places.
fn test_values(value: &Value) -> Result<(), SolutionNo>
    ensures ok { OnOk result (IsPlainSolution (view value.now)) }
    ensures no { IfErr result (BreaksSolution (view value.now)) }
{
    check(Rule::Shape, value).map_err(SolutionNo::Shape)?;
    check(Rule::Whole, value).map_err(SolutionNo::NotWhole)?;
    check(Rule::Limit, value).map_err(SolutionNo::TooLarge)?;
    Ok(())
}

/// Tests all rules.
fn test_rules(value: &Value) -> Result<(), SolutionNo>
    ensures ok { OnOk result (KeepsSolutionRules (view value.now)) }
    ensures no { IfErr result (BreaksSolution (view value.now)) }
{
    test_values(value)?;
    let count = members_at(value, "events").len();
    if count > MOST_EVENTS {
        return Err(SolutionNo::TooMany(count as u64));
    }
    Ok(())
}

/// The plan of a value that keeps the rules.
fn plan_of(alloc: Global, value: &Value) -> Result<Plan, Memory>
    requires keeps { KeepsSolutionRules (view value.now) }
    ensures { IfOk result (λ plan. plan_of (view value.now) ≡ Some plan) }
{
    match read_events(alloc, value) {
        Ok(plan) => Ok(plan),
        Err(Unread::Memory) => Err(Memory),
        Err(Unread::Nothing) => unreachable!(),
    }
}

/// The objective value that a value states that keeps the rules.
fn stated_of(value: &Value) -> Option<u64>
    requires keeps { KeepsSolutionRules (view value.now) }
    ensures { stated_of (view value.now) ≡ Some result }
{
    match optional_number(value, "objective_value", GREATEST_COST) {
        Some(stated) => stated,
        None => unreachable!(),
    }
}

/// The solution of a JSON value.
fn solution_of(alloc: Global, value: &Value) -> Result<(Plan, Option<u64>), SolutionNo>
    ensures { AnswersSolution result (view value.now) }
{
    test_rules(value)?;
    let plan = plan_of(alloc, value)?;
    Ok((plan, stated_of(value)))
}

/// Reads a solution from its JSON text in the DISPLIB 2025 format: its events in the order of the
/// text, and the objective value where one is stated.
///
/// Numbers are whole: a train or operation from 0 to 2147483647, a time to 2^62, an objective value
/// to 2^63 - 1. `null` counts as absent, but for a member of the list. Keys that the format does
/// not name are ignored.
///
/// # Errors
///
/// The first rule that the text breaks, in the order of the variants of `SolutionNo`: each rule is
/// tested over the whole text before the next one, and names the first place that breaks it. But
/// `Memory` may come in place of any answer.
pub fn read_solution(alloc: Global, bytes: &[u8]) -> Result<(Plan, Option<u64>), SolutionNo>
    ensures ok { IfOk result (λ r. IsReadAsSolution bytes.now r.0 r.1) }
    ensures no { IfErr result (IsRefusedSolution bytes.now) }
{
    let value = value_of(alloc, bytes)?;
    solution_of(alloc, &value)
}
