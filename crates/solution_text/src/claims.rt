ghost use Rattle.std.specs.Prelude.{◌≡◌, map};
ghost use Rattle.serde_json.specs.View.{view};
ghost use Rattle.json_claims.specs.Claims.{verdict, claims_from, IsFirst};
ghost use Rattle.solution_text.specs.Claims.{event_claims, solution_claims};
ghost use Rattle.solution_text.specs.Reading.{broken_solution_place};

use crate::place::{EventKey, SolutionPlace};
use disp_model::{GREATEST_COST, GREATEST_EVENT_TIME, GREATEST_NUMBER};
use json_claims::{Rule, Want, allow, field, members_at, need};
use serde_json::Value;

/// Tests a rule on an event.
#[tactic(auto, unfolding(crate::specs::Claims::event_claims))]
fn check_event(rule: Rule, k: u64, value: &Value) -> Result<(), SolutionPlace>
    ensures { result ≡ verdict rule (event_claims k (view value.now)) }
{
    let operation = field(value, "operation");
    let time = field(value, "time");
    let train = field(value, "train");
    let index = Want::Number(u64::from(GREATEST_NUMBER));
    let moment = Want::Number(GREATEST_EVENT_TIME);
    let at = |key| SolutionPlace::EventKey(k, key);
    need(rule, SolutionPlace::Event(k), Want::Object, Some(value))?;
    need(rule, at(EventKey::Operation), index, operation)?;
    need(rule, at(EventKey::Time), moment, time)?;
    need(rule, at(EventKey::Train), index, train)?;
    Ok(())
}

/// Tests a rule on the events.
#[tactic(auto, using(json_claims::proofs::Verdicts::verdict_append))]
fn check_events(rule: Rule, values: &[Value]) -> Result<(), SolutionPlace>
    ensures { result ≡ verdict rule (claims_from event_claims 0 (map view values.now)) }
{
    for (k, value) in values.iter().enumerate() {
        check_event(rule, k as u64, value)?;
    }
    Ok(())
}

/// Tests a rule on a solution.
#[tactic(auto, using(json_claims::proofs::Verdicts::verdict_append))]
fn check_solution(rule: Rule, value: &Value) -> Result<(), SolutionPlace>
    ensures { result ≡ verdict rule (solution_claims (view value.now)) }
{
    let events = field(value, "events");
    let stated = field(value, "objective_value");
    let cost = Want::Number(GREATEST_COST);
    need(rule, SolutionPlace::Root, Want::Object, Some(value))?;
    need(rule, SolutionPlace::Events, Want::List, events)?;
    check_events(rule, members_at(value, "events"))?;
    allow(rule, SolutionPlace::ObjectiveValue, cost, stated)?;
    Ok(())
}

/// Tests a rule on a solution: the error is the first place that breaks it.
pub(crate) fn check(rule: Rule, value: &Value) -> Result<(), SolutionPlace>
    ensures { IsFirst result (broken_solution_place rule (view value.now)) }
{
    check_solution(rule, value)
}
