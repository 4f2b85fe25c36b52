ghost use Rattle.std.specs.Prelude.{◌≡◌, map, None, option_map};
ghost use Rattle.serde_json.specs.View.{view};
ghost use Rattle.json_claims.specs.Claims.{verdict, claims_from, whole_in, IsFirst};
ghost use Rattle.displib_reader.specs.Claims.{cost_claims, component_claims, problem_claims, count_at};
ghost use Rattle.displib_reader.specs.Outcome.{broken_at};

use crate::claims::check_trains;
use crate::place::{ComponentKey, Place};
use disp_model::GREATEST_NUMBER;
use json_claims::{Rule, Want, allow, field, members, members_at, need};
use serde_json::Value;

/// How many operations the train has whose number this is, none where there is no such train.
fn count_at(trains: &[Value], number: Option<&Value>) -> u64
    ensures { result ≡ count_at (map view trains.now)
        (whole_in (option_map (λ v. view v.now) number.entry)) }
{
    let Some(t) = number.and_then(Value::as_u64) else {
        return 0;
    };
    match trains.get(t as usize) {
        Some(train) => members(train).len() as u64,
        None => 0,
    }
}

/// Tests a rule on a component.
#[tactic(auto, unfolding(crate::specs::Claims::component_claims))]
fn check_component(rule: Rule, trains: &[Value], c: u64, value: &Value) -> Result<(), Place>
    ensures { result ≡ verdict rule (component_claims (map view trains.now) c (view value.now)) }
{
    let train = field(value, "train");
    let operation = field(value, "operation");
    let limit = u64::from(GREATEST_NUMBER);
    let trains_there = Want::Index {
        count: trains.len() as u64,
        limit,
    };
    let operations_there = Want::Index {
        count: count_at(trains, train),
        limit,
    };
    let at = |key| Place::ComponentKey(c, key);
    need(rule, Place::Component(c), Want::Object, Some(value))?;
    need(
        rule,
        at(ComponentKey::Kind),
        Want::Text,
        field(value, "type"),
    )?;
    need(rule, at(ComponentKey::Train), trains_there, train)?;
    need(
        rule,
        at(ComponentKey::Operation),
        operations_there,
        operation,
    )?;
    check_costs(rule, c, value)?;
    Ok(())
}

/// Tests a rule on the threshold and the costs of a component.
fn check_costs(rule: Rule, c: u64, value: &Value) -> Result<(), Place>
    ensures { result ≡ verdict rule (cost_claims c (view value.now)) }
{
    let threshold = field(value, "threshold");
    let increment = field(value, "increment");
    let coeff = field(value, "coeff");
    let number = Want::Number(u64::from(GREATEST_NUMBER));
    let at = |key| Place::ComponentKey(c, key);
    allow(rule, at(ComponentKey::Threshold), number, threshold)?;
    allow(rule, at(ComponentKey::Increment), number, increment)?;
    allow(rule, at(ComponentKey::Coeff), number, coeff)?;
    Ok(())
}

/// Tests a rule on the components.
#[tactic(auto, using(json_claims::proofs::Verdicts::verdict_append))]
fn check_components(rule: Rule, trains: &[Value], values: &[Value]) -> Result<(), Place>
    ensures { result ≡ verdict rule
        (claims_from (component_claims (map view trains.now)) 0 (map view values.now)) }
{
    for (c, value) in values.iter().enumerate() {
        check_component(rule, trains, c as u64, value)?;
    }
    Ok(())
}

/// Tests a rule on a problem: the error is the first place that breaks it.
pub(crate) fn check(rule: Rule, value: &Value) -> Result<(), Place>
    ensures { IsFirst result (broken_at rule (view value.now)) }
{
    check_problem(rule, value)
}

/// Tests a rule on a problem.
#[tactic(auto, using(json_claims::proofs::Verdicts::verdict_append))]
fn check_problem(rule: Rule, value: &Value) -> Result<(), Place>
    ensures { result ≡ verdict rule (problem_claims (view value.now)) }
{
    let trains = members_at(value, "trains");
    let components = members_at(value, "objective");
    need(rule, Place::Root, Want::Object, Some(value))?;
    need(rule, Place::Trains, Want::List, field(value, "trains"))?;
    check_trains(rule, trains)?;
    need(
        rule,
        Place::Objective,
        Want::List,
        field(value, "objective"),
    )?;
    check_components(rule, trains, components)?;
    Ok(())
}
