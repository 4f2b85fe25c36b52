ghost use Rattle.std.specs.Prelude.{◌≡◌, map, length};
ghost use Rattle.serde_json.specs.View.{view};
ghost use Rattle.json_claims.specs.Claims.{verdict, claims_from};
ghost use Rattle.displib_reader.specs.Claims.{listing_claims, successor_claims, operation_claims, train_claims};

use crate::place::{ListingKey, OperationKey, Place};
use disp_model::GREATEST_NUMBER;
use json_claims::{Rule, Want, allow, field, members, members_at, need};
use serde_json::Value;

/// Tests a rule on a listing of an operation.
fn check_listing(rule: Rule, t: u64, o: u64, k: u64, value: &Value) -> Result<(), Place>
    ensures { result ≡ verdict rule (listing_claims t o k (view value.now)) }
{
    let resource = field(value, "resource");
    let release = field(value, "release_time");
    let number = Want::Number(u64::from(GREATEST_NUMBER));
    let at = |key| Place::ListingKey(t, o, k, key);
    need(rule, Place::Listing(t, o, k), Want::Object, Some(value))?;
    need(rule, at(ListingKey::Resource), Want::Text, resource)?;
    allow(rule, at(ListingKey::ReleaseTime), number, release)?;
    Ok(())
}

/// Tests a rule on the listings of an operation.
fn check_listings(rule: Rule, t: u64, o: u64, values: &[Value]) -> Result<(), Place>
    ensures { result ≡ verdict rule (claims_from (listing_claims t o) 0 (map view values.now)) }
{
    for (k, value) in values.iter().enumerate() {
        check_listing(rule, t, o, k as u64, value)?;
    }
    Ok(())
}

/// Tests a rule on the successors of an operation of a train of so many.
fn check_successors(rule: Rule, count: u64, t: u64, o: u64, values: &[Value]) -> Result<(), Place>
    ensures { result ≡ verdict rule
        (claims_from (successor_claims count t o) 0 (map view values.now)) }
{
    let limit = u64::from(GREATEST_NUMBER);
    let successor = Want::Index { count, limit };
    for (k, value) in values.iter().enumerate() {
        let place = Place::Successor(t, o, k as u64);
        need(rule, place, successor, Some(value))?;
    }
    Ok(())
}

/// Tests a rule on an operation of a train of so many.
#[tactic(auto, using(json_claims::proofs::Verdicts::verdict_append), unfolding(crate::specs::Claims::operation_claims))]
fn check_operation(rule: Rule, count: u64, t: u64, o: u64, value: &Value) -> Result<(), Place>
    ensures { result ≡ verdict rule (operation_claims count t o (view value.now)) }
{
    let lower = field(value, "start_lb");
    let upper = field(value, "start_ub");
    let min = field(value, "min_duration");
    let resources = field(value, "resources");
    let successors = field(value, "successors");
    let number = Want::Number(u64::from(GREATEST_NUMBER));
    let at = |key| Place::OperationKey(t, o, key);
    need(rule, Place::Operation(t, o), Want::Object, Some(value))?;
    allow(rule, at(OperationKey::StartLb), number, lower)?;
    allow(rule, at(OperationKey::StartUb), number, upper)?;
    allow(rule, at(OperationKey::MinDuration), number, min)?;
    allow(rule, at(OperationKey::Resources), Want::List, resources)?;
    check_listings(rule, t, o, members_at(value, "resources"))?;
    allow(rule, at(OperationKey::Successors), Want::List, successors)?;
    check_successors(rule, count, t, o, members_at(value, "successors"))?;
    Ok(())
}

/// Tests a rule on the operations of a train.
#[tactic(auto, using(json_claims::proofs::Verdicts::verdict_append))]
fn check_operations(rule: Rule, t: u64, values: &[Value]) -> Result<(), Place>
    ensures { result ≡ verdict rule
        (claims_from (operation_claims (length values.now) t) 0 (map view values.now)) }
{
    for (o, value) in values.iter().enumerate() {
        check_operation(rule, values.len() as u64, t, o as u64, value)?;
    }
    Ok(())
}

/// Tests a rule on a train.
#[tactic(auto, unfolding(crate::specs::Claims::train_claims))]
fn check_train(rule: Rule, t: u64, value: &Value) -> Result<(), Place>
    ensures { result ≡ verdict rule (train_claims t (view value.now)) }
{
    need(rule, Place::Train(t), Want::List, Some(value))?;
    check_operations(rule, t, members(value))?;
    Ok(())
}

/// Tests a rule on the trains.
#[tactic(auto, using(json_claims::proofs::Verdicts::verdict_append))]
pub(crate) fn check_trains(rule: Rule, values: &[Value]) -> Result<(), Place>
    ensures { result ≡ verdict rule (claims_from train_claims 0 (map view values.now)) }
{
    for (t, value) in values.iter().enumerate() {
        check_train(rule, t as u64, value)?;
    }
    Ok(())
}
