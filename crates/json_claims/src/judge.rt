ghost use Rattle.std.specs.Prelude.{◌≡◌, option_map};
ghost use Rattle.serde_json.specs.View.{view};
ghost use Rattle.json_claims.specs.Claims.{judged, needed as needed_claim, optional, claim, is_of, is_misshapen, is_not_whole, is_above, is_too_large, is_past, is_bad_index, breaks};

use crate::rule::{Rule, Want};
use serde_json::Value;

/// Whether a value is of a kind.
fn is_of(want: Want, value: &Value) -> bool
    ensures { result ≡ is_of want (view value.now) }
{
    match want {
        Want::Object => value.is_object(),
        Want::List => value.is_array(),
        Want::Text => value.is_string(),
        Want::Number(_) | Want::Index { .. } => value.is_number(),
    }
}

/// Whether a value is of another kind, or absent where it is needed.
fn is_misshapen(want: Want, needed: bool, found: Option<&Value>) -> bool
    ensures { result ≡ is_misshapen want needed (option_map (λ v. view v.now) found.entry) }
{
    match found {
        Some(value) => !is_of(want, value),
        None => needed,
    }
}

/// Whether there is a number that is not whole.
fn is_not_whole(found: Option<&Value>) -> bool
    ensures { result ≡ is_not_whole (option_map (λ v. view v.now) found.entry) }
{
    match found {
        Some(value) => value.is_number() && !value.is_u64(),
        None => false,
    }
}

/// Whether a number is above the limit of the number that is wanted.
fn is_above(want: Want, number: u64) -> bool
    ensures { result ≡ is_above want number }
{
    match want {
        Want::Number(limit) | Want::Index { limit, .. } => number > limit,
        Want::Object | Want::List | Want::Text => false,
    }
}

/// Whether there is a whole number above its limit.
fn is_too_large(want: Want, found: Option<&Value>) -> bool
    ensures { result ≡ is_too_large want (option_map (λ v. view v.now) found.entry) }
{
    match found.and_then(Value::as_u64) {
        Some(number) => is_above(want, number),
        None => false,
    }
}

/// Whether a number is not the index that is wanted.
fn is_past(want: Want, number: u64) -> bool
    ensures { result ≡ is_past want number }
{
    match want {
        Want::Index { count, .. } => number >= count,
        Want::Object | Want::List | Want::Text | Want::Number(_) => false,
    }
}

/// Whether there is a whole number that is not the index that is wanted.
fn is_bad_index(want: Want, found: Option<&Value>) -> bool
    ensures { result ≡ is_bad_index want (option_map (λ v. view v.now) found.entry) }
{
    match found.and_then(Value::as_u64) {
        Some(number) => is_past(want, number),
        None => false,
    }
}

/// Tests a rule at one place: the error is the place.
#[tactic(auto, unfolding(crate::specs::Claims::judged, crate::specs::Claims::breaks))]
fn judge<P: Copy>(
    rule: Rule,
    place: P,
    want: Want,
    needed: bool,
    found: Option<&Value>,
) -> Result<(), P>
    ensures { result ≡ judged rule
        (claim place want needed (option_map (λ v. view v.now) found.entry)) }
{
    let broken = match rule {
        Rule::Shape => is_misshapen(want, needed, found),
        Rule::Whole => is_not_whole(found),
        Rule::Limit => is_too_large(want, found),
        Rule::Index => is_bad_index(want, found),
    };
    if broken { Err(place) } else { Ok(()) }
}

/// Tests a rule where a value is needed.
pub fn need<P: Copy>(rule: Rule, place: P, want: Want, found: Option<&Value>) -> Result<(), P>
    ensures { result ≡ judged rule
        (needed_claim place want (option_map (λ v. view v.now) found.entry)) }
{
    judge(rule, place, want, true, found)
}

/// Tests a rule where a value may be absent.
pub fn allow<P: Copy>(rule: Rule, place: P, want: Want, found: Option<&Value>) -> Result<(), P>
    ensures { result ≡ judged rule
        (optional place want (option_map (λ v. view v.now) found.entry)) }
{
    judge(rule, place, want, false, found)
}
