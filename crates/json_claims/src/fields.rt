ghost use Rattle.std.specs.Prelude.{◌≡◌, option_map, map, Some, None};
ghost use Rattle.serde_json.specs.View.{view};
ghost use Rattle.serde_json.specs.Find.{as_array};
ghost use Rattle.json_claims.specs.Field.{field, whole_of, values_of, members_in, members_at, number_at, number_or, optional_number, array_at, array_or_empty, text_at};

use serde_json::Value;

/// The value at a key, where it is there and not `null`.
pub fn field<'a>(value: &'a Value, key: &str) -> Option<&'a Value>
    ensures { option_map (λ v. view v.now) result ≡ field key.now (view value.now) }
{
    match value.get(key) {
        Some(found) if !found.is_null() => Some(found),
        _ => None,
    }
}

/// A whole number within a limit.
fn number(value: &Value, limit: u64) -> Option<u64>
    ensures { result ≡ whole_of limit (view value.now) }
{
    match value.as_u64() {
        Some(n) if n <= limit => Some(n),
        _ => None,
    }
}

/// The whole number at a key, within a limit.
pub fn number_at(value: &Value, key: &str, limit: u64) -> Option<u64>
    ensures { result ≡ number_at key.now limit (view value.now) }
{
    number(field(value, key)?, limit)
}

/// The whole number at a key, within a limit, if there is one.
pub fn optional_number(value: &Value, key: &str, limit: u64) -> Option<Option<u64>>
    ensures { result ≡ optional_number key.now limit (view value.now) }
{
    match field(value, key) {
        Some(found) => Some(Some(number(found, limit)?)),
        None => Some(None),
    }
}

/// A whole number within a limit of 32 bits.
pub fn index(value: &Value, limit: u32) -> Option<u32>
    ensures { result ≡ whole_of limit (view value.now) }
{
    match value.as_u64() {
        Some(n) if n <= u64::from(limit) => Some(n as u32),
        _ => None,
    }
}

/// The whole number at a key, within a limit of 32 bits.
pub fn index_at(value: &Value, key: &str, limit: u32) -> Option<u32>
    ensures { result ≡ number_at key.now limit (view value.now) }
{
    index(field(value, key)?, limit)
}

/// The whole number at a key, within a limit of 32 bits, or the default where it is absent.
pub fn index_or(value: &Value, key: &str, limit: u32, default: u32) -> Option<u32>
    ensures { result ≡ number_or key.now limit default (view value.now) }
{
    match field(value, key) {
        Some(found) => index(found, limit),
        None => Some(default),
    }
}

/// The whole number at a key, within a limit of 32 bits, if there is one.
pub fn optional_index(value: &Value, key: &str, limit: u32) -> Option<Option<u32>>
    ensures { result ≡ optional_number key.now limit (view value.now) }
{
    match field(value, key) {
        Some(found) => Some(Some(index(found, limit)?)),
        None => Some(None),
    }
}

/// The text at a key.
pub fn text_at<'a>(value: &'a Value, key: &str) -> Option<&'a str>
    ensures { option_map (λ s. s.now) result ≡ text_at key.now (view value.now) }
{
    field(value, key)?.as_str()
}

/// The values of an array.
#[tactic(auto, using(crate::proofs::Values::values_of_view))]
pub fn elements(value: &Value) -> Option<&[Value]>
    ensures { option_map (λ s. map view s.now) result
        ≡ option_map values_of (as_array (view value.now)) }
{
    match value.as_array() {
        Some(values) => Some(values.as_slice()),
        None => None,
    }
}

/// The members of a list, none where it is no list.
pub fn members(value: &Value) -> &[Value]
    ensures { map view result.now ≡ members_in (Some (view value.now)) }
{
    elements(value).unwrap_or(&[])
}

/// The members of the list at a key, none where there is no list.
pub fn members_at<'a>(value: &'a Value, key: &str) -> &'a [Value]
    ensures { map view result.now ≡ members_at key.now (view value.now) }
{
    match field(value, key) {
        Some(found) => members(found),
        None => &[],
    }
}

/// The values of the array at a key.
pub fn array_at<'a>(value: &'a Value, key: &str) -> Option<&'a [Value]>
    ensures { option_map (λ s. map view s.now) result ≡ array_at key.now (view value.now) }
{
    elements(field(value, key)?)
}

/// The values of the array at a key, none where it is absent.
pub fn array_or_empty<'a>(value: &'a Value, key: &str) -> Option<&'a [Value]>
    ensures { option_map (λ s. map view s.now) result ≡ array_or_empty key.now (view value.now) }
{
    match field(value, key) {
        None => Some(&[]),
        Some(found) => elements(found),
    }
}
