ghost use Rattle.std.specs.Prelude.{◌≡◌, map, nat_eq, IfOk, string_bytes, ◌<◌};
ghost use Rattle.std.specs.List.{position_or_len};
ghost use Rattle.std.specs.Str.{bytes_eq};
ghost use Rattle.serde_json.specs.View.{view};
ghost use Rattle.json_claims.specs.Gives.{Gives};
ghost use Rattle.json_claims.specs.Field.{each, whole_of};
ghost use Rattle.displib_reader.specs.ProblemOf.{once, listing_of, operation_read};

use disp_model::{GREATEST_NUMBER, List, Listing, Memory, Operation};
use indexmap::IndexSet;
use json_claims::{Unread, array_or_empty, index, index_or, optional_index, text_at};
use serde_json::Value;
use std::alloc::Global;

/// The place of a name among the names, or how many there are. Places past 32 bits want more memory
/// than there is.
#[tactic(auto, using(crate::proofs::Once::name_place))]
fn place_of(names: &IndexSet<String>, name: &str) -> Result<u32, Memory>
    ensures { IfOk result
        (λ place. place ≡ position_or_len (bytes_eq name.now) (map string_bytes names.now.keys)) }
{
    let place = names.get_index_of(name).unwrap_or(names.len());
    match u32::try_from(place) {
        Ok(place) => Ok(place),
        Err(_) => Err(Memory),
    }
}

/// A resource that an operation lists.
fn read_listing(names: &IndexSet<String>, value: &Value) -> Result<Listing, Unread>
    ensures { Gives result (listing_of (map string_bytes names.now.keys) (view value.now)) }
{
    let name = text_at(value, "resource").ok_or(Unread::Nothing)?;
    let release = index_or(value, "release_time", GREATEST_NUMBER, 0).ok_or(Unread::Nothing)?;
    let resource = place_of(names, name)?;
    Ok(Listing { resource, release })
}

/// The resources that an operation lists.
fn read_listings(
    alloc: Global,
    names: &IndexSet<String>,
    values: &[Value],
) -> Result<List<Listing>, Unread>
    ensures { Gives result
        (each (listing_of (map string_bytes names.now.keys)) (map view values.now)) }
{
    let mut listings = Vec::new(alloc);
    for value in values {
        listings.push(read_listing(names, value)?)?;
    }
    Ok(List::from_vec(listings))
}

/// The numbers of a list.
fn read_numbers(alloc: Global, values: &[Value]) -> Result<List<u32>, Unread>
    ensures { Gives result (each (whole_of GREATEST_NUMBER) (map view values.now)) }
{
    let mut numbers = Vec::new(alloc);
    for value in values {
        numbers.push(index(value, GREATEST_NUMBER).ok_or(Unread::Nothing)?)?;
    }
    Ok(List::from_vec(numbers))
}

/// The numbers as a set, in order of first appearance.
fn set_of(alloc: Global, numbers: &[u32]) -> Result<IndexSet<u32>, Memory>
    ensures { IfOk result (λ set. set.keys ≡ once nat_eq numbers.now) }
{
    let mut set = IndexSet::new(alloc);
    for number in numbers {
        set.insert(*number)?;
    }
    Ok(set)
}

/// Each number once, where it first stands.
fn once(alloc: Global, numbers: &[u32]) -> Result<List<u32>, Memory>
    ensures { IfOk result (λ kept. kept ≡ once nat_eq numbers.now) }
{
    let set = set_of(alloc, numbers)?;
    Ok(List::from_vec(Vec::from_slice(alloc, set.as_slice())?))
}

/// An operation of a train.
#[tactic(auto, unfolding(crate::specs::ProblemOf::operation_read))]
pub(crate) fn read_operation(
    alloc: Global,
    names: &IndexSet<String>,
    value: &Value,
) -> Result<Operation, Unread>
    ensures { Gives result (operation_read (map string_bytes names.now.keys) (view value.now)) }
{
    if !value.is_object() {
        return Err(Unread::Nothing);
    }
    let lower = index_or(value, "start_lb", GREATEST_NUMBER, 0).ok_or(Unread::Nothing)?;
    let upper = optional_index(value, "start_ub", GREATEST_NUMBER).ok_or(Unread::Nothing)?;
    let min = index_or(value, "min_duration", GREATEST_NUMBER, 0).ok_or(Unread::Nothing)?;
    let resources = array_or_empty(value, "resources").ok_or(Unread::Nothing)?;
    let listings = read_listings(alloc, names, resources)?;
    let successors = array_or_empty(value, "successors").ok_or(Unread::Nothing)?;
    let numbers = read_numbers(alloc, successors)?;
    let next = once(alloc, numbers.as_slice())?;
    Ok(Operation {
        lower,
        upper,
        min,
        listings,
        next,
    })
}
