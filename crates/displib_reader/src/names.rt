ghost use Rattle.std.specs.Prelude.{◌≡◌, IfOk, OnOk, map, string_bytes, codes};
ghost use Rattle.serde_json.specs.View.{view};
ghost use Rattle.json_claims.specs.Field.{text_at, members_at};
ghost use Rattle.displib_reader.specs.ProblemOf.{names_of_operation, names_of_train, names_in};
ghost use Rattle.displib_reader.specs.Names.{with_name, with_found, with_names};

use disp_model::{List, Memory, Text};
use indexmap::IndexSet;
use json_claims::{members, members_at, text_at};
use serde_json::Value;
use std::alloc::Global;

/// Adds a name, where it is new.
#[tactic(auto, using(crate::proofs::Once::inserted_name, crate::proofs::Once::known_name))]
fn add_name(alloc: Global, names: &mut IndexSet<String>, name: &str) -> Result<(), Memory>
    ensures { OnOk result
        (map string_bytes names.new.keys ≡ with_name (map string_bytes names.old.keys) name.now) }
{
    if !names.contains(name) {
        names.insert(String::from_str(alloc, name)?)?;
    }
    Ok(())
}

/// Adds the name of a listing, where it has one that is new.
fn add_name_of_listing(
    alloc: Global,
    names: &mut IndexSet<String>,
    listing: &Value,
) -> Result<(), Memory>
    ensures { OnOk result (map string_bytes names.new.keys
        ≡ with_found (map string_bytes names.old.keys)
        (text_at (codes "resource") (view listing.now))) }
{
    match text_at(listing, "resource") {
        Some(name) => add_name(alloc, names, name),
        None => Ok(()),
    }
}

/// Adds the new ones of the names that an operation lists.
#[tactic(auto, using(crate::proofs::Once::found_more))]
fn add_names_of_operation(
    alloc: Global,
    names: &mut IndexSet<String>,
    operation: &Value,
) -> Result<(), Memory>
    ensures { OnOk result
        (map string_bytes names.new.keys
        ≡ with_names (map string_bytes names.old.keys) (names_of_operation (view operation.now))) }
{
    for listing in members_at(operation, "resources") {
        add_name_of_listing(alloc, names, listing)?;
    }
    Ok(())
}

/// Adds the new ones of the names that a train's operations list.
#[tactic(auto, using(crate::proofs::Once::names_more))]
fn add_names_of_train(
    alloc: Global,
    names: &mut IndexSet<String>,
    train: &Value,
) -> Result<(), Memory>
    ensures { OnOk result
        (map string_bytes names.new.keys
        ≡ with_names (map string_bytes names.old.keys) (names_of_train (view train.now))) }
{
    for operation in members(train) {
        add_names_of_operation(alloc, names, operation)?;
    }
    Ok(())
}

/// The names of resources, in order of first appearance in the text.
#[tactic(auto, using(crate::proofs::Once::names_more))]
pub(crate) fn read_names(alloc: Global, value: &Value) -> Result<IndexSet<String>, Memory>
    ensures { IfOk result (λ names. map string_bytes names.keys ≡ names_in (view value.now)) }
{
    let mut names = IndexSet::new(alloc);
    for train in members_at(value, "trains") {
        add_names_of_train(alloc, &mut names, train)?;
    }
    Ok(names)
}

/// The names as a list of texts.
pub(crate) fn list_names(alloc: Global, names: IndexSet<String>) -> Result<List<Text>, Memory>
    ensures { IfOk result (λ texts. texts ≡ map string_bytes names.keys) }
{
    let mut texts = Vec::with_capacity(alloc, names.len())?;
    for name in names {
        texts.push(Text::from_string(name))?;
    }
    Ok(List::from_vec(texts))
}
