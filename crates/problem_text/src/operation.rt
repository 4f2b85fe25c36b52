// Operations, and what they list.
ghost use Rattle.std.specs.Prelude.{◌≡◌, IfOk, OnOk, string_bytes};
ghost use Rattle.std.specs.List.{flat_map};
ghost use Rattle.plain_values.specs.Texts.{Adds};
ghost use Rattle.problem_text.specs.Texts.{behind_comma, listed, name_text, written_listing};
ghost use Rattle.problem_text.specs.Texts.{upper_text, written_operation, written_train};

use crate::numbers::{push_number, push_numbers};
use disp_model::{Listing, Memory, Operation, Text};
use plain_values::push_text;
use serde_json::Value;
use std::alloc::Global;

/// The name of a resource as JSON.
fn name_text(alloc: Global, names: &[Text], resource: u32) -> Result<String, Memory>
    ensures { IfOk result (λ text. string_bytes text ≡ name_text names.now resource) }
{
    let name = match names.get(resource as usize) {
        Some(name) => name.as_str(),
        None => "",
    };
    let value = Value::try_from_str(alloc, name)?;
    Ok(value.to_string(alloc)?)
}

/// Adds the name of a resource.
fn push_name(alloc: Global, text: &mut String, names: &[Text], resource: u32) -> Result<(), Memory>
    ensures { OnOk result (Adds (string_bytes text.old) (string_bytes text.new)
        (name_text names.now resource)) }
{
    let name = name_text(alloc, names, resource)?;
    push_text(text, name.as_str())
}

/// Adds a listing.
fn push_listing(
    alloc: Global,
    text: &mut String,
    names: &[Text],
    listing: &Listing,
) -> Result<(), Memory>
    ensures { OnOk result (Adds (string_bytes text.old) (string_bytes text.new)
        (written_listing names.now listing.now)) }
{
    push_text(text, "{\"release_time\":")?;
    push_number(text, listing.release)?;
    push_text(text, ",\"resource\":")?;
    push_name(alloc, text, names, listing.resource)?;
    push_text(text, "}")?;
    Ok(())
}

/// Adds listings that stand behind another one.
fn push_next_listings(
    alloc: Global,
    text: &mut String,
    names: &[Text],
    listings: &[Listing],
) -> Result<(), Memory>
    ensures { OnOk result (Adds (string_bytes text.old) (string_bytes text.new)
        (flat_map (behind_comma (written_listing names.now)) listings.now)) }
{
    for listing in listings {
        push_text(text, ",")?;
        push_listing(alloc, text, names, listing)?;
    }
    Ok(())
}

/// Adds a list of listings.
fn push_listings(
    alloc: Global,
    text: &mut String,
    names: &[Text],
    listings: &[Listing],
) -> Result<(), Memory>
    ensures { OnOk result (Adds (string_bytes text.old) (string_bytes text.new)
        (listed (written_listing names.now) listings.now)) }
{
    let Some((first, others)) = listings.split_first() else {
        return push_text(text, "[]");
    };
    push_text(text, "[")?;
    push_listing(alloc, text, names, first)?;
    push_next_listings(alloc, text, names, others)?;
    push_text(text, "]")?;
    Ok(())
}

/// Adds an upper end, where there is one.
fn push_upper(text: &mut String, upper: Option<u32>) -> Result<(), Memory>
    ensures { OnOk result
        (Adds (string_bytes text.old) (string_bytes text.new) (upper_text upper)) }
{
    match upper {
        Some(upper) => {
            push_text(text, ",\"start_ub\":")?;
            push_number(text, upper)
        }
        None => push_text(text, ""),
    }
}

/// Adds an operation.
fn push_operation(
    alloc: Global,
    text: &mut String,
    names: &[Text],
    operation: &Operation,
) -> Result<(), Memory>
    ensures { OnOk result (Adds (string_bytes text.old) (string_bytes text.new)
        (written_operation names.now operation.now)) }
{
    push_text(text, "{\"min_duration\":")?;
    push_number(text, operation.min)?;
    push_text(text, ",\"resources\":")?;
    push_listings(alloc, text, names, operation.listings.as_slice())?;
    push_text(text, ",\"start_lb\":")?;
    push_number(text, operation.lower)?;
    push_upper(text, operation.upper)?;
    push_text(text, ",\"successors\":")?;
    push_numbers(text, operation.next.as_slice())?;
    push_text(text, "}")?;
    Ok(())
}

/// Adds operations that stand behind another one.
fn push_next_operations(
    alloc: Global,
    text: &mut String,
    names: &[Text],
    operations: &[Operation],
) -> Result<(), Memory>
    ensures { OnOk result (Adds (string_bytes text.old) (string_bytes text.new)
        (flat_map (behind_comma (written_operation names.now)) operations.now)) }
{
    for operation in operations {
        push_text(text, ",")?;
        push_operation(alloc, text, names, operation)?;
    }
    Ok(())
}

/// Adds a train.
pub(crate) fn push_train(
    alloc: Global,
    text: &mut String,
    names: &[Text],
    train: &[Operation],
) -> Result<(), Memory>
    ensures { OnOk result (Adds (string_bytes text.old) (string_bytes text.new)
        (written_train names.now train.now)) }
{
    let Some((first, others)) = train.split_first() else {
        return push_text(text, "[]");
    };
    push_text(text, "[")?;
    push_operation(alloc, text, names, first)?;
    push_next_operations(alloc, text, names, others)?;
    push_text(text, "]")?;
    Ok(())
}
