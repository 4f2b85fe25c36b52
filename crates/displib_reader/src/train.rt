ghost use Rattle.std.specs.Prelude.{map, string_bytes};
ghost use Rattle.serde_json.specs.View.{view};
ghost use Rattle.json_claims.specs.Gives.{Gives};
ghost use Rattle.displib_reader.specs.ProblemOf.{train_read_as, trains_with};

use crate::operation::read_operation;
use disp_model::{List, Train};
use indexmap::IndexSet;
use json_claims::{Unread, array_at, elements};
use serde_json::Value;
use std::alloc::Global;

/// A train.
fn read_train(alloc: Global, names: &IndexSet<String>, value: &Value) -> Result<Train, Unread>
    ensures { Gives result (train_read_as (map string_bytes names.now.keys) (view value.now)) }
{
    let values = elements(value).ok_or(Unread::Nothing)?;
    let mut operations = Vec::new(alloc);
    for item in values {
        operations.push(read_operation(alloc, names, item)?)?;
    }
    Ok(List::from_vec(operations))
}

/// The trains.
pub(crate) fn read_trains(
    alloc: Global,
    names: &IndexSet<String>,
    value: &Value,
) -> Result<List<Train>, Unread>
    ensures { Gives result (trains_with (map string_bytes names.now.keys) (view value.now)) }
{
    let values = array_at(value, "trains").ok_or(Unread::Nothing)?;
    let mut trains = Vec::new(alloc);
    for item in values {
        trains.push(read_train(alloc, names, item)?)?;
    }
    Ok(List::from_vec(trains))
}
