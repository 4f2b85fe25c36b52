ghost use Rattle.std.specs.Prelude.{◌≡◌, IfOk, map, sum_by, length, Some};
ghost use Rattle.serde_json.specs.View.{view};
ghost use Rattle.json_claims.specs.Field.{members_in};
ghost use Rattle.displib_reader.specs.Counts.{too_many};

use crate::fault::Kind;
use disp_model::{MOST_COMPONENTS, MOST_OPERATIONS, MOST_TRAINS, Memory};
use json_claims::{members, members_at};
use serde_json::Value;

/// How many operations the trains have. More than 64 bits count are more than memory holds.
fn operations_given(trains: &[Value]) -> Result<u64, Memory>
    ensures { IfOk result
        (λ n. n ≡ sum_by (λ train. length (members_in (Some train))) (map view trains.now)) }
{
    let mut count: u64 = 0;
    for train in trains {
        let more = members(train).len() as u64;
        count = count.checked_add(more).ok_or(Memory)?;
    }
    Ok(count)
}

/// What there is too much of, and how many there are.
pub(crate) fn too_many(value: &Value) -> Result<Option<(Kind, u64)>, Memory>
    ensures { IfOk result (λ found. found ≡ too_many (view value.now)) }
{
    let trains = members_at(value, "trains");
    let components = members_at(value, "objective");
    if trains.len() > MOST_TRAINS {
        return Ok(Some((Kind::Trains, trains.len() as u64)));
    }
    let operations = operations_given(trains)?;
    if operations > MOST_OPERATIONS as u64 {
        return Ok(Some((Kind::Operations, operations)));
    }
    if components.len() > MOST_COMPONENTS {
        return Ok(Some((Kind::Components, components.len() as u64)));
    }
    Ok(None)
}
