ghost use Rattle.std.specs.Prelude.{◌≡◌, ◌<◌, map, IfSome, length};
ghost use Rattle.serde_json.specs.View.{view};
ghost use Rattle.json_claims.specs.Gives.{Gives};
ghost use Rattle.displib_reader.specs.ProblemOf.{component_of, components_of};
ghost use Rattle.displib_reader.specs.Types.{is_known, first_unknown};

use disp_model::{Component, GREATEST_NUMBER, List};
use json_claims::{Unread, array_at, index_at, index_or, text_at};
use serde_json::Value;
use std::alloc::Global;

/// Whether a component is of the one type that there is.
fn is_known(value: &Value) -> bool
    ensures { result ≡ is_known (view value.now) }
{
    match text_at(value, "type") {
        Some(kind) => kind == "op_delay",
        None => false,
    }
}

/// The first component of an unknown type.
pub(crate) fn first_unknown(values: &[Value]) -> Option<usize>
    ensures first { result ≡ first_unknown 0 (map view values.now) }
    ensures there { IfSome result (λ c. c < length values.now) }
{
    for (c, value) in values.iter().enumerate() {
        if !is_known(value) {
            return Some(c);
        }
    }
    None
}

/// A component of the cost.
#[tactic(auto, unfolding(crate::specs::ProblemOf::component_of))]
fn read_component(value: &Value) -> Result<Component, Unread>
    ensures { Gives result (component_of (view value.now)) }
{
    let kind = text_at(value, "type").ok_or(Unread::Nothing)?;
    let train = index_at(value, "train", GREATEST_NUMBER).ok_or(Unread::Nothing)?;
    let operation = index_at(value, "operation", GREATEST_NUMBER).ok_or(Unread::Nothing)?;
    let threshold = index_or(value, "threshold", GREATEST_NUMBER, 0).ok_or(Unread::Nothing)?;
    let increment = index_or(value, "increment", GREATEST_NUMBER, 0).ok_or(Unread::Nothing)?;
    let coeff = index_or(value, "coeff", GREATEST_NUMBER, 0).ok_or(Unread::Nothing)?;
    if kind != "op_delay" {
        return Err(Unread::Nothing);
    }
    Ok(Component {
        train,
        operation,
        threshold,
        increment,
        coeff,
    })
}

/// The components of the cost.
pub(crate) fn read_components(alloc: Global, value: &Value) -> Result<List<Component>, Unread>
    ensures { Gives result (components_of (view value.now)) }
{
    let values = array_at(value, "objective").ok_or(Unread::Nothing)?;
    let mut components = Vec::new(alloc);
    for item in values {
        components.push(read_component(item)?)?;
    }
    Ok(List::from_vec(components))
}
