// Components.
ghost use Rattle.std.specs.Prelude.{◌≡◌, OnOk, string_bytes};
ghost use Rattle.std.specs.List.{flat_map};
ghost use Rattle.plain_values.specs.Texts.{Adds};
ghost use Rattle.problem_text.specs.Texts.{behind_comma, listed, written_component};

use crate::numbers::push_number;
use disp_model::{Component, Memory};
use plain_values::push_text;

/// Adds a component.
fn push_component(text: &mut String, component: &Component) -> Result<(), Memory>
    ensures { OnOk result (Adds (string_bytes text.old) (string_bytes text.new)
        (written_component component.now)) }
{
    push_text(text, "{\"coeff\":")?;
    push_number(text, component.coeff)?;
    push_text(text, ",\"increment\":")?;
    push_number(text, component.increment)?;
    push_text(text, ",\"operation\":")?;
    push_number(text, component.operation)?;
    push_text(text, ",\"threshold\":")?;
    push_number(text, component.threshold)?;
    push_text(text, ",\"train\":")?;
    push_number(text, component.train)?;
    push_text(text, ",\"type\":\"op_delay\"}")?;
    Ok(())
}

/// Adds components that stand behind another one.
fn push_next_components(text: &mut String, components: &[Component]) -> Result<(), Memory>
    ensures { OnOk result (Adds (string_bytes text.old) (string_bytes text.new)
        (flat_map (behind_comma written_component) components.now)) }
{
    for component in components {
        push_text(text, ",")?;
        push_component(text, component)?;
    }
    Ok(())
}

/// Adds a list of components.
pub(crate) fn push_components(text: &mut String, components: &[Component]) -> Result<(), Memory>
    ensures { OnOk result (Adds (string_bytes text.old) (string_bytes text.new)
        (listed written_component components.now)) }
{
    let Some((first, others)) = components.split_first() else {
        return push_text(text, "[]");
    };
    push_text(text, "[")?;
    push_component(text, first)?;
    push_next_components(text, others)?;
    push_text(text, "]")?;
    Ok(())
}
