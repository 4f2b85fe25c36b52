ghost use Rattle.std.specs.Prelude.{◌≡◌, IfOk, OnOk, string_bytes};
ghost use Rattle.std.specs.List.{flat_map};
ghost use Rattle.plain_values.specs.Texts.{Adds};
ghost use Rattle.problem_text.specs.Texts.{behind_comma, listed, written_train, problem_text};

use crate::component::push_components;
use crate::operation::push_train;
use disp_model::{List, Memory, Problem, Text, Train};
use plain_values::push_text;
use std::alloc::Global;

/// Adds trains that stand behind another one.
fn push_next_trains(
    alloc: Global,
    text: &mut String,
    names: &[Text],
    trains: &[Train],
) -> Result<(), Memory>
    ensures { OnOk result (Adds (string_bytes text.old) (string_bytes text.new)
        (flat_map (behind_comma (written_train names.now)) trains.now)) }
{
    for train in trains {
        push_text(text, ",")?;
        push_train(alloc, text, names, train.as_slice())?;
    }
    Ok(())
}

/// Adds a list of trains.
fn push_trains(
    alloc: Global,
    text: &mut String,
    names: &[Text],
    trains: &[Train],
) -> Result<(), Memory>
    ensures { OnOk result (Adds (string_bytes text.old) (string_bytes text.new)
        (listed (written_train names.now) trains.now)) }
{
    let Some((first, others)) = trains.split_first() else {
        return push_text(text, "[]");
    };
    push_text(text, "[")?;
    push_train(alloc, text, names, first.as_slice())?;
    push_next_trains(alloc, text, names, others)?;
    push_text(text, "]")?;
    Ok(())
}

/// The text of a problem in JSON, compact and with keys in order: components and trains with all
/// their numbers, and each resource by its name.
///
/// # Errors
///
/// `Memory` where memory runs out.
pub fn write_problem(alloc: Global, problem: &Problem) -> Result<List<u8>, Memory>
    ensures { IfOk result (λ text. text ≡ problem_text problem.now) }
{
    let mut text = String::from_str(alloc, "{\"objective\":")?;
    push_components(&mut text, problem.components.as_slice())?;
    push_text(&mut text, ",\"trains\":")?;
    push_trains(
        alloc,
        &mut text,
        problem.names.as_slice(),
        problem.trains.as_slice(),
    )?;
    push_text(&mut text, "}")?;
    Ok(List::from_vec(text.into_bytes()))
}
