ghost use Rattle.std.specs.Prelude.{◌≡◌, ◌++◌, OnOk, IfOk, string_bytes};
ghost use Rattle.std.specs.List.{flat_map};
ghost use Rattle.std.specs.Fmt.{decimal};
ghost use Rattle.plain_values.specs.Texts.{Adds};
ghost use Rattle.solution_text.specs.Texts.{event_text, next_event_text, events_text, solution_text};

use disp_model::{Event, Memory};
use plain_values::push_text;
use std::alloc::Global;

/// Adds a number in decimal.
fn push_number(text: &mut String, number: u64) -> Result<(), Memory>
    ensures ok { OnOk result
        (Adds (string_bytes text.old) (string_bytes text.new) (decimal number)) }
{
    write!(text, "{number}")?;
    Ok(())
}

/// Adds the number of a train or an operation in decimal.
fn push_index(text: &mut String, index: u32) -> Result<(), Memory>
    ensures ok { OnOk result
        (Adds (string_bytes text.old) (string_bytes text.new) (decimal index)) }
{
    write!(text, "{index}")?;
    Ok(())
}

/// Adds the text of an event.
fn push_event(text: &mut String, event: &Event) -> Result<(), Memory>
    ensures ok { OnOk result
        (Adds (string_bytes text.old) (string_bytes text.new) (event_text event.now)) }
{
    push_text(text, "{\"operation\":")?;
    push_index(text, event.operation)?;
    push_text(text, ",\"time\":")?;
    push_number(text, event.time)?;
    push_text(text, ",\"train\":")?;
    push_index(text, event.train)?;
    push_text(text, "}")?;
    Ok(())
}

/// Adds the texts of events that stand behind another one.
fn push_next_events(text: &mut String, plan: &[Event]) -> Result<(), Memory>
    ensures ok { OnOk result
        (Adds (string_bytes text.old) (string_bytes text.new) (flat_map next_event_text plan.now)) }
{
    for event in plan {
        push_text(text, ",")?;
        push_event(text, event)?;
    }
    Ok(())
}

/// Adds the texts of the events, with a comma between each two.
fn push_events(text: &mut String, plan: &[Event]) -> Result<(), Memory>
    ensures ok { OnOk result
        (Adds (string_bytes text.old) (string_bytes text.new) (events_text plan.now)) }
{
    let Some((first, others)) = plan.split_first() else {
        return Ok(());
    };
    push_event(text, first)?;
    push_next_events(text, others)?;
    Ok(())
}

/// The text of a solution: its events in order, and its cost.
fn solution(alloc: Global, plan: &[Event], cost: u64) -> Result<String, Memory>
    ensures text { IfOk result (λ text. string_bytes text ≡ solution_text plan.now cost) }
{
    let mut text = String::from_str(alloc, "{\"events\":[")?;
    push_events(&mut text, plan)?;
    push_text(&mut text, "],\"objective_value\":")?;
    push_number(&mut text, cost)?;
    push_text(&mut text, "}")?;
    Ok(text)
}

/// The text of a solution in JSON, compact and with keys in order: the events in list order, and
/// the cost as the objective value.
pub fn write_solution(alloc: Global, plan: &[Event], cost: u64) -> Result<Vec<u8>, Memory>
    ensures text { IfOk result (λ text. text.items ≡ solution_text plan.now cost) }
{
    let text = solution(alloc, plan, cost)?;
    Ok(text.into_bytes())
}
