// Numbers, and lists of them.
ghost use Rattle.std.specs.Prelude.{◌≡◌, OnOk, string_bytes};
ghost use Rattle.std.specs.List.{flat_map};
ghost use Rattle.std.specs.Fmt.{decimal};
ghost use Rattle.plain_values.specs.Texts.{Adds};
ghost use Rattle.problem_text.specs.Texts.{behind_comma, listed};

use disp_model::Memory;
use plain_values::push_text;

/// Adds a number in decimal.
pub(crate) fn push_number(text: &mut String, number: u32) -> Result<(), Memory>
    ensures { OnOk result (Adds (string_bytes text.old) (string_bytes text.new) (decimal number)) }
{
    write!(text, "{number}")?;
    Ok(())
}

/// Adds numbers that stand behind another one.
fn push_next_numbers(text: &mut String, numbers: &[u32]) -> Result<(), Memory>
    ensures { OnOk result (Adds (string_bytes text.old) (string_bytes text.new)
        (flat_map (behind_comma decimal) numbers.now)) }
{
    for number in numbers {
        push_text(text, ",")?;
        push_number(text, *number)?;
    }
    Ok(())
}

/// Adds a list of numbers.
pub(crate) fn push_numbers(text: &mut String, numbers: &[u32]) -> Result<(), Memory>
    ensures { OnOk result (Adds (string_bytes text.old) (string_bytes text.new)
        (listed decimal numbers.now)) }
{
    let Some((first, others)) = numbers.split_first() else {
        return push_text(text, "[]");
    };
    push_text(text, "[")?;
    push_number(text, *first)?;
    push_next_numbers(text, others)?;
    push_text(text, "]")?;
    Ok(())
}
