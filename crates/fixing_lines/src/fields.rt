ghost use Rattle.fixing_lines.specs.declared.fields.Fields.{Fields};
ghost use Rattle.std.specs.Prelude.{◌≡◌, ◌+◌, ◌<◌, ℕ, List, [], MatchOption, length, take, drop, get_or};
ghost use Rattle.fixing_lines.specs.Requests.{IsField, HasFields, HasNumber, LeadsWith, HasNoSpace};

use plain_values::read_number;

/// The three numbers of a line: a train, an operation of it, and a time or the operation that comes
/// next.
#[derive(Clone, Copy)]
pub(crate) struct Fields {
    pub(crate) at_train: u64,
    pub(crate) at_op: u64,
    pub(crate) last: u64,
}

/// The number that a field is, where it is one.
fn number(field: &[u8]) -> Option<u64>
    ensures { MatchOption result ((n : ℕ) → IsField field.now n → ⊥) (IsField field.now) }
{
    let number = read_number(field, u128::from(u64::MAX)).ok()?;
    u64::try_from(number).ok()
}

/// Where the first space stands.
fn first_space(bytes: &[u8]) -> Option<usize>
    ensures { MatchOption result (HasNoSpace bytes.now)
        (λ k. (k < length bytes.now) × (get_or bytes.now k 0 ≡ 32)
        × HasNoSpace (take k bytes.now)) }
{
    bytes.iter().position(|byte| *byte == b' ')
}

/// The number of the first field, and what stands behind the space after it.
fn leading_number(bytes: &[u8]) -> Option<(u64, &[u8])>
    ensures { MatchOption result ((n : ℕ) (rest : List ℕ) → LeadsWith bytes.now n rest → ⊥)
        (λ x. LeadsWith bytes.now x.0 x.1.now) }
{
    let space = first_space(bytes)?;
    let field = number(&bytes[..space])?;
    Some((field, &bytes[space + 1..]))
}

/// The numbers of three fields with one space between each two.
fn three_fields(bytes: &[u8]) -> Option<Fields>
    ensures { MatchOption result ((fields : Fields) → HasFields [] bytes.now fields → ⊥)
        (HasFields [] bytes.now) }
{
    let (at_train, others) = leading_number(bytes)?;
    let (at_op, last) = leading_number(others)?;
    let last = number(last)?;
    Some(Fields {
        at_train,
        at_op,
        last,
    })
}

/// The numbers of the three fields behind a word, which has the space between.
pub(crate) fn fields_after(line: &[u8], word: &[u8]) -> Option<Fields>
    ensures { MatchOption result ((fields : Fields) → HasFields word.now line.now fields → ⊥)
        (HasFields word.now line.now) }
{
    let fields = line.strip_prefix(word)?;
    three_fields(fields)
}

/// The number behind a word, which has the space between.
pub(crate) fn number_after(line: &[u8], word: &[u8]) -> Option<u64>
    ensures { MatchOption result ((n : ℕ) → HasNumber word.now line.now n → ⊥)
        (HasNumber word.now line.now) }
{
    let field = line.strip_prefix(word)?;
    number(field)
}
