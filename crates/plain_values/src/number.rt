ghost use Rattle.std.specs.Prelude.{◌≡◌, ◌+◌, ◌*◌, ◌<◌, ◌≤◌, ◌↔◌, IsTrue, IfOk, IfSome, IfNone, IsErrOf, MatchOption};
ghost use Rattle.std.specs.Char.{digit_value};
ghost use Rattle.plain_values.specs.Decimal.{AreDigits, IsDecimal, IsNumber, IsAbove, value_of};

/// Why bytes are no number.
#[derive(Clone, Copy, Debug, PartialEq, Eq)]
pub enum NumberNo {
    /// The bytes are not decimal digits alone, or begin with a needless zero, or there are none.
    NotNumber,
    /// The number is above the greatest that is taken.
    TooLarge,
}

/// The number that a digit stands for.
fn digit(byte: u8) -> Option<u8>
    ensures { MatchOption result (10 ≤ digit_value byte) (λ d. (d ≡ digit_value byte) × (d < 10)) }
{
    match byte {
        b'0'..=b'9' => Some(byte - b'0'),
        _ => None,
    }
}

/// Whether all bytes are digits.
fn are_digits(bytes: &[u8]) -> bool
    ensures { IsTrue result ↔ AreDigits bytes.now }
{
    bytes.iter().all(|byte| digit(*byte).is_some())
}

/// Whether the bytes are a number's.
fn is_decimal(bytes: &[u8]) -> bool
    ensures { IsTrue result ↔ IsDecimal bytes.now }
{
    match bytes {
        [] => false,
        [b'0', _, ..] => false,
        _ => are_digits(bytes),
    }
}

/// The number with one more digit, where it is at most so much.
fn with_digit(number: u128, byte: u8, most: u128) -> Option<u128>
    requires { digit_value byte < 10 }
    ensures { MatchOption result (most < number * 10 + digit_value byte)
        (λ n. (n ≡ number * 10 + digit_value byte) × (n ≤ most)) }
{
    let next = number
        .checked_mul(10)?
        .checked_add(u128::from(digit(byte)?))?;
    if next <= most { Some(next) } else { None }
}

/// The number that digits write, where it is at most so much.
#[tactic(auto, using(crate::proofs::Digits::more, crate::proofs::Digits::above))]
fn value(bytes: &[u8], most: u128) -> Option<u128>
    requires { AreDigits bytes.now }
    ensures { MatchOption result (most < value_of bytes.now)
        (λ n. (n ≡ value_of bytes.now) × (n ≤ most)) }
{
    let mut number = 0;
    for byte in bytes {
        match with_digit(number, *byte, most) {
            Some(next) => number = next,
            None => return None,
        }
    }
    Some(number)
}

/// The number that the bytes write in decimal, without sign and without needless zeros. It takes no
/// memory, however many bytes there are.
///
/// # Errors
///
/// `NotNumber` exactly where the bytes are no such number, `TooLarge` exactly where it is above
/// `most`.
pub fn read_number(bytes: &[u8], most: u128) -> Result<u128, NumberNo>
    ensures ok { IfOk result (IsNumber bytes.now most) }
    ensures not_number { IsErrOf result NumberNo.NotNumber ↔ (IsDecimal bytes.now → ⊥) }
    ensures too_large { IsErrOf result NumberNo.TooLarge ↔ IsAbove bytes.now most }
{
    if !is_decimal(bytes) {
        return Err(NumberNo::NotNumber);
    }
    match value(bytes, most) {
        Some(number) => Ok(number),
        None => Err(NumberNo::TooLarge),
    }
}
