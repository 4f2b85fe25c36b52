ghost use Rattle.std.specs.Prelude.{◌≡◌, ◌≤◌, length, MatchOption, IfOk, None, Some};
ghost use Rattle.tree_certificate.specs.Reading.{GivesRead};
ghost use Rattle.tree_certificate.specs.FieldsRead.{HasNone, IsFirstByte, before, from, behind, whole_field, field_number, op_at, ops_at, line_ended, word_at};

use crate::fault::{Fault, ReadError};
use disp_model::{GREATEST_NUMBER, Op};
use plain_values::{NumberNo, read_number};
use std::alloc::Global;

/// Where the first such byte stands.
fn first(bytes: &[u8], byte: u8) -> Option<usize>
    ensures { MatchOption result (HasNone byte bytes.now) (IsFirstByte byte bytes.now) }
{
    bytes.iter().position(|b| *b == byte)
}

/// The bytes before the first such byte, and those from it on.
#[tactic(auto, using(crate::proofs::Cutting::none_before, crate::proofs::Cutting::none_from, crate::proofs::Cutting::first_before, crate::proofs::Cutting::first_from))]
pub(crate) fn cut(bytes: &[u8], byte: u8) -> (&[u8], &[u8])
    ensures front { result.0.now ≡ before byte bytes.now }
    ensures back { result.1.now ≡ from byte bytes.now }
{
    match first(bytes, byte) {
        Some(place) => bytes.split_at(place),
        None => bytes.split_at(bytes.len()),
    }
}

/// What stands behind a word at the front.
pub(crate) fn behind<'a>(line: &'a [u8], word: &[u8]) -> Option<&'a [u8]>
    ensures { MatchOption result (behind word.now line.now ≡ None)
        (λ fields. behind word.now line.now ≡ Some fields.now) }
{
    line.strip_prefix(word)
}

/// What stands behind the word that the line has to begin with.
pub(crate) fn word_at<'a>(left: usize, line: &'a [u8], word: &[u8]) -> Result<&'a [u8], ReadError>
    ensures { GivesRead (λ x. x.now) result (word_at left word.now line.now) }
{
    match behind(line, word) {
        Some(fields) => Ok(fields),
        None => Err(ReadError::Fault(Fault::Bad(left))),
    }
}

/// The number of a whole field.
fn whole_field(left: usize, most: u64, field: &[u8]) -> Result<u64, ReadError>
    ensures gives { GivesRead (λ n. n) result (whole_field left most field.now) }
    ensures within { IfOk result (λ n. n ≤ most) }
{
    match read_number(field, u128::from(most)) {
        Ok(number) => Ok(number as u64),
        Err(NumberNo::NotNumber) => Err(ReadError::Fault(Fault::Bad(left))),
        Err(NumberNo::TooLarge) => Err(ReadError::Fault(Fault::Large(left))),
    }
}

/// A space, and the number of the field behind it.
#[tactic(auto, unfolding(crate::specs::FieldsRead::field_number))]
pub(crate) fn field_number(left: usize, most: u64, bytes: &[u8]) -> Result<(u64, &[u8]), ReadError>
    ensures gives { GivesRead (λ x. (x.0, x.1.now)) result (field_number left most bytes.now) }
    ensures within { IfOk result (λ x. x.0 ≤ most) }
{
    match bytes {
        [] => Err(ReadError::Fault(Fault::Bad(left))),
        [space, fields @ ..] => {
            if *space != b' ' {
                return Err(ReadError::Fault(Fault::Bad(left)));
            }
            let (field, rest) = cut(fields, b' ');
            let number = whole_field(left, most, field)?;
            Ok((number, rest))
        }
    }
}

/// A space, and the smaller number of the field behind it.
pub(crate) fn index_at(left: usize, most: u32, bytes: &[u8]) -> Result<(u32, &[u8]), ReadError>
    ensures { GivesRead (λ x. (x.0, x.1.now)) result (field_number left most bytes.now) }
{
    let (number, rest) = field_number(left, u64::from(most), bytes)?;
    Ok((number as u32, rest))
}

/// An operation.
#[tactic(auto, unfolding(crate::specs::FieldsRead::op_at))]
pub(crate) fn op_at(left: usize, bytes: &[u8]) -> Result<(Op, &[u8]), ReadError>
    ensures { GivesRead (λ x. (x.0, x.1.now)) result (op_at left bytes.now) }
{
    let (train, rest) = index_at(left, GREATEST_NUMBER, bytes)?;
    let (op, rest) = index_at(left, GREATEST_NUMBER, rest)?;
    Ok((Op { train, op }, rest))
}

/// Nothing more stands in the line.
#[tactic(auto, unfolding(crate::specs::FieldsRead::line_ended))]
pub(crate) fn line_ended(left: usize, bytes: &[u8]) -> Result<(), ReadError>
    ensures { GivesRead (λ x. x) result (line_ended left bytes.now) }
{
    match bytes {
        [] => Ok(()),
        [_, ..] => Err(ReadError::Fault(Fault::Bad(left))),
    }
}

/// Operations up to the end of the line.
pub(crate) fn ops_at(alloc: Global, left: usize, bytes: &[u8]) -> Result<Vec<Op>, ReadError>
    ensures { GivesRead (λ x. x.items) result (ops_at left (length bytes.now) bytes.now) }
{
    let mut ops = Vec::new(alloc);
    let mut rest = bytes;
    for _ in 0..bytes.len() {
        if rest.is_empty() {
            return Ok(ops);
        }
        let (op, after) = op_at(left, rest)?;
        ops.push(op)?;
        rest = after;
    }
    line_ended(left, rest)?;
    Ok(ops)
}
