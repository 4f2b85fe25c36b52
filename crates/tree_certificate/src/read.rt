ghost use Rattle.std.specs.Prelude.{◌≡◌, codes, IfOk, MatchResult, Ok};
ghost use Rattle.tree_certificate.specs.declared.word.Version.{Version};
ghost use Rattle.tree_certificate.specs.Versions.{IsText};
ghost use Rattle.tree_certificate.specs.FieldsRead.{behind};
ghost use Rattle.tree_certificate.specs.Reading.{GivesRead};
ghost use Rattle.tree_certificate.specs.TreesRead.{TreeRead, version_word_at, version_at, edition_line_at, edition_at, optimal_at, infeasible_at, verdict_by, verdict_at, nothing_behind, end_at, is_third_version, tree_at, line_number, refusal_of, read_of, AnswersTree};

use crate::fault::{Fault, ReadError, TreeNo};
use crate::fields::{behind, field_number, index_at, line_ended, word_at};
use crate::lines::line_at;
use crate::nodes::nodes_at;
use crate::word::Version;
use disp_model::{GREATEST_COST, List, Verdict};
use packed_nodes::PackedNode;
use std::alloc::Global;

/// A tree as a text is read: its nodes in preorder, each in few bytes.
pub type PackedTree = List<PackedNode>;

/// The version of a text, by its first line.
#[tactic(auto, unfolding(crate::specs::TreesRead::version_word_at))]
fn version_word_at(left: usize, line: &[u8]) -> Result<(Version, &[u8]), ReadError>
    ensures { GivesRead (λ x. (x.0, x.1.now)) result (version_word_at left line.now) }
{
    if let Some(fields) = behind(line, b"displib-tree 1") {
        return Ok((Version::First, fields));
    }
    if let Some(fields) = behind(line, b"displib-tree 2") {
        return Ok((Version::Second, fields));
    }
    if let Some(fields) = behind(line, b"displib-tree 3") {
        return Ok((Version::Third, fields));
    }
    Err(ReadError::Fault(Fault::Bad(left)))
}

/// The first line.
#[tactic(auto, unfolding(crate::specs::TreesRead::version_at))]
fn version_at(bytes: &[u8]) -> Result<(Version, &[u8]), ReadError>
    ensures { GivesRead (λ x. (x.0, x.1.now)) result (version_at bytes.now) }
{
    let (line, rest) = line_at(bytes)?;
    let (version, fields) = version_word_at(bytes.len(), line)?;
    line_ended(bytes.len(), fields)?;
    Ok((version, rest))
}

/// The line of an edition.
#[tactic(auto, unfolding(crate::specs::TreesRead::edition_line_at))]
fn edition_line_at(bytes: &[u8]) -> Result<(Option<u32>, &[u8]), ReadError>
    ensures { GivesRead (λ x. (x.0, x.1.now)) result (edition_line_at bytes.now) }
{
    let (line, rest) = line_at(bytes)?;
    let fields = word_at(bytes.len(), line, b"edition")?;
    let (edition, fields) = index_at(bytes.len(), 65535, fields)?;
    line_ended(bytes.len(), fields)?;
    Ok((Some(edition), rest))
}

/// The second line of the later versions.
#[tactic(auto, unfolding(crate::specs::TreesRead::edition_at))]
fn edition_at(version: Version, bytes: &[u8]) -> Result<(Option<u32>, &[u8]), ReadError>
    ensures { GivesRead (λ x. (x.0, x.1.now)) result (edition_at version bytes.now) }
{
    match version {
        Version::First => Ok((None, bytes)),
        Version::Second => edition_line_at(bytes),
        Version::Third => edition_line_at(bytes),
    }
}

/// The cost of an optimal plan.
#[tactic(auto, unfolding(crate::specs::TreesRead::optimal_at))]
fn optimal_at(left: usize, fields: &[u8]) -> Result<Verdict, ReadError>
    ensures { GivesRead (λ x. x) result (optimal_at left fields.now) }
{
    let (cost, fields) = field_number(left, GREATEST_COST, fields)?;
    line_ended(left, fields)?;
    Ok(Verdict::Optimal(cost))
}

/// That no plan is valid.
#[tactic(auto, unfolding(crate::specs::TreesRead::infeasible_at))]
fn infeasible_at(left: usize, line: &[u8]) -> Result<Verdict, ReadError>
    ensures { GivesRead (λ x. x) result (infeasible_at left line.now) }
{
    let fields = word_at(left, line, b"verdict infeasible")?;
    line_ended(left, fields)?;
    Ok(Verdict::Infeasible)
}

/// The verdict of a line.
fn verdict_of(left: usize, line: &[u8]) -> Result<Verdict, ReadError>
    ensures { GivesRead (λ x. x) result
        (verdict_by (behind (codes "verdict optimal") line.now) left line.now) }
{
    match behind(line, b"verdict optimal") {
        Some(fields) => optimal_at(left, fields),
        None => infeasible_at(left, line),
    }
}

/// The line of a verdict.
#[tactic(auto, unfolding(crate::specs::TreesRead::verdict_at))]
fn verdict_at(bytes: &[u8]) -> Result<(Verdict, &[u8]), ReadError>
    ensures { GivesRead (λ x. (x.0, x.1.now)) result (verdict_at bytes.now) }
{
    let (line, rest) = line_at(bytes)?;
    let verdict = verdict_of(bytes.len(), line)?;
    Ok((verdict, rest))
}

/// Nothing stands behind the last line.
fn nothing_behind(rest: &[u8]) -> Result<(), ReadError>
    ensures { GivesRead (λ x. x) result (nothing_behind rest.now) }
{
    if !rest.is_empty() {
        return Err(ReadError::Fault(Fault::Trailing(rest.len())));
    }
    Ok(())
}

/// The last line.
#[tactic(auto, unfolding(crate::specs::TreesRead::end_at))]
fn end_at(bytes: &[u8]) -> Result<(), ReadError>
    ensures { GivesRead (λ x. x) result (end_at bytes.now) }
{
    let (line, rest) = line_at(bytes)?;
    let fields = word_at(bytes.len(), line, b"end")?;
    line_ended(bytes.len(), fields)?;
    nothing_behind(rest)
}

/// Whether it is the third version.
fn is_third_version(version: Version) -> bool
    ensures { result ≡ is_third_version version }
{
    match version {
        Version::First => false,
        Version::Second => false,
        Version::Third => true,
    }
}

/// What a text says.
#[tactic(auto, unfolding(crate::specs::TreesRead::tree_at))]
fn tree_at(alloc: Global, bytes: &[u8]) -> Result<(Option<u32>, Verdict, PackedTree), ReadError>
    ensures { GivesRead (λ x. read_of x.0 x.1 x.2) result (tree_at bytes.now) }
{
    let (version, rest) = version_at(bytes)?;
    let (edition, rest) = edition_at(version, rest)?;
    let (verdict, rest) = verdict_at(rest)?;
    let (nodes, rest) = nodes_at(alloc, is_third_version(version), rest)?;
    end_at(rest)?;
    Ok((edition, verdict, List::from_vec(nodes)))
}

/// The number of the line that begins where so many bytes are left.
fn line_number(bytes: &[u8], left: usize) -> u64
    ensures { result ≡ line_number bytes.now left }
{
    let place = bytes.len().saturating_sub(left);
    let mut number = 1;
    for byte in &bytes[..place] {
        if *byte == b'\n' {
            number += 1;
        }
    }
    number
}

/// The refusal for a fault.
fn refusal_of(bytes: &[u8], fault: Fault) -> TreeNo
    ensures { result ≡ refusal_of bytes.now fault }
{
    match fault {
        Fault::Bad(left) => TreeNo::BadLine(line_number(bytes, left)),
        Fault::Large(left) => TreeNo::TooLarge(line_number(bytes, left)),
        Fault::Truncated => TreeNo::Truncated,
        Fault::Trailing(left) => TreeNo::Trailing(line_number(bytes, left)),
    }
}

/// What is read of the bytes, or the refusal.
fn answer(alloc: Global, bytes: &[u8]) -> Result<(Option<u32>, Verdict, PackedTree), TreeNo>
    ensures { MatchResult result (λ x. tree_at bytes.now ≡ Ok (read_of x.0 x.1 x.2))
        (λ why. AnswersTree bytes.now why (tree_at bytes.now)) }
{
    match tree_at(alloc, bytes) {
        Ok(read) => Ok(read),
        Err(ReadError::Memory) => Err(TreeNo::Memory),
        Err(ReadError::Fault(fault)) => Err(refusal_of(bytes, fault)),
    }
}

/// The edition, the verdict and the tree that the bytes are the text of, in one of three versions.
/// Each node is kept in few bytes before the next one is read.
///
/// # Errors
///
/// The first line that breaks a rule, as `TreeNo` says; `Memory` may come in place of any answer.
pub fn read_tree(alloc: Global, bytes: &[u8]) -> Result<(Option<u32>, Verdict, PackedTree), TreeNo>
    // What is read is a text of a tree within the limits.
    ensures found { IfOk result
        (λ x. (version : Version) × IsText bytes.now version (read_of x.0 x.1 x.2)) }
    // Each such text is read as what it is the text of.
    ensures only { (version : Version) (read : TreeRead) → IsText bytes.now version read
        → MatchResult result (λ x. read_of x.0 x.1 x.2 ≡ read) (λ why. why ≡ TreeNo.Memory) }
    // Which refusal it is.
    ensures exact { MatchResult result (λ x. tree_at bytes.now ≡ Ok (read_of x.0 x.1 x.2))
        (λ why. AnswersTree bytes.now why (tree_at bytes.now)) }
{
    answer(alloc, bytes)
}
