ghost use Rattle.std.specs.Prelude.{◌≡◌, ◌++◌, IfOk, OnOk, OnErr, codes, string_bytes};
ghost use Rattle.std.specs.Fmt.{decimal};
ghost use Rattle.plain_values.specs.Texts.{Adds};
ghost use Rattle.fixing_lines.specs.Requests.{fixing_text, change_text};
ghost use Rattle.fixing_lines.specs.Entries.{refusal_text, reply_text, unasked_text, mark_text, best_text, standing_text, verdict_text, line_text};

use disp_model::{Change, Fixing, Mark, Memory, Refusal, Reply, Standing, Unasked, Verdict};
use plain_values::push_text;
use std::alloc::Global;

/// Adds the feed and the number of a line.
pub(crate) fn push_line(text: &mut String, feed: u32, line: u64) -> Result<(), Memory>
    ensures { OnOk result
        (Adds (string_bytes text.old) (string_bytes text.new) (line_text feed line)) }
{
    write!(text, "feed {feed} line {line} ")?;
    Ok(())
}

/// Adds the line that asks for a fixing.
fn push_fixing(text: &mut String, fixing: Fixing) -> Result<(), Memory>
    ensures { OnOk result
        (Adds (string_bytes text.old) (string_bytes text.new) (fixing_text fixing)) }
{
    match fixing {
        Fixing::Started {
            at_train,
            at_op,
            time,
        } => write!(text, "started {at_train} {at_op} {time}")?,
        Fixing::Chosen {
            at_train,
            at_op,
            next,
        } => write!(text, "chosen {at_train} {at_op} {next}")?,
        Fixing::NotBefore {
            at_train,
            at_op,
            time,
        } => write!(text, "notbefore {at_train} {at_op} {time}")?,
    }
    Ok(())
}

/// Adds the line that asks for a change.
pub(crate) fn push_change(text: &mut String, change: Change) -> Result<(), Memory>
    ensures { OnOk result (Adds (string_bytes text.old) (string_bytes text.new)
        (change_text change)) }
{
    match change {
        Change::Fix(fixing) => push_fixing(text, fixing)?,
        Change::Withdraw { number } => write!(text, "withdraw {number}")?,
    }
    Ok(())
}

/// Why a change is refused.
fn refusal_text(alloc: Global, refusal: Refusal) -> Result<String, Memory>
    ensures { IfOk result (λ text. string_bytes text ≡ refusal_text refusal) }
{
    match refusal {
        Refusal::NoTrain => Ok(String::from_str(alloc, "NoTrain")?),
        Refusal::NoOperation => Ok(String::from_str(alloc, "NoOperation")?),
        Refusal::NoSuccessor => Ok(String::from_str(alloc, "NoSuccessor")?),
        Refusal::TooLarge => Ok(String::from_str(alloc, "TooLarge")?),
        Refusal::BelowLower(lower) => Ok(format!(in alloc; "BelowLower {lower}")?),
        Refusal::AboveUpper(upper) => Ok(format!(in alloc; "AboveUpper {upper}")?),
        Refusal::NoSuchChange => Ok(String::from_str(alloc, "NoSuchChange")?),
        Refusal::Withdrawn(number) => Ok(format!(in alloc; "Withdrawn {number}")?),
        Refusal::StartedAt(time) => Ok(format!(in alloc; "StartedAt {time}")?),
        Refusal::ChosenIs(next) => Ok(format!(in alloc; "ChosenIs {next}")?),
        Refusal::EarliestIs(time) => Ok(format!(in alloc; "EarliestIs {time}")?),
        Refusal::NoRoute => Ok(String::from_str(alloc, "NoRoute")?),
        Refusal::Full(most) => Ok(format!(in alloc; "Full {most}")?),
    }
}

/// Adds why a change is refused: the name of the variant and its number, as `BelowLower 5`.
///
/// # Errors
///
/// Where memory runs out the text is as before.
pub fn push_refusal(text: &mut String, refusal: Refusal) -> Result<(), Memory>
    ensures ok { OnOk result
        (Adds (string_bytes text.old) (string_bytes text.new) (refusal_text refusal)) }
    ensures err { OnErr result (string_bytes text.new ≡ string_bytes text.old) }
{
    let alloc = *text.allocator();
    let piece = refusal_text(alloc, refusal)?;
    text.push_str(piece.as_str())?;
    Ok(())
}

/// Adds the reply to a change.
pub(crate) fn push_reply(text: &mut String, reply: Reply) -> Result<(), Memory>
    ensures { OnOk result
        (Adds (string_bytes text.old) (string_bytes text.new) (reply_text reply)) }
{
    match reply {
        Reply::Accepted(number) => write!(text, "accepted {number}")?,
        Reply::Known(number) => write!(text, "known {number}")?,
        Reply::Refused(refusal) => {
            push_text(text, "refused ")?;
            push_refusal(text, refusal)?;
        }
    }
    Ok(())
}

/// Why a line asks nothing.
pub(crate) fn unasked_word(why: Unasked) -> &'static str
    ensures { result.now ≡ unasked_text why }
{
    match why {
        Unasked::Unreadable => "unreadable",
        Unasked::Long => "long",
        Unasked::TooMany => "toomany",
    }
}

/// How far an edition is settled.
fn mark_word(mark: Mark) -> &'static str
    ensures { result.now ≡ mark_text mark }
{
    match mark {
        Mark::Working => "working",
        Mark::Optimal(_) => "optimal",
        Mark::Infeasible => "infeasible",
        Mark::Stopped { .. } => "stopped",
    }
}

/// Adds the cost of the best plan, if there is one.
fn push_best(text: &mut String, best: Option<u64>) -> Result<(), Memory>
    ensures { OnOk result (Adds (string_bytes text.old) (string_bytes text.new) (best_text best)) }
{
    match best {
        None => write!(text, "none")?,
        Some(cost) => write!(text, "{cost}")?,
    }
    Ok(())
}

/// Adds where the search stands.
pub(crate) fn push_standing(text: &mut String, standing: Standing) -> Result<(), Memory>
    ensures { OnOk result
        (Adds (string_bytes text.old) (string_bytes text.new) (standing_text standing)) }
{
    let Standing {
        edition,
        best,
        mark,
    } = standing;
    let mark = mark_word(mark);
    write!(text, "edition {edition} {mark} best ")?;
    push_best(text, best)?;
    Ok(())
}

/// Adds a verdict.
pub(crate) fn push_verdict(text: &mut String, verdict: Verdict) -> Result<(), Memory>
    ensures { OnOk result
        (Adds (string_bytes text.old) (string_bytes text.new) (verdict_text verdict)) }
{
    match verdict {
        Verdict::Optimal(cost) => write!(text, "optimal {cost}")?,
        Verdict::Infeasible => write!(text, "infeasible")?,
    }
    Ok(())
}
