ghost use Rattle.std.specs.Prelude.{◌≡◌, IfOk, string_bytes};
ghost use Rattle.disp_model.specs.declared.entry.Entry.{Entry};
ghost use Rattle.fixing_lines.specs.Entries.{asked_line, unread_line, shown_line, published_line, settled_line, stopped_line, entry_text};

use crate::pieces::{
    push_change, push_line, push_reply, push_standing, push_verdict, unasked_word,
};
use disp_model::{Change, Entry, Event, Memory, Reply, Standing, Unasked, Verdict};
use plain_values::push_text;
use solution_text::write_solution;
use std::alloc::Global;

/// The line of a change that a feed asked for, and the reply.
fn asked(
    alloc: Global,
    feed: u32,
    line: u64,
    change: Change,
    reply: Reply,
) -> Result<String, Memory>
    ensures { IfOk result (λ text. string_bytes text ≡ asked_line feed line change reply) }
{
    let mut text = String::new(alloc);
    push_line(&mut text, feed, line)?;
    push_change(&mut text, change)?;
    push_text(&mut text, " ")?;
    push_reply(&mut text, reply)?;
    push_text(&mut text, "\n")?;
    Ok(text)
}

/// The line of a feed's line that asks nothing.
fn unread(alloc: Global, feed: u32, line: u64, why: Unasked) -> Result<String, Memory>
    ensures { IfOk result (λ text. string_bytes text ≡ unread_line feed line why) }
{
    let why = unasked_word(why);
    let text = format!(in alloc; "feed {feed} line {line} {why}\n")?;
    Ok(text)
}

/// The line of what a feed was shown.
fn shown(alloc: Global, feed: u32, line: u64, standing: Standing) -> Result<String, Memory>
    ensures { IfOk result (λ text. string_bytes text ≡ shown_line feed line standing) }
{
    let mut text = String::new(alloc);
    push_line(&mut text, feed, line)?;
    push_text(&mut text, "show ")?;
    push_standing(&mut text, standing)?;
    push_text(&mut text, "\n")?;
    Ok(text)
}

/// The line of a plan.
fn published(alloc: Global, edition: u32, plan: &[Event], cost: u64) -> Result<Vec<u8>, Memory>
    ensures { IfOk result (λ bytes. bytes.items ≡ published_line edition plan.now cost) }
{
    let text = format!(in alloc; "plan {edition} {cost} ")?;
    let mut bytes = text.into_bytes();
    let solution = write_solution(alloc, plan, cost)?;
    bytes.extend_from_slice(solution.as_slice())?;
    bytes.push(b'\n')?;
    Ok(bytes)
}

/// The line of a verdict.
fn settled(alloc: Global, edition: u32, verdict: Verdict) -> Result<String, Memory>
    ensures { IfOk result (λ text. string_bytes text ≡ settled_line edition verdict) }
{
    let mut text = format!(in alloc; "settled {edition} ")?;
    push_verdict(&mut text, verdict)?;
    push_text(&mut text, "\n")?;
    Ok(text)
}

/// The line of a stop.
fn stopped(alloc: Global, edition: u32, spent: u64, bound: u64) -> Result<String, Memory>
    ensures { IfOk result (λ text. string_bytes text ≡ stopped_line edition spent bound) }
{
    let text = format!(in alloc; "stopped {edition} spent {spent} bound {bound}\n")?;
    Ok(text)
}

/// The line of an entry in the journal, with its LF. A growth of the tree has no line: the bytes
/// are none then.
pub fn write_entry(alloc: Global, entry: &Entry) -> Result<Vec<u8>, Memory>
    ensures text { IfOk result (λ bytes. bytes.items ≡ entry_text entry.now) }
{
    match entry {
        Entry::Asked {
            feed,
            line,
            change,
            reply,
        } => Ok(asked(alloc, *feed, *line, *change, *reply)?.into_bytes()),
        Entry::Unread { feed, line, why } => Ok(unread(alloc, *feed, *line, *why)?.into_bytes()),
        Entry::Shown {
            feed,
            line,
            standing,
        } => Ok(shown(alloc, *feed, *line, *standing)?.into_bytes()),
        Entry::Grown { .. } => Ok(Vec::new(alloc)),
        Entry::Published {
            edition,
            plan,
            cost,
        } => published(alloc, *edition, plan.as_slice(), *cost),
        Entry::Settled {
            edition,
            verdict,
            ..
        } => Ok(settled(alloc, *edition, *verdict)?.into_bytes()),
        Entry::Stopped {
            edition,
            spent,
            bound,
        } => Ok(stopped(alloc, *edition, *spent, *bound)?.into_bytes()),
    }
}
