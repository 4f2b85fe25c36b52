// The lines of the table.
ghost use Rattle.std.specs.Prelude.{◌≡◌, ◌++◌, ◌-◌, length, replicate, IfOk, OnOk, string_bytes};
ghost use Rattle.std.specs.Fmt.{decimal};
ghost use Rattle.plain_values.specs.Texts.{Adds};
ghost use Rattle.dispatch_reports.specs.Tables.{right, row_line, head_line, train_line, train_lines, total_line, report_lines, report_text};

use crate::numbers::{cost_of, delay_of, end_time, start_time, train_cost};
use disp_model::{Event, List, Memory, Plan, Problem};
use plain_values::push_text;
use std::alloc::Global;

/// Adds so many spaces.
fn push_spaces(text: &mut String, count: usize) -> Result<(), Memory>
    ensures { OnOk result
        (Adds (string_bytes text.old) (string_bytes text.new) (replicate count 32)) }
{
    for _ in 0..count {
        push_text(text, " ")?;
    }
    Ok(())
}

/// Adds a text behind spaces, in so many places together.
fn push_right(text: &mut String, places: usize, piece: &str) -> Result<(), Memory>
    ensures { OnOk result
        (Adds (string_bytes text.old) (string_bytes text.new) (right places piece.now)) }
{
    push_spaces(text, places.saturating_sub(piece.len()))?;
    push_text(text, piece)
}

/// A line of five texts.
fn row_line(
    alloc: Global,
    train: &str,
    start: &str,
    end: &str,
    delay: &str,
    cost: &str,
) -> Result<List<u8>, Memory>
    ensures { IfOk result (λ line. line
        ≡ row_line train.now start.now end.now delay.now cost.now) }
{
    let mut text = String::new(alloc);
    push_right(&mut text, 6, train)?;
    push_text(&mut text, " ")?;
    push_right(&mut text, 12, start)?;
    push_text(&mut text, " ")?;
    push_right(&mut text, 12, end)?;
    push_text(&mut text, " ")?;
    push_right(&mut text, 12, delay)?;
    push_text(&mut text, " ")?;
    push_right(&mut text, 12, cost)?;
    push_text(&mut text, "\n")?;
    Ok(List::from_vec(text.into_bytes()))
}

/// The first line.
fn head_line(alloc: Global) -> Result<List<u8>, Memory>
    ensures { IfOk result (λ line. line ≡ head_line) }
{
    row_line(alloc, "train", "start", "end", "delay", "cost")
}

/// A number in decimal.
fn number(alloc: Global, number: u128) -> Result<String, Memory>
    ensures { IfOk result (λ text. string_bytes text ≡ decimal number) }
{
    Ok(format!(in alloc; "{number}")?)
}

/// The line of a train.
fn train_line(
    alloc: Global,
    problem: &Problem,
    events: &[Event],
    train: u64,
) -> Result<List<u8>, Memory>
    ensures { IfOk result (λ line. line ≡ train_line problem.now events.now train) }
{
    let name = number(alloc, u128::from(train))?;
    let start = number(alloc, u128::from(start_time(train, events)))?;
    let end = number(alloc, end_time(problem, train, events))?;
    let delay = number(alloc, delay_of(problem, train, events))?;
    let cost = number(alloc, train_cost(problem, train, events))?;
    row_line(
        alloc,
        name.as_str(),
        start.as_str(),
        end.as_str(),
        delay.as_str(),
        cost.as_str(),
    )
}

/// The last line.
fn total_line(alloc: Global, problem: &Problem, events: &[Event]) -> Result<List<u8>, Memory>
    ensures { IfOk result (λ line. line ≡ total_line problem.now events.now) }
{
    let cost = cost_of(problem, events);
    let text = format!(in alloc; "total {cost}\n")?;
    Ok(List::from_vec(text.into_bytes()))
}

/// The lines of the table of a plan, each with its end: a head, one for each train, and the cost.
///
/// A train's line has its first event's time, the end of its last, how late its components are
/// together, and what they cost. The table speaks of valid plans; of a train without events it says
/// that it starts and ends at 0.
///
/// # Errors
///
/// `Memory` where memory runs out.
pub fn report_lines(alloc: Global, problem: &Problem, plan: &Plan) -> Result<List<List<u8>>, Memory>
    ensures { IfOk result (λ lines. lines ≡ report_lines problem.now plan.now) }
{
    let events = plan.as_slice();
    let mut lines = List::new(alloc);
    lines.push(head_line(alloc)?)?;
    for train in 0..problem.trains.len() {
        lines.push(train_line(alloc, problem, events, train as u64)?)?;
    }
    lines.push(total_line(alloc, problem, events)?)?;
    Ok(lines)
}

/// The text of the table of a plan: its lines, one behind the other.
///
/// # Errors
///
/// `Memory` where memory runs out.
pub fn report(alloc: Global, problem: &Problem, plan: &Plan) -> Result<List<u8>, Memory>
    ensures { IfOk result (λ text. text ≡ report_text problem.now plan.now) }
{
    let lines = report_lines(alloc, problem, plan)?;
    let mut text = Vec::new(alloc);
    for line in lines.as_slice() {
        text.extend_from_slice(line.as_slice())?;
    }
    Ok(List::from_vec(text))
}
