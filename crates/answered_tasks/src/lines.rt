ghost use Rattle.std.specs.Prelude.{◌≡◌, IfOk, string_bytes};
ghost use Rattle.answered_tasks.specs.Texts.{trains_line, operations_line, edition_line, optimal_line, infeasible_line, cost_or_none, unfinished_line, plan_line, valid_line, fault_line};

use disp_model::{Event, List, Memory, Problem};
use solution_text::write_solution;
use solution_verifier::Fault;
use std::alloc::Global;

/// The line of an edition.
pub(crate) fn edition_line(alloc: Global, number: u32) -> Result<List<u8>, Memory>
    ensures { IfOk result (λ line. line ≡ edition_line number) }
{
    let text = format!(in alloc; "edition {number}\n")?;
    Ok(List::from_vec(text.into_bytes()))
}

/// The line of an optimal cost.
pub(crate) fn optimal_line(alloc: Global, cost: u64) -> Result<List<u8>, Memory>
    ensures { IfOk result (λ line. line ≡ optimal_line cost) }
{
    let text = format!(in alloc; "optimal {cost}\n")?;
    Ok(List::from_vec(text.into_bytes()))
}

/// The line that no plan is valid.
pub(crate) fn infeasible_line(alloc: Global) -> Result<List<u8>, Memory>
    ensures { IfOk result (λ line. line ≡ infeasible_line) }
{
    let text = String::from_str(alloc, "infeasible\n")?;
    Ok(List::from_vec(text.into_bytes()))
}

/// The text of a cost, or that there is none.
fn cost_or_none(alloc: Global, cost: Option<u64>) -> Result<String, Memory>
    ensures { IfOk result (λ text. string_bytes text ≡ cost_or_none cost) }
{
    match cost {
        Some(cost) => Ok(format!(in alloc; "{cost}")?),
        None => Ok(String::from_str(alloc, "none")?),
    }
}

/// The line of a search that has spent its budget.
pub(crate) fn unfinished_line(
    alloc: Global,
    best: Option<u64>,
    bound: u64,
    spent: u64,
) -> Result<List<u8>, Memory>
    ensures { IfOk result (λ line. line ≡ unfinished_line best bound spent) }
{
    let best = cost_or_none(alloc, best)?;
    let bound = format!(in alloc; " bound {bound}")?;
    let spent = format!(in alloc; " spent {spent}\n")?;
    let mut text = String::from_str(alloc, "unfinished best ")?;
    text.push_str(best.as_str())?;
    text.push_str(bound.as_str())?;
    text.push_str(spent.as_str())?;
    Ok(List::from_vec(text.into_bytes()))
}

/// The line of a plan with its cost: its solution, which is what a file of it holds too.
pub(crate) fn plan_line(alloc: Global, plan: &[Event], cost: u64) -> Result<List<u8>, Memory>
    ensures { IfOk result (λ line. line ≡ plan_line (plan.now, cost)) }
{
    let mut bytes = write_solution(alloc, plan, cost)?;
    bytes.push(b'\n')?;
    Ok(List::from_vec(bytes))
}

/// The line of how many trains there are.
pub(crate) fn trains_line(alloc: Global, count: usize) -> Result<List<u8>, Memory>
    ensures { IfOk result (λ line. line ≡ trains_line count) }
{
    let text = format!(in alloc; "trains {count}\n")?;
    Ok(List::from_vec(text.into_bytes()))
}

/// The line of how many operations there are.
pub(crate) fn operations_line(alloc: Global, count: u128) -> Result<List<u8>, Memory>
    ensures { IfOk result (λ line. line ≡ operations_line count) }
{
    let text = format!(in alloc; "operations {count}\n")?;
    Ok(List::from_vec(text.into_bytes()))
}

/// The line of a valid plan's cost.
pub(crate) fn valid_line(alloc: Global, cost: u128) -> Result<List<u8>, Memory>
    ensures { IfOk result (λ line. line ≡ valid_line cost) }
{
    let text = format!(in alloc; "valid {cost}\n")?;
    Ok(List::from_vec(text.into_bytes()))
}

/// The line of a plan's fault.
pub(crate) fn fault_line(
    alloc: Global,
    problem: &Problem,
    fault: &Fault,
) -> Result<List<u8>, Memory>
    ensures { IfOk result (λ line. line ≡ fault_line problem.now fault.now) }
{
    let mut text = String::new(alloc);
    fault.write(problem, &mut text)?;
    text.push_str("\n")?;
    Ok(List::from_vec(text.into_bytes()))
}
