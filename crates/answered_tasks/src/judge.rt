ghost use Rattle.std.specs.Prelude.{◌≡◌, ◌∷◌, [], IfOk};
ghost use Rattle.answered_tasks.specs.Texts.{valid_line};
ghost use Rattle.answered_tasks.specs.Answers.{IsJudged, IsOneLine, IsTold, told_lines};
ghost use Rattle.answered_tasks.specs.Causes.{IsAnswerStatus};

use crate::lines::{fault_line, valid_line};
use crate::outcome::Answer;
use disp_model::{Fixing, List, Memory, Plan, Problem};
use dispatch_reports::report_lines;
use solution_verifier::verify;
use std::alloc::Global;

/// What is told of a valid plan.
#[derive(Clone, Copy, Debug, PartialEq, Eq)]
pub enum Telling {
    /// Its cost.
    Cost,
    /// The table of its trains.
    Table,
}

/// An answer of one line.
pub(crate) fn one_line(alloc: Global, line: List<u8>, status: u8) -> Result<Answer, Memory>
    ensures { IfOk result (λ answer. IsOneLine line status answer) }
{
    let mut lines = List::new(alloc);
    lines.push(line)?;
    Ok(Answer {
        journal: List::new(alloc),
        puts: List::new(alloc),
        lines,
        status,
    })
}

/// The line of a valid plan's cost, alone.
fn cost_lines(alloc: Global, cost: u128) -> Result<List<List<u8>>, Memory>
    ensures { IfOk result (λ lines. lines ≡ valid_line cost ∷ []) }
{
    let mut lines = List::new(alloc);
    lines.push(valid_line(alloc, cost)?)?;
    Ok(lines)
}

/// What is told of a valid plan of a cost.
fn told_lines(
    alloc: Global,
    telling: Telling,
    problem: &Problem,
    plan: &Plan,
    cost: u128,
) -> Result<List<List<u8>>, Memory>
    ensures { IfOk result (λ lines. lines ≡ told_lines telling problem.now plan.now cost) }
{
    match telling {
        Telling::Cost => cost_lines(alloc, cost),
        Telling::Table => report_lines(alloc, problem, plan),
    }
}

/// The answer to a plan that is valid and costs so much.
fn valid(
    alloc: Global,
    telling: Telling,
    problem: &Problem,
    plan: &Plan,
    cost: u128,
) -> Result<Answer, Memory>
    ensures { IfOk result (IsTold telling problem.now plan.now cost) }
{
    Ok(Answer {
        journal: List::new(alloc),
        puts: List::new(alloc),
        lines: told_lines(alloc, telling, problem, plan, cost)?,
        status: 0,
    })
}

/// The answer to a plan with its stated cost, which is to meet fixings.
pub(crate) fn judge(
    alloc: Global,
    problem: &Problem,
    fixings: &[Fixing],
    plan: &Plan,
    stated: Option<u64>,
    telling: Telling,
) -> Result<Answer, Memory>
    ensures ok { IfOk result (IsJudged telling problem.now fixings.now plan.now stated) }
    ensures status { IfOk result (λ answer. IsAnswerStatus answer.status) }
{
    match verify(problem, fixings, plan, stated) {
        Ok(cost) => valid(alloc, telling, problem, plan, cost),
        Err(fault) => one_line(alloc, fault_line(alloc, problem, &fault)?, 1),
    }
}
