// A problem that is made, and solved.
ghost use Rattle.std.specs.Prelude.{◌≡◌, ◌≢◌, [], Some, IfOk, IfErr, option_map};
ghost use Rattle.disp_model.specs.declared.entry.Mark.TheVariants.{Working};
ghost use Rattle.disp_model.specs.History.{newest, mark_of};
ghost use Rattle.disp_model.specs.WellFormed.{operation_count};
ghost use Rattle.instance_maker.specs.Made.{IsMade};
ghost use Rattle.solved_problems.specs.Solved.{IsSearched};
ghost use Rattle.answered_tasks.specs.Answers.{AnswersMake, made_settings, put_under};
ghost use Rattle.answered_tasks.specs.Causes.{IsAnswerStatus, IsWant};
ghost use Rattle.answered_tasks.specs.Texts.{made_lines, problem_file};

use crate::cause::Cause;
use crate::lines::{operations_line, trains_line};
use crate::outcome::Answer;
use crate::solve::{status_of, verdict_line};
use command_words::MakeTask;
use disp_model::{Copied, List, Memory, Problem, Rule, Settings, Standing, Text};
use disp_outside::Gate;
use dispatch_core::Core;
use instance_maker::make;
use problem_text::write_problem;
use solved_problems::solve;
use std::alloc::Global;
use std::sync::Wait;
use std::thread::Threads;
use text_puts::Put;

/// How many operations the trains have.
fn operation_count(problem: &Problem) -> u128
    ensures { result ≡ operation_count problem.now.trains }
{
    let mut count = 0;
    for train in problem.trains.as_slice() {
        count += train.len() as u128;
    }
    count
}

/// The lines for a problem that was made, and where its search stands.
fn made_lines(
    alloc: Global,
    problem: &Problem,
    standing: &Standing,
) -> Result<List<List<u8>>, Memory>
    ensures { IfOk result (λ lines. lines ≡ made_lines problem.now standing.now) }
{
    let mut lines = List::new(alloc);
    lines.push(trains_line(alloc, problem.trains.len())?)?;
    lines.push(operations_line(alloc, operation_count(problem))?)?;
    lines.push(verdict_line(alloc, standing)?)?;
    Ok(lines)
}

/// The text of a problem, as a file.
fn problem_file(alloc: Global, problem: &Problem) -> Result<List<u8>, Memory>
    ensures { IfOk result (λ bytes. bytes ≡ problem_file problem.now) }
{
    let mut bytes = write_problem(alloc, problem)?;
    bytes.push(b'\n')?;
    Ok(bytes)
}

/// What is to be put of a problem, where it is asked for.
fn puts_of(alloc: Global, name: Option<&Text>, problem: &Problem) -> Result<List<Put>, Memory>
    ensures { IfOk result (λ puts. puts ≡ put_under (option_map (λ n. n.now) name.entry)
        (Some (problem_file problem.now))) }
{
    let mut puts = List::new(alloc);
    if let Some(name) = name {
        puts.push(Put {
            name: name.copy()?,
            bytes: problem_file(alloc, problem)?,
        })?;
    }
    Ok(puts)
}

/// What the search of a problem that is made is given.
fn made_settings() -> Settings
    ensures { result ≡ made_settings }
{
    Settings {
        budget: u32::MAX,
        rule: Rule::Free,
    }
}

/// The answer for a core whose newest edition is closed.
fn answer_of(
    alloc: Global,
    problem: &Problem,
    core: Core,
    task: &MakeTask,
) -> Result<Answer, Memory>
    requires closed { mark_of (newest core.history) core.history ≢ Working }
    ensures ok { IsMade task.now.number task.now.trains problem.now → core.problem ≡ problem.now
        → IsSearched problem.now made_settings [] core.history
        → IfOk result (AnswersMake task.now) }
    ensures status { IfOk result (λ answer. IsAnswerStatus answer.status) }
{
    let standing = core.standing();
    let journal = core.into_history();
    let lines = made_lines(alloc, problem, &standing)?;
    let puts = puts_of(alloc, task.out.as_ref(), problem)?;
    Ok(Answer {
        journal: List::from_vec(journal),
        puts,
        lines,
        status: status_of(standing.mark),
    })
}

/// Makes the problem of a number, and solves it with one searcher.
pub(crate) fn run_make<R: Threads + Wait + Sync, G: Gate>(
    rt: &R,
    alloc: Global,
    task: &MakeTask,
    gate: &G,
) -> Result<Answer, Cause>
    ensures ok { IfOk result (AnswersMake task.now) }
    ensures no { IfErr result IsWant }
    ensures status { IfOk result (λ answer. IsAnswerStatus answer.status) }
{
    let problem = make(alloc, task.number, task.trains)?;
    let core = solve(rt, alloc, &problem, made_settings(), 1, &[], gate)?;
    Ok(answer_of(alloc, &problem, core, task)?)
}
