ghost use Rattle.std.specs.Prelude.{◌≡◌, ◌≢◌, ◌∷◌, ◌++◌, List, [], OnOk, IfOk, IfErr, option_map};
ghost use Rattle.command_words.specs.Settings.{settings_of};
ghost use Rattle.disp_model.specs.declared.entry.Mark.TheVariants.{Working};
ghost use Rattle.disp_model.specs.declared.fixing.Change.{Change as ChangeOf};
ghost use Rattle.disp_model.specs.declared.problem.Problem.{Problem as ProblemOf};
ghost use Rattle.disp_model.specs.History.{newest, mark_of};
ghost use Rattle.solved_problems.specs.Solved.{IsSearched, MayBeAsked};
ghost use Rattle.answered_tasks.specs.Answers.{IsSolved, put_under, puts_of, status_of_mark};
ghost use Rattle.answered_tasks.specs.Causes.{IsAnswerStatus, IsWant};
ghost use Rattle.answered_tasks.specs.Texts.{edition_line, standing_verdict_line, plan_line, plan_lines};
ghost use Rattle.answered_tasks.specs.Texts.{answer_lines};
ghost use Rattle.journal_printer.specs.Journal.{tree_file};

use crate::cause::Cause;
use crate::journal::{best_plan, settled_tree};
use crate::lines::{edition_line, infeasible_line, optimal_line, plan_line, unfinished_line};
use crate::outcome::Answer;
use command_words::SolveTask;
use disp_model::{
    Change, Copied, List, Mark, Memory, Plan, Problem, Standing, Text, Tree, Verdict,
};
use disp_outside::Gate;
use dispatch_core::Core;
use journal_printer::tree_file;
use solved_problems::solve as solve_problem;
use std::alloc::Global;
use std::sync::Wait;
use std::thread::Threads;
use text_puts::Put;

/// The lines of an edition, of its verdict, and of a plan where there is one.
fn lines_with(
    alloc: Global,
    edition: u32,
    verdict: List<u8>,
    plan: Option<(&Plan, u64)>,
) -> Result<List<List<u8>>, Memory>
    ensures { IfOk result (λ lines. lines ≡ edition_line edition ∷ verdict
        ∷ plan_lines (option_map (λ p. (p.0.now, p.1)) plan.entry)) }
{
    let mut lines = List::new(alloc);
    lines.push(edition_line(alloc, edition)?)?;
    lines.push(verdict)?;
    if let Some((plan, cost)) = plan {
        lines.push(plan_line(alloc, plan.as_slice(), cost)?)?;
    }
    Ok(lines)
}

/// The line of the verdict, where there is one.
pub(crate) fn verdict_line(alloc: Global, standing: &Standing) -> Result<List<u8>, Memory>
    ensures { IfOk result (λ line. line ≡ standing_verdict_line standing.now standing.now.mark) }
{
    match standing.mark {
        Mark::Working => Ok(List::new(alloc)),
        Mark::Optimal(cost) => optimal_line(alloc, cost),
        Mark::Infeasible => infeasible_line(alloc),
        Mark::Stopped { spent, bound } => unfinished_line(alloc, standing.best, bound, spent),
    }
}

/// The lines for where a search stands, with the best plan.
fn lines_of(
    alloc: Global,
    standing: &Standing,
    plan: Option<(&Plan, u64)>,
) -> Result<List<List<u8>>, Memory>
    ensures { IfOk result (λ lines. lines ≡ answer_lines standing.now
        (option_map (λ p. (p.0.now, p.1)) plan.entry) standing.now.mark) }
{
    let edition = standing.edition;
    match standing.mark {
        Mark::Working => Ok(List::new(alloc)),
        Mark::Optimal(cost) => lines_with(alloc, edition, optimal_line(alloc, cost)?, plan),
        Mark::Infeasible => lines_with(alloc, edition, infeasible_line(alloc)?, None),
        Mark::Stopped { spent, bound } => {
            let line = unfinished_line(alloc, standing.best, bound, spent)?;
            lines_with(alloc, edition, line, plan)
        }
    }
}

/// Adds what is to be put of a plan, where it is asked for and there is one.
fn push_plan(
    alloc: Global,
    puts: &mut List<Put>,
    name: Option<&Text>,
    plan: Option<(&Plan, u64)>,
) -> Result<(), Memory>
    ensures { OnOk result
        (puts.new ≡ puts.old ++ put_under (option_map (λ n. n.now) name.entry)
        (option_map plan_line (option_map (λ p. (p.0.now, p.1)) plan.entry))) }
{
    match (name, plan) {
        (Some(name), Some((plan, cost))) => puts.push(Put {
            name: name.copy()?,
            bytes: plan_line(alloc, plan.as_slice(), cost)?,
        }),
        _ => Ok(()),
    }
}

/// Adds what is to be put of a tree, where it is asked for and there is one.
fn push_tree(
    alloc: Global,
    puts: &mut List<Put>,
    name: Option<&Text>,
    edition: u32,
    settled: Option<(Verdict, &Tree)>,
) -> Result<(), Memory>
    ensures { OnOk result
        (puts.new ≡ puts.old ++ put_under (option_map (λ n. n.now) name.entry)
        (option_map (tree_file edition) (option_map (λ s. (s.0, s.1.now)) settled.entry))) }
{
    match (name, settled) {
        (Some(name), Some((verdict, tree))) => puts.push(Put {
            name: name.copy()?,
            bytes: tree_file(alloc, edition, verdict, tree)?,
        }),
        _ => Ok(()),
    }
}

/// What is to be put: the plan, and behind it the tree.
fn puts_of(
    alloc: Global,
    task: &SolveTask,
    edition: u32,
    plan: Option<(&Plan, u64)>,
    settled: Option<(Verdict, &Tree)>,
) -> Result<List<Put>, Memory>
    ensures { IfOk result (λ puts. puts ≡ puts_of task.now edition
        (option_map (λ p. (p.0.now, p.1)) plan.entry)
        (option_map (λ s. (s.0, s.1.now)) settled.entry)) }
{
    let mut puts = List::new(alloc);
    push_plan(alloc, &mut puts, task.plan.as_ref(), plan)?;
    push_tree(alloc, &mut puts, task.tree.as_ref(), edition, settled)?;
    Ok(puts)
}

/// The status for a mark.
pub(crate) fn status_of(mark: Mark) -> u8
    requires { mark ≢ Working }
    ensures is { result ≡ status_of_mark mark }
    ensures answer { IsAnswerStatus result }
{
    match mark {
        Mark::Working => unreachable!(),
        Mark::Optimal(_) => 0,
        Mark::Infeasible => 1,
        Mark::Stopped { .. } => 3,
    }
}

/// The answer for a core whose newest edition is closed.
fn answer_of(alloc: Global, core: Core, task: &SolveTask) -> Result<Answer, Memory>
    requires closed { mark_of (newest core.history) core.history ≢ Working }
    ensures ok { (problem : ProblemOf) (asked : List ChangeOf) → core.problem ≡ problem
        → IsSearched problem (settings_of task.now) asked core.history
        → IfOk result (IsSolved problem task.now asked) }
    ensures status { IfOk result (λ answer. IsAnswerStatus answer.status) }
{
    let standing = core.standing();
    let journal = core.into_history();
    let best = best_plan(&standing, journal.as_slice());
    let settled = settled_tree(standing.edition, journal.as_slice());
    let lines = lines_of(alloc, &standing, best)?;
    let puts = puts_of(alloc, task, standing.edition, best, settled)?;
    Ok(Answer {
        journal: List::from_vec(journal),
        puts,
        lines,
        status: status_of(standing.mark),
    })
}

/// The answer to a problem with the changes that are asked, each of which is taken.
pub(crate) fn solve<R: Threads + Wait + Sync, G: Gate>(
    rt: &R,
    alloc: Global,
    problem: &Problem,
    asked: &[Change],
    task: &SolveTask,
    gate: &G,
) -> Result<Answer, Cause>
    requires { MayBeAsked problem.now [] asked.now }
    ensures ok { IfOk result (IsSolved problem.now task.now asked.now) }
    ensures no { IfErr result IsWant }
    ensures status { IfOk result (λ answer. IsAnswerStatus answer.status) }
{
    let settings = task.settings();
    let core = solve_problem(rt, alloc, problem, settings, task.workers, asked, gate)?;
    Ok(answer_of(alloc, core, task)?)
}
