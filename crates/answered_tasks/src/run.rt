ghost use Rattle.std.specs.Prelude.{◌≡◌, ◌<◌, ℕ, List, Some, Ok, IfOk, IfErr, IsErrAnd, option_map};
ghost use Rattle.command_words.specs.Task.{IsTask};
ghost use Rattle.disp_outside.specs.States.{Holdings, Counts};
ghost use Rattle.answered_tasks.specs.Reading.{IsRead, IsNoRoll};
ghost use Rattle.answered_tasks.specs.Outside.{FailsOfOne, ReadsOne, ReadsNames, IsGiven, IsProblemOrFixings, IsOneOfTwo, IsOneOfThree};
ghost use Rattle.answered_tasks.specs.Answers.{IsAnswer, AnswersTask, AnswersSolve, IsSolvedWith, AnswersJudge, IsJudgedFile, IsJudgedBy};
ghost use Rattle.answered_tasks.specs.Causes.{StopsRun, StopsTask, StopsGivenFixings, StopsSolve, StopsSolution, StopsJudging, StopsVerify, IsReadingFault, IsAnswerStatus, CountsReading, CountsTask};

use crate::cause::Cause;
use crate::check::run_check;
use crate::input::{asked_of, fixings_file, problem_file, solution_file};
use crate::judge::{Telling, judge};
use crate::maker::run_make;
use crate::outcome::Answer;
use crate::solve::solve;
use command_words::{JudgeTask, SolveTask, Task, WordsNo};
use disp_model::{Fixing, Problem, Text};
use disp_outside::{Gate, Shelf};
use std::alloc::Global;
use std::sync::Wait;
use std::thread::Threads;

/// The task that was read, or why there is none.
fn task_of(read: Result<Task, WordsNo>) -> Result<Task, Cause>
    ensures ok { IfOk result (λ task. (words : List (List ℕ)) → IsRead words read
        → IsTask words task) }
    ensures no { IfErr result (λ cause. (words : List (List ℕ)) (holds : Holdings)
        (old new : Counts) → IsRead words read → StopsRun words holds old new cause) }
    ensures no_roll { IfOk result (λ task. IsNoRoll read → IsNoRoll (Ok task)) }
{
    match read {
        Ok(task) => Ok(task),
        Err(WordsNo::Refused(text)) => Err(Cause::Words(text)),
        Err(WordsNo::Memory) => Err(Cause::Memory),
    }
}

/// Solves a problem with what the lines of a file ask for, if there is one.
fn solve_with<R: Threads + Wait + Sync, S: Shelf, G: Gate>(
    rt: &R,
    alloc: Global,
    shelf: &mut S,
    problem: &Problem,
    task: &SolveTask,
    gate: &G,
) -> Result<Answer, Cause>
    ensures ok { IfOk result (IsSolvedWith (S.state shelf.old).holds problem.now task.now) }
    ensures no { IfErr result
        (StopsGivenFixings (S.state shelf.old).holds (S.state shelf.old).reading
        (S.state shelf.new).reading problem.now task.now.fixings) }
    ensures status { IfOk result (λ answer. IsAnswerStatus answer.status) }
    ensures reads { ReadsNames (IsGiven task.now.fixings)
        (S.state shelf.old) (S.state shelf.new)
        (IsErrAnd result IsReadingFault) }
    ensures feeds { S.open_feeds shelf.new ≡ S.open_feeds shelf.old }
{
    match asked_of(alloc, shelf, problem, task.fixings.as_ref()) {
        Ok(asked) => solve(rt, alloc, problem, asked.as_slice(), task, gate),
        Err(cause) => Err(cause),
    }
}

/// Solves the problem of a file with the fixings of another.
fn run_solve<R: Threads + Wait + Sync, S: Shelf, G: Gate>(
    rt: &R,
    alloc: Global,
    shelf: &mut S,
    task: &SolveTask,
    gate: &G,
) -> Result<Answer, Cause>
    ensures ok { IfOk result (AnswersSolve (S.state shelf.old).holds task.now) }
    ensures no { IfErr result
        (StopsSolve (S.state shelf.old).holds (S.state shelf.old).reading
        (S.state shelf.new).reading
        task.now.problem task.now.fixings) }
    ensures status { IfOk result (λ answer. IsAnswerStatus answer.status) }
    ensures reads { ReadsNames (IsProblemOrFixings task.now.problem task.now.fixings)
        (S.state shelf.old) (S.state shelf.new)
        (IsErrAnd result IsReadingFault) }
    ensures feeds { S.open_feeds shelf.new ≡ S.open_feeds shelf.old }
{
    match problem_file(alloc, shelf, task.problem.as_str()) {
        Ok(problem) => solve_with(rt, alloc, shelf, &problem, task, gate),
        Err(cause) => Err(cause),
    }
}

/// Judges the solution of a file with fixings.
fn judge_file<S: Shelf>(
    alloc: Global,
    shelf: &mut S,
    problem: &Problem,
    fixings: &[Fixing],
    solution: &str,
    telling: Telling,
) -> Result<Answer, Cause>
    ensures ok { IfOk result
        (IsJudgedFile (S.state shelf.old).holds telling problem.now fixings.now solution.now) }
    ensures no { IfErr result
        (StopsSolution (S.state shelf.old).holds (S.state shelf.old).reading
        (S.state shelf.new).reading
        solution.now) }
    ensures status { IfOk result (λ answer. IsAnswerStatus answer.status) }
    ensures reads { ReadsOne solution.now (S.state shelf.old) (S.state shelf.new)
        (IsErrAnd result IsReadingFault) }
    ensures feeds { S.open_feeds shelf.new ≡ S.open_feeds shelf.old }
{
    let (plan, stated) = solution_file(alloc, shelf, solution)?;
    Ok(judge(alloc, problem, fixings, &plan, stated, telling)?)
}

/// Judges the solution of a file with the fixings of another.
fn judge_with<S: Shelf>(
    alloc: Global,
    shelf: &mut S,
    problem: &Problem,
    name: &Text,
    solution: &str,
    telling: Telling,
) -> Result<Answer, Cause>
    ensures ok { IfOk result
        (IsJudgedBy (S.state shelf.old).holds telling problem.now (Some name.now) solution.now) }
    ensures no { IfErr result
        (StopsJudging (S.state shelf.old).holds (S.state shelf.old).reading
        (S.state shelf.new).reading
        problem.now (Some name.now) solution.now) }
    ensures status { IfOk result (λ answer. IsAnswerStatus answer.status) }
    ensures reads { ReadsNames (IsOneOfTwo (Some name.now) solution.now)
        (S.state shelf.old) (S.state shelf.new) (IsErrAnd result IsReadingFault) }
    ensures feeds { S.open_feeds shelf.new ≡ S.open_feeds shelf.old }
{
    match fixings_file(alloc, shelf, problem, name.as_str()) {
        Ok(mut editions) => judge_file(
            alloc,
            shelf,
            problem,
            editions.fixings(),
            solution,
            telling,
        ),
        Err(cause) => Err(cause),
    }
}

/// Judges the solution of a file with the fixings of another, if there is one.
fn judge_files<S: Shelf>(
    alloc: Global,
    shelf: &mut S,
    problem: &Problem,
    fixings: Option<&Text>,
    solution: &str,
    telling: Telling,
) -> Result<Answer, Cause>
    ensures ok { IfOk result
        (IsJudgedBy (S.state shelf.old).holds telling problem.now
        (option_map (λ name. name.now) fixings.entry) solution.now) }
    ensures no { IfErr result
        (StopsJudging (S.state shelf.old).holds (S.state shelf.old).reading
        (S.state shelf.new).reading
        problem.now (option_map (λ name. name.now) fixings.entry) solution.now) }
    ensures status { IfOk result (λ answer. IsAnswerStatus answer.status) }
    ensures reads { ReadsNames
        (IsOneOfTwo (option_map (λ name. name.now) fixings.entry) solution.now)
        (S.state shelf.old) (S.state shelf.new)
        (IsErrAnd result IsReadingFault) }
    ensures feeds { S.open_feeds shelf.new ≡ S.open_feeds shelf.old }
{
    match fixings {
        Some(name) => judge_with(alloc, shelf, problem, name, solution, telling),
        None => judge_file(alloc, shelf, problem, &[], solution, telling),
    }
}

/// Judges the solution of a file for the problem of another.
fn run_judge<S: Shelf>(
    alloc: Global,
    shelf: &mut S,
    task: &JudgeTask,
    telling: Telling,
) -> Result<Answer, Cause>
    ensures ok { IfOk result (AnswersJudge (S.state shelf.old).holds telling task.now) }
    ensures no { IfErr result
        (StopsVerify (S.state shelf.old).holds (S.state shelf.old).reading
        (S.state shelf.new).reading
        task.now.problem task.now.fixings task.now.solution) }
    ensures status { IfOk result (λ answer. IsAnswerStatus answer.status) }
    ensures reads { ReadsNames
        (IsOneOfThree task.now.problem task.now.fixings task.now.solution)
        (S.state shelf.old) (S.state shelf.new)
        (IsErrAnd result IsReadingFault) }
    ensures feeds { S.open_feeds shelf.new ≡ S.open_feeds shelf.old }
{
    match problem_file(alloc, shelf, task.problem.as_str()) {
        Ok(problem) => {
            let fixings = task.fixings.as_ref();
            judge_files(
                alloc,
                shelf,
                &problem,
                fixings,
                task.solution.as_str(),
                telling,
            )
        }
        Err(cause) => Err(cause),
    }
}

/// Does what a task asks for.
fn run_task<R: Threads + Wait + Sync, S: Shelf, G: Gate>(
    rt: &R,
    alloc: Global,
    shelf: &mut S,
    task: &Task,
    gate: &G,
) -> Result<Answer, Cause>
    requires { IsNoRoll (Ok task.now) }
    ensures ok { IfOk result (AnswersTask (S.state shelf.old).holds task.now) }
    ensures no { IfErr result
        (StopsTask (S.state shelf.old).holds (S.state shelf.old).reading (S.state shelf.new).reading
        task.now) }
    ensures status { IfOk result (λ answer. IsAnswerStatus answer.status) }

    ensures counts { (name : List ℕ)
        → CountsTask task.now (S.state shelf.old).reading (S.state shelf.new).reading name }
    ensures one { FailsOfOne (S.state shelf.old).reading (S.state shelf.new).reading }
    ensures failed { (name : List ℕ) → (S.state shelf.old).reading name
        < (S.state shelf.new).reading name → IsErrAnd result IsReadingFault }
    ensures puttings { (name : List ℕ) → (S.state shelf.new).putting name
        ≡ (S.state shelf.old).putting name }
    ensures held { (name : List ℕ) → (S.state shelf.new).holds name
        ≡ (S.state shelf.old).holds name }
    ensures feeds { S.open_feeds shelf.new ≡ S.open_feeds shelf.old }
{
    match task {
        Task::Solve(task) => run_solve(rt, alloc, shelf, task, gate),
        Task::Verify(task) => run_judge(alloc, shelf, task, Telling::Cost),
        Task::Report(task) => run_judge(alloc, shelf, task, Telling::Table),
        Task::Make(task) => run_make(rt, alloc, task, gate),
        Task::Check {
            problem,
            tree,
            fixings,
            plan,
        } => run_check(alloc, shelf, problem, tree, fixings.as_ref(), plan.as_ref()),
        Task::Roll(_) => unreachable!(),
    }
}

/// The answer to what the words ask for, from the files of the shelf.
pub(crate) fn run<R: Threads + Wait + Sync, S: Shelf, G: Gate>(
    rt: &R,
    alloc: Global,
    read: Result<Task, WordsNo>,
    shelf: &mut S,
    gate: &G,
) -> Result<Answer, Cause>
    requires { IsNoRoll read }
    ensures ok { IfOk result (λ answer. (words : List (List ℕ)) → IsRead words read
        → IsAnswer words (S.state shelf.old).holds answer) }
    ensures no { IfErr result (λ cause. (words : List (List ℕ)) → IsRead words read
        → StopsRun words (S.state shelf.old).holds (S.state shelf.old).reading
        (S.state shelf.new).reading cause) }
    ensures status { IfOk result (λ answer. IsAnswerStatus answer.status) }

    ensures counts { (words : List (List ℕ)) (name : List ℕ) → IsRead words read
        → CountsReading words (S.state shelf.old).reading (S.state shelf.new).reading name }
    ensures one { FailsOfOne (S.state shelf.old).reading (S.state shelf.new).reading }
    ensures failed { (name : List ℕ) → (S.state shelf.old).reading name
        < (S.state shelf.new).reading name → IsErrAnd result IsReadingFault }
    ensures puttings { (name : List ℕ) → (S.state shelf.new).putting name
        ≡ (S.state shelf.old).putting name }
    ensures held { (name : List ℕ) → (S.state shelf.new).holds name
        ≡ (S.state shelf.old).holds name }
    ensures feeds { S.open_feeds shelf.new ≡ S.open_feeds shelf.old }
{
    match task_of(read) {
        Ok(task) => run_task(rt, alloc, shelf, &task, gate),
        Err(cause) => Err(cause),
    }
}
