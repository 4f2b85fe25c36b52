ghost use Rattle.std.specs.Prelude.{◌≡◌, IfOk, IfErr, IsErrAnd, length, option_map};
ghost use Rattle.answered_tasks.specs.Outside.{ReadsNames, IsGiven, IsTreeOrPlan, IsBehindProblem, IsOneOfFour};
ghost use Rattle.answered_tasks.specs.Answers.{AnswersCheck, IsCheckedWithPlan, IsCheckedFile, IsCheckedBy};
ghost use Rattle.answered_tasks.specs.Causes.{StopsTask, StopsFromPlan, StopsFromTree, StopsFromFixings, IsReadingFault, IsAnswerStatus};
ghost use Rattle.command_words.specs.declared.task.Task.TheVariants.{Check};

use crate::cause::Cause;
use crate::input::{editions_of, given_plan, problem_file, tree_file};
use crate::judge_tree::judge_tree;
use crate::outcome::Answer;
use disp_model::{Fixing, Problem, Text, Verdict};
use disp_outside::Shelf;
use fixing_editions::Editions;
use std::alloc::Global;
use tree_certificate::PackedTree;

/// The number of the edition of the accepted changes.
fn edition_of(editions: &Editions) -> u32
    ensures { result ≡ length editions.now.changes }
{
    editions.changes().len() as u32
}

/// Checks a tree, with the plan of a file, if there is one.
fn check_with<S: Shelf>(
    alloc: Global,
    shelf: &mut S,
    problem: &Problem,
    fixings: &[Fixing],
    verdict: Verdict,
    tree: &PackedTree,
    plan: Option<&Text>,
) -> Result<Answer, Cause>
    ensures ok { IfOk result
        (IsCheckedWithPlan (S.state shelf.old).holds problem.now fixings.now verdict tree.now
        (option_map (λ name. name.now) plan.entry)) }
    ensures no { IfErr result
        (StopsFromPlan (S.state shelf.old).holds (S.state shelf.old).reading
        (S.state shelf.new).reading problem.now fixings.now verdict tree.now
        (option_map (λ name. name.now) plan.entry)) }
    ensures status { IfOk result (λ answer. IsAnswerStatus answer.status) }
    ensures reads { ReadsNames (IsGiven (option_map (λ name. name.now) plan.entry))
        (S.state shelf.old) (S.state shelf.new)
        (IsErrAnd result IsReadingFault) }
    ensures feeds { S.open_feeds shelf.new ≡ S.open_feeds shelf.old }
{
    match given_plan(alloc, shelf, plan) {
        Ok(plan) => judge_tree(alloc, problem, fixings, verdict, tree, plan),
        Err(cause) => Err(cause),
    }
}

/// Checks the tree of a file, with the plan of another, if there is one.
fn check_tree<S: Shelf>(
    alloc: Global,
    shelf: &mut S,
    problem: &Problem,
    fixings: &[Fixing],
    edition: u32,
    tree: &Text,
    plan: Option<&Text>,
) -> Result<Answer, Cause>
    ensures ok { IfOk result
        (IsCheckedFile (S.state shelf.old).holds problem.now fixings.now edition tree.now
        (option_map (λ name. name.now) plan.entry)) }
    ensures no { IfErr result
        (StopsFromTree (S.state shelf.old).holds (S.state shelf.old).reading
        (S.state shelf.new).reading problem.now fixings.now edition tree.now
        (option_map (λ name. name.now) plan.entry)) }
    ensures status { IfOk result (λ answer. IsAnswerStatus answer.status) }
    ensures reads { ReadsNames (IsTreeOrPlan tree.now (option_map (λ name. name.now) plan.entry))
        (S.state shelf.old) (S.state shelf.new)
        (IsErrAnd result IsReadingFault) }
    ensures feeds { S.open_feeds shelf.new ≡ S.open_feeds shelf.old }
{
    match tree_file(alloc, shelf, edition, tree.as_str()) {
        Ok((verdict, tree)) => check_with(alloc, shelf, problem, fixings, verdict, &tree, plan),
        Err(cause) => Err(cause),
    }
}

/// Checks the tree of a file with the fixings of another, if there is one.
fn check_files<S: Shelf>(
    alloc: Global,
    shelf: &mut S,
    problem: &Problem,
    fixings: Option<&Text>,
    tree: &Text,
    plan: Option<&Text>,
) -> Result<Answer, Cause>
    ensures ok { IfOk result
        (IsCheckedBy (S.state shelf.old).holds problem.now
        (option_map (λ name. name.now) fixings.entry)
        tree.now (option_map (λ name. name.now) plan.entry)) }
    ensures no { IfErr result
        (StopsFromFixings (S.state shelf.old).holds (S.state shelf.old).reading
        (S.state shelf.new).reading problem.now (option_map (λ name. name.now) fixings.entry)
        tree.now (option_map (λ name. name.now) plan.entry)) }
    ensures status { IfOk result (λ answer. IsAnswerStatus answer.status) }
    ensures reads { ReadsNames
        (IsBehindProblem (option_map (λ name. name.now) fixings.entry) tree.now
        (option_map (λ name. name.now) plan.entry))
        (S.state shelf.old) (S.state shelf.new)
        (IsErrAnd result IsReadingFault) }
    ensures feeds { S.open_feeds shelf.new ≡ S.open_feeds shelf.old }
{
    match editions_of(alloc, shelf, problem, fixings) {
        Ok(mut editions) => {
            let edition = edition_of(&editions);
            check_tree(
                alloc,
                shelf,
                problem,
                editions.fixings(),
                edition,
                tree,
                plan,
            )
        }
        Err(cause) => Err(cause),
    }
}

/// Checks the tree of a file for the problem of another.
pub(crate) fn run_check<S: Shelf>(
    alloc: Global,
    shelf: &mut S,
    problem: &Text,
    tree: &Text,
    fixings: Option<&Text>,
    plan: Option<&Text>,
) -> Result<Answer, Cause>
    ensures ok { IfOk result
        (AnswersCheck (S.state shelf.old).holds problem.now tree.now
        (option_map (λ name. name.now) fixings.entry) (option_map (λ name. name.now) plan.entry)) }
    ensures no { IfErr result
        (StopsTask (S.state shelf.old).holds (S.state shelf.old).reading (S.state shelf.new).reading
        (Check problem.now tree.now (option_map (λ name. name.now) fixings.entry)
        (option_map (λ name. name.now) plan.entry))) }
    ensures status { IfOk result (λ answer. IsAnswerStatus answer.status) }
    ensures reads { ReadsNames
        (IsOneOfFour problem.now (option_map (λ name. name.now) fixings.entry) tree.now
        (option_map (λ name. name.now) plan.entry))
        (S.state shelf.old) (S.state shelf.new)
        (IsErrAnd result IsReadingFault) }
    ensures feeds { S.open_feeds shelf.new ≡ S.open_feeds shelf.old }
{
    match problem_file(alloc, shelf, problem.as_str()) {
        Ok(problem) => check_files(alloc, shelf, &problem, fixings, tree, plan),
        Err(cause) => Err(cause),
    }
}
