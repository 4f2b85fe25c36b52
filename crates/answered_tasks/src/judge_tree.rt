ghost use Rattle.std.specs.Prelude.{IfOk, IfErr, MatchResult, Some};
ghost use Rattle.disp_model.specs.declared.tree.Verdict.TheVariants.{Optimal};
ghost use Rattle.solution_verifier.specs.First.{IsRight};
ghost use Rattle.answered_tasks.specs.Answers.{IsFaultUnder, IsSaidOfPlan, IsTwoLines, IsAcceptedWith, IsAcceptedFor, IsTreeChecked};
ghost use Rattle.answered_tasks.specs.Causes.{IsAnswerStatus, IsWant};

use crate::cause::Cause;
use crate::judge::one_line;
use crate::outcome::Answer;
use crate::tree_lines::{accepted_line, no_plan_line, plan_fault_line, refused_line};
use disp_model::{Fixing, List, Memory, Plan, Problem, Verdict};
use solution_verifier::{Fault, verify};
use std::alloc::Global;
use tree_certificate::PackedTree;
use tree_checker::{Checked, check};

/// An answer of two lines.
fn two_lines(alloc: Global, first: List<u8>, second: List<u8>, status: u8) -> Result<Answer, Memory>
    ensures { IfOk result (λ answer. IsTwoLines first second status answer) }
{
    let mut lines = List::new(alloc);
    lines.push(first)?;
    lines.push(second)?;
    Ok(Answer {
        journal: List::new(alloc),
        puts: List::new(alloc),
        lines,
        status,
    })
}

/// The first fault of a plan under a verdict of a cost.
fn fits(
    problem: &Problem,
    fixings: &[Fixing],
    plan: &Plan,
    stated: Option<u64>,
    cost: u64,
) -> Result<(), Fault>
    ensures { MatchResult result (λ _. IsRight problem.now fixings.now plan.now stated cost)
        (IsFaultUnder problem.now fixings.now plan.now stated cost) }
{
    match verify(problem, fixings, plan, stated) {
        Ok(_) => match verify(problem, fixings, plan, Some(cost)) {
            Ok(_) => Ok(()),
            Err(fault) => Err(fault),
        },
        Err(fault) => Err(fault),
    }
}

/// The line that is said of a plan under a verdict of a cost, if one is.
fn fault_said(
    alloc: Global,
    problem: &Problem,
    fixings: &[Fixing],
    cost: u64,
    plan: &Plan,
    stated: Option<u64>,
) -> Result<Option<List<u8>>, Memory>
    ensures { IfOk result
        (IsSaidOfPlan problem.now fixings.now (Optimal cost) (Some (plan.now, stated))) }
{
    match fits(problem, fixings, plan, stated, cost) {
        Ok(()) => Ok(None),
        Err(fault) => Ok(Some(plan_fault_line(alloc, problem, &fault)?)),
    }
}

/// The line that is said of a plan behind an accepted tree, if one is.
fn said_of_plan(
    alloc: Global,
    problem: &Problem,
    fixings: &[Fixing],
    verdict: Verdict,
    plan: Option<(Plan, Option<u64>)>,
) -> Result<Option<List<u8>>, Memory>
    ensures { IfOk result (IsSaidOfPlan problem.now fixings.now verdict plan) }
{
    let Some((plan, stated)) = plan else {
        return Ok(None);
    };
    match verdict {
        Verdict::Optimal(cost) => fault_said(alloc, problem, fixings, cost, &plan, stated),
        Verdict::Infeasible => Ok(Some(no_plan_line(alloc)?)),
    }
}

/// The answer to a tree that is accepted, with what is said of a plan.
fn accepted_with(alloc: Global, verdict: Verdict, said: Option<List<u8>>) -> Result<Answer, Memory>
    ensures ok { IfOk result (λ answer. IsAcceptedWith verdict said answer) }
    ensures status { IfOk result (λ answer. IsAnswerStatus answer.status) }
{
    let line = accepted_line(alloc, verdict)?;
    match said {
        Some(said) => two_lines(alloc, line, said, 1),
        None => one_line(alloc, line, 0),
    }
}

/// The answer to a tree that is accepted.
fn accepted(
    alloc: Global,
    problem: &Problem,
    fixings: &[Fixing],
    verdict: Verdict,
    plan: Option<(Plan, Option<u64>)>,
) -> Result<Answer, Memory>
    ensures ok { IfOk result (λ answer. IsAcceptedFor problem.now fixings.now verdict plan answer) }
    ensures status { IfOk result (λ answer. IsAnswerStatus answer.status) }
{
    let said = said_of_plan(alloc, problem, fixings, verdict, plan)?;
    accepted_with(alloc, verdict, said)
}

/// The answer to a tree, with a plan if there is one.
fn answer_to(
    alloc: Global,
    problem: &Problem,
    fixings: &[Fixing],
    verdict: Verdict,
    tree: &PackedTree,
    plan: Option<(Plan, Option<u64>)>,
) -> Result<Answer, Memory>
    ensures ok { IfOk result (IsTreeChecked problem.now fixings.now verdict tree.now plan) }
    ensures status { IfOk result (λ answer. IsAnswerStatus answer.status) }
{
    match check(alloc, problem, fixings, verdict, tree.as_slice())? {
        Checked::Accepted => accepted(alloc, problem, fixings, verdict, plan),
        Checked::Refused { node, why } => one_line(alloc, refused_line(alloc, node, why)?, 1),
    }
}

/// The answer to a tree, with a plan if there is one, or that memory ran out.
pub(crate) fn judge_tree(
    alloc: Global,
    problem: &Problem,
    fixings: &[Fixing],
    verdict: Verdict,
    tree: &PackedTree,
    plan: Option<(Plan, Option<u64>)>,
) -> Result<Answer, Cause>
    ensures ok { IfOk result (IsTreeChecked problem.now fixings.now verdict tree.now plan) }
    ensures no { IfErr result IsWant }
    ensures status { IfOk result (λ answer. IsAnswerStatus answer.status) }
{
    match answer_to(alloc, problem, fixings, verdict, tree, plan) {
        Ok(answer) => Ok(answer),
        Err(_) => Err(Cause::Memory),
    }
}
