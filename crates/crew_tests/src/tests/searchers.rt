// Searchers of one board.
ghost use Rattle.std.specs.Prelude.{IfOk};
ghost use Rattle.search_crew.specs.Working.{IsAtWork};

use disp_model::{Answer, Problem, Rule, Settings, Unfinished};
use disp_outside::OpenGate;
use search_crew::{Pace, crew_of, search};
use shared_board::{Board, Pass, SEARCHERS_FROM};
use std::alloc::Global;
use std::process::Abort;
use std::sync::Wait;
use std::test::Fail;
use worked_problems::{forked, two_trains};

/// A board of a problem for one searcher, and that searcher's pass.
fn board(alloc: Global, problem: &Problem, rule: Rule, budget: u32) -> Result<(Board, Pass), Fail>
    ensures { IfOk result (λ made. IsAtWork made.0 rule 0 made.1) }
{
    let settings = Settings { budget, rule };
    let (board, mut first) = Board::new(alloc, problem, settings, 0, 1)?;
    let pass = board.split(&mut first, SEARCHERS_FROM);
    Ok((board, pass))
}

/// The answer of a crew of one for edition 0.
fn answer_alone<R: Wait>(
    rt: &R,
    alloc: Global,
    board: &Board,
    pass: &mut Pass,
    rule: Rule,
) -> Result<Answer, Fail>
    requires { IsAtWork board.now rule 0 pass.old }
{
    let (crew, mut hands) = crew_of(alloc, 1, 1, Pace::Steady)?;
    let Some(mut hand) = hands.pop() else {
        unreachable!()
    };
    Ok(search(rt, alloc, board, pass, &crew, &mut hand, rule, 0, &OpenGate))
}

/// The answers of a crew of two for edition 0, that of the first before the other one begins: there
/// it hears of what the first came to.
fn answers_in_turn<R: Wait>(
    rt: &R,
    alloc: Global,
    board: &Board,
    pass: &mut Pass,
    rule: Rule,
) -> Result<(Answer, Answer), Fail>
    requires { IsAtWork board.now rule 0 pass.old }
{
    let (crew, mut hands) = crew_of(alloc, 2, 1, Pace::Steady)?;
    let Some(mut last) = hands.pop() else {
        unreachable!()
    };
    let Some(mut first) = hands.pop() else {
        unreachable!()
    };
    let one = search(
        rt, alloc, board, pass, &crew, &mut first, rule, 0, &OpenGate,
    );
    let other = search(rt, alloc, board, pass, &crew, &mut last, rule, 0, &OpenGate);
    Ok((one, other))
}

/// A search of edition 0 by two searchers in turn has this answer by each.
fn check_in_turn<R: Wait + Abort>(
    rt: &R,
    alloc: Global,
    problem: &Problem,
    rule: Rule,
    budget: u32,
    wanted: Answer,
) -> Result<(), Fail> {
    let (board, mut pass) = board(alloc, problem, rule, budget)?;
    let (one, other) = answers_in_turn(rt, alloc, &board, &mut pass, rule)?;
    assert!(rt; one == wanted && other == wanted);
    Ok(())
}

/// A search of edition 0 by one searcher has this answer, and so it has by two in turn.
fn check<R: Wait + Abort>(
    rt: &R,
    alloc: Global,
    problem: &Problem,
    rule: Rule,
    budget: u32,
    wanted: Answer,
) -> Result<(), Fail> {
    let (board, mut pass) = board(alloc, problem, rule, budget)?;
    let found = answer_alone(rt, alloc, &board, &mut pass, rule)?;
    assert!(rt; found == wanted);
    check_in_turn(rt, alloc, problem, rule, budget, wanted)
}

#[test]
fn one_searcher_answers(rt: HostRuntime) -> Result<(), Fail> {
    let alloc = rt.alloc();
    let blocked = two_trains(alloc)?;
    let spent = Answer::Unfinished(Unfinished::Budget(0));
    check(&rt, alloc, &blocked, Rule::Fixed, 9, Answer::Optimal(18))?;
    check(&rt, alloc, &blocked, Rule::Free, 9, Answer::Optimal(18))?;
    check(&rt, alloc, &blocked, Rule::Free, 0, spent)?;
    check(
        &rt,
        alloc,
        &forked(alloc)?,
        Rule::Free,
        9,
        Answer::Optimal(5),
    )?;
    Ok(())
}
