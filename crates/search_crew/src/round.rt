ghost use Rattle.std.specs.Prelude.{◌≡◌, List, IfOk, Some, Ok};
ghost use Rattle.disp_model.specs.declared.fixing.Fixing.{Fixing as FixingOf};
ghost use Rattle.disp_model.specs.declared.answer.Answer.{Answer as AnswerOf};
ghost use Rattle.disp_model.specs.declared.problem.Problem.{Problem as ProblemOf};
ghost use Rattle.disp_model.specs.declared.settings.Rule.{Rule as RuleOf};
ghost use Rattle.disp_model.specs.History.{fixings_after};
ghost use Rattle.incumbent_cell.specs.Cell.{knowledge_of};
ghost use Rattle.node_leaves.specs.Reckoned.{ReckonsFor};
ghost use Rattle.shared_board.specs.Board.{board_of, problem_of, own_board, known};
ghost use Rattle.shared_board.specs.Calls.{IsSearcher};
ghost use Rattle.search_crew.specs.Crews.{IsHandOf, IsSameHand};
ghost use Rattle.search_crew.specs.Grounds.{IsGround, IsBestNoMore, IsCutoff};
ghost use Rattle.search_crew.specs.Turns.{IsCrewTurn};
ghost use Rattle.search_crew.specs.Working.{IsAnswered, IsAtWork, KeepsOn};

use crate::crew::{Crew, Hand};
use crate::ground::{Ground, lesser};
use crate::hand_in::{hand_in, publish};
use crate::turn::{Turn, give_back, is_worked_on, keep_another, next_turn};
use disp_model::{Answer, Memory};
use disp_outside::{Gate, Point};
use node_leaves::Reckoning;
use open_nodes::Work;
use shared_board::{Board, Pass, SEARCHERS_FROM};
use std::alloc::Global;
use std::sync::Wait;

/// There is a newer edition.
#[derive(Clone, Copy, Debug)]
struct Outdated;

/// The best cost of a work, or the least that was published for its edition since.
fn cutoff(crew: &Crew, hand: &mut Hand, work: &Work) -> Result<Option<u64>, Outdated>
    requires { IsHandOf crew.now hand.old }
    ensures hand { IsSameHand hand.old hand.new }
    ensures no_more { IfOk result (λ best. IsBestNoMore best work.now.best) }
    ensures told { IfOk result (IsCutoff work.now (knowledge_of hand.old.cell)) }
{
    let (newest, least) = crew.least.least(&mut hand.cell);
    if work.edition < newest {
        return Err(Outdated);
    }
    if newest < work.edition {
        return Ok(work.best);
    }
    Ok(lesser(work.best, least))
}

/// Grows the leaf of a work of the ground's edition, and hands in what it came to. Where a newer
/// edition is there the work is given back.
fn work_on<W: Wait>(
    rt: &W,
    alloc: Global,
    board: &Board,
    pass: &mut Pass,
    crew: &Crew,
    hand: &mut Hand,
    reckoning: &Reckoning,
    ground: &mut Ground,
    work: Work,
) -> Result<(), Memory>
    requires reckons { ReckonsFor (problem_of board.now) reckoning.now }
    requires at { IsAtWork board.now reckoning.now.rule work.edition pass.old }
    requires hand { IsHandOf crew.now hand.old }
    requires ground { IsGround (problem_of board.now)
        (fixings_after work.edition (known pass.old).seen) ground.old }
    ensures on { KeepsOn pass.old pass.new }
    ensures hand { IsSameHand hand.old hand.new }
    ensures ground { (fixings : List FixingOf) → IsGround (problem_of board.now) fixings ground.old
        → IsGround (problem_of board.now) fixings ground.new }
{
    match cutoff(crew, hand, &work) {
        Ok(best) => {
            let growth = ground.grow(alloc, board.problem(), reckoning, &work, best);
            hand.effort.count(work.allowance, &growth);
            hand_in(rt, alloc, board, pass, crew, hand, work, growth)
        }
        Err(Outdated) => {
            give_back(rt, alloc, board, pass, work);
            Ok(())
        }
    }
}

/// A work of a searcher, or else what there is to do.
fn find_turn<W: Wait>(
    rt: &W,
    alloc: Global,
    board: &Board,
    pass: &mut Pass,
    crew: &Crew,
    hand: &mut Hand,
    edition: u32,
) -> Result<Turn, Memory>
    requires board { own_board pass.old ≡ board_of board.now }
    requires searcher { IsSearcher (known pass.old) }
    ensures on { KeepsOn pass.old pass.new }
    ensures hand { IsSameHand hand.old hand.new }
    ensures turn { IfOk result (IsCrewTurn edition (known pass.new).seen) }
{
    if let Some(work) = hand.take_or_steal(crew) {
        return Ok(Turn::Work(work));
    }
    let want = hand.effort.want();
    match next_turn(rt, alloc, board, pass, edition, want)? {
        Turn::Work(work) => {
            keep_another(rt, alloc, board, pass, crew, hand, edition, want);
            Ok(Turn::Work(work))
        }
        turn => Ok(turn),
    }
}

/// Takes a work and grows it, as far as there is one. Says how the search of the edition ended, if
/// it has.
fn grow_next<W: Wait, G: Gate>(
    rt: &W,
    alloc: Global,
    board: &Board,
    pass: &mut Pass,
    crew: &Crew,
    hand: &mut Hand,
    reckoning: &Reckoning,
    ground: &mut Ground,
    edition: u32,
    gate: &G,
) -> Result<Option<Answer>, Memory>
    requires reckons { ReckonsFor (problem_of board.now) reckoning.now }
    requires at { IsAtWork board.now reckoning.now.rule edition pass.old }
    requires hand { IsHandOf crew.now hand.old }
    requires ground { IsGround (problem_of board.now) (fixings_after edition (known pass.old).seen)
        ground.old }
    ensures on { KeepsOn pass.old pass.new }
    ensures hand { IsSameHand hand.old hand.new }
    ensures ground { (fixings : List FixingOf) → IsGround (problem_of board.now) fixings ground.old
        → IsGround (problem_of board.now) fixings ground.new }
    ensures answered { (answer : AnswerOf) → result ≡ Ok (Some answer)
        → IsAnswered edition (known pass.new).seen answer }
{
    match find_turn(rt, alloc, board, pass, crew, hand, edition)? {
        Turn::Work(work) => {
            if work.edition != edition {
                give_back(rt, alloc, board, pass, work);
                return Ok(None);
            }
            gate.reach(Point::Fragment, SEARCHERS_FROM.saturating_add(hand.place));
            work_on(rt, alloc, board, pass, crew, hand, reckoning, ground, work)?;
            Ok(None)
        }
        Turn::Answer(answer) => Ok(Some(answer)),
        Turn::On => Ok(None),
    }
}

/// Looks for better plans where that is due, and publishes one that is found.
fn look_on<W: Wait>(
    rt: &W,
    alloc: Global,
    board: &Board,
    pass: &mut Pass,
    crew: &Crew,
    hand: &mut Hand,
    ground: &mut Ground,
    edition: u32,
) -> Result<(), Memory>
    requires at { (rule : RuleOf) × IsAtWork board.now rule edition pass.old }
    requires hand { IsHandOf crew.now hand.old }
    requires ground { IsGround (problem_of board.now) (fixings_after edition (known pass.old).seen)
        ground.old }
    ensures on { KeepsOn pass.old pass.new }
    ensures hand { IsSameHand hand.old hand.new }
    ensures ground { (fixings : List FixingOf) → IsGround (problem_of board.now) fixings ground.old
        → IsGround (problem_of board.now) fixings ground.new }
{
    let plan = ground.look_on(alloc, board.problem())?;
    publish(rt, alloc, board, pass, crew, hand, edition, plan)
}

/// Rehearses the search where that is due, and publishes a plan that is found.
fn rehearse_on<W: Wait>(
    rt: &W,
    alloc: Global,
    board: &Board,
    pass: &mut Pass,
    crew: &Crew,
    hand: &mut Hand,
    reckoning: &Reckoning,
    ground: &mut Ground,
    edition: u32,
) -> Result<(), Memory>
    requires reckons { ReckonsFor (problem_of board.now) reckoning.now }
    requires at { (rule : RuleOf) × IsAtWork board.now rule edition pass.old }
    requires hand { IsHandOf crew.now hand.old }
    requires ground { IsGround (problem_of board.now) (fixings_after edition (known pass.old).seen)
        ground.old }
    ensures on { KeepsOn pass.old pass.new }
    ensures hand { IsSameHand hand.old hand.new }
    ensures ground { (fixings : List FixingOf) → IsGround (problem_of board.now) fixings ground.old
        → IsGround (problem_of board.now) fixings ground.new }
{
    let plan = ground.rehearse_on(alloc, board.problem(), reckoning)?;
    publish(rt, alloc, board, pass, crew, hand, edition, plan)
}

/// The least cost that was published for an edition, as far as the searcher knows of one.
fn least_of(crew: &Crew, hand: &mut Hand, edition: u32) -> Option<u64>
    requires { IsHandOf crew.now hand.old }
    ensures { IsSameHand hand.old hand.new }
{
    let (newest, least) = crew.least.least(&mut hand.cell);
    if newest == edition { least } else { None }
}

/// Takes over what the other searchers came to: what the best plan costs, and a script.
fn agree(crew: &Crew, hand: &mut Hand, ground: &mut Ground, edition: u32) -> Result<(), Memory>
    requires { IsHandOf crew.now hand.old }
    ensures hand { IsSameHand hand.old hand.new }
    ensures ground { (problem : ProblemOf) (fixings : List FixingOf)
        → IsGround problem fixings ground.old → IsGround problem fixings ground.new }
{
    ground.note_cost(least_of(crew, hand, edition));
    match crew.script(edition) {
        Some(script) => ground.follow_other(script),
        None => Ok(()),
    }
}

/// Hands the script that the searcher has come to over to the others, if it has come to one. Where
/// another one was faster it follows that one's.
fn hand_over(
    alloc: Global,
    crew: &Crew,
    hand: &mut Hand,
    ground: &mut Ground,
    edition: u32,
) -> Result<(), Memory>
    ensures hand { IsSameHand hand.old hand.new }
    ensures ground { (problem : ProblemOf) (fixings : List FixingOf)
        → IsGround problem fixings ground.old → IsGround problem fixings ground.new }
{
    let Some(script) = ground.script(alloc)? else {
        return Ok(());
    };
    match crew.script(edition) {
        Some(other) => ground.follow_other(other),
        None => hand.hand_over(alloc, crew.others(), edition, &script),
    }
}

/// Takes over what the other searchers came to, or else rehearses the search, where that is due,
/// and publishes a plan that is found. Where the searcher comes to a script it hands it over.
fn rehearse_beside<W: Wait>(
    rt: &W,
    alloc: Global,
    board: &Board,
    pass: &mut Pass,
    crew: &Crew,
    hand: &mut Hand,
    reckoning: &Reckoning,
    ground: &mut Ground,
    edition: u32,
) -> Result<(), Memory>
    requires reckons { ReckonsFor (problem_of board.now) reckoning.now }
    requires at { (rule : RuleOf) × IsAtWork board.now rule edition pass.old }
    requires hand { IsHandOf crew.now hand.old }
    requires ground { IsGround (problem_of board.now) (fixings_after edition (known pass.old).seen)
        ground.old }
    ensures on { KeepsOn pass.old pass.new }
    ensures hand { IsSameHand hand.old hand.new }
    ensures ground { (fixings : List FixingOf) → IsGround (problem_of board.now) fixings ground.old
        → IsGround (problem_of board.now) fixings ground.new }
{
    agree(crew, hand, ground, edition)?;
    if ground.is_scripted() {
        return Ok(());
    }
    rehearse_on(
        rt, alloc, board, pass, crew, hand, reckoning, ground, edition,
    )?;
    hand_over(alloc, crew, hand, ground, edition)
}

/// Rehearses the search where that is due, and publishes a plan that is found. Searchers that
/// agree on a script hear of each other before; one that has a script goes on alone.
fn rehearse<W: Wait>(
    rt: &W,
    alloc: Global,
    board: &Board,
    pass: &mut Pass,
    crew: &Crew,
    hand: &mut Hand,
    reckoning: &Reckoning,
    ground: &mut Ground,
    edition: u32,
) -> Result<(), Memory>
    requires reckons { ReckonsFor (problem_of board.now) reckoning.now }
    requires at { (rule : RuleOf) × IsAtWork board.now rule edition pass.old }
    requires hand { IsHandOf crew.now hand.old }
    requires ground { IsGround (problem_of board.now) (fixings_after edition (known pass.old).seen)
        ground.old }
    ensures on { KeepsOn pass.old pass.new }
    ensures hand { IsSameHand hand.old hand.new }
    ensures ground { (fixings : List FixingOf) → IsGround (problem_of board.now) fixings ground.old
        → IsGround (problem_of board.now) fixings ground.new }
{
    if ground.agrees() && !ground.is_scripted() {
        return rehearse_beside(
            rt, alloc, board, pass, crew, hand, reckoning, ground, edition,
        );
    }
    rehearse_on(
        rt, alloc, board, pass, crew, hand, reckoning, ground, edition,
    )
}

/// Whether the searcher is to grow nothing yet: its rehearsals come first, and the edition is still
/// worked on.
fn is_held<W: Wait>(
    rt: &W,
    alloc: Global,
    board: &Board,
    pass: &mut Pass,
    ground: &Ground,
    edition: u32,
) -> bool
    requires { own_board pass.old ≡ board_of board.now }
    ensures { KeepsOn pass.old pass.new }
{
    ground.rehearses_first() && is_worked_on(rt, alloc, board, pass, edition)
}

/// Looks for better plans and rehearses the search where that is due, and then grows a work, unless
/// rehearsals come first. Says how the search of the edition ended, if it has.
pub(crate) fn round<W: Wait, G: Gate>(
    rt: &W,
    alloc: Global,
    board: &Board,
    pass: &mut Pass,
    crew: &Crew,
    hand: &mut Hand,
    reckoning: &Reckoning,
    ground: &mut Ground,
    edition: u32,
    gate: &G,
) -> Result<Option<Answer>, Memory>
    requires reckons { ReckonsFor (problem_of board.now) reckoning.now }
    requires at { IsAtWork board.now reckoning.now.rule edition pass.old }
    requires hand { IsHandOf crew.now hand.old }
    requires ground { IsGround (problem_of board.now) (fixings_after edition (known pass.old).seen)
        ground.old }
    ensures on { KeepsOn pass.old pass.new }
    ensures hand { IsSameHand hand.old hand.new }
    ensures ground { (fixings : List FixingOf) → IsGround (problem_of board.now) fixings ground.old
        → IsGround (problem_of board.now) fixings ground.new }
    ensures answered { (answer : AnswerOf) → result ≡ Ok (Some answer)
        → IsAnswered edition (known pass.new).seen answer }
{
    look_on(rt, alloc, board, pass, crew, hand, ground, edition)?;
    rehearse(
        rt, alloc, board, pass, crew, hand, reckoning, ground, edition,
    )?;
    if is_held(rt, alloc, board, pass, ground, edition) {
        return Ok(None);
    }
    grow_next(
        rt, alloc, board, pass, crew, hand, reckoning, ground, edition, gate,
    )
}
