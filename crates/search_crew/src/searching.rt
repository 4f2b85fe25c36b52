ghost use Rattle.std.specs.Prelude.{◌≡◌, IfOk};
ghost use Rattle.disp_model.specs.History.{fixings_after};
ghost use Rattle.node_leaves.specs.Reckoned.{ReckonsFor};
ghost use Rattle.shared_board.specs.Board.{board_of, problem_of, own_board, known};
ghost use Rattle.shared_board.specs.Calls.{IsSearcher};
ghost use Rattle.search_crew.specs.Crews.{IsHandOf, IsSameHand};
ghost use Rattle.search_crew.specs.Grounds.{IsGround};
ghost use Rattle.search_crew.specs.Working.{IsAnswered, IsAtWork, KeepsOn};

use crate::crew::{Crew, Hand};
use crate::ground::{Ground, begin};
use crate::hand_in::tell;
use crate::round::round;
use crate::turn::give_back;
use disp_model::{Answer, GREATEST_COST, Memory, Rule, Unfinished};
use disp_outside::Gate;
use node_leaves::Reckoning;
use shared_board::{Board, Edition, Pass};
use std::alloc::Global;
use std::sync::Wait;

/// Rounds until the search of the edition is over.
fn rounds<W: Wait, G: Gate>(
    rt: &W,
    alloc: Global,
    board: &Board,
    pass: &mut Pass,
    crew: &Crew,
    hand: &mut Hand,
    reckoning: &Reckoning,
    ground: &mut Ground,
    edition: u32,
    gate: &G,
) -> Result<Answer, Memory>
    requires reckons { ReckonsFor (problem_of board.now) reckoning.now }
    requires at { IsAtWork board.now reckoning.now.rule edition pass.old }
    requires hand { IsHandOf crew.now hand.old }
    requires ground { IsGround (problem_of board.now) (fixings_after edition (known pass.old).seen)
        ground.old }
    ensures on { KeepsOn pass.old pass.new }
    ensures hand { IsSameHand hand.old hand.new }
    ensures answered { IfOk result (IsAnswered edition (known pass.new).seen) }
{
    for _ in rt.forever() {
        let ended = round(
            rt, alloc, board, pass, crew, hand, reckoning, ground, edition, gate,
        )?;
        if let Some(answer) = ended {
            return Ok(answer);
        }
    }
    unreachable!()
}

/// Searches the edition, where it is the newest, on a ground of its own.
fn search_newest<W: Wait, G: Gate>(
    rt: &W,
    alloc: Global,
    board: &Board,
    pass: &mut Pass,
    crew: &Crew,
    hand: &mut Hand,
    rule: Rule,
    edition: u32,
    gate: &G,
) -> Result<Answer, Memory>
    requires at { IsAtWork board.now rule edition pass.old }
    requires hand { IsHandOf crew.now hand.old }
    ensures on { KeepsOn pass.old pass.new }
    ensures hand { IsSameHand hand.old hand.new }
    ensures answered { IfOk result (IsAnswered edition (known pass.new).seen) }
{
    let Edition { number, fixings } = board.edition(rt, alloc, pass)?;
    if number != edition {
        return Ok(Answer::Unfinished(Unfinished::Newer(number)));
    }
    tell(crew, hand, edition, GREATEST_COST);
    let reckoning = Reckoning::new(alloc, board.problem(), rule)?;
    let lookout = crew.lookout(board.problem(), hand.place, rule);
    let order = &mut hand.order;
    let mut ground = begin(alloc, board.problem(), fixings.as_slice(), lookout, order)?;
    rounds(
        rt,
        alloc,
        board,
        pass,
        crew,
        hand,
        &reckoning,
        &mut ground,
        edition,
        gate,
    )
}

/// Gives back each work that a searcher keeps.
fn give_all_back<W: Wait>(rt: &W, alloc: Global, board: &Board, pass: &mut Pass, hand: &mut Hand)
    requires board { own_board pass.old ≡ board_of board.now }
    requires searcher { IsSearcher (known pass.old) }
    ensures on { KeepsOn pass.old pass.new }
    ensures hand { IsSameHand hand.old hand.new }
{
    for _ in rt.forever() {
        let Some(work) = hand.take() else {
            return;
        };
        give_back(rt, alloc, board, pass, work);
    }
}

/// Searches an edition that the pass has seen, as one searcher of a crew, until it is settled or
/// stopped, or is not the newest any more. The pass is the searcher's, the rule the board's. Where
/// memory runs out, the answer is `Answer::Memory`, and each work that the searcher had is given
/// back.
///
/// It waits for the board's lock, and while all wanted leaves are with other searchers.
pub fn search<W: Wait, G: Gate>(
    rt: &W,
    alloc: Global,
    board: &Board,
    pass: &mut Pass,
    crew: &Crew,
    hand: &mut Hand,
    rule: Rule,
    edition: u32,
    gate: &G,
) -> Answer
    requires at { IsAtWork board.now rule edition pass.old }
    requires hand { IsHandOf crew.now hand.old }
    ensures on { KeepsOn pass.old pass.new }
    ensures hand { IsSameHand hand.old hand.new }
    ensures answered { IsAnswered edition (known pass.new).seen result }
{
    match search_newest(rt, alloc, board, pass, crew, hand, rule, edition, gate) {
        Ok(answer) => answer,
        Err(_) => {
            give_all_back(rt, alloc, board, pass, hand);
            Answer::Memory
        }
    }
}
