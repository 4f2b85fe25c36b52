ghost use Rattle.std.specs.Prelude.{◌≡◌, List, Some, IfOk, true};
ghost use Rattle.disp_model.specs.declared.plan.Event.{Event};
ghost use Rattle.disp_model.specs.declared.settings.Rule.{Rule as RuleOf};
ghost use Rattle.disp_model.specs.History.{fixings_after};
ghost use Rattle.disp_model.specs.Node.{node_at};
ghost use Rattle.shared_board.specs.Board.{board_of, problem_of, own_board, known};
ghost use Rattle.shared_board.specs.Calls.{IsExaminedFor, IsGrowthOf, IsPlanFor, IsSearcher};
ghost use Rattle.search_crew.specs.Crews.{IsHandOf, IsSameHand};
ghost use Rattle.search_crew.specs.Grounds.{IsGrownFor};
ghost use Rattle.search_crew.specs.Working.{IsAtWork, KeepsOn};

use crate::crew::{Crew, Hand};
use crate::turn::give_back;
use disp_model::{Memory, Plan};
use dispatch_core::{CoreEvent, CoreReply, StepNo};
use incumbent_cell::NEWEST;
use open_nodes::{Fragment, Work};
use search_workers::Growth;
use shared_board::{Board, Pass};
use std::alloc::Global;
use std::sync::Wait;

/// Gives a work back as examined.
fn give_back_examined<W: Wait>(rt: &W, alloc: Global, board: &Board, pass: &mut Pass, work: Work)
    requires board { own_board pass.old ≡ board_of board.now }
    requires searcher { IsSearcher (known pass.old) }
    requires examined { IsExaminedFor (known pass.old) work }
    ensures { KeepsOn pass.old pass.new }
{
    board.give_back(rt, alloc, pass, work, true);
}

/// Puts what grew in the place of its leaf. Where memory runs out the work is given back.
fn put_in<W: Wait>(
    rt: &W,
    alloc: Global,
    board: &Board,
    pass: &mut Pass,
    fragment: Fragment,
) -> Result<(), Memory>
    requires board { own_board pass.old ≡ board_of board.now }
    requires searcher { IsSearcher (known pass.old) }
    requires growth { IsGrowthOf (known pass.old) fragment }
    ensures { KeepsOn pass.old pass.new }
{
    match board.grow(rt, alloc, pass, fragment) {
        Ok(_) => Ok(()),
        Err(StepNo::Memory(CoreEvent::Grow { fragment, .. })) => {
            give_back(rt, alloc, board, pass, fragment.into_work());
            Err(Memory)
        }
        Err(_) => Err(Memory),
    }
}

/// Tells the other searchers of a cost that was published.
pub(crate) fn tell(crew: &Crew, hand: &mut Hand, edition: u32, cost: u64)
    requires { IsHandOf crew.now hand.old }
    ensures { IsSameHand hand.old hand.new }
{
    if edition <= NEWEST {
        crew.least.put(&mut hand.cell, edition, cost);
    }
}

/// Publishes a plan of an edition, where there is one, and tells the others.
pub(crate) fn publish<W: Wait>(
    rt: &W,
    alloc: Global,
    board: &Board,
    pass: &mut Pass,
    crew: &Crew,
    hand: &mut Hand,
    edition: u32,
    plan: Option<Plan>,
) -> Result<(), Memory>
    requires board { own_board pass.old ≡ board_of board.now }
    requires plan { (found : List Event) → plan ≡ Some found
        → IsPlanFor (known pass.old) edition found }
    requires hand { IsHandOf crew.now hand.old }
    ensures on { KeepsOn pass.old pass.new }
    ensures hand { IsSameHand hand.old hand.new }
{
    let Some(plan) = plan else {
        return Ok(());
    };
    if let CoreReply::Published(cost) = board.publish(rt, alloc, pass, edition, plan)? {
        tell(crew, hand, edition, cost);
    }
    Ok(())
}

/// Hands in a subtree that grew, and a plan if one was found.
fn hand_in_subtree<W: Wait>(
    rt: &W,
    alloc: Global,
    board: &Board,
    pass: &mut Pass,
    crew: &Crew,
    hand: &mut Hand,
    fragment: Fragment,
    plan: Option<Plan>,
) -> Result<(), Memory>
    requires board { own_board pass.old ≡ board_of board.now }
    requires searcher { IsSearcher (known pass.old) }
    requires growth { IsGrowthOf (known pass.old) fragment }
    requires plan { (found : List Event) → plan ≡ Some found
        → IsPlanFor (known pass.old) fragment.work.edition found }
    requires hand { IsHandOf crew.now hand.old }
    ensures on { KeepsOn pass.old pass.new }
    ensures hand { IsSameHand hand.old hand.new }
{
    let edition = fragment.work.edition;
    put_in(rt, alloc, board, pass, fragment)?;
    publish(rt, alloc, board, pass, crew, hand, edition, plan)
}

/// Hands in what a work came to.
fn hand_in_growth<W: Wait>(
    rt: &W,
    alloc: Global,
    board: &Board,
    pass: &mut Pass,
    crew: &Crew,
    hand: &mut Hand,
    work: Work,
    growth: Growth,
) -> Result<(), Memory>
    requires at { (rule : RuleOf) × IsAtWork board.now rule work.edition pass.old
        × IsGrownFor rule (node_at (problem_of board.now)
        (fixings_after work.edition (known pass.old).seen) work.decisions) work growth }
    requires hand { IsHandOf crew.now hand.old }
    ensures on { KeepsOn pass.old pass.new }
    ensures hand { IsSameHand hand.old hand.new }
{
    match growth {
        Growth::Examined => {
            give_back_examined(rt, alloc, board, pass, work);
            Ok(())
        }
        Growth::Subtree {
            nodes,
            bounds,
            plan,
        } => {
            let fragment = Fragment {
                work,
                subtree: nodes,
                bounds,
            };
            hand_in_subtree(rt, alloc, board, pass, crew, hand, fragment, plan)
        }
    }
}

/// Hands in what a work came to, if it came to something; else gives it back.
pub(crate) fn hand_in<W: Wait>(
    rt: &W,
    alloc: Global,
    board: &Board,
    pass: &mut Pass,
    crew: &Crew,
    hand: &mut Hand,
    work: Work,
    growth: Result<Growth, Memory>,
) -> Result<(), Memory>
    requires board { own_board pass.old ≡ board_of board.now }
    requires searcher { IsSearcher (known pass.old) }
    requires grown { IfOk growth (λ growth. (rule : RuleOf)
        × IsAtWork board.now rule work.edition pass.old × IsGrownFor rule
        (node_at (problem_of board.now) (fixings_after work.edition (known pass.old).seen)
        work.decisions) work growth) }
    requires hand { IsHandOf crew.now hand.old }
    ensures on { KeepsOn pass.old pass.new }
    ensures hand { IsSameHand hand.old hand.new }
{
    match growth {
        Ok(growth) => hand_in_growth(rt, alloc, board, pass, crew, hand, work, growth),
        Err(memory) => {
            give_back(rt, alloc, board, pass, work);
            Err(memory)
        }
    }
}
