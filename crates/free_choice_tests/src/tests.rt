// A fork, two trains on one block, and two that swap: what is picked, by either strategy.
ghost use Rattle.std.specs.Prelude.{◌≡◌};

use branch_rules::Pick;
use disp_model::{Choice, Decision, Op, Problem};
use event_graph::Graph;
use free_choices::{Adviser, Care, Strategy, pick_free};
use std::alloc::Global;
use std::test::Fail;
use worked_problems::{forked, swap, two_trains};

/// The choice that is picked at a node that is not late, and `None` where there is a plan.
fn picked(
    alloc: Global,
    problem: &Problem,
    graph: &mut Graph,
    strategy: Strategy,
) -> Result<Option<Choice>, Fail>
    requires { graph.old.problem ≡ problem.now }
{
    let None = graph.late() else {
        return Err(Fail::from("late"));
    };
    let mut adviser = Adviser::new(alloc, problem, Care::Thorough)?;
    match pick_free(alloc, problem, graph, &mut adviser, strategy, u64::MAX)? {
        Pick::Choice(choice) => Ok(Some(choice)),
        Pick::Plan(_) => Ok(None),
    }
}

/// The choice that is picked where nothing is decided, or behind a decision.
fn picked_at(
    alloc: Global,
    problem: &Problem,
    decision: Option<Decision>,
    strategy: Strategy,
) -> Result<Option<Choice>, Fail> {
    let Ok(mut graph) = Graph::new(alloc, problem, &[]) else {
        return Err(Fail::from("no graph"));
    };
    if let Some(decision) = decision {
        if graph.extend(decision).is_err() {
            return Err(Fail::from("refused"));
        }
    }
    picked(alloc, problem, &mut graph, strategy)
}

fn op(train: u32, op: u32) -> Op {
    Op { train, op }
}

#[test]
fn the_way_on_from_a_fork_is_picked(rt: HostRuntime) -> Result<(), Fail> {
    let problem = forked(rt.alloc())?;
    let wanted = Some(Choice::Route(op(0, 0)));
    for strategy in [Strategy::Toll, Strategy::Time] {
        let choice = picked_at(rt.alloc(), &problem, None, strategy)?;
        assert_eq!(rt; choice, wanted);
    }
    Ok(())
}

#[test]
fn the_order_on_a_block_is_picked_once(rt: HostRuntime) -> Result<(), Fail> {
    let problem = two_trains(rt.alloc())?;
    let wanted = Some(Choice::Order(op(0, 0), op(1, 0)));
    let order = Decision::First {
        a: op(1, 0),
        b: op(0, 0),
    };
    for strategy in [Strategy::Toll, Strategy::Time] {
        let choice = picked_at(rt.alloc(), &problem, None, strategy)?;
        assert_eq!(rt; choice, wanted);
        let choice = picked_at(rt.alloc(), &problem, Some(order), strategy)?;
        assert_eq!(rt; choice, None);
    }
    Ok(())
}

#[test]
fn the_order_of_a_swap_is_picked(rt: HostRuntime) -> Result<(), Fail> {
    let problem = swap(rt.alloc())?;
    let choice = picked_at(rt.alloc(), &problem, None, Strategy::Toll)?;
    assert_eq!(rt; choice, Some(Choice::Order(op(0, 1), op(1, 0))));
    Ok(())
}
