ghost use Rattle.std.specs.Prelude.{◌≡◌, [], IfOk, IfSome};
ghost use Rattle.event_graph.specs.Joined.{IsOfEdition};
ghost use Rattle.near_plans.specs.Plans.{IsBeside, IsFoundBeside, IsPlanAt};

use crate::base::Base;
use crate::neighbours::improved;
use crate::outlook::{Aim, Outlook, Wanted, look_below};
use crate::passing::events_of;
use crate::taking::{Course, Going, take_over};
use disp_model::{Memory, Plan, Problem};
use event_graph::Graph;
use free_choices::{Adviser, Care, Strategy};
use std::alloc::Global;
use train_insertion::Target;
use tree_dives::rewind;

/// At how many nodes is looked at most for a first plan.
const FIRST_NODES: u32 = 4096;

/// What a look ahead came to.
#[derive(Drop)]
pub struct Ahead {
    /// The best plan that was found,
    pub plan: Option<Plan>,
    /// and what it costs.
    pub cost: Option<u64>,
    /// Whether all nodes were seen to be dead, by time.
    pub dead_by_time: bool,
}

/// What was looked at for a first plan.
#[derive(Drop)]
struct First {
    base: Option<Base>,
    dead_by_time: bool,
}

/// A first plan in which all trains go on as in a target: they take its routes, and hold each
/// resource in its order. Few choices are left then, however large the problem is.
fn plan_of(
    alloc: Global,
    problem: &Problem,
    graph: &mut Graph,
    adviser: &mut Adviser,
    target: &Target,
) -> Result<Option<Base>, Memory>
    requires { graph.old.problem ≡ problem.now }
    ensures beside { IsBeside graph.old graph.new }
    ensures plan { IfOk result
        (λ found. IfSome found (λ base. IsFoundBeside graph.old base.plan)) }
{
    let events = events_of(alloc, target, problem.trains.len())?;
    let course = Course {
        events: events.as_slice(),
        target,
    };
    let going = Going {
        out: &[],
        new: None,
    };
    take_over(alloc, problem, graph, course, going)?;
    let aim = Aim {
        problem,
        target,
        strategy: Strategy::Toll,
    };
    let outlook = look_below(alloc, aim, graph, adviser, Wanted::any(FIRST_NODES))?;
    Base::of_outlook(alloc, problem, outlook)
}

/// By what the choices are taken for a first plan along a target: a target that leaves a train out
/// may be a sign of a deadlock, which is often seen by time alone.
fn first_strategy(target: &Target) -> Strategy {
    if target.is_whole() {
        Strategy::Toll
    } else {
        Strategy::Time
    }
}

/// A first plan along a target, which is gone down to by one choice after the other.
fn plan_towards(
    alloc: Global,
    problem: &Problem,
    graph: &mut Graph,
    adviser: &mut Adviser,
    target: &Target,
) -> Result<First, Memory>
    requires { graph.old.problem ≡ problem.now }
    ensures beside { IsBeside graph.old graph.new }
    ensures plan { IfOk result
        (λ first. IfSome first.base (λ base. IsFoundBeside graph.old base.plan)) }
{
    let strategy = first_strategy(target);
    let aim = Aim {
        problem,
        target,
        strategy,
    };
    let outlook = look_below(alloc, aim, graph, adviser, Wanted::any(FIRST_NODES))?;
    let dead_by_time = outlook.whole && outlook.plan.is_none() && strategy == Strategy::Time;
    Ok(First {
        base: Base::of_outlook(alloc, problem, outlook)?,
        dead_by_time,
    })
}

/// A first plan below the node of a graph, along a target.
fn first_plan(
    alloc: Global,
    problem: &Problem,
    graph: &mut Graph,
    adviser: &mut Adviser,
    target: &Target,
) -> Result<First, Memory>
    requires { graph.old.problem ≡ problem.now }
    ensures beside { IsBeside graph.old graph.new }
    ensures plan { IfOk result
        (λ first. IfSome first.base (λ base. IsFoundBeside graph.old base.plan)) }
{
    if !target.is_whole() {
        return plan_towards(alloc, problem, graph, adviser, target);
    }
    let depth = graph.decisions().len();
    if let Some(base) = plan_of(alloc, problem, graph, adviser, target)? {
        return Ok(First {
            base: Some(base),
            dead_by_time: false,
        });
    }
    rewind(graph, depth.min(graph.decisions().len()));
    plan_towards(alloc, problem, graph, adviser, target)
}

/// Looks for a first plan along a target, and for better ones near it. The graph is moved.
fn look(
    alloc: Global,
    problem: &Problem,
    graph: &mut Graph,
    target: &Target,
    draws: u32,
    nodes: u32,
) -> Result<Ahead, Memory>
    requires problem { graph.old.problem ≡ problem.now }
    requires edition { IsOfEdition graph.old }
    ensures beside { IsBeside graph.old graph.new }
    ensures plan { IfOk result (λ ahead. IfSome ahead.plan (IsPlanAt graph.old)) }
{
    let mut adviser = Adviser::new(alloc, problem, Care::Quick)?;
    let First { base, dead_by_time } = first_plan(alloc, problem, graph, &mut adviser, target)?;
    let Some(base) = base else {
        return Ok(Ahead {
            plan: None,
            cost: None,
            dead_by_time,
        });
    };
    let Base { plan, cost, .. } = improved(
        alloc,
        problem,
        graph,
        &mut adviser,
        base,
        draws,
        nodes,
    )?;
    Ok(Ahead {
        plan: Some(plan),
        cost: Some(cost),
        dead_by_time,
    })
}

/// Looks ahead from the root of an edition, at which a graph is: for a first plan along a target,
/// and then in so many nodes for better ones near the best. The draws of different numbers differ.
/// A plan that it finds is valid. With 0 nodes it finds none. The graph is as before.
///
/// # Errors
///
/// `Memory` where memory runs out.
pub fn look_ahead(
    alloc: Global,
    problem: &Problem,
    graph: &mut Graph,
    target: &Target,
    draws: u32,
    nodes: u32,
) -> Result<Ahead, Memory>
    requires problem { graph.old.problem ≡ problem.now }
    requires edition { IsOfEdition graph.old }
    requires root { graph.old.decisions ≡ [] }
    ensures same { graph.new ≡ graph.old }
    ensures plan { IfOk result (λ ahead. IfSome ahead.plan (IsPlanAt graph.old)) }
{
    if nodes == 0 {
        return Ok(Ahead {
            plan: None,
            cost: None,
            dead_by_time: false,
        });
    }
    let ahead = look(alloc, problem, graph, target, draws, nodes);
    rewind(graph, 0);
    ahead
}
