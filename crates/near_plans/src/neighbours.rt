ghost use Rattle.std.specs.Prelude.{◌≡◌, IfOk, IfSome};
ghost use Rattle.disp_model.specs.Node.{Node};
ghost use Rattle.near_plans.specs.Plans.{IsBeside, IsFoundBeside};

use crate::base::Base;
use crate::outlook::{Aim, Outlook, Wanted, look_below};
use crate::region::{drawn_out, drawn_region};
use crate::taking::{Going, take_over};
use cost_bound::cost;
use disp_model::{Memory, Problem};
use event_graph::Graph;
use free_choices::{Adviser, Strategy};
use std::alloc::Global;
use train_insertion::{Draw, Target};
use tree_dives::rewind;

/// How many trains are taken out of a plan at first: these or one more, by a draw,
const FEWEST_OUT: usize = 1;

/// and how many at most.
const MOST_OUT: usize = 5;

/// One more is taken out after so many rounds in which nothing was found.
const ROUNDS_FOR_MORE: usize = 24;

/// After so many of these it ends.
const ROUNDS_IN_VAIN: usize = 192;

/// For so many trains of a problem one round is made in a region, since taking over the others
/// takes the longer the more there are,
const TRAINS_FOR_ROUND: usize = 12;

/// but no more than these.
const MOST_ROUNDS: usize = 8;

/// How many trains a region has beside one for each two rounds.
const TRAINS_IN_REGION: usize = 3;

/// At how many nodes is looked at most in a round at first.
const ROUND_NODES: u32 = 300;

/// It is twice as many after so many rounds in a row that were in vain and cut off: where trains
/// crowd, a train that is out meets many others before it is put in again.
const ROUNDS_CUT_OFF: usize = 12;

/// But never more than so many.
const MOST_ROUND_NODES: u32 = 4800;

/// How far a climb has come.
#[derive(Drop)]
struct Climb {
    draw: Draw,
    /// What is good enough a cost.
    floor: u64,
    /// At how many nodes it may look still.
    nodes: u32,
    /// How many rounds were in vain since the last that was not.
    vain: usize,
    /// At how many nodes is looked at most in a round.
    round_nodes: u32,
    /// How many rounds in a row were in vain and cut off.
    cut_off: usize,
}

impl Climb {
    /// Whether it ends at a plan of this cost.
    fn is_over(&self, cost: u64) -> bool {
        self.nodes == 0 || self.vain >= ROUNDS_IN_VAIN || cost <= self.floor
    }

    /// Counts nodes that were looked at.
    fn spend(&mut self, nodes: u32) {
        self.nodes = self.nodes.saturating_sub(nodes);
    }

    /// Counts a round: whether it found a plan, and whether it looked at all that may have one.
    fn count_round(&mut self, found: bool, whole: bool) {
        self.vain = if found {
            0
        } else {
            self.vain.saturating_add(1)
        };
        self.cut_off = if found || whole {
            0
        } else {
            self.cut_off.saturating_add(1)
        };
        if self.cut_off >= ROUNDS_CUT_OFF && self.round_nodes < MOST_ROUND_NODES {
            self.look_further();
        }
    }

    /// Looks at more nodes in a round from now on, and counts rounds in vain anew.
    fn look_further(&mut self) {
        self.round_nodes = self.round_nodes.saturating_mul(2);
        self.cut_off = 0;
        self.vain = 0;
    }

    /// How many trains are taken out next.
    fn count_out(&mut self) -> usize {
        FEWEST_OUT
            .saturating_add(self.draw.below(2))
            .saturating_add(self.vain / ROUNDS_FOR_MORE)
            .min(MOST_OUT)
    }
}

/// Looks for the cheapest plan below the node of a graph, in so many nodes at most, if it is
/// cheaper than this one. It goes down to the child that costs least, since along the plan it
/// would find that one again.
fn look_for_cheaper(
    alloc: Global,
    problem: &Problem,
    graph: &mut Graph,
    adviser: &mut Adviser,
    base: &Base,
    nodes: u32,
) -> Result<Outlook, Memory>
    requires { graph.old.problem ≡ problem.now }
    ensures beside { IsBeside graph.old graph.new }
    ensures plan { IfOk result (λ outlook. IfSome outlook.plan (IsFoundBeside graph.old)) }
{
    let cheapest = Target::none(alloc);
    let aim = Aim {
        problem,
        target: &cheapest,
        strategy: Strategy::Toll,
    };
    let wanted = Wanted::cheaper(base.cost, nodes);
    look_below(alloc, aim, graph, adviser, wanted)
}

/// Takes some trains of a region out of a plan, and keeps the cheapest plan that is found in which
/// the others go on as they did, if it is cheaper. All trains outside do so at this depth already.
fn try_round(
    alloc: Global,
    problem: &Problem,
    graph: &mut Graph,
    adviser: &mut Adviser,
    base: &mut Base,
    climb: &mut Climb,
    region: &[u32],
    depth: usize,
) -> Result<(), Memory>
    requires { graph.old.problem ≡ problem.now }
    ensures beside { IsBeside graph.old graph.new }
    ensures plan { (root : Node) → IsBeside root graph.old → IsFoundBeside root base.old.plan
        → IsFoundBeside root base.new.plan }
{
    let before = base.cost;
    let count = climb.count_out();
    let out = drawn_out(alloc, region, &mut climb.draw, count)?;
    rewind(graph, depth.min(graph.decisions().len()));
    let going = Going {
        out: &out,
        new: Some(region),
    };
    let taken = take_over(alloc, problem, graph, base.course(), going)?;
    climb.spend(taken);
    let outlook = look_for_cheaper(alloc, problem, graph, adviser, base, climb.round_nodes)?;
    let whole = outlook.whole;
    let nodes = base.keep(alloc, problem, outlook)?;
    climb.spend(nodes);
    climb.count_round(base.cost < before, whole);
    Ok(())
}

/// How many rounds are made in a region.
fn rounds_in_region(problem: &Problem) -> usize {
    let rounds = problem.trains.len() / TRAINS_FOR_ROUND;
    rounds.max(1).min(MOST_ROUNDS)
}

/// Makes some rounds in a region of a plan that is drawn.
fn try_region(
    alloc: Global,
    problem: &Problem,
    graph: &mut Graph,
    adviser: &mut Adviser,
    base: &mut Base,
    climb: &mut Climb,
) -> Result<(), Memory>
    requires { graph.old.problem ≡ problem.now }
    ensures beside { IsBeside graph.old graph.new }
    ensures plan { (root : Node) → IsBeside root graph.old → IsFoundBeside root base.old.plan
        → IsFoundBeside root base.new.plan }
{
    let rounds = rounds_in_region(problem);
    let count = TRAINS_IN_REGION.saturating_add(rounds / 2);
    let region = drawn_region(alloc, problem, base, &mut climb.draw, count)?;
    rewind(graph, 0);
    let going = Going {
        out: &region,
        new: None,
    };
    let taken = take_over(alloc, problem, graph, base.course(), going)?;
    climb.spend(taken);
    let depth = graph.decisions().len();
    for _ in 0..rounds {
        if climb.is_over(base.cost) {
            return Ok(());
        }
        try_round(alloc, problem, graph, adviser, base, climb, &region, depth)?;
    }
    Ok(())
}

/// The best plan that is found near one by a climb that has not begun, in as many regions at most
/// as it may look at nodes.
fn climbed(
    alloc: Global,
    problem: &Problem,
    graph: &mut Graph,
    adviser: &mut Adviser,
    mut base: Base,
    mut climb: Climb,
) -> Result<Base, Memory>
    requires problem { graph.old.problem ≡ problem.now }
    requires plan { IsFoundBeside graph.old base.plan }
    ensures beside { IsBeside graph.old graph.new }
    ensures plan { IfOk result (λ best. IsFoundBeside graph.old best.plan) }
{
    for _ in 0..climb.nodes {
        if climb.is_over(base.cost) {
            return Ok(base);
        }
        try_region(alloc, problem, graph, adviser, &mut base, &mut climb)?;
    }
    Ok(base)
}

/// The best plan that is found near one of the edition of a graph, in so many nodes, by the draws
/// of a number. A region of trains is taken out of the best plan so far again and again, all but a
/// few of them are put in again in their order, and the best way to put in those few is looked for.
/// Nothing is claimed of how good it is.
pub(crate) fn improved(
    alloc: Global,
    problem: &Problem,
    graph: &mut Graph,
    adviser: &mut Adviser,
    base: Base,
    draws: u32,
    nodes: u32,
) -> Result<Base, Memory>
    requires problem { graph.old.problem ≡ problem.now }
    requires plan { IsFoundBeside graph.old base.plan }
    ensures beside { IsBeside graph.old graph.new }
    ensures plan { IfOk result (λ best. IsFoundBeside graph.old best.plan) }
{
    rewind(graph, 0);
    let climb = Climb {
        draw: Draw::numbered(draws),
        floor: cost(problem, graph),
        nodes,
        vain: 0,
        round_nodes: ROUND_NODES,
        cut_off: 0,
    };
    climbed(alloc, problem, graph, adviser, base, climb)
}
