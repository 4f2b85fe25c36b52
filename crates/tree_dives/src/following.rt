ghost use Rattle.std.specs.Prelude.{◌≡◌, IfSome, Some};
ghost use Rattle.disp_model.specs.declared.settings.Rule.TheVariants.{Free};
ghost use Rattle.disp_model.specs.Earliest.{IsPicked};

use crate::script::Script;
use disp_model::{Choice, Decision, Op, Problem};
use event_graph::Graph;
use first_overlaps::span_of;
use free_choices::pick_said;

/// At so many branches of a script, at most, is looked for one of which the choice is open.
const MOST_PASSED: u32 = 16;

/// A script that is followed to the node of a graph.
#[derive(Clone, Copy)]
struct Following<'a> {
    problem: &'a Problem,
    graph: &'a Graph<'a>,
    script: &'a Script,
}

/// How a train goes on from an operation, where its routes agree.
fn held_way(problem: &Problem, graph: &Graph, op: Op) -> Option<Decision>
    requires { graph.now.problem ≡ problem.now }
{
    if op.train as usize >= problem.trains.len() {
        return None;
    }
    let next = graph.routes(op.train).only_next(op.op)?;
    Some(Decision::Go { op, next })
}

/// Whether an operation is run, where the routes of its train agree.
fn held_run(problem: &Problem, graph: &Graph, op: Op) -> Option<Decision>
    requires { graph.now.problem ≡ problem.now }
{
    if op.train as usize >= problem.trains.len() {
        return None;
    }
    let routes = graph.routes(op.train);
    if routes.forced(op.op) {
        return Some(Decision::Run(op));
    }
    if routes.may_have(op.op) {
        return None;
    }
    Some(Decision::Skip(op))
}

/// Which of two operations comes first where each starts as early as it may.
fn held_order(problem: &Problem, graph: &Graph, a: Op, b: Op) -> Option<Decision>
    requires { graph.now.problem ≡ problem.now }
{
    let first = span_of(problem, graph, a)?;
    let second = span_of(problem, graph, b)?;
    if (first.start, first.end) < (second.start, second.end) {
        return Some(Decision::First { a, b });
    }
    if (second.start, second.end) < (first.start, first.end) {
        return Some(Decision::First { a: b, b: a });
    }
    None
}

/// The decision of a choice that holds at the node of a graph though it was not taken, where the
/// choice is not open.
fn held(problem: &Problem, graph: &Graph, choice: Choice) -> Option<Decision>
    requires { graph.now.problem ≡ problem.now }
{
    match choice {
        Choice::Route(op) => held_way(problem, graph, op),
        Choice::Run(op) => held_run(problem, graph, op),
        Choice::Order(a, b) => held_order(problem, graph, a, b),
    }
}

impl<'a> Following<'a> {
    /// The branch behind the one at a place, of which the choice is not open.
    fn passed(self, place: usize) -> Option<usize>
        requires { self.graph.now.problem ≡ self.problem.now }
    {
        let choice = self.script.choice(place)?;
        self.script
            .passed(place, held(self.problem, self.graph, choice))
    }

    /// The first branch from the one at a place on that decides what a decision does.
    fn deciding(self, place: usize, decision: Decision) -> Option<usize>
        requires { self.graph.now.problem ≡ self.problem.now }
    {
        let mut place = place;
        for _ in 0..self.script.len() {
            if self.script.decides(place, decision) {
                return Some(place);
            }
            place = self.passed(place)?;
        }
        None
    }

    /// The branch to which a decision leads from the one at a place. Branches that decide something
    /// else were passed, since their choices were not open.
    fn step(self, place: usize, decision: Decision) -> Option<usize>
        requires { self.graph.now.problem ≡ self.problem.now }
    {
        let deciding = self.deciding(place, decision)?;
        self.script.behind(deciding, decision)
    }

    /// Where the branch of the node stands, if the script says something of it.
    fn place(self) -> Option<usize>
        requires { self.graph.now.problem ≡ self.problem.now }
    {
        let mut place = self.script.first()?;
        for decision in self.script.below(self.graph.decisions())? {
            place = self.step(place, *decision)?;
        }
        Some(place)
    }

    /// The first choice that is open at the node, from the branch at a place on, where something is
    /// to be picked.
    fn open_from(self, place: usize) -> Option<Choice>
        requires { self.graph.now.problem ≡ self.problem.now }
        ensures { IfSome result (λ choice. IsPicked self.entry.graph.now Free (Some choice)) }
    {
        let mut place = place;
        for _ in 0..MOST_PASSED {
            let choice = self.script.choice(place)?;
            if let Some(choice) = pick_said(self.problem, self.graph, choice) {
                return Some(choice);
            }
            place = self.passed(place)?;
        }
        None
    }

    /// The first choice that is open at the node, from the branch at a place on, before the one
    /// that decides what a decision does.
    fn open_before(self, place: usize, decision: Decision) -> Option<Choice>
        requires { self.graph.now.problem ≡ self.problem.now }
        ensures { IfSome result (λ choice. IsPicked self.entry.graph.now Free (Some choice)) }
    {
        let mut place = place;
        for _ in 0..self.script.len() {
            if self.script.decides(place, decision) {
                return None;
            }
            let choice = self.script.choice(place)?;
            if let Some(choice) = pick_said(self.problem, self.graph, choice) {
                return Some(choice);
            }
            place = self.passed(place)?;
        }
        None
    }

    /// The first choice that was passed on the way to the node and is open there: what was decided
    /// since has moved its operations.
    fn reopened(self) -> Option<Choice>
        requires { self.graph.now.problem ≡ self.problem.now }
        ensures { IfSome result (λ choice. IsPicked self.entry.graph.now Free (Some choice)) }
    {
        let mut place = self.script.first()?;
        for decision in self.script.below(self.graph.decisions())? {
            if let Some(choice) = self.open_before(place, *decision) {
                return Some(choice);
            }
            place = self.step(place, *decision)?;
        }
        None
    }

    /// The choice that the script says at the node, where it says one that is open and something is
    /// to be picked.
    fn said(self) -> Option<Choice>
        requires { self.graph.now.problem ≡ self.problem.now }
        ensures { IfSome result (λ choice. IsPicked self.entry.graph.now Free (Some choice)) }
    {
        if let Some(place) = self.place() {
            if let Some(choice) = self.open_from(place) {
                return Some(choice);
            }
        }
        self.reopened()
    }
}

/// Whether a script says something of the node of a graph.
pub(crate) fn is_in<'a>(script: &'a Script, problem: &'a Problem, graph: &'a Graph<'a>) -> bool
    requires { graph.now.problem ≡ problem.now }
{
    let following = Following {
        problem,
        graph,
        script,
    };
    following.place().is_some()
}

/// The choice that a script says at the node of a graph, where it says one that is open and
/// something is to be picked.
pub(crate) fn said_by<'a>(
    script: &'a Script,
    problem: &'a Problem,
    graph: &'a Graph<'a>,
) -> Option<Choice>
    requires { graph.now.problem ≡ problem.now }
    ensures { IfSome result (λ choice. IsPicked graph.entry.now Free (Some choice)) }
{
    let following = Following {
        problem,
        graph,
        script,
    };
    following.said()
}
