ghost use Rattle.std.specs.Prelude.{◌≡◌, ◌<◌, IfOk, IfSome, All, length};
ghost use Rattle.disp_model.specs.Routes.{AgreesWithFixing, AgreesWithDecision};
ghost use Rattle.route_sets.specs.Asks.{joined, differ, demand_of_fixing, demand_of_decision, MeetsAsk, TakesAsks, AreAsks};

use disp_model::{Decision, Fixing, Memory};
use std::alloc::Global;

/// What is asked of an operation of the train.
#[derive(Clone, Copy)]
pub(crate) struct Ask {
    /// The route has it.
    pub wanted: bool,
    /// The route does not have it.
    pub skipped: bool,
    /// Where the route has it, it goes on to this operation.
    pub next: Option<u64>,
}

/// What a fixing or a decision asks of one operation of the train.
#[derive(Clone, Copy)]
struct Demand {
    op: u64,
    ask: Ask,
}

/// Nothing is asked.
const FREE: Ask = Ask {
    wanted: false,
    skipped: false,
    next: None,
};

/// No route does what is asked.
const IMPOSSIBLE: Ask = Ask {
    wanted: true,
    skipped: true,
    next: None,
};

/// Whether two operations to go on to are not the same.
fn differ(next: Option<u64>, other: Option<u64>) -> bool
    ensures { result ≡ differ next other }
{
    match (next, other) {
        (Some(next), Some(other)) => next != other,
        _ => false,
    }
}

/// What two asks of the same operation ask together.
fn joined(ask: Ask, more: Ask) -> Ask
    ensures { result ≡ joined ask more }
{
    Ask {
        wanted: ask.wanted || more.wanted,
        skipped: ask.skipped || more.skipped || differ(ask.next, more.next),
        next: ask.next.or(more.next),
    }
}

/// Whether the operation is on the train's route, and what follows it, where the fixing is of the
/// train.
fn demand_of_fixing(train: u32, fixing: &Fixing) -> Demand
    ensures { result ≡ demand_of_fixing train fixing.now }
{
    let (at_train, op, next) = match *fixing {
        Fixing::Started {
            at_train,
            at_op,
            ..
        } => (at_train, at_op, None),
        Fixing::Chosen {
            at_train,
            at_op,
            next,
        } => (at_train, at_op, Some(next)),
        Fixing::NotBefore { .. } => return Demand { op: 0, ask: FREE },
    };
    if at_train != u64::from(train) {
        return Demand { op: 0, ask: FREE };
    }
    Demand {
        op,
        ask: Ask {
            wanted: true,
            skipped: false,
            next,
        },
    }
}

/// What a decision asks, where it is of the train.
fn demand_of_decision(train: u32, decision: &Decision) -> Demand
    ensures { result ≡ demand_of_decision train decision.now }
{
    let (op, ask) = match *decision {
        Decision::Go { op, next } => (
            op,
            Ask {
                wanted: false,
                skipped: false,
                next: Some(u64::from(next)),
            },
        ),
        Decision::First { .. } => return Demand { op: 0, ask: FREE },
        Decision::Run(op) => (
            op,
            Ask {
                wanted: true,
                skipped: false,
                next: None,
            },
        ),
        Decision::Skip(op) => (
            op,
            Ask {
                wanted: false,
                skipped: true,
                next: None,
            },
        ),
    };
    if op.train != train {
        return Demand { op: 0, ask: FREE };
    }
    Demand {
        op: u64::from(op.op),
        ask,
    }
}

/// Adds a demand. No route has an operation that is not there; then the first operation is asked
/// what no route can do.
fn add(asks: &mut Vec<Ask>, demand: Demand)
    requires { 0 < length asks.old.items }
    ensures { TakesAsks (λ route. MeetsAsk route demand.op demand.ask)
        asks.old.items asks.new.items }
{
    let at = demand.op as usize;
    if at < asks.len() {
        asks[at] = joined(asks[at], demand.ask);
    } else if demand.ask.wanted {
        asks[0] = IMPOSSIBLE;
    }
}

/// Adds what the fixings of the train ask.
fn add_fixings(asks: &mut Vec<Ask>, train: u32, fixings: &[Fixing])
    requires { 0 < length asks.old.items }
    ensures { TakesAsks (λ route. All (AgreesWithFixing train route) fixings.now) asks.old.items
        asks.new.items }
{
    for fixing in fixings {
        add(asks, demand_of_fixing(train, fixing));
    }
}

/// Adds what the decisions of the train ask.
fn add_decisions(asks: &mut Vec<Ask>, train: u32, decisions: &[Decision])
    requires { 0 < length asks.old.items }
    ensures { TakesAsks (λ route. All (AgreesWithDecision train route) decisions.now) asks.old.items
        asks.new.items }
{
    for decision in decisions {
        add(asks, demand_of_decision(train, decision));
    }
}

/// What the fixings and the decisions ask of each of so many operations of the train.
pub(crate) fn asks_of(
    alloc: Global,
    count: usize,
    train: u32,
    fixings: &[Fixing],
    decisions: &[Decision],
) -> Result<Vec<Ask>, Memory>
    requires { 0 < count }
    ensures { IfOk result (λ asks. AreAsks count train fixings.now decisions.now asks.items) }
{
    let mut asks = vec![in alloc; FREE; count]?;
    add_fixings(&mut asks, train, fixings);
    add_decisions(&mut asks, train, decisions);
    Ok(asks)
}
