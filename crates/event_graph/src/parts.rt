ghost use Rattle.std.specs.Prelude.{◌≡◌};
ghost use Rattle.disp_model.specs.declared.problem.Problem.{Problem as ProblemOf};
ghost use Rattle.event_graph.specs.States.{restored_state, MayRestore};
ghost use Rattle.event_graph.specs.Kept.{state_of};
ghost use Rattle.event_graph.specs.Known.{KeepsOwnRoutes, AreByOwn};

use crate::changes::Change;
use crate::known::{Known, KnownRoutes};
use crate::orders::Orders;
use event_arcs::{Own, Placed};
use std::mem;
use timed_paths::TimedPaths;

/// What is kept of a node that decisions change.
#[derive(Drop)]
pub(crate) struct Parts {
    /// The fixings and the decisions of each train.
    pub owns: Vec<Own>,
    /// The routes of each train, and the number of its first operation.
    pub each: Vec<Placed>,
    pub orders: Orders,
    pub paths: TimedPaths,
    /// Routes that were made before.
    pub known: KnownRoutes,
}

/// Puts back what a change has replaced, and keeps routes that are not in use then.
pub(crate) fn restore(parts: &mut Parts, change: Change)
    requires { MayRestore change (state_of parts.old) }
    ensures lowers { parts.new.paths.lowers ≡ parts.old.paths.lowers }
    ensures uppers { parts.new.paths.uppers ≡ parts.old.paths.uppers }
    ensures size { parts.new.orders.size ≡ parts.old.orders.size }
    ensures state { state_of parts.new ≡ restored_state change (state_of parts.old) }
    ensures known { (problem : ProblemOf) → KeepsOwnRoutes problem parts.old.known
        → AreByOwn problem (state_of parts.old) → KeepsOwnRoutes problem parts.new.known }
{
    match change {
        Change::Nothing => {}
        Change::Order { arcs } => {
            parts.paths.withdraw(arcs);
            parts.orders.pop();
        }
        Change::Train {
            train,
            own,
            placed,
            arcs,
        } => {
            parts.paths.withdraw(arcs);
            let own = mem::replace(&mut parts.owns[train], own);
            let Placed { routes, .. } = mem::replace(&mut parts.each[train], placed);
            parts.known.keep(Known { train, own, routes });
        }
    }
}
