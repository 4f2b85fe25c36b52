ghost use Rattle.std.specs.Prelude.{IfOk, MatchOption};
ghost use Rattle.node_facts.specs.Orders.{AreKnown};
ghost use Rattle.tree_checker.specs.Rules.{KeepsAllRules, IsFirstRule};
ghost use Rattle.tree_checker.specs.KnownNodes.{node_here};

use crate::known::KnownNode;
use crate::rules::{keeps, rule_at};
use crate::why::Why;
use disp_model::{Leaf, Memory, Verdict};
use std::alloc::Global;

/// The first rule that a leaf breaks, whatever it costs.
pub(crate) fn first_rule(
    alloc: Global,
    here: KnownNode,
    verdict: Verdict,
    leaf: &Leaf,
) -> Result<Option<Why>, Memory>
    requires { AreKnown (node_here here) here.trains.now }
    ensures { IfOk result (λ found. MatchOption found
        (KeepsAllRules (node_here here.entry) verdict leaf.now)
        (IsFirstRule (node_here here.entry) verdict leaf.now)) }
{
    for place in 0..13 {
        let rule = rule_at(place);
        if !keeps(alloc, here, verdict, leaf, rule)? {
            return Ok(Some(rule));
        }
    }
    Ok(None)
}
