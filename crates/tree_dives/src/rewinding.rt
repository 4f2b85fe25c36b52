ghost use Rattle.std.specs.Prelude.{◌≡◌, ◌<◌, ◌≤◌, length, take};
ghost use Rattle.disp_model.specs.Node.{node_at, with_decision};
ghost use Rattle.event_graph.specs.Graphs.{without_last_decision};
ghost use Rattle.share_bound.specs.Known.{HoldFor};

use disp_model::Decision;
use event_graph::Graph;
use share_bound::KnownShares;

/// Takes decisions back until so many are left.
pub fn rewind(graph: &mut Graph, depth: usize)
    requires { depth ≤ length graph.old.decisions }
    ensures { graph.new
        ≡ node_at graph.old.problem graph.old.fixings (take depth graph.old.decisions) }
{
    for _ in depth..graph.decisions().len() {
        graph.undo();
    }
}

/// The last decision.
fn last_of(graph: &Graph) -> Decision
    requires { 0 < length graph.now.decisions }
    ensures { graph.now ≡ with_decision (without_last_decision graph.now) result }
{
    let decisions = graph.decisions();
    decisions[decisions.len() - 1]
}

/// Takes the last decision back, and forgets the share of the train whose routes it is about.
fn go_up(graph: &mut Graph, known: &mut KnownShares)
    requires some { 0 < length graph.old.decisions }
    requires known { HoldFor graph.old known.old }
    ensures up { graph.new ≡ without_last_decision graph.old }
    ensures known { HoldFor graph.new known.new }
{
    let decision = last_of(graph);
    graph.undo();
    known.put_back(decision, None);
}

/// Takes decisions back until so many are left. What is known of shares holds there too then.
pub fn rewind_knowing(graph: &mut Graph, known: &mut KnownShares, depth: usize)
    requires depth { depth ≤ length graph.old.decisions }
    requires known { HoldFor graph.old known.old }
    ensures back { graph.new
        ≡ node_at graph.old.problem graph.old.fixings (take depth graph.old.decisions) }
    ensures known { HoldFor graph.new known.new }
{
    for _ in depth..graph.decisions().len() {
        go_up(graph, known);
    }
}
