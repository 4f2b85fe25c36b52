ghost use Rattle.std.specs.Prelude.{◌≡◌, IfOk, IfSome};
ghost use Rattle.disp_model.specs.Node.{Node};
ghost use Rattle.event_graph.specs.Joined.{IsOfEdition};
ghost use Rattle.near_plans.specs.Plans.{IsBeside, IsFoundBeside, IsPlanAt};
ghost use Rattle.node_leaves.specs.Reckoned.{ReckonsFor};
ghost use Rattle.share_bound.specs.Known.{HoldFor};
ghost use Rattle.tree_dives.specs.Guides.{GuidesIn};

use crate::lessons::Lessons;
use crate::state::Rehearsal;
use disp_model::{Fixing, Memory, Plan, Problem};
use event_graph::Graph;
use node_leaves::Reckoning;
use share_bound::KnownShares;
use std::alloc::Global;
use train_insertion::Target;
use tree_dives::{Guide, Script, rewind_knowing};

/// Where a script has more branches than these the search is rehearsed once more, along it,
const MANY_BRANCHES: usize = 32_768;

/// over as many nodes as it has branches, and no more than so many times as many as before.
const TIMES: u32 = 2;

/// What a rehearsal goes by, and how far.
#[derive(Clone, Copy)]
pub struct Trial<'a> {
    /// The fixings of the graph.
    pub fixings: &'a [Fixing],
    /// What is followed first at each node.
    pub target: &'a Target,
    /// Plans are to cost less than this, if it is known.
    pub best: Option<u64>,
    /// At how many nodes to look, at most.
    pub nodes: u32,
}

/// What a rehearsal came to.
#[derive(Drop)]
pub struct Rehearsed {
    /// The best plan that was found, if one was that costs less than what was known.
    pub plan: Option<Plan>,
    /// What the best plan costs, of those that were found and were known, if there is one.
    pub best: Option<u64>,
    pub ending: Ending,
}

/// How a rehearsal ended.
#[derive(Drop)]
pub enum Ending {
    /// There is no better plan: this is what to branch on to show it.
    Closed(Script),
    /// It came to no end, and learned this.
    Open(Lessons),
}

/// What a rehearsal came to where it ended.
fn outcome_of(rehearsal: Rehearsal) -> Rehearsed
    ensures { (root : Node) → IsOfEdition root → IfSome rehearsal.entry.plan (IsFoundBeside root)
        → IfSome result.plan (IsPlanAt root) }
{
    let Rehearsal {
        learned,
        course,
        plan,
        best,
        closed,
        ..
    } = rehearsal;
    let ending = if closed {
        Ending::Closed(learned.script)
    } else {
        Ending::Open(Lessons {
            learned,
            course: Some(course),
        })
    };
    Rehearsed { plan, best, ending }
}

/// Goes through the tree below a node by a trial. It goes on where the lessons came to, or begins at
/// the node of the graph. The graph is moved.
fn go_through(
    alloc: Global,
    problem: &Problem,
    reckoning: &Reckoning,
    graph: &mut Graph,
    known: &mut KnownShares,
    guide: &mut Guide,
    lessons: Lessons,
    trial: Trial,
) -> Result<Rehearsed, Memory>
    requires node { graph.old.problem ≡ problem.now }
    requires reckons { ReckonsFor problem.now reckoning.now }
    requires known { HoldFor graph.old known.old }
    requires guide { GuidesIn problem.now guide.old }
    ensures beside { IsBeside graph.old graph.new }
    ensures known { HoldFor graph.new known.new }
    ensures guide { GuidesIn problem.now guide.new }
    ensures plan { IsOfEdition graph.old
        → IfOk result (λ rehearsed. IfSome rehearsed.plan (IsPlanAt graph.old)) }
{
    guide.begin_behind(0);
    let mut nodes = trial.nodes;
    let goes_on = lessons.course.is_some();
    let mut rehearsal = Rehearsal::new(alloc, problem, graph, lessons, trial)?;
    if !goes_on {
        rehearsal.look(alloc, problem, reckoning, graph, known, guide)?;
        nodes = nodes.saturating_sub(1);
    }
    for _ in 0..nodes {
        let Some(next) = rehearsal.next() else {
            return Ok(outcome_of(rehearsal));
        };
        rehearsal.step(alloc, problem, reckoning, graph, known, guide, next)?;
    }
    Ok(outcome_of(rehearsal))
}

/// A script of fewer branches for the node behind so many decisions, where there is one for a
/// script of very many: the search is rehearsed along it, without nogoods. The graph is moved.
fn shortened(
    alloc: Global,
    problem: &Problem,
    reckoning: &Reckoning,
    graph: &mut Graph,
    known: &mut KnownShares,
    guide: &mut Guide,
    depth: usize,
    script: Script,
    trial: Trial,
) -> Result<Script, Memory>
    requires node { graph.old.problem ≡ problem.now }
    requires reckons { ReckonsFor problem.now reckoning.now }
    requires known { HoldFor graph.old known.old }
    requires guide { GuidesIn problem.now guide.old }
    ensures beside { IsBeside graph.old graph.new }
    ensures known { HoldFor graph.new known.new }
    ensures guide { GuidesIn problem.now guide.new }
{
    let branches = script.branches();
    if branches <= MANY_BRANCHES {
        return Ok(script);
    }
    let depth = depth.min(graph.decisions().len());
    rewind_knowing(graph, known, depth);
    let lessons = Lessons::without_nogoods(alloc, graph.decisions())?;
    let nodes = u32::try_from(branches).unwrap_or(u32::MAX);
    let trial = Trial {
        nodes: nodes.min(trial.nodes.saturating_mul(TIMES)),
        ..trial
    };
    guide.follow(script)?;
    let rehearsed = go_through(
        alloc, problem, reckoning, graph, known, guide, lessons, trial,
    )?;
    match (rehearsed.ending, guide.leave()) {
        (Ending::Closed(shorter), _) => Ok(shorter),
        (Ending::Open(_), Some(script)) => Ok(script),
        (Ending::Open(_), None) => Script::new(alloc, graph.decisions()),
    }
}

/// Rehearses the search below a node by a trial, with what rehearsals from that node learned before
/// it, for plans that cost no less. It goes on where the last of them came to, unless it is to
/// begin anew; the graph is at the node to which the way of the lessons leads. A plan that is found
/// is valid; nothing is claimed of how good it is, or of the script. The graph is moved.
///
/// # Errors
///
/// `Memory` where memory runs out.
pub fn rehearse(
    alloc: Global,
    problem: &Problem,
    reckoning: &Reckoning,
    graph: &mut Graph,
    known: &mut KnownShares,
    guide: &mut Guide,
    lessons: Lessons,
    trial: Trial,
) -> Result<Rehearsed, Memory>
    requires node { graph.old.problem ≡ problem.now }
    requires edition { IsOfEdition graph.old }
    requires reckons { ReckonsFor problem.now reckoning.now }
    requires known { HoldFor graph.old known.old }
    requires guide { GuidesIn problem.now guide.old }
    ensures beside { IsBeside graph.old graph.new }
    ensures known { HoldFor graph.new known.new }
    ensures guide { GuidesIn problem.now guide.new }
    ensures plan { IfOk result (λ rehearsed. IfSome rehearsed.plan (IsPlanAt graph.old)) }
{
    let depth = graph.decisions().len().saturating_sub(lessons.way().len());
    let Rehearsed { plan, best, ending } = go_through(
        alloc, problem, reckoning, graph, known, guide, lessons, trial,
    )?;
    let script = match ending {
        Ending::Closed(script) => script,
        open => {
            return Ok(Rehearsed {
                plan,
                best,
                ending: open,
            });
        }
    };
    let trial = Trial { best, ..trial };
    let script = shortened(
        alloc, problem, reckoning, graph, known, guide, depth, script, trial,
    )?;
    Ok(Rehearsed {
        plan,
        best,
        ending: Ending::Closed(script),
    })
}
