ghost use Rattle.std.specs.Prelude.{◌≡◌};

use crate::frame::Frame;
use conflict_reasons::{Nogoods, Past, TriedRoutes};
use disp_model::{Decision, Fixing, Memory, Problem};
use event_graph::Graph;
use std::alloc::Global;
use tree_dives::Script;

/// A nogood with more branches than these is not kept: where it is met, a tree would have them once
/// more.
const MOST_BRANCHES: usize = 512;

/// How far a rehearsal has come.
#[derive(Drop)]
pub(crate) struct Course {
    /// The nodes that branch, from where it began to where it is.
    pub frames: Vec<Frame>,
    /// The decisions from there to there.
    pub past: Past,
    /// The routes that some of these allow.
    pub tried: TriedRoutes,
}

impl Course {
    /// Where a rehearsal begins at the node of a graph, which has these fixings. Fails for memory
    /// alone.
    pub(crate) fn new(
        alloc: Global,
        problem: &Problem,
        fixings: &[Fixing],
        graph: &Graph,
    ) -> Result<Course, Memory>
        requires { graph.now.problem ≡ problem.now }
    {
        Ok(Course {
            frames: Vec::new(alloc),
            past: Past::new(alloc, problem, fixings, graph)?,
            tried: TriedRoutes::new(alloc, problem.trains.len())?,
        })
    }

    /// The decisions that lead to the last node that branches.
    pub(crate) fn way(&self) -> &[Decision] {
        let depth = match self.frames.last() {
            Some(frame) => frame.depth(),
            None => 0,
        };
        let decisions = self.past.decisions();
        decisions.get(..depth).unwrap_or(decisions)
    }
}

/// Which decisions close a node together, and the branches that show it.
#[derive(Drop)]
pub(crate) struct Learned {
    pub nogoods: Nogoods,
    pub script: Script,
    /// A nogood with more branches than these is not kept.
    pub most: usize,
}

/// What rehearsals from a node learned, and how far the last of them came, if the next one is to go
/// on there.
#[derive(Drop)]
pub struct Lessons {
    pub(crate) learned: Learned,
    pub(crate) course: Option<Course>,
}

impl Lessons {
    /// Nothing yet, for rehearsals from the node of these decisions that keep nogoods with no more
    /// branches than these.
    fn up_to(alloc: Global, decisions: &[Decision], most: usize) -> Result<Lessons, Memory> {
        let learned = Learned {
            nogoods: Nogoods::new(alloc),
            script: Script::new(alloc, decisions)?,
            most,
        };
        Ok(Lessons {
            learned,
            course: None,
        })
    }

    /// Nothing yet, for rehearsals from the node of these decisions. Fails for memory alone.
    pub fn new(alloc: Global, decisions: &[Decision]) -> Result<Lessons, Memory> {
        Lessons::up_to(alloc, decisions, MOST_BRANCHES)
    }

    /// Nothing yet, for a rehearsal from the node of these decisions that keeps no nogoods, so that
    /// its script shows nothing twice. Fails for memory alone.
    pub(crate) fn without_nogoods(
        alloc: Global,
        decisions: &[Decision],
    ) -> Result<Lessons, Memory> {
        Lessons::up_to(alloc, decisions, 0)
    }

    /// Has the next rehearsal begin anew, and not go on where the last one came to.
    pub fn begin_anew(&mut self) {
        self.course = None;
        self.learned.nogoods.give_all_back();
    }

    /// Behind which decisions of the node from which the rehearsals are the next one begins.
    pub fn way(&self) -> &[Decision] {
        match &self.course {
            Some(course) => course.way(),
            None => &[],
        }
    }
}
