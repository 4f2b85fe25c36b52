ghost use Rattle.std.specs.Prelude.{◌≡◌, ◌↔◌, ℕ, IsTrue, IfOk, [], ◌∷◌, false, length, replicate};
ghost use Rattle.open_nodes.specs.States.{one_open_leaf};
ghost use Rattle.dispatch_core.specs.Replies.{open_feed_count};

use crate::flags::{flags, none_open};
use disp_model::{Entry, List, Mark, Memory, Problem, Settings};
use fixing_editions::Editions;
use open_nodes::Nodes;
use std::alloc::Global;
use std::marker::Model;

/// The history of a run, the tree that it grew, and which feeds have ended and which searchers have
/// left.
#[derive(Drop)]
pub struct Core {
    pub(crate) editions: Editions,
    pub(crate) settings: Settings,
    pub(crate) history: Vec<Entry>,
    pub(crate) nodes: Nodes,
    pub(crate) ended: Vec<bool>,
    pub(crate) left: Vec<bool>,
    /// The cost of the last published plan, where it is valid for the newest edition.
    pub(crate) best: Option<u64>,
    /// The mark of the newest edition.
    pub(crate) mark: Mark,
    /// How many branchings are spent on the newest edition.
    pub(crate) spent: u32,
    /// The place of the entry that published the last plan.
    pub(crate) last: Option<usize>,
}

impl Model for Core {
    ghost use Rattle.dispatch_core.specs.States.{Core as State, IsSound};
    ghost use Rattle.dispatch_core.specs.Kept.{AreCountsKept};

    ghost Value = { State };

    ghost view = { λ c. record {
      problem = c.editions.problem;
      settings = c.settings;
      history = c.history.items;
      nodes = c.nodes;
      ended = c.ended.items;
      left = c.left.items;
    } };

    ghost invariant = { λ c. AreCountsKept (record {
      problem = c.editions.problem;
      settings = c.settings;
      history = c.history.items;
      nodes = c.nodes;
      ended = c.ended.items;
      left = c.left.items;
    }) c.editions c.best c.mark c.spent c.last × IsSound (record {
      problem = c.editions.problem;
      settings = c.settings;
      history = c.history.items;
      nodes = c.nodes;
      ended = c.ended.items;
      left = c.left.items;
    }) };
}

impl Core {
    ghost use Rattle.dispatch_core.specs.States.{IsSound};

    /// A run of a problem without entries, whose tree is one leaf with the bound 0.
    ///
    /// # Errors
    ///
    /// `Memory` where memory runs out.
    pub fn new(
        alloc: Global,
        problem: &Problem,
        settings: Settings,
        feeds: u32,
        searchers: u32,
    ) -> Result<Core, Memory>
        ensures { IfOk result (λ core. core ≡ record {
          problem = problem.now;
          settings = settings;
          history = [];
          nodes = one_open_leaf;
          ended = replicate feeds false;
          left = replicate searchers false;
        }) }
    {
        Ok(Core {
            editions: Editions::new(alloc, problem)?,
            settings,
            history: Vec::new(alloc),
            nodes: Nodes::new(alloc)?,
            ended: flags(alloc, feeds)?,
            left: flags(alloc, searchers)?,
            best: None,
            mark: Mark::Working,
            spent: 0,
            last: None,
        })
    }

    /// The problem.
    pub fn problem(&self) -> &Problem
        ensures { result.now ≡ self.now.problem }
    {
        self.editions.problem()
    }

    /// The entries so far. They are a legal history; what else holds of the run.
    pub fn history(&self) -> &[Entry]
        ensures all { result.now ≡ self.now.history }
        ensures sound { IsSound self.now }
    {
        self.history.as_slice()
    }

    /// Whether all feeds have ended and all searchers have left.
    pub fn ended(&self) -> bool
        ensures { IsTrue result ↔ ((open_feed_count self.now.ended ≡ 0)
            × (open_feed_count self.now.left ≡ 0)) }
    {
        none_open(self.ended.as_slice()) && none_open(self.left.as_slice())
    }

    /// The entries, which takes no memory.
    pub fn into_history(self) -> Vec<Entry>
        ensures { result.items ≡ self.history }
    {
        let Core { history, .. } = self;
        history
    }
}
