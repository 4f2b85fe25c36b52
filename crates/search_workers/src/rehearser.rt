ghost use Rattle.std.specs.Prelude.{◌≡◌, IfOk};
ghost use Rattle.tree_dives.specs.Guides.{GuidesIn};

use disp_model::{Fixing, Memory, Problem};
use rehearsals::Lessons;
use std::alloc::Global;
use tree_dives::Guide;

/// The lesser of two costs, as far as they are known.
fn lesser(one: Option<u64>, other: Option<u64>) -> Option<u64> {
    match (one, other) {
        (Some(cost), Some(least)) => Some(cost.min(least)),
        (None, cost) => cost,
        (cost, None) => cost,
    }
}

/// What rehearsals of the search of an edition go by.
#[derive(Drop)]
pub(crate) struct Rehearser {
    pub guide: Guide,
    /// The fixings of the edition.
    pub fixings: Vec<Fixing>,
    /// What rehearsals from the root learned, as long as none came to its end and more may come,
    pub lessons: Option<Lessons>,
    /// and what the best plan costs that was found by them and between them, if one was.
    pub best: Option<u64>,
}

impl Rehearser {
    /// For rehearsals of the search of an edition with these fixings. Fails for memory alone.
    pub(crate) fn new(
        alloc: Global,
        problem: &Problem,
        fixings: &[Fixing],
    ) -> Result<Rehearser, Memory>
        ensures { IfOk result (λ rehearser. GuidesIn problem.now rehearser.guide) }
    {
        let fixings = Vec::from_slice(alloc, fixings)?;
        let guide = Guide::for_rehearsals(alloc, problem)?;
        let lessons = Lessons::new(alloc, &[])?;
        Ok(Rehearser {
            guide,
            fixings,
            lessons: Some(lessons),
            best: None,
        })
    }

    /// Has rehearsals look for plans that cost less than this, if it is a cost.
    pub(crate) fn note_cost(&mut self, cost: Option<u64>)
        ensures { self.new.guide ≡ self.old.guide }
    {
        self.best = lesser(self.best, cost);
    }
}
