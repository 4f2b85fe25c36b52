//! What the searchers of a board share, and what each has for itself.
ghost use Rattle.std.specs.Prelude.{◌≡◌, All, IfOk, length};
ghost use Rattle.incumbent_cell.specs.Cell.{cell_of, own_cell};
ghost use Rattle.search_crew.specs.Crews.{IsHandOf, IsSameHand};

use crate::scripts::Handed;
use crossbeam_deque::{Steal, Stealer, Worker};
use disp_model::{Memory, Problem, Rule, Settings};
use incumbent_cell::{CellPass, Least};
use open_nodes::Work;
use search_workers::{Effort, FOR_PLAN, Lookout};
use std::alloc::Global;

/// How many works a searcher has room for.
const ROOM: usize = 8;

/// How many branches a searcher asks for at a time to find a plan where others share the tree, at
/// least: the fewest for which the core goes on in depth.
const SHARED_FOR_PLAN: u32 = 32;

/// How many it asks for where changes may come, at most.
const PROMPT_FOR_PLAN: u32 = 1024;

/// How many times a searcher asks for branches before its part of the budget is spent, at least.
const SHARES: u32 = 8;

/// What the searchers of a board share: whence they steal works, whence they have scripts, and the
/// least cost that was published.
#[derive(Drop)]
pub struct Crew {
    pub(crate) least: Least,
    pub(crate) offers: Vec<Offer>,
    budget: u32,
    pace: Pace,
}

/// What a searcher has for the others: works to steal, and scripts.
#[derive(Drop)]
pub(crate) struct Offer {
    works: Stealer<Work>,
    pub scripts: Stealer<Handed>,
}

/// What one searcher of a crew has for itself: its place in the crew, its pass to the least cost,
/// what it has done, its works, of which others can steal, and scripts for the others.
#[derive(Drop)]
pub struct Hand {
    pub(crate) place: u32,
    pub(crate) cell: CellPass,
    pub(crate) effort: Effort,
    /// The order of trains of its last target.
    pub(crate) order: Vec<u32>,
    works: Worker<Work>,
    pub(crate) scripts: Worker<Handed>,
}

/// Whether changes may come while a crew searches.
#[derive(Clone, Copy, Debug, PartialEq, Eq)]
pub enum Pace {
    /// The problem stays as it is.
    Steady,
    /// Changes may come at any time, so no searcher is away for long.
    Prompt,
}

/// How many branches a searcher of so many asks for at a time to find a plan, of a budget.
fn for_plan(count: u32, budget: u32, pace: Pace) -> u32 {
    let most = match pace {
        Pace::Steady => FOR_PLAN,
        Pace::Prompt => PROMPT_FOR_PLAN,
    };
    if count > 1 {
        (budget / count / SHARES).max(SHARED_FOR_PLAN).min(most)
    } else {
        most
    }
}

/// A hand at a place of so many, with a pass that is split off from the first one to the least
/// cost, and what it has for the others. Fails for memory alone.
fn hand_at(
    alloc: Global,
    place: u32,
    count: u32,
    least: &Least,
    first: &mut CellPass,
    effort: Effort,
) -> Result<(Hand, Offer), Memory>
    requires { own_cell first.old ≡ cell_of least.now }
    ensures first { own_cell first.new ≡ cell_of least.now }
    ensures hand { IfOk result (λ made. own_cell made.0.cell ≡ cell_of least.now) }
{
    let works = Worker::new_fifo(alloc, ROOM)?;
    let scripts = Worker::new_fifo(alloc, count as usize)?;
    let offer = Offer {
        works: works.stealer()?,
        scripts: scripts.stealer()?,
    };
    let hand = Hand {
        place,
        cell: least.split(first),
        effort,
        order: Vec::new(alloc),
        works,
        scripts,
    };
    Ok((hand, offer))
}

/// A crew of so many searchers that share a budget, with a hand for each.
///
/// # Errors
///
/// `Memory` where memory runs out.
pub fn crew_of(
    alloc: Global,
    count: u32,
    budget: u32,
    pace: Pace,
) -> Result<(Crew, Vec<Hand>), Memory>
    ensures count { IfOk result (λ made. length made.1.items ≡ count) }
    ensures hands { IfOk result (λ made. All (IsHandOf made.0) made.1.items) }
{
    let (least, mut first) = Least::new(alloc)?;
    let mut offers = Vec::with_capacity(alloc, count as usize)?;
    let mut hands = Vec::with_capacity(alloc, count as usize)?;
    for place in 0..count {
        let effort = Effort::new(for_plan(count, budget, pace));
        let (hand, offer) = hand_at(alloc, place, count, &least, &mut first, effort)?;
        offers.push(offer)?;
        hands.push(hand)?;
    }
    let crew = Crew {
        least,
        offers,
        budget,
        pace,
    };
    Ok((crew, hands))
}

impl Crew {
    /// Whether there are others to steal from a searcher.
    pub(crate) fn shares(&self) -> bool {
        self.offers.len() > 1
    }

    /// How many searchers there are beside one.
    pub(crate) fn others(&self) -> usize {
        self.offers.len().saturating_sub(1)
    }

    /// When the searcher at a place looks for better plans by a rule.
    pub(crate) fn lookout(&self, problem: &Problem, place: u32, rule: Rule) -> Lookout {
        let count = u32::try_from(self.offers.len()).unwrap_or(u32::MAX);
        let settings = Settings {
            budget: self.budget,
            rule,
        };
        match self.pace {
            Pace::Steady => Lookout::steady(problem, place, count, settings),
            Pace::Prompt => Lookout::prompt(problem, place, self.budget),
        }
    }

    /// A work of some searcher.
    fn steal(&self) -> Option<Work> {
        for offer in self.offers.iter() {
            if let Steal::Success(work) = offer.works.steal() {
                return Some(work);
            }
        }
        None
    }
}

impl Hand {
    /// A work of its own.
    pub(crate) fn take(&mut self) -> Option<Work>
        ensures { IsSameHand self.old self.new }
    {
        self.works.pop()
    }

    /// A work of its own, or else one of another searcher.
    pub(crate) fn take_or_steal(&mut self, crew: &Crew) -> Option<Work>
        ensures { IsSameHand self.old self.new }
    {
        match self.take() {
            Some(work) => Some(work),
            None => crew.steal(),
        }
    }

    /// Keeps a work, which others can steal. Gives it back where there is no room.
    pub(crate) fn keep(&mut self, work: Work) -> Result<(), Work>
        ensures { IsSameHand self.old self.new }
    {
        self.works.push(work)
    }
}
