//! The board.
ghost use Rattle.turn_lock.specs.Section.{OwnsPlaces};
ghost use Rattle.turn_lock.specs.Known.{AreApart, StartsWith, IsLast, longer_of, shorter_of, first_known, given_known, with_given, joined_known};
ghost use Rattle.shared_board.specs.Board.{board_of, problem_of, own_board, known, fetched, lines};

use crate::pass::Pass;
use crate::stored::Stored;
use disp_model::{Copied, Memory, Problem, Settings};
use dispatch_core::Core;
use std::alloc::Global;
use turn_lock::Turn;

/// One core that feeds and searchers share.
#[derive(Drop)]
pub struct Board {
    pub(crate) turns: Turn<Stored>,
    pub(crate) problem: Problem,
}

impl Board {
    ghost use Rattle.std.specs.Prelude.{◌≡◌, ◌≤◌, ◌<◌, ℕ, true, IfOk, Contains, Some, length};
    ghost use Rattle.disp_model.specs.declared.limits.TheConstants.{MOST_CALLERS};
    ghost use Rattle.dispatch_core.specs.States.{IsSound};
    ghost use Rattle.shared_board.specs.Callers.{terms_of, caller_of};
    ghost use Rattle.shared_board.specs.Calls.{HasCaller};

    /// A board of a problem without entries, for at most 64 feeds and as many searchers, and the
    /// first pass, which is this caller's: that of the feeds together, by their number.
    ///
    /// # Errors
    ///
    /// `Memory` where memory runs out.
    pub fn new(
        alloc: Global,
        problem: &Problem,
        settings: Settings,
        feeds: u32,
        searchers: u32,
    ) -> Result<(Board, Pass), Memory>
        requires limits { (feeds ≤ MOST_CALLERS) × (searchers ≤ MOST_CALLERS) }
        ensures problem { IfOk result (λ made. problem_of made.0 ≡ problem.now) }
        ensures pass { IfOk result (λ made. (own_board made.1 ≡ board_of made.0)
            × (known made.1 ≡ first_known feeds (record {
              problem = problem.now;
              settings = settings;
              feeds = feeds;
              searchers = searchers;
            })) × (fetched made.1 ≡ 0) × (lines made.1 ≡ 0)) }
    {
        let core = Core::new(alloc, problem, settings, feeds, searchers)?;
        let problem = problem.copy()?;
        let (turns, turn) = Turn::new(alloc, Stored { core }, feeds)?;
        Ok((
            Board { turns, problem },
            Pass {
                turn,
                caller: feeds,
                fetched: 0,
                lines: 0,
            },
        ))
    }

    /// A pass for another caller, a feed or a searcher of the board, from the first pass. It begins
    /// with what this one has seen, and has fetched nothing.
    pub fn split(&self, pass: &mut Pass, caller: u32) -> Pass
        requires board { own_board pass.old ≡ board_of self.now }
        requires first { (known pass.old).first ≡ true }
        requires caller { HasCaller (known pass.old) caller }
        requires new_caller { (caller ≡ (known pass.old).caller → ⊥)
            × (Contains (known pass.old).given caller → ⊥) }
        ensures board { (own_board pass.new ≡ own_board pass.old)
            × (own_board result ≡ own_board pass.old) }
        ensures pass { (known pass.new ≡ with_given (known pass.old) caller)
            × (fetched pass.new ≡ fetched pass.old) × (lines pass.new ≡ lines pass.old) }
        ensures given { (known result ≡ given_known (known pass.old) caller)
            × (fetched result ≡ 0) × (lines result ≡ 0) }
    {
        let turn = self.turns.split(&mut pass.turn, caller);
        Pass {
            turn,
            caller,
            fetched: 0,
            lines: 0,
        }
    }

    /// Puts what a pass knows into the first pass, and ends it.
    pub fn join(&self, pass: &mut Pass, other: Pass)
        requires board { own_board pass.old ≡ board_of self.now }
        requires first { (known pass.old).first ≡ true }
        requires other_board { own_board other ≡ board_of self.now }
        ensures board { own_board pass.new ≡ own_board pass.old }
        ensures pass { (known pass.new ≡ joined_known (known pass.old) (known other))
            × (fetched pass.new ≡ fetched pass.old) × (lines pass.new ≡ lines pass.old) }
        ensures apart { AreApart (known pass.old).mine (known other).mine }
        ensures one { StartsWith (longer_of (known pass.old).seen (known other).seen)
            (shorter_of (known pass.old).seen (known other).seen) }
        ensures owns { OwnsPlaces caller_of (known pass.new) }
    {
        let Pass { turn, .. } = other;
        self.turns.join(&mut pass.turn, turn);
    }

    /// The problem. It takes no lock and no memory.
    pub fn problem(&self) -> &Problem
        ensures { result.now ≡ problem_of self.now }
    {
        &self.problem
    }

    /// Ends the board, and gives the core. Each other pass was joined.
    pub fn close(self, pass: Pass) -> Core
        requires board { own_board pass ≡ board_of self }
        requires last { IsLast (known pass) }
        ensures terms { (known pass).terms ≡ Some (terms_of result) }
        ensures sound { IsSound result }
        ensures seen { result.history ≡ (known pass).seen }
        ensures count { (known pass).count ≤ length result.history }
        ensures places { (place : ℕ) → place < length result.history
            → Contains (known pass).mine place }
    {
        let Board { turns, .. } = self;
        let Pass { turn, .. } = pass;
        let Stored { core } = turns.close(turn);
        core
    }
}
