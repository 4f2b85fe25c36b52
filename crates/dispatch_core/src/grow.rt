ghost use Rattle.std.specs.Prelude.{◌≡◌, ◌↔◌, ◌≤◌, ◌+◌, ◌==◌, IsTrue, length, IfOk, IfErr, OnErr, MatchOption, drop, if◌then◌else◌};
ghost use Rattle.open_nodes.specs.Grafts.{FillPlaces, GrowsBy};
ghost use Rattle.dispatch_core.specs.Asked.{IsGrowth};
ghost use Rattle.dispatch_core.specs.Remaining.{IsWithdrawal, AreFixingChanges, AreLeftOf, with_tree};
ghost use Rattle.dispatch_core.specs.Replies.{IsGrow};

use crate::event::CoreReply;
use crate::left::{Left, left_of};
use crate::machine::Core;
use crate::settling::standing;
use disp_model::{Change, Entry, List, Memory, Problem, Split};
use open_nodes::{Fragment, Growth, Nodes};
use std::alloc::Global;

/// Whether a change takes one back.
fn is_withdrawal(change: Change) -> bool
    ensures { IsTrue result ↔ IsWithdrawal change }
{
    match change {
        Change::Fix(_) => false,
        Change::Withdraw { .. } => true,
    }
}

/// Whether none of these changes takes one back.
fn are_fixings(changes: &[Change]) -> bool
    ensures { IsTrue result ↔ AreFixingChanges changes.now }
{
    changes.iter().all(|change| !is_withdrawal(*change))
}

/// The changes behind the first ones.
fn newer(changes: &[Change], count: u32) -> &[Change]
    ensures { result.now ≡ drop count changes.now }
{
    &changes[(count as usize).min(changes.len())..]
}

/// How many splits there are, no more than the budget.
fn count_of(splits: &List<Split>, budget: u32) -> u32
    requires { length splits.now ≤ budget }
    ensures { result ≡ length splits.now }
{
    splits.len() as u32
}

/// What is spent on the newest edition after so many splits of an edition.
fn spent_after(spent: u32, edition: u32, newest: u32, count: u32, budget: u32) -> u32
    requires { spent + (if edition == newest then count else 0) ≤ budget }
    ensures { result ≡ spent + (if edition == newest then count else 0) }
{
    if edition == newest {
        spent + count
    } else {
        spent
    }
}

/// Puts a fragment in the place of its leaf, or what is left of it.
fn graft(
    nodes: &mut Nodes,
    alloc: Global,
    problem: &Problem,
    fragment: Fragment,
    left: Option<Left>,
) -> Result<Growth, (Fragment, Memory)>
    requires { MatchOption left
        (FillPlaces problem.now 1 fragment.subtree fragment.bounds)
        (λ l. FillPlaces problem.now 1 l.nodes.items l.bounds.items) }
    ensures ok { IfOk result (λ growth. MatchOption left
        (GrowsBy problem.now nodes.old fragment growth nodes.new)
        (λ l. GrowsBy problem.now nodes.old (with_tree fragment l.nodes.items l.bounds.items)
        growth nodes.new)) }
    ensures back { IfErr result (λ no. no.0 ≡ fragment) }
    ensures err { OnErr result (nodes.new ≡ nodes.old) }
{
    let Some(
        Left {
            nodes: tree,
            bounds,
        },
    ) = left
    else {
        return nodes.grow(alloc, problem, fragment);
    };
    let Fragment {
        work,
        subtree,
        bounds: kept,
    } = fragment;
    let part = Fragment {
        work,
        subtree: List::from_vec(tree),
        bounds: List::from_vec(bounds),
    };
    match nodes.grow(alloc, problem, part) {
        Ok(growth) => Ok(growth),
        Err((part, memory)) => Err((
            Fragment {
                work: part.into_work(),
                subtree,
                bounds: kept,
            },
            memory,
        )),
    }
}

impl Core {
    /// Puts what a searcher grew in the place of its leaf. Of a fragment of an older edition, what
    /// does not hold for the newest is left out.
    pub(crate) fn grow(
        &mut self,
        alloc: Global,
        searcher: u32,
        fragment: Fragment,
    ) -> Result<CoreReply, (Fragment, Memory)>
        requires { IsGrowth self.old fragment }
        ensures ok { IfOk result (λ told. IsGrow self.old searcher fragment told self.new) }
        ensures back { IfErr result (λ no. no.0 ≡ fragment) }
        ensures err { OnErr result (self.new ≡ self.old) }
    {
        let newest = self.edition();
        let left = match self.left(alloc, &fragment) {
            Ok(left) => left,
            Err(memory) => return Err((fragment, memory)),
        };
        let Ok(()) = self.history.reserve(1) else {
            return Err((fragment, Memory));
        };
        let (edition, seen, node) = (
            fragment.work.edition,
            fragment.work.seen,
            fragment.work.node,
        );
        let problem = self.editions.problem();
        let growth = match graft(&mut self.nodes, alloc, problem, fragment, left) {
            Ok(growth) => growth,
            Err(no) => return Err(no),
        };
        match growth {
            Growth::Gone(node) => Ok(CoreReply::Gone(node)),
            Growth::Grown(splits) => {
                let budget = self.settings.budget;
                let count = count_of(&splits, budget);
                self.spent = spent_after(self.spent, edition, newest, count, budget);
                self.history.push_reserved(Entry::Grown {
                    searcher,
                    edition,
                    seen,
                    node,
                    splits,
                });
                Ok(CoreReply::Grown(count))
            }
        }
    }

    /// What is left of a fragment under the newest edition, none where all is: since its edition
    /// no change was taken back.
    fn left(&self, alloc: Global, fragment: &Fragment) -> Result<Option<Left>, Memory>
        requires { IsGrowth self.now fragment.now }
        ensures { IfOk result (λ left. MatchOption left
            (AreLeftOf self.now fragment.now fragment.now.subtree fragment.now.bounds)
            (λ l. AreLeftOf self.now fragment.now l.nodes.items l.bounds.items)) }
    {
        let changes = self.editions.changes();
        if are_fixings(newer(changes, fragment.work.edition)) {
            return Ok(None);
        }
        let fixings = standing(alloc, changes)?;
        let left = left_of(
            alloc,
            self.editions.problem(),
            fixings.as_slice(),
            &fragment.work.decisions,
            fragment.subtree.as_slice(),
            fragment.bounds.as_slice(),
        )?;
        Ok(Some(left))
    }
}
