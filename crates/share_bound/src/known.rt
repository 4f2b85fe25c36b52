ghost use Rattle.std.specs.Prelude.{ℕ, ◌≡◌, ◌<◌, ◌↔◌, All, IsTrue, IfOk, IfSome, OnOk, MatchOption};
ghost use Rattle.std.specs.Prelude.{Some, length, slice_get, slice_set};
ghost use Rattle.disp_model.specs.declared.settings.Rule.TheVariants.{Free};
ghost use Rattle.disp_model.specs.Node.{Node, with_decision};
ghost use Rattle.disp_model.specs.Valid.{train_at};
ghost use Rattle.disp_model.specs.Shares.{IsBound};
ghost use Rattle.event_arcs.specs.Owned.{train_of_decision};
ghost use Rattle.share_bound.specs.declared.known.KnownShare.{KnownShare as KnownShareOf};
ghost use Rattle.share_bound.specs.Bases.{AreBasesTo, IsShareWithin};
ghost use Rattle.problem_facts.specs.Components.{AreOwnOf};
ghost use Rattle.share_bound.specs.declared.known.TheConstants.{MOST_EARLIER};
ghost use Rattle.share_bound.specs.Known.{known_of, AreBasesOf, HoldsOver, HoldsFor, HoldFor};
ghost use Rattle.share_bound.specs.Known.{IsAboutNone, IsCurrentOver, IsCurrentShare};
ghost use Rattle.share_bound.specs.Known.{IsShareCurrent, IsPlaceOfShare, ShowsPart};

use crate::bases::{bases_in, bases_of};
use crate::shares::{share_over, train_of};
use disp_model::{Decision, Memory, Problem};
use event_arcs::train_of_decision;
use event_graph::Graph;
use problem_facts::OwnComponents;
use std::alloc::Global;
use std::mem;

/// How a leaf shows at least a part of a train's share that lists the train: by walks to so many of
/// its operations, which show these bases, and the share over them.
#[derive(Drop)]
pub struct Listing {
    pub bases: Vec<u64>,
    pub share: u64,
    pub walks: usize,
}

/// How a leaf shows the share of a train.
#[derive(Drop)]
pub enum LeafPart {
    /// By walks to so many of its components.
    Beside(usize),
    /// By the train, which is listed.
    Listed(Listing),
}

/// The share of a train over bases of its operations, and how a leaf shows it, if that is known.
#[derive(Drop)]
pub struct ShareOver {
    pub bases: Vec<u64>,
    pub share: u64,
    pub showing: Option<LeafPart>,
}

/// Shares of a train over bases of its operations: the one that was asked for last, and some that
/// were asked for earlier.
#[derive(Drop)]
pub struct KnownShare {
    pub last: ShareOver,
    pub(crate) earlier: Vec<ShareOver>,
    pub(crate) next: usize,
}

/// How many shares of a train are kept beside the last one.
const MOST_EARLIER: usize = 7;

/// Of each train shares that were reckoned, if some are known, by the routes that are allowed at
/// the node of a graph. One of them is the share at the node where the bases of the train are the
/// same: a search comes back to bases that it left a few nodes before.
#[derive(Drop)]
pub struct KnownShares {
    pub(crate) each: Vec<Option<KnownShare>>,
}

/// Whether two lists are the same.
fn are_same(one: &[u64], other: &[u64]) -> bool
    ensures { IsTrue result ↔ (one.now ≡ other.now) }
{
    one == other
}

/// Whether these are the bases of a train's operations, of which there are as many.
fn are_bases(graph: &Graph, train: u32, bases: &[u64]) -> bool
    requires train { train < length graph.now.problem.trains }
    requires count { length bases.now ≡ length (train_at graph.now.problem train) }
    ensures { IsTrue result → AreBasesTo graph.now train (length bases.now) bases.now }
{
    are_same(bases_in(graph, train, bases.len()), bases)
}

impl ShareOver {
    /// Whether these are the bases of a train at the node of a graph of the problem.
    fn is_current(&self, problem: &Problem, graph: &Graph, train: u32) -> bool
        requires node { graph.now.problem ≡ problem.now }
        requires train { train < length problem.now.trains }
        ensures { IsTrue result → AreBasesOf graph.now train self.now.bases.items }
    {
        if self.bases.len() != train_of(problem, train).len() {
            return false;
        }
        are_bases(graph, train, &self.bases)
    }

    /// The share of a train at the node of a graph of the problem.
    fn of(
        alloc: Global,
        problem: &Problem,
        components: &OwnComponents,
        graph: &Graph,
        train: u32,
    ) -> Result<ShareOver, Memory>
        requires node { graph.now.problem ≡ problem.now }
        requires own { AreOwnOf problem.now components.now }
        requires train { train < length problem.now.trains }
        ensures { IfOk result (IsCurrentOver graph.now train) }
    {
        let count = train_of(problem, train).len();
        let bases = bases_of(alloc, graph, train, count)?;
        let share = share_over(alloc, problem, components, graph, train, &bases)?;
        Ok(ShareOver {
            bases,
            share,
            showing: None,
        })
    }
}

/// Where among shares of a train one is over its bases at the node of a graph of the problem.
fn place_of(problem: &Problem, graph: &Graph, train: u32, shares: &[ShareOver]) -> Option<usize>
    requires node { graph.now.problem ≡ problem.now }
    requires train { train < length problem.now.trains }
    ensures { IfSome result (IsPlaceOfShare graph.now train shares.now) }
{
    for place in 0..shares.len() {
        if shares[place].is_current(problem, graph, train) {
            return Some(place);
        }
    }
    None
}

/// Puts a share behind others, or where there are as many as are kept in one's place.
fn put_among(shares: &mut Vec<ShareOver>, place: usize, share: ShareOver) -> Result<(), Memory>
    requires { place < MOST_EARLIER }
    ensures { (node : Node) (t : ℕ) → All (HoldsOver node t) shares.old.items
        → HoldsOver node t share → OnOk result (All (HoldsOver node t) shares.new.items) }
{
    if shares.len() < MOST_EARLIER {
        shares.push(share)?;
        return Ok(());
    }
    shares[place] = share;
    Ok(())
}

impl KnownShare {
    /// Puts one of the earlier shares and the last one in each other's place.
    fn recall(&mut self, place: usize)
        requires { place < length self.old.earlier.items }
        ensures last { slice_get self.old.earlier.items place ≡ Some self.new.last }
        ensures earlier { self.new.earlier.items
            ≡ slice_set self.old.earlier.items place self.old.last }
    {
        mem::swap(&mut self.last, &mut self.earlier[place]);
    }

    /// Puts a share in the place of the last one, which is one of the earlier ones then.
    fn add(&mut self, share: ShareOver) -> Result<(), Memory>
        ensures last { self.new.last ≡ share }
        ensures earlier { (node : Node) (t : ℕ) → HoldsFor node t self.old
            → OnOk result (All (HoldsOver node t) self.new.earlier.items) }
    {
        let place = self.next % MOST_EARLIER;
        self.next = place + 1;
        let last = mem::replace(&mut self.last, share);
        put_among(&mut self.earlier, place, last)
    }

    /// Has the share of a train at the node of a graph of the problem be the last one.
    fn turn(
        &mut self,
        alloc: Global,
        problem: &Problem,
        components: &OwnComponents,
        graph: &Graph,
        train: u32,
    ) -> Result<(), Memory>
        requires node { graph.now.problem ≡ problem.now }
        requires own { AreOwnOf problem.now components.now }
        requires train { train < length problem.now.trains }
        requires holds { HoldsFor graph.now train self.old }
        ensures { OnOk result (IsCurrentShare graph.now train self.new) }
    {
        if let Some(place) = place_of(problem, graph, train, &self.earlier) {
            self.recall(place);
            return Ok(());
        }
        let share = ShareOver::of(alloc, problem, components, graph, train)?;
        self.add(share)
    }
}

/// What is known of a train where the last share is the one at the node of a graph of the problem.
fn renewed(
    alloc: Global,
    problem: &Problem,
    components: &OwnComponents,
    graph: &Graph,
    train: u32,
    known: Option<KnownShare>,
) -> Result<KnownShare, Memory>
    requires node { graph.now.problem ≡ problem.now }
    requires own { AreOwnOf problem.now components.now }
    requires train { train < length problem.now.trains }
    requires known { IfSome known (HoldsFor graph.now train) }
    ensures { IfOk result (IsCurrentShare graph.now train) }
{
    match known {
        Some(known) => {
            let mut known = known;
            known.turn(alloc, problem, components, graph, train)?;
            Ok(known)
        }
        None => Ok(KnownShare {
            last: ShareOver::of(alloc, problem, components, graph, train)?,
            earlier: Vec::new(alloc),
            next: 0,
        }),
    }
}

/// What is known of a train, with how a leaf shows the last share.
fn shown(known: KnownShare, showing: LeafPart) -> KnownShare
    ensures bases { result.last.bases ≡ known.last.bases }
    ensures holds { (node : Node) (t : ℕ) → HoldsFor node t known
        → ShowsPart node t known.last.bases.items showing → HoldsFor node t result }
{
    let KnownShare {
        last,
        earlier,
        next,
    } = known;
    let ShareOver { bases, share, .. } = last;
    KnownShare {
        last: ShareOver {
            bases,
            share,
            showing: Some(showing),
        },
        earlier,
        next,
    }
}

impl KnownShares {
    /// None known of the trains of a problem.
    ///
    /// # Errors
    ///
    /// `Memory` where memory runs out.
    pub fn new(alloc: Global, problem: &Problem) -> Result<KnownShares, Memory>
        ensures { IfOk result (λ known. (node : Node) → node.problem ≡ problem.now
            → HoldFor node known) }
    {
        let mut each = Vec::with_capacity(alloc, problem.trains.len())?;
        for _train in 0..problem.trains.len() {
            each.push(None)?;
        }
        Ok(KnownShares { each })
    }

    /// Whether the share of a train at the node of a graph of the problem is known.
    fn knows(&self, problem: &Problem, graph: &Graph, train: u32) -> bool
        requires node { graph.now.problem ≡ problem.now }
        requires train { train < length problem.now.trains }
        requires known { HoldFor graph.now self.now }
        ensures { IsTrue result → IsShareCurrent graph.now train self.now }
    {
        match &self.each[train as usize] {
            Some(known) => known.last.is_current(problem, graph, train),
            None => false,
        }
    }

    /// Puts something in the place of what is known of a train, and gives what was there.
    fn put(&mut self, train: u32, known: Option<KnownShare>) -> Option<KnownShare>
        requires { train < length self.old.each.items }
        ensures new { self.new.each.items ≡ slice_set self.old.each.items train known }
        ensures was { result ≡ known_of self.old.each.items train }
    {
        mem::replace(&mut self.each[train as usize], known)
    }

    /// Keeps the share of a train at the node of a graph.
    fn keep(&mut self, graph: &Graph, train: u32, known: KnownShare)
        requires train { train < length graph.now.problem.trains }
        requires known { HoldFor graph.now self.old }
        requires current { IsCurrentShare graph.now train known }
        ensures known { HoldFor graph.now self.new }
        ensures current { IsShareCurrent graph.now train self.new }
    {
        let _paths = graph.paths();
        let _old = self.put(train, Some(known));
    }

    /// Has the share of a train at the node of a graph of the problem be known. Where it is not, it
    /// is reckoned in the time of `share`.
    ///
    /// # Errors
    ///
    /// `Memory` where memory runs out.
    pub fn renew(
        &mut self,
        alloc: Global,
        problem: &Problem,
        components: &OwnComponents,
        graph: &Graph,
        train: u32,
    ) -> Result<(), Memory>
        requires node { graph.now.problem ≡ problem.now }
        requires own { AreOwnOf problem.now components.now }
        requires train { train < length problem.now.trains }
        requires known { HoldFor graph.now self.old }
        ensures known { HoldFor graph.now self.new }
        ensures current { OnOk result (IsShareCurrent graph.now train self.new) }
    {
        if self.knows(problem, graph, train) {
            return Ok(());
        }
        let was = self.put(train, None);
        let known = renewed(alloc, problem, components, graph, train, was)?;
        self.keep(graph, train, known);
        Ok(())
    }

    /// The share of a train that is known, with its bases.
    pub fn of_train(&self, train: u32) -> &KnownShare
        requires there { train < length self.now.each.items }
        requires known { (one : KnownShareOf) × (known_of self.now.each.items train ≡ Some one) }
        ensures { known_of self.now.each.items train ≡ Some result.now }
    {
        match &self.each[train as usize] {
            Some(known) => known,
            None => unreachable!(),
        }
    }

    /// Keeps how a leaf shows the share of a train at the node of a graph, which is known. The
    /// share and its bases stay as they were, and so does what is known beside them and of other
    /// trains.
    pub fn show(&mut self, graph: &Graph, train: u32, showing: LeafPart)
        requires train { train < length graph.now.problem.trains }
        requires known { HoldFor graph.now self.old }
        requires current { IsShareCurrent graph.now train self.old }
        requires shows { (one : KnownShareOf) → known_of self.old.each.items train ≡ Some one
            → ShowsPart graph.now train one.last.bases.items showing }
        ensures known { HoldFor graph.now self.new }
        ensures current { IsShareCurrent graph.now train self.new }
    {
        if let Some(known) = self.put(train, None) {
            self.keep(graph, train, shown(known, showing));
        }
    }

    /// The share of a train at the node of a graph of the problem, which is known then.
    fn share(
        &mut self,
        alloc: Global,
        problem: &Problem,
        components: &OwnComponents,
        graph: &Graph,
        train: u32,
    ) -> Result<u64, Memory>
        requires node { graph.now.problem ≡ problem.now }
        requires own { AreOwnOf problem.now components.now }
        requires train { train < length problem.now.trains }
        requires known { HoldFor graph.now self.old }
        ensures known { HoldFor graph.now self.new }
        ensures share { IfOk result (IsShareWithin graph.now train) }
    {
        self.renew(alloc, problem, components, graph, train)?;
        Ok(self.of_train(train).last.share)
    }

    /// The bound of a node of the problem under the free rule, as `free_cost` says it. Only shares
    /// are reckoned that are not known.
    ///
    /// # Errors
    ///
    /// `Memory` where memory runs out.
    pub fn cost(
        &mut self,
        alloc: Global,
        problem: &Problem,
        components: &OwnComponents,
        graph: &Graph,
    ) -> Result<u64, Memory>
        requires node { graph.now.problem ≡ problem.now }
        requires own { AreOwnOf problem.now components.now }
        requires known { HoldFor graph.now self.old }
        ensures known { HoldFor graph.now self.new }
        ensures bound { IfOk result (IsBound graph.now Free) }
    {
        let mut total = 0;
        for train in 0..problem.trains.len() {
            let share = self.share(alloc, problem, components, graph, train as u32)?;
            total += share;
        }
        Ok(total)
    }

    /// The train whose routes a decision is about, where there is such a one.
    fn place_of(&self, decision: Decision) -> Option<u32>
        ensures { MatchOption result (IsAboutNone decision self.now)
            (λ train. (train < length self.now.each.items)
            × (train_of_decision decision ≡ Some train)) }
    {
        let train = train_of_decision(&decision)?;
        if (train as usize) < self.each.len() {
            Some(train)
        } else {
            None
        }
    }

    /// Takes out and gives what is known of the train whose routes a decision is about. What is
    /// known of the others stays, and holds with the decision too. Where it is about no train's
    /// routes all stays, and nothing is given.
    pub fn set_aside(&mut self, decision: Decision) -> Option<KnownShare>
        ensures same { (node : Node) → HoldFor node self.old → HoldFor node self.new }
        ensures below { (node : Node) → HoldFor node self.old
            → HoldFor (with_decision node decision) self.new }
        ensures aside { (node : Node) (t : ℕ) → HoldFor node self.old
            → train_of_decision decision ≡ Some t → IfSome result (HoldsFor node t) }
    {
        match self.place_of(decision) {
            Some(train) => self.put(train, None),
            None => None,
        }
    }

    /// Puts what was known of that train back, or nothing, where the decision is taken back: what
    /// was found of the train meanwhile is given up. What is known of the others stays, and holds
    /// without the decision too.
    pub fn put_back(&mut self, decision: Decision, aside: Option<KnownShare>)
        ensures { (node : Node) → HoldFor (with_decision node decision) self.old
            → ((t : ℕ) → train_of_decision decision ≡ Some t → IfSome aside (HoldsFor node t))
            → HoldFor node self.new }
    {
        if let Some(train) = self.place_of(decision) {
            let _old = self.put(train, aside);
        }
    }
}
