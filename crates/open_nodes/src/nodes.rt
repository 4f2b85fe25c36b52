ghost use Rattle.std.specs.Prelude.{ℕ, ◌≡◌, ◌+◌, ◌-◌, ◌≤◌, ◌↔◌, ◌<◌, ◌++◌, IfOk, IfErr, OnOk, OnErr, length, slice_get, IsTrue, MatchOption, None, Some, option_map, if◌then◌else◌};
ghost use Rattle.open_nodes.specs.States.{State, one_open_leaf, allowed_of, allowance_for, decisions_of, IsIn, ForOut, ComesBack, Takes, Sends, MayBeTaken, NoneTakeable, GivesBack, IsLeastBound};
ghost use Rattle.open_nodes.specs.Grafts.{FillPlaces, GrowsBy, IsGrafted, grown_at, placed, AllStand};
ghost use Rattle.open_nodes.specs.declared.place.Place.{Place};
ghost use Rattle.open_nodes.specs.declared.place.Kind.TheVariants.{Branch};
ghost use Rattle.open_nodes.specs.Shown.{tree_of, leaf_of, fallen, fallen_at, with_edition};
ghost use Rattle.open_nodes.specs.Preorder.{IsFirstSought, IsFirstUnmarked, preorder};

use crate::blocks::Blocks;
use crate::graft::{Grafted, graft, put};
use crate::path::{decisions, number_out};
use crate::place::{Kind, Place};
use crate::ready::Ready;
use crate::shown::{all_shown, index_of, leaf_at};
use crate::walk::first_sought;
use crate::work::{Fragment, GiveBack, Growth, Take, Work};
use disp_model::{Decision, Leaf, List, Memory, Problem, Tree, TreeNode};
use packed_nodes::PackedNode;
use std::alloc::Global;
use std::marker::Model;

/// The tree of a search: its places by number, what they show, and the newest edition.
#[derive(Drop)]
pub struct Nodes {
    places: Vec<Place>,
    kept: Vec<PackedNode>,
    ready: Ready,
    blocks: Blocks,
    edition: u32,
    allowed: u64,
}

impl Model for Nodes {
    ghost use Rattle.open_nodes.specs.States.{State, ArePlacesKept};
    ghost use Rattle.open_nodes.specs.Blocks.{AreReckoned};

    ghost Value = { State };

    ghost view = { λ n.
        record { places = n.places.items; kept = n.kept.items; edition = n.edition } };

    ghost invariant = { λ n. ArePlacesKept n.places.items n.edition n.allowed
        × AreReckoned n.places.items n.edition n.blocks };
}

impl Nodes {
    /// One leaf, of number 0, that shows no walks and has the kept bound 0, under edition 0.
    ///
    /// # Errors
    ///
    /// `Memory` where memory runs out.
    pub fn new(alloc: Global) -> Result<Nodes, Memory>
        ensures { IfOk result (λ nodes. nodes ≡ one_open_leaf) }
    {
        let mut places = Vec::new(alloc);
        places.push(Place {
            above: None,
            next: None,
            shows: 0,
            kind: Kind::Open,
            bound: 0,
            out: None,
            examined: None,
        })?;
        let first = TreeNode::Leaf(Leaf::Costs(List::new(alloc)));
        let mut kept = Vec::new(alloc);
        kept.push(PackedNode::pack(alloc, first)?)?;
        let blocks = Blocks::new(alloc, &places, 0)?;
        Ok(Nodes {
            places,
            kept,
            ready: Ready::new(alloc)?,
            blocks,
            edition: 0,
            allowed: 0,
        })
    }

    /// The allowances that are out for the newest edition.
    pub fn allowed(&self) -> u64
        ensures { result ≡ allowed_of self.now }
    {
        self.allowed
    }

    /// The least kept bound of the leaves that are not known dead, none where all are.
    pub fn bound(&self) -> Option<u64>
        ensures { IsLeastBound self.now.places result }
    {
        self.blocks.least_bound()
    }

    /// The first wanted leaf in preorder and its kept bound. Takes no memory.
    pub fn wanted(&self, best: Option<u64>) -> Option<(u128, u64)>
        ensures { IsFirstSought self.now.places best None (preorder self.now.places) result }
    {
        match first_sought(&self.places, best, None) {
            Some((number, bound)) => Some((number as u128, bound)),
            None => None,
        }
    }

    /// The first wanted leaf in preorder that is not marked for the newest edition. Takes no
    /// memory.
    pub fn unexamined(&self, best: Option<u64>) -> Option<u128>
        ensures { IsFirstUnmarked self.now best result }
    {
        match first_sought(&self.places, best, Some(self.edition)) {
            Some((number, _)) => Some(number as u128),
            None => None,
        }
    }

    /// The tree in preorder.
    ///
    /// # Errors
    ///
    /// `Memory` where memory runs out.
    pub fn tree(&self, alloc: Global) -> Result<Tree, Memory>
        ensures { IfOk result (λ tree. tree ≡ tree_of self.now) }
    {
        all_shown(alloc, &self.places, &self.kept)
    }

    /// What is kept for the leaf of a number, none where no leaf has it.
    ///
    /// # Errors
    ///
    /// `Memory` where memory runs out.
    pub fn leaf(&self, alloc: Global, node: u128) -> Result<Option<Leaf>, Memory>
        ensures { IfOk result (λ leaf. leaf ≡ leaf_of self.now node) }
    {
        let Some(number) = index_of(node, self.places.len()) else {
            return Ok(None);
        };
        leaf_at(alloc, &self.places, &self.kept, number)
    }

    /// How many numbers places have so far: each below it is one's.
    pub fn count(&self) -> usize
        ensures { result ≡ length self.now.places }
    {
        self.places.len()
    }

    /// The kept bound of a leaf, 0 for a branch.
    pub fn kept_bound(&self, node: u128) -> Option<u64>
        ensures { result ≡ option_map (λ place. place.bound) (slice_get self.now.places node) }
    {
        let number = index_of(node, self.places.len())?;
        Some(self.places[number].bound)
    }

    /// The decisions above a place.
    ///
    /// # Errors
    ///
    /// `Memory` where memory runs out.
    pub fn decisions(&self, alloc: Global, node: u128) -> Result<List<Decision>, Memory>
        requires { node < length self.now.places }
        ensures { IfOk result (λ decisions. decisions ≡ decisions_of self.now.places node) }
    {
        decisions(alloc, &self.places, node as usize)
    }

    /// Takes a leaf out: one that is wanted and in, and where `free` is 0 one that is not marked as
    /// examined under the newest edition. Its work may grow the less of `want` and `free` branches.
    /// `seen` is the caller's place in the history, which the work keeps. Which leaf it is, is
    /// advice: where few branches are wanted one of the least kept bound, else the last one grown.
    ///
    /// # Errors
    ///
    /// `Memory` where memory runs out; then nothing has changed.
    pub fn take(
        &mut self,
        alloc: Global,
        best: Option<u64>,
        free: u32,
        want: u32,
        seen: u64,
        taker: u32,
    ) -> Result<Take, Memory>
        requires room { free + allowed_of self.old ≤ 4294967295 }
        ensures ok { IfOk result (λ take. Takes self.old best free want seen take self.new) }
        ensures err { OnErr result (self.new ≡ self.old) }
    {
        match self.find(best, free, want, taker) {
            Some(number) => {
                let work = self.send(alloc, number, best, seen, want.min(free))?;
                Ok(Take::Taken(work))
            }
            None => Ok(self.why_none(best)),
        }
    }

    /// The number of a leaf that may be taken.
    fn find(&mut self, best: Option<u64>, free: u32, want: u32, taker: u32) -> Option<usize>
        ensures same { self.new ≡ self.old }
        ensures found { MatchOption result (NoneTakeable self.old.edition best free self.old.places)
            (λ n. MayBeTaken self.old best free n) }
    {
        let number = self
            .ready
            .pop_takeable(&self.places, self.edition, best, free, want, taker);
        match number {
            Some(number) => Some(number),
            None => self.blocks.takeable(&self.places, self.edition, best, free),
        }
    }

    /// What is answered where no leaf may be taken.
    fn why_none(&self, best: Option<u64>) -> Take
        ensures { (free want seen : ℕ) → NoneTakeable self.now.edition best free self.now.places
            → Takes self.now best free want seen result self.now }
    {
        if self.blocks.is_ripe(best) {
            return Take::Ripe;
        }
        let out = self.blocks.count_out();
        if out > 0 {
            Take::AllOut(out)
        } else {
            Take::Dry
        }
    }

    /// Sends the leaf of a number out.
    fn send(
        &mut self,
        alloc: Global,
        number: usize,
        best: Option<u64>,
        seen: u64,
        allowance: u32,
    ) -> Result<Work, Memory>
        requires room { allowance + allowed_of self.old ≤ 4294967295 }
        requires inside { IsIn self.old.places number }
        ensures ok { IfOk result (λ work. (work.node ≡ number)
            × Sends self.old number best seen allowance work self.new) }
        ensures err { OnErr result (self.new ≡ self.old) }
    {
        let decisions = decisions(alloc, &self.places, number)?;
        let place = self.places[number];
        let work = Work {
            node: number as u128,
            bound: place.bound,
            edition: self.edition,
            decisions,
            best,
            seen,
            allowance,
        };
        let out = Some(work.errand());
        self.places[number] = Place { out, ..place };
        self.allowed += u64::from(allowance);
        self.blocks.change(&self.places, self.edition, number, place, self.places.len());
        Ok(work)
    }

    /// Gives a work back: its leaf is in again, and marked for the work's edition where it was
    /// examined. Takes no memory.
    pub fn give_back(&mut self, work: Work, examined: bool) -> GiveBack
        ensures { GivesBack self.old work examined result self.new }
    {
        match number_out(&self.places, &work) {
            Some(number) => {
                self.come_back(number, &work, examined);
                GiveBack::Back
            }
            None => GiveBack::Gone(work.node),
        }
    }

    /// Puts a fragment in the place of its leaf: the leaf becomes the fragment's subtree, and the
    /// children of each branch have the next unused numbers, in the order of the subtree. Gives the
    /// splits. `problem` is the search's. The nodes are moved as they are packed, and not read.
    ///
    /// # Errors
    ///
    /// The fragment and `Memory` where memory runs out, and where there would be 2^32 places or
    /// kept nodes, or more; then nothing has changed.
    pub fn grow(
        &mut self,
        alloc: Global,
        problem: &Problem,
        fragment: Fragment,
    ) -> Result<Growth, (Fragment, Memory)>
        requires { FillPlaces problem.now 1 fragment.subtree fragment.bounds }
        ensures ok { IfOk result (λ growth.
            GrowsBy problem.now self.old fragment growth self.new) }
        ensures back { IfErr result (λ no. no.0 ≡ fragment) }
        ensures err { OnErr result (self.new ≡ self.old) }
    {
        let Some(number) = number_out(&self.places, &fragment.work) else {
            return Ok(Growth::Gone(fragment.work.node));
        };
        let made = match self.made(alloc, problem, number, &fragment) {
            Ok(made) => made,
            Err(memory) => return Err((fragment, memory)),
        };
        let Grafted { grown, splits } = made;
        let Fragment {
            work,
            subtree,
            bounds,
        } = fragment;
        match self.put(number, &grown, subtree) {
            Ok(()) => Ok(Growth::Grown(splits)),
            Err(subtree) => Err((
                Fragment {
                    work,
                    subtree,
                    bounds,
                },
                Memory,
            )),
        }
    }

    /// What the leaf of a number makes of a fragment.
    fn made(
        &self,
        alloc: Global,
        problem: &Problem,
        number: usize,
        fragment: &Fragment,
    ) -> Result<Grafted, Memory>
        requires { number < length self.now.places }
        ensures { IfOk result (λ made. (place : Place)
            → slice_get self.now.places number ≡ Some place
            → IsGrafted (grown_at problem.now self.now number place fragment.now.subtree
            fragment.now.bounds) made.grown.items made.splits) }
    {
        graft(
            alloc,
            problem,
            self.places.len() - 1,
            self.kept.len(),
            number,
            self.places[number],
            fragment.subtree.as_slice(),
            fragment.bounds.as_slice(),
        )
    }

    /// Puts what the leaf of a number has become, with the nodes that show it.
    fn put(
        &mut self,
        number: usize,
        grown: &[Place],
        subtree: List<PackedNode>,
    ) -> Result<(), List<PackedNode>>
        requires inside { number < length self.old.places }
        requires stand { (place : Place) → slice_get self.old.places number ≡ Some place
            → AllStand (length self.old.places - 1) place.above grown.now }
        requires some { 0 < length grown.now }
        ensures ok { OnOk result (self.new ≡ record {
          places = placed self.old.places number grown.now;
          kept = self.old.kept ++ subtree;
          edition = self.old.edition;
        }) }
        ensures back { IfErr result (λ nodes. nodes ≡ subtree) }
        ensures err { OnErr result (self.new ≡ self.old) }
    {
        let place = self.places[number];
        let first = self.places.len();
        let Ok(()) = self.blocks.make_room(first + grown.len()) else {
            return Err(subtree);
        };
        put(&mut self.places, &mut self.kept, number, grown, subtree)?;
        self.allowed -= allowance_in(place, self.edition);
        self.blocks
            .change(&self.places, self.edition, number, place, first);
        self.ready
            .keep_grown(&self.places, number, first, place.out);
        Ok(())
    }

    /// Sets the newest edition, which is above the newest so far. The leaves stay as they are.
    pub fn rebase(&mut self, edition: u32)
        requires { self.old.edition < edition }
        ensures { self.new ≡ with_edition self.old edition }
    {
        self.edition = edition;
        self.allowed = 0;
        self.blocks.rebase(&self.places, edition);
    }

    /// Makes the leaf of a number fall back: it shows the empty list of walks, has the bound 0 and
    /// is not marked. Where no leaf has the number nothing changes. Takes no memory.
    pub fn reset(&mut self, node: u128)
        ensures { self.new ≡ fallen_at self.old node }
    {
        let Some(number) = index_of(node, self.places.len()) else {
            return;
        };
        let place = self.places[number];
        if is_branch(place) {
            return;
        }
        self.places[number] = fallen(place);
        self.blocks.change(&self.places, self.edition, number, place, self.places.len());
        self.ready.keep_back(number, fallen(place));
    }

    /// Takes the leaf of a work in again.
    fn come_back(&mut self, number: usize, work: &Work, examined: bool)
        requires number { number ≡ work.now.node }
        requires out { ForOut self.old.places work.now }
        ensures { ComesBack self.old work.now examined self.new }
    {
        let place = self.places[number];
        let examined = mark(place, work.edition, examined);
        self.places[number] = Place {
            out: None,
            examined,
            ..place
        };
        self.allowed -= allowance_in(place, self.edition);
        self.blocks.change(&self.places, self.edition, number, place, self.places.len());
        self.ready.keep_back(number, place);
    }
}

/// Whether a place is a branch.
fn is_branch(place: Place) -> bool
    ensures { IsTrue result ↔ (place.kind ≡ Branch) }
{
    place.kind == Kind::Branch
}

/// A leaf as it falls back.
fn fallen(place: Place) -> Place
    ensures { result ≡ fallen place }
{
    Place {
        shows: 0,
        kind: Kind::Open,
        bound: 0,
        examined: None,
        ..place
    }
}

/// The edition for which a leaf is marked that comes back.
fn mark(place: Place, edition: u32, examined: bool) -> Option<u32>
    ensures { result ≡ (if examined then Some edition else place.examined) }
{
    if examined {
        Some(edition)
    } else {
        place.examined
    }
}

/// The allowance of a place that is out for an edition, else 0.
fn allowance_in(place: Place, edition: u32) -> u64
    ensures { result ≡ allowance_for edition place.out }
{
    match place.out {
        Some(errand) if errand.edition == edition => u64::from(errand.allowance),
        _ => 0,
    }
}
