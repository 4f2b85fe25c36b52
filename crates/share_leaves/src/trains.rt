ghost use Rattle.std.specs.Prelude.{◌≡◌, ◌+◌, ◌<◌, IfOk, OnOk, length};
ghost use Rattle.share_bound.specs.Bases.{AddUpTo};
ghost use Rattle.problem_facts.specs.Components.{AreOwnOf};
ghost use Rattle.share_leaves.specs.Listed.{AreListed, HoldsLow};
ghost use Rattle.share_bound.specs.declared.known.Listing.{Listing as ListingOf};
ghost use Rattle.share_bound.specs.declared.known.LeafPart.TheVariants.{Listed as ListedAs};
ghost use Rattle.share_bound.specs.Known.{AreBasesOf, HoldFor, HoldsListing, HoldsOver, IsShareCurrent, ShowsPart};

use crate::kept::{count_wanted, kept};
use crate::listed::walks_to;
use crate::needed::deciding;
use disp_model::{Component, List, Memory, Problem, TrainWalks};
use event_graph::Graph;
use problem_facts::OwnComponents;
use share_bound::{KnownShares, LeafPart, Listing, ShareOver, cost_of, share_over, train_of};
use std::alloc::Global;

/// Trains with walks that show their shares, and what these come to at least.
#[derive(Drop)]
pub(crate) struct Listed {
    pub trains: List<TrainWalks>,
    pub cost: u64,
    /// How many walks there will be to components of the others. It is advice.
    pub beside: usize,
}

/// What the forced ones of a train's components cost together, and how many cost something.
#[derive(Clone, Copy)]
struct Forced {
    cost: u64,
    count: usize,
}

/// What the forced ones of a train's components cost at these lengths. It is advice.
fn forced_cost(graph: &Graph, components: &[Component], train: u32, lengths: &[u64]) -> Forced
    requires { train < length graph.now.problem.trains }
{
    let routes = graph.routes(train);
    let mut forced = Forced { cost: 0, count: 0 };
    for component in components {
        if routes.forced(component.operation) {
            if let Some(length) = lengths.get(component.operation as usize) {
                let cost = cost_of(component, *length);
                forced.cost = forced.cost.saturating_add(cost);
                forced.count = forced.count.saturating_add(usize::from(cost > 0));
            }
        }
    }
    forced
}

/// How a leaf lists a train, by the lengths of its operations.
fn listing_of(
    alloc: Global,
    problem: &Problem,
    components: &OwnComponents,
    graph: &Graph,
    train: u32,
    lengths: &[u64],
) -> Result<Listing, Memory>
    requires node { graph.now.problem ≡ problem.now }
    requires own { AreOwnOf problem.now components.now }
    requires train { train < length problem.now.trains }
    requires lengths { AreBasesOf graph.now train lengths.now }
    ensures { IfOk result (HoldsListing graph.now train lengths.now) }
{
    let operations = train_of(problem, train);
    let routes = graph.routes(train);
    let own = components.of_train(train);
    let wanted = deciding(
        alloc,
        operations,
        own,
        routes.order(),
        routes.rows(),
        lengths,
    )?;
    let bases = kept(alloc, graph, train, lengths, &wanted)?;
    let share = share_over(alloc, problem, components, graph, train, &bases)?;
    let walks = count_wanted(graph, train, &wanted);
    Ok(Listing {
        bases,
        share,
        walks,
    })
}

/// How a leaf shows the share of a train: it lists the train where its forced components cost less.
fn part_of(
    alloc: Global,
    problem: &Problem,
    components: &OwnComponents,
    graph: &Graph,
    train: u32,
    known: &ShareOver,
) -> Result<LeafPart, Memory>
    requires node { graph.now.problem ≡ problem.now }
    requires own { AreOwnOf problem.now components.now }
    requires train { train < length problem.now.trains }
    requires bases { AreBasesOf graph.now train known.now.bases.items }
    ensures { IfOk result (ShowsPart graph.now train known.now.bases.items) }
{
    let lengths = known.bases.as_slice();
    let forced = forced_cost(graph, components.of_train(train), train, lengths);
    if known.share <= forced.cost {
        return Ok(LeafPart::Beside(forced.count));
    }
    let listing = listing_of(alloc, problem, components, graph, train, lengths)?;
    Ok(LeafPart::Listed(listing))
}

/// Has it be known how a leaf shows the share of a train, which is known.
fn prepare(
    alloc: Global,
    problem: &Problem,
    components: &OwnComponents,
    graph: &Graph,
    train: u32,
    known: &mut KnownShares,
) -> Result<(), Memory>
    requires node { graph.now.problem ≡ problem.now }
    requires own { AreOwnOf problem.now components.now }
    requires train { train < length problem.now.trains }
    requires known { HoldFor graph.now known.old }
    requires current { IsShareCurrent graph.now train known.old }
    ensures known { HoldFor graph.now known.new }
    ensures current { OnOk result (IsShareCurrent graph.now train known.new) }
{
    let current = &known.of_train(train).last;
    if current.showing.is_some() {
        return Ok(());
    }
    let part = part_of(alloc, problem, components, graph, train, current)?;
    known.show(graph, train, part);
    Ok(())
}

/// Lists a train with the walks that its share needs.
fn show(
    alloc: Global,
    graph: &Graph,
    train: u32,
    listing: &Listing,
    listed: &mut Listed,
) -> Result<(), Memory>
    requires train { train < length graph.now.problem.trains }
    requires holds { HoldsLow graph.now train listing.now }
    requires before { AreListed graph.now train listed.old }
    ensures { OnOk result (AreListed graph.now (train + 1) listed.new) }
{
    let walks = walks_to(alloc, graph, train, &listing.bases, listing.walks)?;
    listed.trains.push(TrainWalks { train, walks })?;
    listed.cost = listed.cost.saturating_add(listing.share);
    Ok(())
}

/// Lists a train, where a leaf is to show its share so.
fn list_part(
    alloc: Global,
    graph: &Graph,
    train: u32,
    part: &LeafPart,
    listed: &mut Listed,
) -> Result<(), Memory>
    requires train { train < length graph.now.problem.trains }
    requires holds { (listing : ListingOf) → part.now ≡ ListedAs listing
        → HoldsLow graph.now train listing }
    requires before { AreListed graph.now train listed.old }
    ensures { OnOk result (AreListed graph.now (train + 1) listed.new) }
{
    match part {
        LeafPart::Listed(listing) => show(alloc, graph, train, listing, listed),
        LeafPart::Beside(walks) => {
            listed.beside = listed.beside.saturating_add(*walks);
            Ok(())
        }
    }
}

/// Lists a train, where it is known that a leaf is to show its share so.
fn list(
    alloc: Global,
    graph: &Graph,
    train: u32,
    known: &ShareOver,
    listed: &mut Listed,
) -> Result<(), Memory>
    requires train { train < length graph.now.problem.trains }
    requires bases { AreBasesOf graph.now train known.now.bases.items }
    requires holds { HoldsOver graph.now train known.now }
    requires before { AreListed graph.now train listed.old }
    ensures { OnOk result (AreListed graph.now (train + 1) listed.new) }
{
    match &known.showing {
        Some(part) => list_part(alloc, graph, train, part, listed),
        None => Ok(()),
    }
}

/// The shares of all trains together, and those trains whose share is more than their forced
/// components cost.
#[derive(Drop)]
pub(crate) struct Shares {
    pub listed: Listed,
    pub total: u64,
}

/// The shares of all trains, of which those are listed whose forced components cost less.
pub(crate) fn list_trains(
    alloc: Global,
    problem: &Problem,
    components: &OwnComponents,
    graph: &Graph,
    known: &mut KnownShares,
) -> Result<Shares, Memory>
    requires node { graph.now.problem ≡ problem.now }
    requires own { AreOwnOf problem.now components.now }
    requires known { HoldFor graph.now known.old }
    ensures known { HoldFor graph.now known.new }
    ensures listed { IfOk result
        (λ shares. AreListed graph.now (length problem.now.trains) shares.listed) }
    ensures total { IfOk result
        (λ shares. AddUpTo graph.now (length problem.now.trains) shares.total) }
{
    let mut listed = Listed {
        trains: List::new(alloc),
        cost: 0,
        beside: 0,
    };
    let mut total = 0;
    for train in 0..problem.trains.len() {
        let train = train as u32;
        known.renew(alloc, problem, components, graph, train)?;
        prepare(alloc, problem, components, graph, train, known)?;
        let current = &known.of_train(train).last;
        list(alloc, graph, train, current, &mut listed)?;
        let share = current.share;
        total += share;
    }
    Ok(Shares { listed, total })
}
