use crate::ages::Ages;
use crate::facts::Facts;
use crate::failures::Failures;
use crate::holders::Holders;
use crate::links::Links;
use crate::seeker::Seeker;
use crate::spots::Spots;
use disp_model::Problem;
use event_graph::Graph;

/// A problem and the graph of a node, and what is known of the operations there.
#[derive(Clone, Copy)]
pub(crate) struct View<'a> {
    pub problem: &'a Problem,
    pub graph: &'a Graph<'a>,
    pub facts: &'a Facts,
    pub spots: &'a Spots,
    pub holders: &'a Holders,
    pub links: &'a Links,
    pub ages: &'a Ages,
    pub failures: &'a Failures,
    /// An order that costs so much more, or more, leaves no plan that is wanted.
    pub room: u64,
}

impl<'a> View<'a> {
    /// Whether arcs lead from one operation to another.
    pub(crate) fn leads(&self, seeker: &mut Seeker, from: u32, to: u32) -> bool {
        seeker.leads(self.links, self.graph.paths(), from, to)
    }

    /// Whether the end of an operation at which routes part has to come before another operation,
    /// by the orders of it and operations of other trains.
    pub(crate) fn ends_before(&self, seeker: &mut Seeker, fork: u32, other: u32) -> bool {
        let train = self.spots.at(fork).train;
        for link in self.links.behind(fork).iter().rev() {
            if self.spots.at(link.to).train != train
                && (link.to == other || self.leads(seeker, link.to, other))
            {
                return true;
            }
        }
        false
    }
}
