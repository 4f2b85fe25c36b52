ghost use Rattle.std.specs.Prelude.{◌≡◌, ◌≢◌, ◌<◌, ◌⊎◌, ℕ, true, false, None, Some, IfOk, IfSome, IsTrue, MatchOption, All, length, slice_index_or};
ghost use Rattle.disp_model.specs.WellFormed.{operation_count};
ghost use Rattle.disp_model.specs.Arcs.{listings_of};
ghost use Rattle.event_windows.specs.Operations.{IsAtNumber};
ghost use Rattle.first_overlaps.specs.declared.hold.Hold.{Hold as HoldOf};
ghost use Rattle.first_overlaps.specs.Spans.{IsFirstOverlap, FirstTouch, NoneOpen};
ghost use Rattle.first_overlaps.specs.Holds.{hold_by, HoldApart, IsSpanned, AreSpanned, NoneMore, AreParted, AreAllParted, IsSeenBy, IsLookAt, IsLook};
ghost use Rattle.first_overlaps.specs.Known.{AreSpansFor};

use crate::hold::{Hold, hold_apart, hold_on};
use crate::holder::{Holder, holders_of};
use crate::meeting::Meeting;
use crate::seen::{Seen, hold_of, seen_on};
use crate::span::{Span, span_of};
use disp_model::{Listing, Memory, Op, Problem};
use event_graph::Graph;
use event_windows::operations;
use problem_facts::listings_of;
use std::alloc::Global;

/// Two operations that hold a resource at a time, that of the lower train first.
#[derive(Clone, Copy)]
pub struct Overlap {
    pub a: Op,
    pub b: Op,
}

/// When the operations of a problem ran where a graph was looked at last, and which of them keep
/// apart from all of later trains. It holds wherever the graph is moved: the next look finds by
/// itself which operations run at another time, and looks again at their pairs alone.
#[derive(Drop)]
pub struct KnownSpans {
    holders: Vec<Vec<Holder>>,
    /// By the numbers of the operations: its span, where it is forced,
    spans: Vec<Option<Span>>,
    /// and whether it is apart from all of later trains.
    apart: Vec<bool>,
}

/// Whether an operation runs as before.
fn is_same(one: Option<Span>, other: Option<Span>) -> bool
    ensures { IsTrue result → one ≡ other }
{
    match (one, other) {
        (Some(one), Some(other)) => one.start == other.start && one.end == other.end,
        (None, None) => true,
        _ => false,
    }
}

/// Whether a holder is still apart from all of later trains where a hold is put among them, if it
/// was before.
fn stays_apart(apart: bool, spans: &[Option<Span>], holder: &Holder, hold: &Hold) -> bool
    requires { holder.now.number < length spans.now }
    ensures before { result ≡ true → apart ≡ true }
    ensures apart { result ≡ true → (other : HoldOf) → holder.now.op.train < hold.now.op.train
        → hold_by spans.now holder.now ≡ Some other → HoldApart other hold.now }
{
    if !apart || holder.op.train >= hold.op.train {
        return apart;
    }
    match hold_of(spans, holder) {
        Some(other) => hold_apart(&other, hold),
        None => true,
    }
}

/// Notes which of these holders are not apart any more where a hold of a later train is put among
/// them.
fn part_on(apart: &mut Vec<bool>, spans: &[Option<Span>], holders: &[Holder], hold: &Hold)
    requires spans { All (λ x. x.number < length spans.now) holders.now }
    requires words { length apart.old.items ≡ length spans.now }
    ensures words { length apart.new.items ≡ length apart.old.items }
    ensures fewer { NoneMore apart.old.items apart.new.items }
    ensures parted { AreParted holders.now spans.now hold.now apart.new.items }
{
    for holder in holders {
        let number = holder.number as usize;
        apart[number] = stays_apart(apart[number], spans, holder, hold);
    }
}

impl KnownSpans {
    /// Nothing is known yet of when the operations of a problem run. Fails for memory alone.
    pub fn new(alloc: Global, problem: &Problem) -> Result<KnownSpans, Memory>
        ensures { IfOk result (AreSpansFor problem.now) }
    {
        let ops = operations(alloc, problem)?;
        Ok(KnownSpans {
            holders: holders_of(alloc, problem, &ops)?,
            spans: vec![in alloc; None; ops.len()]?,
            apart: vec![in alloc; true; ops.len()]?,
        })
    }

    /// Notes which operations of earlier trains are not apart any more where one runs so from now
    /// on.
    fn part(&mut self, problem: &Problem, op: Op, span: Option<Span>)
        requires known { AreSpansFor problem.now self.old }
        requires there { op.train < length problem.now.trains }
        ensures holders { self.new.holders ≡ self.old.holders }
        ensures spans { self.new.spans ≡ self.old.spans }
        ensures words { length self.new.apart.items ≡ length self.old.apart.items }
        ensures fewer { NoneMore self.old.apart.items self.new.apart.items }
        ensures parted { IfSome span (λ s. AreAllParted self.old.holders.items
            self.old.spans.items op s (listings_of problem.now op) self.new.apart.items) }
    {
        let Some(span) = span else {
            return;
        };
        for listing in listings_of(problem, op) {
            let hold = hold_on(op, span, listing);
            let holders = &self.holders[listing.resource as usize];
            part_on(&mut self.apart, &self.spans, holders, &hold);
        }
    }

    /// Notes when the operation of a number runs.
    fn note(&mut self, problem: &Problem, number: u32, op: Op, span: Option<Span>)
        requires known { AreSpansFor problem.now self.old }
        requires at { IsAtNumber problem.now op number }
        ensures known { AreSpansFor problem.now self.new }
        ensures span { slice_index_or self.new.spans.items number None ≡ span }
        ensures others { (n : ℕ) → n ≢ number → slice_index_or self.new.spans.items n None
            ≡ slice_index_or self.old.spans.items n None }
    {
        if is_same(span, self.spans[number as usize]) {
            return;
        }
        self.part(problem, op, span);
        self.spans[number as usize] = span;
        self.apart[number as usize] = span.is_none();
    }

    /// Notes when each operation runs at the node of a graph.
    fn renew(&mut self, problem: &Problem, graph: &Graph)
        requires problem { graph.now.problem ≡ problem.now }
        requires known { AreSpansFor problem.now self.old }
        ensures known { AreSpansFor problem.now self.new }
        ensures spans { AreSpanned graph.now self.new.spans.items }
    {
        for number in 0..self.spans.len() as u32 {
            let op = graph.operation(number);
            self.note(problem, number, op, span_of(problem, graph, op));
        }
    }

    /// What is seen of an operation that runs so, and of all of later trains.
    fn seen(&self, problem: &Problem, graph: &Graph, op: Op, span: Span) -> Seen
        requires problem { graph.now.problem ≡ problem.now }
        requires known { AreSpansFor problem.now self.now }
        requires spans { AreSpanned graph.now self.now.spans.items }
        requires span { IsSpanned graph.now op (Some span) }
        ensures { IsSeenBy graph.now self.now.holders.items self.now.spans.items op span
            (listings_of problem.now op) result }
    {
        let mut seen = Seen {
            first: None,
            apart: true,
        };
        for listing in listings_of(problem, op) {
            let hold = hold_on(op, span, listing);
            let holders = &self.holders[listing.resource as usize];
            seen = seen_on(graph, &hold, &self.spans, holders, seen);
        }
        seen
    }

    /// The first meeting of the operation of a number with one of a later train.
    fn look_at(&mut self, problem: &Problem, graph: &Graph, number: u32) -> Option<Meeting>
        requires problem { graph.now.problem ≡ problem.now }
        requires known { AreSpansFor problem.now self.old }
        requires spans { AreSpanned graph.now self.old.spans.items }
        requires number { number < operation_count problem.now.trains }
        ensures known { AreSpansFor problem.now self.new }
        ensures holders { self.new.holders ≡ self.old.holders }
        ensures spans { self.new.spans ≡ self.old.spans }
        ensures found { IsLookAt graph.now self.old.holders.items self.old.spans.items number
            result }
    {
        if self.apart[number as usize] {
            return None;
        }
        let span = self.spans[number as usize]?;
        let _paths = graph.paths();
        let op = graph.operation(number);
        let seen = self.seen(problem, graph, op, span);
        self.apart[number as usize] = seen.apart;
        seen.first
    }

    /// The first meeting, where each operation runs as it does at the node of a graph.
    fn look(&mut self, problem: &Problem, graph: &Graph) -> Option<Meeting>
        requires problem { graph.now.problem ≡ problem.now }
        requires known { AreSpansFor problem.now self.old }
        requires spans { AreSpanned graph.now self.old.spans.items }
        ensures known { AreSpansFor problem.now self.new }
        ensures found { IsLook graph.now result }
    {
        let _paths = graph.paths();
        for number in 0..self.spans.len() as u32 {
            if let Some(meeting) = self.look_at(problem, graph, number) {
                return Some(meeting);
            }
        }
        None
    }

    /// The first two operations at the node of a graph that hold a resource at a time, by train and
    /// number of the first and then of the second, where no order that is open comes before theirs.
    /// None is found where no order is open, and where the first one is of two that touch: one ends
    /// when the other starts, and their order is not decided, so that it depends on their places in
    /// a plan whether they hold a resource at a time. It takes no memory.
    pub fn first_overlap(&mut self, problem: &Problem, graph: &Graph) -> Option<Overlap>
        requires problem { graph.now.problem ≡ problem.now }
        requires known { AreSpansFor problem.now self.old }
        ensures known { AreSpansFor problem.now self.new }
        ensures found { MatchOption result (NoneOpen graph.now ⊎ FirstTouch graph.now)
            (λ overlap. IsFirstOverlap graph.now overlap.a overlap.b) }
    {
        self.renew(problem, graph);
        let meeting = self.look(problem, graph)?;
        if !meeting.overlaps {
            return None;
        }
        Some(Overlap {
            a: meeting.a,
            b: meeting.b,
        })
    }
}
