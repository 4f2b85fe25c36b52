use conflict_reasons::Reasons;
use disp_model::{Choice, Decision, List, Memory};
use std::alloc::Global;
use tree_dives::{Below, Script};

/// That a node is closed: on what that rests, and where the script of it begins, if it branches.
#[derive(Drop)]
pub(crate) struct Closed {
    pub reasons: Reasons,
    pub place: Option<usize>,
}

/// A decision that is to be looked at, behind so many others.
#[derive(Clone, Copy)]
pub(crate) struct Next {
    pub depth: usize,
    pub decision: Decision,
}

/// A node that branches, of which some children are still to be looked at.
#[derive(Drop)]
pub(crate) struct Frame {
    /// Behind how many decisions it is.
    depth: usize,
    choice: Choice,
    children: List<Decision>,
    /// The child that is looked at first.
    first: usize,
    /// How many children were looked at, with the one where it is now.
    begun: usize,
    /// The decision of that one.
    at: Option<Decision>,
    /// On which decisions above it rests that the children before are closed.
    reasons: Vec<bool>,
    below: Vec<Below>,
}

impl Frame {
    /// A node behind so many decisions with these children, of which this one comes first. Fails
    /// for memory alone.
    pub(crate) fn new(
        alloc: Global,
        depth: usize,
        choice: Choice,
        children: List<Decision>,
        first: usize,
    ) -> Result<Frame, Memory> {
        Ok(Frame {
            depth,
            choice,
            children,
            first,
            begun: 0,
            at: None,
            reasons: vec![in alloc; false; depth]?,
            below: Vec::new(alloc),
        })
    }

    /// Behind how many decisions it is.
    pub(crate) fn depth(&self) -> usize {
        self.depth
    }

    /// The place of the child that comes behind so many.
    fn place_behind(&self, begun: usize) -> usize {
        match begun {
            0 => self.first,
            begun if begun <= self.first => begun.saturating_sub(1),
            begun => begun,
        }
    }

    /// The next child, if there is one more.
    pub(crate) fn next(&mut self) -> Option<Next> {
        let place = self.place_behind(self.begun);
        let decision = *self.children.as_slice().get(place)?;
        self.begun = self.begun.saturating_add(1);
        self.at = Some(decision);
        Some(Next {
            depth: self.depth,
            decision,
        })
    }

    /// Whether that the child is closed where it is rests on its decision.
    pub(crate) fn rests_on_child(&self, closed: &Closed) -> bool {
        closed.reasons.rest_on(self.depth)
    }

    /// Notes that the child where it is is closed.
    pub(crate) fn note(&mut self, closed: Closed) -> Result<(), Memory> {
        closed.reasons.add_to(&mut self.reasons);
        if let (Some(decision), Some(place)) = (self.at, closed.place) {
            self.below.push(Below { decision, place })?;
        }
        Ok(())
    }

    /// Whether all children were looked at.
    pub(crate) fn is_done(&self) -> bool {
        self.begun >= self.children.len()
    }

    /// The node as closed, since all its children are.
    pub(crate) fn into_closed(self, alloc: Global, script: &mut Script) -> Result<Closed, Memory> {
        let Frame {
            choice,
            reasons,
            below,
            ..
        } = self;
        Ok(Closed {
            reasons: Reasons::marked(alloc, &reasons)?,
            place: Some(script.add(choice, below)?),
        })
    }
}
