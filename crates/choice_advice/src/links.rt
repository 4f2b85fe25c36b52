use disp_model::Memory;
use incremental_paths::Arc;
use std::alloc::Global;

/// An arc from an operation.
#[derive(Clone, Copy)]
pub(crate) struct Link {
    pub to: u32,
    /// How much later the operation `to` starts, at least.
    pub length: u64,
}

/// The operations that an arc leads from and to.
#[derive(Clone, Copy)]
pub(crate) struct Ends {
    pub from: u32,
    pub to: u32,
}

/// The arcs of a graph in the order in which they were added, and by the operations that they lead
/// from.
#[derive(Drop)]
pub(crate) struct Links {
    behind: Vec<Vec<Link>>,
    each: Vec<Ends>,
    /// How many of them were there at the turn before this one, and are there still.
    kept: usize,
    turn: u64,
}

impl Links {
    /// No arcs yet between so many operations.
    pub(crate) fn new(alloc: Global, count: usize) -> Result<Links, Memory> {
        let mut behind = Vec::with_capacity(alloc, count)?;
        for _ in 0..count {
            behind.push(Vec::new(alloc))?;
        }
        Ok(Links {
            behind,
            each: Vec::new(alloc),
            kept: 0,
            turn: 0,
        })
    }

    /// Begins a turn: all arcs that are kept from now on are new in it.
    pub(crate) fn begin_turn(&mut self) {
        self.kept = self.each.len();
        self.turn = self.turn.saturating_add(1);
    }

    /// How many turns there were.
    pub(crate) fn turn(&self) -> u64 {
        self.turn
    }

    /// The arcs that are new in this turn.
    pub(crate) fn fresh(&self) -> &[Ends] {
        self.each.get(self.kept..).unwrap_or(&[])
    }

    /// How many arcs there are.
    pub(crate) fn len(&self) -> usize {
        self.each.len()
    }

    /// Keeps an arc behind the others.
    pub(crate) fn push(&mut self, arc: Arc) -> Result<(), Memory> {
        let Some(behind) = self.behind.get_mut(arc.from as usize) else {
            return Ok(());
        };
        behind.push(Link {
            to: arc.to,
            length: arc.length,
        })?;
        self.each.push(Ends {
            from: arc.from,
            to: arc.to,
        })?;
        Ok(())
    }

    /// Takes the last arc away, and gives the operations that it led from and to.
    pub(crate) fn pop(&mut self) -> Option<Ends> {
        let ends = self.each.pop()?;
        if let Some(behind) = self.behind.get_mut(ends.from as usize) {
            behind.pop();
        }
        Some(ends)
    }

    /// The arcs from an operation, in the order in which they were added.
    pub(crate) fn behind(&self, from: u32) -> &[Link] {
        match self.behind.get(from as usize) {
            Some(behind) => behind.as_slice(),
            None => &[],
        }
    }
}
