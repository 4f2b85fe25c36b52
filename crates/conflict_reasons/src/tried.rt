use disp_model::{Decision, Memory};
use route_sets::Routes;
use std::alloc::Global;

/// Of so many sets of decisions about a train it is kept what they allow, at most,
const MOST_OF_TRAIN: usize = 32;

/// and of all trains only as long as no more operations than these are in all that is kept.
const MOST_OPERATIONS: usize = 1 << 18;

/// The routes of a train that decisions allow.
#[derive(Drop)]
struct Tried {
    decisions: Vec<Decision>,
    routes: Routes,
}

/// What was asked of one train, and the place of what is given up next where there is much.
#[derive(Drop)]
struct TrainTried {
    each: Vec<Tried>,
    next: usize,
}

/// The routes that sets of decisions allow, as far as they were asked for lately: of a train the
/// same ones are asked for over and over. They are of one problem, under the same fixings.
#[derive(Drop)]
pub struct TriedRoutes {
    trains: Vec<TrainTried>,
    /// How many operations the trains have of all that is kept.
    operations: usize,
}

impl TrainTried {
    /// The routes that decisions allow, where they are kept.
    fn find(&self, decisions: &[Decision]) -> Option<&Routes> {
        for tried in self.each.iter() {
            if tried.decisions.as_slice() == decisions {
                return Some(&tried.routes);
            }
        }
        None
    }

    /// Keeps routes in the place of those that were kept first.
    fn replace(&mut self, tried: Tried) {
        if let Some(oldest) = self.each.get_mut(self.next) {
            *oldest = tried;
        }
        let next = self.next.saturating_add(1);
        self.next = if next < self.each.len() { next } else { 0 };
    }
}

impl TriedRoutes {
    /// None yet, of so many trains. Fails for memory alone.
    pub fn new(alloc: Global, trains: usize) -> Result<TriedRoutes, Memory> {
        let mut each = Vec::with_capacity(alloc, trains)?;
        for _ in 0..trains {
            each.push(TrainTried {
                each: Vec::new(alloc),
                next: 0,
            })?;
        }
        Ok(TriedRoutes {
            trains: each,
            operations: 0,
        })
    }

    /// The routes of a train that decisions allow, where they are kept.
    pub(crate) fn find(&self, train: u32, decisions: &[Decision]) -> Option<&Routes> {
        self.trains.get(train as usize)?.find(decisions)
    }

    /// Keeps the routes of a train that decisions allow, if there is room for them or others of that
    /// train are there to be given up.
    pub(crate) fn keep(
        &mut self,
        train: u32,
        decisions: Vec<Decision>,
        routes: Routes,
    ) -> Result<(), Memory> {
        let Some(kept) = self.trains.get_mut(train as usize) else {
            return Ok(());
        };
        let operations = self.operations.saturating_add(routes.order().len());
        let tried = Tried { decisions, routes };
        if kept.each.len() < MOST_OF_TRAIN && operations <= MOST_OPERATIONS {
            self.operations = operations;
            kept.each.push(tried)?;
        } else {
            kept.replace(tried);
        }
        Ok(())
    }
}
