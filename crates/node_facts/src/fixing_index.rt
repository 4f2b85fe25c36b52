ghost use Rattle.std.specs.Prelude.{◌≡◌, IfOk};
ghost use Rattle.std.specs.List.{filter};
ghost use Rattle.disp_model.specs.Walks.{fixed_start, not_before};
ghost use Rattle.node_facts.specs.Indexed.{fixes_train};

use crate::fixing_lists::{lists_of, own_list};
use crate::fixing_times::{bars_of, starts_of, time_of};
use disp_model::{Fixing, Memory, Op};
use std::alloc::Global;
use std::collections::BTreeMap;
use std::marker::Model;

/// The fixings of a task, kept so that no question costs how many there are. Contracts see the
/// list of them.
#[derive(Drop)]
pub struct FixingIndex {
    fixings: Vec<Fixing>,
    /// Of each operation that is fixed to a time that time, by the numbers of the train and the
    /// operation.
    starts: BTreeMap<(u64, u64), u64>,
    /// Of each operation the greatest time before which it is fixed not to start.
    bars: BTreeMap<(u64, u64), u64>,
    /// The fixings by their trains; the last list is of all trains that have none of their own.
    lists: Vec<Vec<Fixing>>,
}

impl Model for FixingIndex {
    ghost use Rattle.std.specs.Prelude.{List};
    ghost use Rattle.disp_model.specs.declared.fixing.Fixing.{Fixing};
    ghost use Rattle.node_facts.specs.Indexed.{AreIndexed};

    ghost Value = { List Fixing };

    ghost view = { λ index. index.fixings.items };

    ghost invariant = { λ index. AreIndexed index.fixings.items index.starts.entries
        index.bars.entries index.lists.items };
}

/// The same fixings in a vector of their own.
fn copy_of(alloc: Global, fixings: &[Fixing]) -> Result<Vec<Fixing>, Memory>
    ensures { IfOk result (λ copy. copy.items ≡ fixings.now) }
{
    let mut copy = Vec::with_capacity(alloc, fixings.len())?;
    for fixing in fixings {
        copy.push(*fixing)?;
    }
    Ok(copy)
}

impl FixingIndex {
    /// These fixings. Those of the first so many trains are kept in lists of the trains' own.
    ///
    /// # Errors
    ///
    /// `Memory` where memory runs out.
    pub fn of(alloc: Global, trains: usize, fixings: &[Fixing]) -> Result<FixingIndex, Memory>
        ensures { IfOk result (λ index. index ≡ fixings.now) }
    {
        Ok(FixingIndex {
            fixings: copy_of(alloc, fixings)?,
            starts: starts_of(alloc, fixings)?,
            bars: bars_of(alloc, fixings)?,
            lists: lists_of(alloc, trains, fixings)?,
        })
    }

    /// The time to which an operation is fixed, if it is.
    pub(crate) fn start(&self, op: Op) -> Option<u64>
        ensures { result ≡ fixed_start self.now op }
    {
        time_of(&self.starts, u64::from(op.train), u64::from(op.op))
    }

    /// The greatest time before which an operation is fixed not to start, or 0.
    pub(crate) fn bar(&self, op: Op) -> u64
        ensures { result ≡ not_before self.now op }
    {
        time_of(&self.bars, u64::from(op.train), u64::from(op.op)).unwrap_or(0)
    }

    /// Fixings that have all those among them, in order, that speak of a train. For a train with a
    /// list of its own there are no others.
    pub(crate) fn about(&self, train: u32) -> &[Fixing]
        ensures { filter (fixes_train train) result.now ≡ filter (fixes_train train) self.now }
    {
        let place = own_list(&self.lists, u64::from(train));
        self.lists[place].as_slice()
    }
}
