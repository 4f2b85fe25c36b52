ghost use Rattle.std.specs.Prelude.{◌≡◌, [], ◌∷◌, ◌++◌, length, OnOk, OnErr, if◌then◌else◌};

use disp_model::Memory;
use std::alloc::Global;
use std::marker::Model;

/// How many operations of a row take no memory.
const FEW: usize = 4;

/// The operations to which routes go on from one. Few of them stand in the row itself, since there
/// are few mostly, and rows are made very often.
#[derive(Drop)]
pub struct Row {
    /// As many as are counted, where there are few.
    few: [u32; FEW],
    count: usize,
    /// All of them, where there are more.
    many: Vec<u32>,
}

impl Model for Row {
    ghost use Rattle.std.specs.Prelude.{◌≡◌, ◌<◌, ◌≤◌, ◌++◌, [], ℕ, List, take};

    ghost Value = { List ℕ };

    ghost view = { λ r. take r.count r.few ++ r.many.items };

    ghost invariant = { λ r. (r.count ≤ 4) × (0 < r.count → r.many.items ≡ []) };
}

impl Row {
    /// The row without operations.
    pub fn new(alloc: Global) -> Row
        ensures { result ≡ [] }
    {
        Row {
            few: [0; FEW],
            count: 0,
            many: Vec::new(alloc),
        }
    }

    /// The operations as a slice.
    pub fn as_slice(&self) -> &[u32]
        ensures { result.now ≡ self.now }
    {
        if self.count == 0 {
            return self.many.as_slice();
        }
        &self.few[..self.count]
    }

    /// How many operations there are.
    pub fn len(&self) -> usize
        ensures { result ≡ length self.now }
    {
        self.as_slice().len()
    }

    /// Adds an operation at the end.
    pub fn push(&mut self, next: u32) -> Result<(), Memory>
        ensures ok { OnOk result (self.new ≡ self.old ++ next ∷ []) }
        ensures err { OnErr result (self.new ≡ self.old) }
    {
        if self.count < FEW && self.many.len() == 0 {
            self.few[self.count] = next;
            self.count += 1;
            return Ok(());
        }
        if self.count > 0 {
            self.many.extend_from_slice(&self.few)?;
            self.count = 0;
        }
        self.many.push(next)?;
        Ok(())
    }

    /// Adds an operation at the end, where it is kept.
    pub fn push_if(&mut self, next: u32, kept: bool) -> Result<(), Memory>
        ensures ok { OnOk result
            (self.new ≡ (if kept then self.old ++ next ∷ [] else self.old)) }
        ensures err { OnErr result (self.new ≡ self.old) }
    {
        if kept {
            self.push(next)?;
        }
        Ok(())
    }
}
