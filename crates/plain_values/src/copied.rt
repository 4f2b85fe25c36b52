ghost use Rattle.std.specs.Prelude.{◌≡◌, IfOk};

use crate::memory::Memory;

/// A value that can be copied where memory allows.
pub trait Copied: Sized {
    /// A copy, equal to the value.
    fn copy(&self) -> Result<Self, Memory>
        ensures { IfOk result (λ other. other ≡ self.now) };
}

impl Copied for u32 {
    fn copy(&self) -> Result<u32, Memory> {
        Ok(*self)
    }
}
