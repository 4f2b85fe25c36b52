// A sink in memory whose writes never break.
ghost use Rattle.std.specs.Prelude.{◌≡◌, [], Some};

use disp_outside::{Sink, WriteNo};
use std::alloc::Global;

/// A sink in memory that tells what was written. No write fails, but for want of memory.
#[derive(Drop)]
pub struct SteadySink {
    written: Vec<u8>,
}

impl SteadySink {
    ghost use Rattle.outside_in_memory.specs.SteadySink.{written_bytes};

    pub fn new(alloc: Global) -> Self
        ensures { written_bytes result ≡ [] }
    {
        SteadySink {
            written: Vec::new(alloc),
        }
    }

    /// The bytes written so far.
    pub fn written(&self) -> &[u8]
        ensures { result.now ≡ written_bytes self.now }
    {
        &self.written
    }
}

impl Sink for SteadySink {
    ghost use Rattle.outside_in_memory.specs.SteadySink.{written_bytes};

    ghost state = { λ sink. record { written = Some (written_bytes sink); faults = 0 } };

    fn write(&mut self, bytes: &[u8]) -> Result<(), WriteNo> {
        self.written.extend_from_slice(bytes)?;
        Ok(())
    }
}
