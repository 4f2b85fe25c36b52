// A sink over a writer, such as standard output.
ghost use Rattle.std.specs.Prelude.{◌≡◌, ◌≤◌, ◌<◌, ◌+◌, ◌↔◌, [], OnOk, IsErrOf};
ghost use Rattle.std.specs.Io.KnownBytes.{append_known, Appends, Keeps};
ghost use Rattle.disp_outside.specs.Sink.{WritesPart, PutsOut};

use crate::writing::write_whole;
use crate::{Sink, WriteNo};
use std::io::Write;

/// A sink over a writer. It tells nothing of what was written; the writer gets the bytes, all of a
/// piece or its front.
#[derive(Drop)]
pub struct StandardOutput<W> {
    writer: W,
    faults: u64,
}

impl<W: Write> StandardOutput<W> {
    ghost use Rattle.disp_outside.specs.StandardOutput.{fault_count, writer_of};

    pub fn new(writer: W) -> Self
        ensures writer { writer_of result ≡ writer }
        ensures faults { fault_count result ≡ 0 }
    {
        StandardOutput { writer, faults: 0 }
    }

    /// How many writes have failed.
    pub fn faults(&self) -> u64
        ensures { result ≡ fault_count self.now }
    {
        self.faults
    }
}

impl<W: Write + Send> Sink for StandardOutput<W> {
    ghost use Rattle.disp_outside.specs.StandardOutput.{fault_count, writer_of, told_bytes};

    ghost state = { λ sink. record { written = told_bytes sink; faults = fault_count sink } };

    // A count at its last value has no room for another fault, so nothing is tried that may add
    // one.
    fn write(&mut self, bytes: &[u8]) -> Result<(), WriteNo>
        ensures ok { OnOk result
            (told_bytes self.new ≡ append_known (told_bytes self.old) bytes.now) }
        ensures part { IsErrOf result WriteNo.Failed
            → WritesPart (told_bytes self.old) (told_bytes self.new) bytes.now }
        ensures memory { IsErrOf result WriteNo.Memory → told_bytes self.new ≡ told_bytes self.old }
        ensures failed { IsErrOf result WriteNo.Failed
            ↔ (fault_count self.old < fault_count self.new) }
        ensures counted { fault_count self.old ≤ fault_count self.new }

        ensures once { IsErrOf result WriteNo.Failed → fault_count self.new ≡ fault_count self.old
            + 1 }
        ensures empty { bytes.now ≡ [] → ¬ IsErrOf result WriteNo.Failed }

        // What the writer gets.
        ensures gets { OnOk result
            (Appends (W.contents (writer_of self.old)) (W.contents (writer_of self.new))
            bytes.now) }
        ensures gets_part { IsErrOf result WriteNo.Failed →
            PutsOut (W.contents (writer_of self.old)) (W.contents (writer_of self.new)) bytes.now }
        ensures gets_none { IsErrOf result WriteNo.Memory →
            Keeps (W.contents (writer_of self.old)) (W.contents (writer_of self.new)) }
    {
        if self.faults == u64::MAX {
            return Err(WriteNo::Memory);
        }
        let written = write_whole(&mut self.writer, bytes);
        if let Err(WriteNo::Failed) = written {
            self.faults += 1;
        }
        written
    }
}
