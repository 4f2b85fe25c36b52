// A sink in memory, some of whose writes break.
ghost use Rattle.std.specs.Prelude.{◌≡◌, ◌≤◌, ◌<◌, ◌+◌, ◌-◌, ◌^◌, ◌↔◌, ◌⊎◌, ◌++◌, List, [], Some, None, take, IfOk, OnOk, IfSome, IsSomeAnd, IsErrOf};
ghost use Rattle.std.specs.Io.KnownBytes.{append_known};
ghost use Rattle.disp_outside.specs.Sink.{WritesPart};

use crate::BrokenWrite;
use crate::broken_write::sent_by;
use disp_outside::{Sink, WriteNo};
use std::alloc::{AllocError, Global};

/// A sink in memory that tells what was written. It fails in the calls that it is told to.
#[derive(Drop)]
pub struct MemSink {
    written: Vec<u8>,
    broken: Vec<BrokenWrite>,
    calls: u64,
    faults: u64,
    ghost each_fault_is_a_call: { faults ≤ calls },
}

impl MemSink {
    ghost use Rattle.outside_in_memory.specs.MemSink.{written_bytes, sink_fault_count, call_count, broken_writes, next_break};

    /// A sink with nothing written, whose writes break as the list says.
    pub fn new(alloc: Global, broken: &[BrokenWrite]) -> Result<Self, AllocError>
        ensures written { IfOk result (λ sink. written_bytes sink ≡ []) }
        ensures faults { IfOk result (λ sink. sink_fault_count sink ≡ 0) }
        ensures calls { IfOk result (λ sink. call_count sink ≡ 0) }
        ensures broken { IfOk result (λ sink. broken_writes sink ≡ broken.now) }
    {
        Ok(MemSink {
            written: Vec::new(alloc),
            broken: broken.to_vec(alloc)?,
            calls: 0,
            faults: 0,
        })
    }

    /// The bytes written so far.
    pub fn written(&self) -> &[u8]
        ensures { result.now ≡ written_bytes self.now }
    {
        &self.written
    }

    /// How many writes have failed.
    pub fn faults(&self) -> u64
        ensures { result ≡ sink_fault_count self.now }
    {
        self.faults
    }
}

impl Sink for MemSink {
    ghost use Rattle.outside_in_memory.specs.MemSink.{written_bytes, sink_fault_count, call_count, broken_writes, next_break};

    ghost state = { λ sink. record {
      written = Some (written_bytes sink);
      faults = sink_fault_count sink;
    } };

    fn write(&mut self, bytes: &[u8]) -> Result<(), WriteNo>
        ensures ok { OnOk result
            (Some (written_bytes self.new)
            ≡ append_known (Some (written_bytes self.old)) bytes.now) }
        ensures part { IsErrOf result WriteNo.Failed
            → WritesPart (Some (written_bytes self.old)) (Some (written_bytes self.new)) bytes.now }
        ensures memory { IsErrOf result WriteNo.Memory → Some (written_bytes self.new)
            ≡ Some (written_bytes self.old) }
        ensures failed { IsErrOf result WriteNo.Failed
            ↔ (sink_fault_count self.old < sink_fault_count self.new) }
        ensures counted { sink_fault_count self.old ≤ sink_fault_count self.new }

        // It breaks exactly in the calls of the list, after so many bytes.
        ensures unbroken { OnOk result (next_break self.old ≡ None) }
        ensures broken { IsErrOf result WriteNo.Failed → IsSomeAnd (next_break self.old) (λ sent.
            written_bytes self.new ≡ written_bytes self.old ++ take sent bytes.now) }
        ensures once { IsErrOf result WriteNo.Failed
            → sink_fault_count self.new ≡ sink_fault_count self.old + 1 }
        ensures calls { IsErrOf result WriteNo.Memory
            ⊎ (call_count self.new ≡ call_count self.old + 1) }
        ensures uncalled { IsErrOf result WriteNo.Memory → call_count self.new
            ≡ call_count self.old }
        ensures list { broken_writes self.new ≡ broken_writes self.old }
    {
        let Some(call) = self.calls.checked_add(1) else {
            return Err(WriteNo::Memory);
        };
        match sent_by(&self.broken, call) {
            None => {
                self.written.extend_from_slice(bytes)?;
                self.calls = call;
                Ok(())
            }
            Some(sent) => {
                self.written
                    .extend_from_slice(&bytes[..sent.min(bytes.len())])?;
                self.calls = call;
                self.faults += 1;
                Err(WriteNo::Failed)
            }
        }
    }
}
