// Where what is printed goes.
ghost use Rattle.std.specs.Prelude.{◌≡◌, ◌<◌, ◌≤◌, ◌↔◌, List, ℕ, Option, OnOk, IsErrOf};
ghost use Rattle.disp_outside.specs.declared.sink.WriteNo.TheVariants.{Memory};
ghost use Rattle.std.specs.Io.KnownBytes.{append_known};
ghost use Rattle.disp_outside.specs.Sink.{WritesPart};
ghost use Rattle.disp_outside.specs.States.{SinkState};

use std::alloc::AllocError;

/// Why a piece was not written.
#[derive(Clone, Copy, Debug, PartialEq, Eq)]
pub enum WriteNo {
    /// The device failed, and some of the piece, from its first byte on, may have gone out.
    Failed,
    /// There was no room, and nothing of the piece went out.
    Memory,
}

impl From<AllocError> for WriteNo {
    ghost from_gives = { λ _ no. no ≡ Memory };

    fn from(_: AllocError) -> Self {
        WriteNo::Memory
    }
}

/// Takes bytes, one piece behind the other. A sink may tell what was written.
pub trait Sink: Send {
    /// The bytes written so far, where they are told, and how often a write has failed.
    ghost state: { Self → SinkState };

    /// Writes all of the piece.
    ///
    /// # Errors
    ///
    /// `Failed` where the device failed, after some of the piece or none, and `Memory`, with which
    /// all is as before.
    fn write(&mut self, bytes: &[u8]) -> Result<(), WriteNo>
        ensures ok { OnOk result ((state self.new).written
            ≡ append_known ((state self.old).written) bytes.now) }
        ensures part { IsErrOf result WriteNo.Failed
            → WritesPart ((state self.old).written) ((state self.new).written) bytes.now }
        ensures memory { IsErrOf result WriteNo.Memory → (state self.new).written
            ≡ (state self.old).written }

        // A fault is told exactly where it is counted.
        ensures failed { IsErrOf result WriteNo.Failed
            ↔ ((state self.old).faults < (state self.new).faults) }
        ensures counted { (state self.old).faults ≤ (state self.new).faults };
}
