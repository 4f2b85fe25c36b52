ghost use Rattle.std.specs.Prelude.{◌≡◌};
ghost use Rattle.event_graph.specs.declared.faults.ExtendNo.TheVariants.{Memory as OutOfMemory};

use disp_model::{List, Memory, Op};

/// Why a decision is not added. Then nothing has changed.
#[derive(Drop)]
pub enum ExtendNo {
    /// The first train that would have no allowed route.
    NoRoute(u32),
    /// Operations that would follow each other in a cycle.
    Cycle(List<Op>),
    /// Memory ran out.
    Memory,
}

impl From<Memory> for ExtendNo {
    ghost from_gives = { λ _ no. no ≡ OutOfMemory };

    fn from(_no: Memory) -> ExtendNo {
        ExtendNo::Memory
    }
}
