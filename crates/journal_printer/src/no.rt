ghost use Rattle.std.specs.Prelude.{◌≡◌};
ghost use Rattle.journal_printer.specs.Causes.{of_put, of_write};

use disp_outside::{PutNo, WriteNo};

/// Why not all was printed.
#[derive(Clone, Copy, Debug, PartialEq, Eq)]
pub enum PrintNo {
    /// A tree could not be put.
    Unput,
    /// A line could not be written, or some of it alone.
    Unwritten,
    /// There was no room.
    Memory,
}

impl From<PutNo> for PrintNo {
    ghost from_gives = { λ refused no. no ≡ of_put refused };

    fn from(refused: PutNo) -> PrintNo {
        match refused {
            PutNo::Failed => PrintNo::Unput,
            PutNo::Memory => PrintNo::Memory,
        }
    }
}

impl From<WriteNo> for PrintNo {
    ghost from_gives = { λ refused no. no ≡ of_write refused };

    fn from(refused: WriteNo) -> PrintNo {
        match refused {
            WriteNo::Failed => PrintNo::Unwritten,
            WriteNo::Memory => PrintNo::Memory,
        }
    }
}
