// What a code tells beside what was put.
ghost use Rattle.std.specs.Prelude.{◌≤◌, ℕ};
ghost use Rattle.incumbent_cell.specs.Code.{packed, TellsNoWorse};

use crate::packing::NEWEST;

/// A code that is found at most that of a put tells of a newer edition, or of the same one and a
/// cost that is no greater, as far as codes tell costs.
pub fn codes_compare()
    ensures { (code edition cost : ℕ) → edition ≤ NEWEST → code ≤ packed edition cost
        → TellsNoWorse code edition cost }
{}
