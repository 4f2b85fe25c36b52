ghost use Rattle.std.specs.Prelude.{◌≡◌, ◌≢◌, ℕ, List};
ghost use Rattle.disp_model.specs.declared.entry.Entry.{Entry};
ghost use Rattle.disp_model.specs.declared.entry.Mark.TheVariants.{Working};
ghost use Rattle.disp_model.specs.History.{mark_of};
ghost use Rattle.search_crew.specs.Turns.{IsCrewTurn};

use crate::turn::Turn;
use disp_model::{Answer, Mark, Unfinished};

/// The answer for an edition that has this mark.
pub(crate) fn answered(mark: Mark) -> Turn
    ensures { (edition : ℕ) (history : List Entry) → mark ≡ mark_of edition history
        → mark ≢ Working → IsCrewTurn edition history result }
{
    match mark {
        Mark::Working => Turn::On,
        Mark::Optimal(cost) => Turn::Answer(Answer::Optimal(cost)),
        Mark::Infeasible => Turn::Answer(Answer::Infeasible),
        Mark::Stopped { spent, .. } => {
            Turn::Answer(Answer::Unfinished(Unfinished::Budget(spent)))
        }
    }
}
