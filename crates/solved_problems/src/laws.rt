// What the mark of a legal history promises, the contract of a function without a body.
ghost use Rattle.std.specs.Prelude.{◌≢◌, List};
ghost use Rattle.disp_model.specs.declared.entry.Entry.{Entry};
ghost use Rattle.disp_model.specs.declared.entry.Mark.TheVariants.{Working};
ghost use Rattle.disp_model.specs.declared.problem.Problem.{Problem};
ghost use Rattle.disp_model.specs.declared.settings.Settings.{Settings};
ghost use Rattle.disp_model.specs.History.{edition_of, newest, mark_of};
ghost use Rattle.disp_model.specs.Legal.{IsLegal};
ghost use Rattle.solved_problems.specs.Promised.{Promises};

/// Where the newest edition of a legal history is closed its mark says true: 'optimal' that some
/// valid plan costs so much and none less, 'infeasible' that no plan is valid, and 'stopped' that
/// the whole budget is spent and no valid plan costs less than the bound.
pub fn marks_say_true()
    ensures { (problem : Problem) (settings : Settings) (history : List Entry)
        → IsLegal problem settings history → mark_of (newest history) history ≢ Working
        → Promises problem settings (edition_of history) (mark_of (newest history) history) }
{}
