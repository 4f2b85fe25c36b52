ghost use Rattle.std.specs.Prelude.{◌++◌, ℕ, List, Some, codes};
ghost use Rattle.disp_model.specs.declared.plan.Event.{Event};
ghost use Rattle.disp_model.specs.declared.problem.Problem.{Problem};
ghost use Rattle.displib_reader.specs.Outcome.{IsReadAs};
ghost use Rattle.instance_maker.specs.Made.{IsMade};
ghost use Rattle.problem_text.specs.Texts.{problem_text};
ghost use Rattle.solution_text.specs.Limits.{IsWithinLimits};
ghost use Rattle.solution_text.specs.Reading.{IsReadAsSolution};
ghost use Rattle.solution_text.specs.Texts.{solution_text};
ghost use Rattle.text_laws.specs.Listed.{HasNamesInOrder};

/// What is written of a problem is read again as the same: its trains, its components and its
/// names, where each name is that of a resource that is listed, and the names stand in the order of
/// their first listing, as the reader numbers them. One LF behind the text changes nothing.
pub fn written_is_read()
    ensures text { (problem : Problem) → HasNamesInOrder problem
        → IsReadAs (problem_text problem) problem }
    ensures line { (problem : Problem) → HasNamesInOrder problem
        → IsReadAs (problem_text problem ++ codes "\n") problem }
{}

/// What is stored of a problem that is made of a number is read again as the same.
pub fn made_is_read()
    ensures text { (number trains : ℕ) (problem : Problem) → IsMade number trains problem
        → IsReadAs (problem_text problem) problem }
    ensures line { (number trains : ℕ) (problem : Problem) → IsMade number trains problem
        → IsReadAs (problem_text problem ++ codes "\n") problem }
{}

/// The names of a problem that is read are texts, and stand in the order of their first listing. So
/// what is written of it is read again as the same.
pub fn read_is_in_order()
    ensures order { (bytes : List ℕ) (problem : Problem) → IsReadAs bytes problem
        → HasNamesInOrder problem }
    ensures again { (bytes : List ℕ) (problem : Problem) → IsReadAs bytes problem
        → IsReadAs (problem_text problem) problem }
{}

/// What is stored of a plan and a cost within the limits, its text and one LF, is read again as the
/// same. (That the text alone is, is a law of `solution_text`.)
pub fn stored_solution_is_read()
    ensures { (plan : List Event) (cost : ℕ) → IsWithinLimits plan cost
        → IsReadAsSolution (solution_text plan cost ++ codes "\n") plan (Some cost) }
{}
