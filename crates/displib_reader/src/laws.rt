ghost use Rattle.std.specs.Prelude.{◌≡◌, ◌⊎◌, ℕ, List};
ghost use Rattle.disp_model.specs.declared.problem.Problem.{Problem};
ghost use Rattle.displib_reader.specs.declared.fault.ProblemNo.{ProblemNo};
ghost use Rattle.displib_reader.specs.Outcome.{IsReadAs, IsRefused, HasAnswer};

/// Law: but for want of memory, the refusals of a text are one, a text of which a problem is read
/// has none, and only one problem is read of it. So each answer comes exactly where its clause
/// allows it.
pub fn answers_exclude_each_other()
    ensures refusals { (bytes : List ℕ) (why other : ProblemNo) → IsRefused bytes why
        → IsRefused bytes other → (why ≡ ProblemNo.Memory)
        ⊎ ((other ≡ ProblemNo.Memory) ⊎ (why ≡ other)) }
    ensures problems { (bytes : List ℕ) (problem : Problem) (why : ProblemNo)
        → IsReadAs bytes problem → IsRefused bytes why → why ≡ ProblemNo.Memory }
    ensures one_problem { (bytes : List ℕ) (problem other : Problem) → IsReadAs bytes problem
        → IsReadAs bytes other → (problem.trains ≡ other.trains)
        × (problem.components ≡ other.components) × (problem.names ≡ other.names) }
{}

/// Law: each text has an answer beside want of memory, a problem or a refusal.
pub fn each_text_has_an_answer()
    ensures { (bytes : List ℕ) → HasAnswer bytes }
{}
