// Laws over the definitions, each the contract of a function without a body, for every crate to
// cite.
ghost use Rattle.std.specs.Prelude.{◌≡◌, ◌⊎◌, ℕ, List, Option, Some};
ghost use Rattle.disp_model.specs.declared.plan.Event.{Event};
ghost use Rattle.solution_text.specs.Texts.{solution_text};
ghost use Rattle.solution_text.specs.Limits.{IsWithinLimits};
ghost use Rattle.solution_text.specs.declared.fault.SolutionNo.{SolutionNo};
ghost use Rattle.solution_text.specs.Reading.{IsReadAsSolution, IsRefusedSolution, HasSolutionAnswer};

/// What is written of a plan and a cost within the limits is read again as the same: at most
/// 1048575 events, trains and operations to 2147483647, times to 2^62 and a cost to 2^63 - 1.
pub fn written_is_read()
    ensures { (plan : List Event) (cost : ℕ) → IsWithinLimits plan cost
        → IsReadAsSolution (solution_text plan cost) plan (Some cost) }
{}

/// But for want of memory, the refusals of a text are one, a text of which a plan is read has none,
/// and only one plan and one stated value are read of it. So each answer comes exactly where its
/// clause allows it.
pub fn answers_exclude_each_other()
    ensures refusals { (bytes : List ℕ) (why other : SolutionNo) → IsRefusedSolution bytes why
        → IsRefusedSolution bytes other → (why ≡ SolutionNo.Memory)
        ⊎ ((other ≡ SolutionNo.Memory) ⊎ (why ≡ other)) }
    ensures plans { (bytes : List ℕ) (plan : List Event) (stated : Option ℕ) (why : SolutionNo)
        → IsReadAsSolution bytes plan stated → IsRefusedSolution bytes why
        → why ≡ SolutionNo.Memory }
    ensures one_plan { (bytes : List ℕ) (plan other : List Event) (stated given : Option ℕ)
        → IsReadAsSolution bytes plan stated → IsReadAsSolution bytes other given → (plan ≡ other)
        × (stated ≡ given) }
{}

/// Each text has an answer beside want of memory: a plan, or a refusal.
pub fn each_text_has_an_answer()
    ensures { (bytes : List ℕ) → HasSolutionAnswer bytes }
{}
