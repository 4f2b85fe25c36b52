// Laws over the answers to the same words and files.
ghost use Rattle.std.specs.Prelude.{◌≡◌, ℕ, List};
ghost use Rattle.disp_model.specs.declared.entry.Entry.{Entry};
ghost use Rattle.command_words.specs.declared.task.SolveTask.{SolveTask};
ghost use Rattle.command_words.specs.declared.task.Task.{Task};
ghost use Rattle.command_words.specs.declared.task.Task.TheVariants.{Solve};
ghost use Rattle.command_words.specs.Task.{IsTask, AreRefused};
ghost use Rattle.disp_outside.specs.States.{Holdings, Counts};
ghost use Rattle.text_puts.specs.Outside.{Outside};
ghost use Rattle.answered_tasks.specs.declared.cause.Cause.{Cause};
ghost use Rattle.answered_tasks.specs.declared.outcome.Answer.{Answer};
ghost use Rattle.answered_tasks.specs.Answers.{AnswersSolve, IsAnswer};
ghost use Rattle.answered_tasks.specs.Causes.{StopsRun, IsAnswerStatus};
ghost use Rattle.answered_tasks.specs.Endings.{Ends};
ghost use Rattle.answer_laws.specs.Agreed.{IsFromOutside, AreAlike, SayTheSame, AsksForJudgement, AreOfOneEdition, AnswerAlike};
ghost use Rattle.answer_laws.specs.Told.{TellsInputs, AreTold, HoldTheSame};

/// Words ask for one task, and for none where they are refused.
pub fn words_ask_for_one_task()
    ensures one { (words : List (List ℕ)) (task other : Task)
        → IsTask words task → IsTask words other → task ≡ other }
    ensures none { (words : List (List ℕ)) (task : Task)
        → IsTask words task → AreRefused words → ⊥ }
{}

/// Where the files are told that the words name, and there is an answer, nothing stops the run but
/// want of memory or a failed reading: no file is refused.
pub fn answers_are_not_refused()
    ensures { (words : List (List ℕ)) (holds : Holdings) (old new : Counts) (answer : Answer)
        (cause : Cause)
        → AreTold words holds → IsAnswer words holds answer
        → StopsRun words holds old new cause → IsFromOutside cause }
{}

/// Two causes that stop runs of the same words and told files are one, but for want of memory,
/// failed readings, and what clap says of refused words.
pub fn causes_are_one()
    ensures { (words : List (List ℕ)) (holds : Holdings) (old new before after : Counts)
        (one other : Cause)
        → AreTold words holds → StopsRun words holds old new one
        → StopsRun words holds before after other → AreAlike one other }
{}

/// Two answers to `verify`, `report` or `check` of the same words and told files say the same:
/// status, lines, and what is put.
pub fn judgements_are_one()
    ensures { (words : List (List ℕ)) (holds : Holdings) (task : Task) (one other : Answer)
        → IsTask words task → AsksForJudgement task → AreTold words holds
        → IsAnswer words holds one → IsAnswer words holds other → SayTheSame one other }
{}

/// Two answers to `solve` of the same told files, whatever the budgets, the rules and the numbers
/// of searchers: they are of one edition; optimal costs are one, optimal and infeasible exclude
/// each other, and the bound of a stop is at most the optimal cost.
pub fn searches_agree()
    ensures { (holds : Holdings) (task other : SolveTask) (one two : Answer)
        → TellsInputs holds (Solve task) → task.problem ≡ other.problem
        → task.fixings ≡ other.fixings
        → (a : AnswersSolve holds task one) → (b : AnswersSolve holds other two)
        → AreOfOneEdition a.solved.standing b.solved.standing }
{}

/// Two runs of the same words over files that are told and hold the same: where one ends with an
/// answer the other is not refused; two that judge or check end with one status, and write the same
/// text; and of two that solve, one does not find a plan of least cost where the other finds that
/// no plan is valid.
pub fn runs_agree()
    ensures refused { (words : List (List ℕ)) (old new other later : Outside) (status code : ℕ)
        (journal entries : List Entry)
        → AreTold words old.holds → HoldTheSame old other
        → Ends words old new status journal → Ends words other later code entries
        → IsAnswerStatus status → code ≡ 2 → ⊥ }
    ensures judged { (words : List (List ℕ)) (old new other later : Outside) (status code : ℕ)
        (journal entries : List Entry) (task : Task)
        → AreTold words old.holds → HoldTheSame old other
        → IsTask words task → AsksForJudgement task
        → Ends words old new status journal → Ends words other later code entries
        → IsAnswerStatus status → IsAnswerStatus code
        → AnswerAlike old new other later status code }
    ensures solved { (words : List (List ℕ)) (old new other later : Outside) (status code : ℕ)
        (journal entries : List Entry) (task : SolveTask)
        → AreTold words old.holds → HoldTheSame old other → IsTask words (Solve task)
        → Ends words old new status journal → Ends words other later code entries
        → status ≡ 0 → code ≡ 1 → ⊥ }
{}
