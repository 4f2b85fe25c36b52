// Laws over histories with one more entry.
ghost use Rattle.std.specs.Prelude.{◌≡◌, ℕ, ◌+◌, ◌≤◌, List, [], ◌∷◌, ◌++◌, Option, length, take};
ghost use Rattle.disp_model.specs.declared.entry.Entry.{Entry};
ghost use Rattle.disp_model.specs.declared.entry.Mark.TheVariants.{Working};
ghost use Rattle.disp_model.specs.declared.problem.Problem.{Problem};
ghost use Rattle.disp_model.specs.declared.settings.Settings.{Settings};
ghost use Rattle.disp_model.specs.History.{change_of, changes_of, newest, fixings_after, plan_after, last_plan, mark_after, mark_of, IsBestCost};
ghost use Rattle.disp_model.specs.Legal.{IsLegalEntry, IsLegal};
ghost use Rattle.disp_model.specs.Replies.{IsEdition};
ghost use Rattle.disp_model.specs.Replay.{after_entry, grown_by, splits_of, spent_on};

/// Histories grow: what is read off a history is read off it with one more entry by a look at that
/// entry.
pub fn histories_grow()
    ensures changes { (history : List Entry) (entry : Entry)
        → changes_of (history ++ entry ∷ []) ≡ changes_of history ++ change_of entry }
    ensures grown { (problem : Problem) (history : List Entry) (entry : Entry)
        → grown_by problem (history ++ entry ∷ [])
        ≡ after_entry problem (grown_by problem history) entry }
    ensures spent { (number : ℕ) (history : List Entry) (entry : Entry)
        → spent_on number (history ++ entry ∷ [])
        ≡ spent_on number history + splits_of number entry }
    ensures mark { (number : ℕ) (history : List Entry) (entry : Entry)
        → mark_of number (history ++ entry ∷ [])
        ≡ mark_after number (mark_of number history) entry }
    ensures plan { (history : List Entry) (entry : Entry)
        → last_plan (history ++ entry ∷ []) ≡ plan_after (last_plan history) entry }
{}

/// Legal histories grow by legal entries, and their accepted changes are those of an edition.
pub fn legal_histories_grow()
    ensures none { (problem : Problem) (settings : Settings) → IsLegal problem settings [] }
    ensures more { (problem : Problem) (settings : Settings) (history : List Entry) (entry : Entry)
        → IsLegal problem settings history → IsLegalEntry problem settings history entry
        → IsLegal problem settings (history ++ entry ∷ []) }
    ensures front { (problem : Problem) (settings : Settings) (history : List Entry) (entry : Entry)
        → IsLegal problem settings (history ++ entry ∷ []) → IsLegal problem settings history }
    ensures edition { (problem : Problem) (settings : Settings) (history : List Entry)
        → IsLegal problem settings history → IsEdition problem (changes_of history) }
{}

/// Where no number past an edition is spent on or settled yet: a newer edition begins unspent and
/// is worked on.
pub fn newer_editions_are_new()
    ensures spent { (problem : Problem) (settings : Settings) (history : List Entry) (number : ℕ)
        → IsLegal problem settings history → newest history + 1 ≤ number
        → spent_on number history ≡ 0 }
    ensures mark { (problem : Problem) (settings : Settings) (history : List Entry) (number : ℕ)
        → IsLegal problem settings history → newest history + 1 ≤ number
        → mark_of number history ≡ Working }
{}

/// What stands of an older history stays: the front of a history with one more entry is the same,
/// and so are the fixings of an edition that it has.
pub fn fronts_stay()
    ensures front { (history : List Entry) (entry : Entry) (seen : ℕ) → seen ≤ length history
        → take seen (history ++ entry ∷ []) ≡ take seen history }
    ensures fixings { (history : List Entry) (entry : Entry) (number : ℕ)
        → number ≤ newest history
        → fixings_after number (history ++ entry ∷ []) ≡ fixings_after number history }
    ensures newest { (history : List Entry) (seen : ℕ)
        → newest (take seen history) ≤ newest history }
    ensures then { (history : List Entry) (seen : ℕ)
        → fixings_after (newest (take seen history)) history
        ≡ fixings_after (newest (take seen history)) (take seen history) }
{}
