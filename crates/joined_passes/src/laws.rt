// Laws over what the first pass knows when passes are joined again.
ghost use Rattle.std.specs.Prelude.{◌≡◌, ◌≢◌, ℕ, [], List, All};
ghost use Rattle.disp_model.specs.declared.entry.Entry.{Entry};
ghost use Rattle.turn_lock.specs.Known.{Known};
ghost use Rattle.shared_board.specs.declared.terms.Terms.{Terms};
ghost use Rattle.shared_board.specs.Onward.{entries_by};
ghost use Rattle.joined_passes.specs.Joined.{AreAllJoined};

/// The history has those entries of a caller's lines that the caller's pass had seen, and no other.
pub fn own_entries()
    ensures { (first : Known Entry Terms) (others : List (Known Entry Terms))
        (history : List Entry) → AreAllJoined first others history
        → All (λ one. entries_by one.caller history ≡ entries_by one.caller one.seen) others }
{}

/// A caller of whom no pass was joined has no line in the history.
pub fn no_other_entries()
    ensures { (first : Known Entry Terms) (others : List (Known Entry Terms))
        (history : List Entry) (caller : ℕ) → AreAllJoined first others history
        → All (λ one. one.caller ≢ caller) others → entries_by caller history ≡ [] }
{}
