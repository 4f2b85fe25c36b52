//! What a state has to say of its history.
ghost use Rattle.std.specs.Prelude.{◌≡◌, ℕ, List, Option, length};

/// A state with a history: a list of entries, each of which may name the caller that made it.
pub trait History: Drop {
    type Entry;

    /// What a state is given once. It is read in clauses alone.
    type Terms;

    // The entries so far, oldest first.
    ghost entries: { Self → List Self.Entry };

    // The caller that an entry names.
    ghost named: { Self.Entry → Option ℕ };

    // What never changes of a state.
    ghost terms: { Self → Self.Terms };

    // What every state keeps.
    ghost kept: { Self → Type 0 };

    /// How many entries there are.
    fn count(&self) -> u64
        ensures { result ≡ length (entries self.now) };
}
