ghost use Rattle.std.specs.Prelude.{◌≡◌, ◌++◌, OnOk, OnErr, string_bytes};
ghost use Rattle.plain_values.specs.Texts.{Adds};
ghost use Rattle.solution_text.specs.Why.{key_text, solution_place_text, solution_why_text};

use crate::fault::SolutionNo;
use crate::place::{EventKey, SolutionPlace};
use disp_model::Memory;
use json_claims::{Described, describe_behind, describe_whole};

impl EventKey {
    /// The key in the text.
    fn as_str(self) -> &'static str
        ensures { result.now ≡ key_text self }
    {
        match self {
            EventKey::Operation => "operation",
            EventKey::Time => "time",
            EventKey::Train => "train",
        }
    }
}

impl SolutionPlace {
    /// Adds the place as a JSON pointer; the root is written `/`.
    fn write(self, text: &mut String) -> Result<(), Memory>
        ensures { OnOk result
            (Adds (string_bytes text.old) (string_bytes text.new) (solution_place_text self)) }
    {
        match self {
            SolutionPlace::Root => write!(text, "/")?,
            SolutionPlace::Events => write!(text, "/events")?,
            SolutionPlace::Event(k) => write!(text, "/events/{k}")?,
            SolutionPlace::EventKey(k, key) => {
                let key = key.as_str();
                write!(text, "/events/{k}/{key}")?
            }
            SolutionPlace::ObjectiveValue => write!(text, "/objective_value")?,
        }
        Ok(())
    }
}

impl Described for SolutionPlace {
    ghost description = { solution_place_text };

    fn describe(&self, text: &mut String) -> Result<(), Memory> {
        self.write(text)
    }
}

impl Described for SolutionNo {
    ghost description = { solution_why_text };

    fn describe(&self, text: &mut String) -> Result<(), Memory> {
        self.add(text)
    }
}

impl SolutionNo {
    /// Adds the text that is printed for the refusal: its name, then its place or count, with one
    /// space between. Where memory runs out the text is as before.
    pub fn write(&self, text: &mut String) -> Result<(), Memory>
        ensures ok { OnOk result
            (string_bytes text.new ≡ string_bytes text.old ++ solution_why_text self.now) }
        ensures err { OnErr result (string_bytes text.new ≡ string_bytes text.old) }
    {
        describe_whole(text, self)
    }

    /// Adds the text that is printed for the refusal.
    fn add(&self, text: &mut String) -> Result<(), Memory>
        ensures { OnOk result
            (Adds (string_bytes text.old) (string_bytes text.new) (solution_why_text self.now)) }
    {
        match *self {
            SolutionNo::NotJson => write!(text, "NotJson")?,
            SolutionNo::Shape(place) => describe_behind(text, "Shape ", &place)?,
            SolutionNo::NotWhole(place) => describe_behind(text, "NotWhole ", &place)?,
            SolutionNo::TooLarge(place) => describe_behind(text, "TooLarge ", &place)?,
            SolutionNo::TooMany(count) => write!(text, "TooMany {count}")?,
            SolutionNo::Memory => write!(text, "Memory")?,
        }
        Ok(())
    }
}
