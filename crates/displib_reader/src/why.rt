ghost use Rattle.std.specs.Prelude.{◌≡◌, ◌++◌, OnOk, OnErr, codes, string_bytes};
ghost use Rattle.std.specs.Fmt.{decimal};
ghost use Rattle.plain_values.specs.Texts.{Adds};
ghost use Rattle.displib_reader.specs.Why.{operation_text, listing_text, operation_key_text, listing_key_text, component_key_text, place_text, kind_text, why_text};

use crate::fault::{Kind, ProblemNo};
use crate::place::{ComponentKey, ListingKey, OperationKey, Place};
use disp_model::Memory;
use json_claims::{Described, describe_behind, describe_whole};

impl OperationKey {
    /// The key in the text.
    fn as_str(self) -> &'static str
        ensures { result.now ≡ operation_key_text self }
    {
        match self {
            OperationKey::StartLb => "start_lb",
            OperationKey::StartUb => "start_ub",
            OperationKey::MinDuration => "min_duration",
            OperationKey::Resources => "resources",
            OperationKey::Successors => "successors",
        }
    }
}

impl ListingKey {
    /// The key in the text.
    fn as_str(self) -> &'static str
        ensures { result.now ≡ listing_key_text self }
    {
        match self {
            ListingKey::Resource => "resource",
            ListingKey::ReleaseTime => "release_time",
        }
    }
}

impl ComponentKey {
    /// The key in the text.
    fn as_str(self) -> &'static str
        ensures { result.now ≡ component_key_text self }
    {
        match self {
            ComponentKey::Kind => "type",
            ComponentKey::Train => "train",
            ComponentKey::Operation => "operation",
            ComponentKey::Threshold => "threshold",
            ComponentKey::Increment => "increment",
            ComponentKey::Coeff => "coeff",
        }
    }
}

impl Kind {
    /// The word that is printed.
    fn as_str(self) -> &'static str
        ensures { result.now ≡ kind_text self }
    {
        match self {
            Kind::Trains => "trains",
            Kind::Operations => "operations",
            Kind::Components => "components",
        }
    }
}

/// Adds the place of an operation.
fn write_operation(text: &mut String, t: u64, o: u64) -> Result<(), Memory>
    ensures { OnOk result
        (Adds (string_bytes text.old) (string_bytes text.new) (operation_text t o)) }
{
    write!(text, "/trains/{t}/{o}")?;
    Ok(())
}

/// Adds the place of a listing.
#[tactic(auto, using(plain_values::proofs::Added::joined))]
fn write_listing(text: &mut String, t: u64, o: u64, k: u64) -> Result<(), Memory>
    ensures { OnOk result
        (Adds (string_bytes text.old) (string_bytes text.new) (listing_text t o k)) }
{
    write_operation(text, t, o)?;
    write_member(text, "/resources/", k)?;
    Ok(())
}

/// Adds a word and a number.
fn write_member(text: &mut String, word: &str, number: u64) -> Result<(), Memory>
    ensures { OnOk result
        (Adds (string_bytes text.old) (string_bytes text.new) (word.now ++ decimal number)) }
{
    write!(text, "{word}{number}")?;
    Ok(())
}

/// Adds a word and the number of a component.
fn write_index(text: &mut String, word: &str, number: u32) -> Result<(), Memory>
    ensures { OnOk result
        (Adds (string_bytes text.old) (string_bytes text.new) (word.now ++ decimal number)) }
{
    write!(text, "{word}{number}")?;
    Ok(())
}

/// Adds a word, the number of a train, and a count.
fn write_count(text: &mut String, word: &str, t: u32, count: u64) -> Result<(), Memory>
    ensures { OnOk result (Adds (string_bytes text.old) (string_bytes text.new)
        (word.now ++ decimal t ++ codes " " ++ decimal count)) }
{
    write!(text, "{word}{t} {count}")?;
    Ok(())
}

/// Adds a key behind a place.
fn write_key(text: &mut String, key: &str) -> Result<(), Memory>
    ensures { OnOk result (Adds (string_bytes text.old) (string_bytes text.new)
        (codes "/" ++ key.now)) }
{
    write!(text, "/{key}")?;
    Ok(())
}

impl Place {
    /// Adds the place as a JSON pointer; the root is written `/`.
    #[tactic(auto, using(plain_values::proofs::Added::joined))]
    fn write(self, text: &mut String) -> Result<(), Memory>
        ensures { OnOk result
            (Adds (string_bytes text.old) (string_bytes text.new) (place_text self)) }
    {
        match self {
            Place::Root => write!(text, "/")?,
            Place::Trains => write!(text, "/trains")?,
            Place::Train(t) => write!(text, "/trains/{t}")?,
            Place::Operation(t, o) => write!(text, "/trains/{t}/{o}")?,
            Place::OperationKey(t, o, key) => {
                let key = key.as_str();
                write!(text, "/trains/{t}/{o}/{key}")?
            }
            Place::Listing(t, o, k) => write_listing(text, t, o, k)?,
            Place::ListingKey(t, o, k, key) => {
                write_listing(text, t, o, k)?;
                write_key(text, key.as_str())?
            }
            Place::Successor(t, o, k) => write!(text, "/trains/{t}/{o}/successors/{k}")?,
            Place::Objective => write!(text, "/objective")?,
            Place::Component(c) => write!(text, "/objective/{c}")?,
            Place::ComponentKey(c, key) => {
                let key = key.as_str();
                write!(text, "/objective/{c}/{key}")?
            }
        }
        Ok(())
    }
}

impl Described for Place {
    ghost description = { place_text };

    fn describe(&self, text: &mut String) -> Result<(), Memory> {
        self.write(text)
    }
}

impl Described for ProblemNo {
    ghost description = { why_text };

    fn describe(&self, text: &mut String) -> Result<(), Memory> {
        self.add(text)
    }
}

impl ProblemNo {
    /// Adds the text that is printed for the refusal: its name, then its numbers and places, with
    /// one space between. Where memory runs out the text is as before.
    pub fn write(&self, text: &mut String) -> Result<(), Memory>
        ensures ok { OnOk result
            (string_bytes text.new ≡ string_bytes text.old ++ why_text self.now) }
        ensures err { OnErr result (string_bytes text.new ≡ string_bytes text.old) }
    {
        describe_whole(text, self)
    }

    /// Adds the text that is printed for the refusal.
    fn add(&self, text: &mut String) -> Result<(), Memory>
        ensures { OnOk result
            (Adds (string_bytes text.old) (string_bytes text.new) (why_text self.now)) }
    {
        match *self {
            ProblemNo::NotJson => write!(text, "NotJson")?,
            ProblemNo::Shape(place) => describe_behind(text, "Shape ", &place)?,
            ProblemNo::NotWhole(place) => describe_behind(text, "NotWhole ", &place)?,
            ProblemNo::TooLarge(place) => describe_behind(text, "TooLarge ", &place)?,
            ProblemNo::TooMany(kind, count) => {
                let kind = kind.as_str();
                write!(text, "TooMany {kind} {count}")?
            }
            ProblemNo::BadIndex(place) => describe_behind(text, "BadIndex ", &place)?,
            ProblemNo::NotOneEntry(t, count) => write_count(text, "NotOneEntry ", t, count)?,
            ProblemNo::NotOneExit(t, count) => write_count(text, "NotOneExit ", t, count)?,
            ProblemNo::Loop(t, o) => write!(text, "Loop {t} {o}")?,
            ProblemNo::UnknownObjective(c) => write_index(text, "UnknownObjective ", c)?,
            ProblemNo::TooCostly(sum) => write!(text, "TooCostly {sum}")?,
            ProblemNo::Memory => write!(text, "Memory")?,
        }
        Ok(())
    }
}
