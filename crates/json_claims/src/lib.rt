//! What a format in JSON asks of a text, and how its parts are read.
//!
//! A format states claims in document order, each on what stands at one place, and names places by
//! a type of its own. `need` and `allow` judge one claim by one rule, so that a walk along the
//! claims ends at the first place that breaks it. `field` and what stands beside it read numbers,
//! texts and lists at keys: `null` counts as absent. `read_json` gives the JSON value of bytes, or
//! says that there is none. `Described` is a place or a refusal that is printed as a text.
#![tactic(auto)]

mod described;
mod fields;
mod json;
mod judge;
mod rule;
mod unread;

pub use described::{Described, describe_behind, describe_whole};
pub use fields::{
    array_at, array_or_empty, elements, field, index, index_at, index_or, members, members_at,
    number_at, optional_index, optional_number, text_at,
};
pub use json::read_json;
pub use judge::{allow, need};
pub use rule::{Rule, Want};
pub use unread::Unread;
