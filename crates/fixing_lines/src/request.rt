ghost use Rattle.std.specs.Prelude.{◌≡◌, ◌↔◌, MatchOption};
ghost use Rattle.disp_model.specs.declared.fixing.Change.{Change};
ghost use Rattle.fixing_lines.specs.Requests.{IsAsked, Reads};

use crate::fields::{fields_after, number_after};
use disp_model::{Change, Fixing};

/// What a line of a feed asks.
#[derive(Clone, Copy, Debug, PartialEq, Eq)]
pub enum Request {
    /// For a change.
    Ask(Change),
    /// To be shown where the search stands.
    Show,
    /// Nothing: the line is no request.
    Unreadable,
}

/// The change that a line asks for.
fn asked(line: &[u8]) -> Option<Change>
    ensures { MatchOption result ((change : Change) → IsAsked line.now change → ⊥)
        (IsAsked line.now) }
{
    if let Some(fields) = fields_after(line, b"started ") {
        return Some(Change::Fix(Fixing::Started {
            at_train: fields.at_train,
            at_op: fields.at_op,
            time: fields.last,
        }));
    }
    if let Some(fields) = fields_after(line, b"chosen ") {
        return Some(Change::Fix(Fixing::Chosen {
            at_train: fields.at_train,
            at_op: fields.at_op,
            next: fields.last,
        }));
    }
    if let Some(fields) = fields_after(line, b"notbefore ") {
        return Some(Change::Fix(Fixing::NotBefore {
            at_train: fields.at_train,
            at_op: fields.at_op,
            time: fields.last,
        }));
    }
    let number = number_after(line, b"withdraw ")?;
    Some(Change::Withdraw { number })
}

/// What a line, without its end, asks: `started TRAIN OP TIME`, `chosen TRAIN OP SUCC`,
/// `notbefore TRAIN OP TIME`, `withdraw N` or `show`, with one space between two fields and none
/// before or behind. A number is decimal, without needless zeros, and at most 18446744073709551615.
/// Every other line is unreadable, the empty line too. It takes no memory.
pub fn read_request(line: &[u8]) -> Request
    ensures exact { (request : Request) → (result ≡ request) ↔ Reads line.now request }
{
    if line == b"show".as_slice() {
        return Request::Show;
    }
    match asked(line) {
        Some(change) => Request::Ask(change),
        None => Request::Unreadable,
    }
}
