//! An edition and a cost in one number. A newer edition has the smaller code, and in one edition
//! the smaller cost has.
ghost use Rattle.std.specs.Prelude.{◌≡◌, ℕ, ◌^◌, ◌<◌, ◌≤◌, ◌↔◌};
ghost use Rattle.incumbent_cell.specs.Code.{packed, edition_in, code_cost, told_cost, IsNoWorse};

/// The greatest edition that a code has room for.
pub const NEWEST: u32 = 65535;

/// From this cost on, 2^47 - 1, a code tells no cost from another.
pub const SATURATED: u64 = (1 << 47) - 1;

/// The codes of one edition.
pub(crate) const SPAN: u64 = 1 << 47;

/// The code of a new cell: edition 0, and no cost.
pub(crate) const OPENING: u64 = (1 << 63) - 1;

/// The code of a cost in an edition.
pub fn code_of(edition: u32, cost: u64) -> u64
    requires { edition ≤ NEWEST }
    ensures value { result ≡ packed edition cost }
    ensures bound { result < 2 ^ 63 }
    ensures order { (other_edition other_cost : ℕ) → other_edition ≤ NEWEST
        → (result ≤ packed other_edition other_cost)
        ↔ IsNoWorse edition cost other_edition other_cost }
{
    u64::from(NEWEST - edition) * SPAN + cost.min(SATURATED)
}

/// The edition of a code and its cost, which is `None` where it is saturated.
pub fn answer_of(code: u64) -> (u32, Option<u64>)
    requires { code < 2 ^ 63 }
    ensures value { result ≡ (edition_in code, code_cost code) }
    ensures undoes { (edition cost : ℕ) → edition ≤ NEWEST → code ≡ packed edition cost → result
        ≡ (edition, told_cost cost) }
{
    let cost = code % SPAN;
    let edition = NEWEST - (code / SPAN) as u32;
    if cost == SATURATED {
        (edition, None)
    } else {
        (edition, Some(cost))
    }
}
