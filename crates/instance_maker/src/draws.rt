// Draws.
ghost use Rattle.std.specs.Prelude.{◌≡◌, ◌<◌, ◌^◌, length, Some, slice_get, IfOk};
ghost use Rattle.instance_maker.specs.Draws.{next_state, drawn, drawn_pair, third_state, pairs_of};

use disp_model::Memory;
use std::alloc::Global;

/// The numbers of a pair of trains: how long each holds the resource, and how much later the second
/// one may start.
#[derive(Clone, Copy, Debug, PartialEq, Eq)]
pub(crate) struct Pair {
    pub(crate) first: u8,
    pub(crate) second: u8,
    pub(crate) gap: u8,
}

/// The next number, below 2^15.
fn draw(state: &mut u32) -> u32
    requires { state.old < 2 ^ 31 }
    ensures value { result ≡ drawn (next_state state.old) }
    ensures state { state.new ≡ next_state state.old }
    ensures small { state.new < 2 ^ 31 }
{
    let next = (u64::from(*state) * 1_103_515_245 + 12_345) % 2_147_483_648;
    *state = next as u32;
    *state / 65_536
}

/// The numbers of the next pair.
fn draw_pair(state: &mut u32) -> Pair
    requires { state.old < 2 ^ 31 }
    ensures value { result ≡ drawn_pair state.old }
    ensures state { state.new ≡ third_state state.old }
    ensures small { state.new < 2 ^ 31 }
{
    let first = 10 + draw(state) % 20;
    let second = 10 + draw(state) % 20;
    let gap = 1 + draw(state) % 9;
    Pair {
        first: first as u8,
        second: second as u8,
        gap: gap as u8,
    }
}

/// The numbers of the first so many pairs.
pub(crate) fn pairs_of(alloc: Global, number: u32, count: u32) -> Result<Vec<Pair>, Memory>
    requires { number < 2 ^ 31 }
    ensures { IfOk result (λ pairs. pairs.items ≡ pairs_of number count) }
{
    let mut state = number;
    let mut pairs = Vec::new(alloc);
    for _ in 0..count {
        pairs.push(draw_pair(&mut state))?;
    }
    Ok(pairs)
}

/// The numbers of the pair of a place.
pub(crate) fn pair_of(pairs: &[Pair], k: u32) -> Pair
    requires { k < length pairs.now }
    ensures { slice_get pairs.now k ≡ Some result }
{
    pairs[k as usize]
}
