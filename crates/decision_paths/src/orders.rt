ghost use Rattle.std.specs.Prelude.{◌≡◌, ◌++◌, ◌∷◌, [], List, OnOk, OnErr, length};
ghost use Rattle.disp_model.specs.declared.decision.Decision.{Decision};
ghost use Rattle.disp_model.specs.declared.decision.Decision.TheVariants.{First};
ghost use Rattle.decision_paths.specs.Kept.{place_in, AreFirsts};

use disp_model::{Memory, Op};
use std::collections::BTreeMap;

/// The place that is kept of an order, the first of its operations before the second.
pub(crate) fn place_of(orders: &BTreeMap<(Op, Op), usize>, a: Op, b: Op) -> Option<usize>
    ensures { result ≡ place_in orders.now.entries a b }
{
    match orders.get(&(a, b)) {
        Some(place) => Some(*place),
        None => None,
    }
}

/// Keeps the place of an order that is put behind, if it stands in none before.
pub(crate) fn note_order(
    orders: &mut BTreeMap<(Op, Op), usize>,
    a: Op,
    b: Op,
    place: usize,
) -> Result<(), Memory>
    ensures ok { OnOk result ((decisions : List Decision)
        → AreFirsts decisions orders.old.entries → length decisions ≡ place
        → AreFirsts (decisions ++ First a b ∷ []) orders.new.entries) }
    ensures err { OnErr result (orders.new.entries ≡ orders.old.entries) }
{
    match place_of(orders, a, b) {
        Some(_) => Ok(()),
        None => {
            orders.insert((a, b), place)?;
            Ok(())
        }
    }
}

/// Keeps the place of an order no longer that is taken back, if it stands in none before.
pub(crate) fn forget_order(orders: &mut BTreeMap<(Op, Op), usize>, a: Op, b: Op, place: usize)
    ensures { (decisions : List Decision)
        → AreFirsts (decisions ++ First a b ∷ []) orders.old.entries → length decisions ≡ place
        → AreFirsts decisions orders.new.entries }
{
    let Some(first) = place_of(orders, a, b) else {
        return;
    };
    if first < place {
        return;
    }
    orders.remove(&(a, b));
}
