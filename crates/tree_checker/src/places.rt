ghost use Rattle.std.specs.Prelude.{◌≡◌, ◌++◌, ◌≤◌, OnOk, reverse, length};
ghost use Rattle.tree_checker.specs.Places.{decisions_at, places_at};

use decision_paths::DecisionPath;
use disp_model::{Decision, Memory};

/// A place of a tree that is left.
#[derive(Clone, Copy)]
pub(crate) struct Place {
    /// How many of the decisions on the way to the node that was looked at last lead to it too.
    pub(crate) depth: usize,
    /// Its own decision; the first place has none.
    pub(crate) decision: Option<Decision>,
}

/// Goes on to a place: the decisions become those that lead to it.
pub(crate) fn go_to(path: &mut DecisionPath, place: Place) -> Result<(), Memory>
    ensures { OnOk result (path.new ≡ decisions_at path.old place) }
{
    path.truncate(place.depth);
    if let Some(decision) = place.decision {
        path.push(decision)?;
    }
    Ok(())
}

/// Puts the children of the node at a depth before the places that are left.
pub(crate) fn open(
    places: &mut Vec<Place>,
    depth: usize,
    children: &[Decision],
) -> Result<(), Memory>
    ensures { OnOk result (reverse places.new.items
        ≡ places_at depth children.now ++ reverse places.old.items) }
{
    for left in (0..children.len()).rev() {
        places.push(Place {
            depth,
            decision: Some(children[left]),
        })?;
    }
    Ok(())
}
