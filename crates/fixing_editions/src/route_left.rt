ghost use Rattle.std.specs.Prelude.{◌≡◌, ◌<◌, ◌↔◌, ◌∷◌, ◌++◌, [], IfOk, IsTrue, map, length};
ghost use Rattle.disp_model.specs.Node.{root_of};
ghost use Rattle.disp_model.specs.Routes.{HasRoute};
ghost use Rattle.fixing_editions.specs.Own.{fixings_with};

use crate::train_fixings::Numbered;
use disp_model::{Fixing, Memory, Problem};
use route_sets::Routes;
use std::alloc::Global;

/// The fixings of a train, and one more.
fn fixings_with(alloc: Global, kept: &[Numbered], fixing: &Fixing) -> Result<Vec<Fixing>, Memory>
    ensures { IfOk result (λ fixings. fixings.items ≡ fixings_with kept.now fixing.now) }
{
    let mut fixings = Vec::new(alloc);
    for numbered in kept {
        fixings.push(numbered.fixing)?;
    }
    fixings.push(*fixing)?;
    Ok(fixings)
}

/// Whether some route of the train agrees with its fixings and one more. Takes time linear in the
/// train's operations, their successors and its fixings.
pub(crate) fn has_route(
    alloc: Global,
    problem: &Problem,
    at_train: u64,
    kept: &[Numbered],
    fixing: &Fixing,
) -> Result<bool, Memory>
    requires there { at_train < length problem.now.trains }
    ensures { IfOk result (λ has. IsTrue has
        ↔ HasRoute (root_of problem.now (fixings_with kept.now fixing.now)) at_train) }
{
    let fixings = fixings_with(alloc, kept, fixing)?;
    let routes = Routes::of(alloc, problem, at_train as u32, &fixings, &[])?;
    Ok(!routes.none_left())
}
