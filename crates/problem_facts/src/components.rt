ghost use Rattle.std.specs.Prelude.{◌≡◌, ◌<◌, [], ℕ, IfOk, OnOk, length};
ghost use Rattle.problem_facts.specs.Components.{own_in, TakesComponent, AreOwnOf};

use disp_model::{Component, List, Memory, Problem};
use std::alloc::Global;

/// The components of a problem by their trains.
#[derive(Drop)]
pub struct OwnComponents {
    each: Vec<List<Component>>,
}

/// No component yet of so many trains.
fn none_yet(alloc: Global, trains: usize) -> Result<Vec<List<Component>>, Memory>
    ensures long { IfOk result (λ each. length each.items ≡ trains) }
    ensures none { IfOk result (λ each. (t : ℕ) → own_in each.items t ≡ []) }
{
    let mut each = Vec::with_capacity(alloc, trains)?;
    for _train in 0..trains {
        each.push(List::new(alloc))?;
    }
    Ok(each)
}

/// Adds a component to those of its train.
fn add(each: &mut Vec<List<Component>>, component: Component) -> Result<(), Memory>
    requires { component.train < length each.old.items }
    ensures { OnOk result (TakesComponent component each.old.items each.new.items) }
{
    each[component.train as usize].push(component)?;
    Ok(())
}

impl OwnComponents {
    /// The components of each train. Takes time linear in trains and components, and serves all
    /// nodes of the problem.
    pub fn of(alloc: Global, problem: &Problem) -> Result<OwnComponents, Memory>
        ensures { IfOk result (AreOwnOf problem.now) }
    {
        let mut each = none_yet(alloc, problem.trains.len())?;
        for component in problem.components.as_slice() {
            add(&mut each, *component)?;
        }
        Ok(OwnComponents { each })
    }

    /// The components of a train.
    pub fn of_train(&self, train: u32) -> &[Component]
        requires { train < length self.now.each.items }
        ensures { result.now ≡ own_in self.now.each.items train }
    {
        self.each[train as usize].as_slice()
    }
}
