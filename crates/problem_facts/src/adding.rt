ghost use Rattle.std.specs.Prelude.{◌∷◌, []};
ghost use Rattle.problem_facts.specs.Adding.{AddsComponents};

use disp_model::Component;

/// Adds a component to what is kept of its operation, if it is of the train and anything is kept.
fn add_one<P: Copy, F: Fn(P, Component) -> P>(
    kept: &mut Vec<P>,
    train: u32,
    component: Component,
    more: &F,
)
    requires { F.IsAlwaysCallable more.now }
    ensures { AddsComponents (λ old c new. F.post more.now old c new) train (component ∷ [])
        kept.old.items kept.new.items }
{
    if component.train != train {
        return;
    }
    let at = component.operation as usize;
    if at < kept.len() {
        let sum = more(kept[at], component);
        kept[at] = sum;
    }
}

/// Adds each component of a train to what is kept of its operation, one after another: `more` says
/// what is kept then. A component of an operation of which nothing is kept is left out.
pub fn add_components<P: Copy, F: Fn(P, Component) -> P>(
    kept: &mut Vec<P>,
    train: u32,
    components: &[Component],
    more: F,
)
    requires { F.IsAlwaysCallable more }
    ensures { AddsComponents (λ old c new. F.post more old c new) train components.now
        kept.old.items kept.new.items }
{
    for component in components {
        add_one(kept, train, *component, &more);
    }
}
