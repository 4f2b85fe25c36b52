ghost use Rattle.std.specs.Prelude.{[], ◌∷◌};
ghost use Rattle.disp_model.specs.declared.problem.Problem.{Problem};
ghost use Rattle.disp_model.specs.declared.tree.Verdict.TheVariants.{Optimal};
ghost use Rattle.disp_model.specs.Trees.{Accepts};
ghost use Rattle.definition_examples.specs.Histories.{a0_at_0};
ghost use Rattle.definition_examples.specs.Trains.{HasTwoTrains};
ghost use Rattle.definition_examples.specs.Trees.{counted_twice, late_tree, order_tree};

/// A branch on the order, with the costs 24 and 18 at its leaves, shows that no plan costs less
/// than 18. It does not show 19.
pub fn a_tree_shows_the_least_of_its_leaves()
    ensures accepted { (problem : Problem) → HasTwoTrains 0 problem
        → Accepts problem [] (Optimal 18) order_tree }
    ensures too_much { (problem : Problem) → HasTwoTrains 0 problem
        → Accepts problem [] (Optimal 19) order_tree → ⊥ }
{}

/// A leaf does not count two walks to one component.
pub fn a_component_counts_once()
    ensures { (problem : Problem) → HasTwoTrains 0 problem
        → Accepts problem [] (Optimal 18) counted_twice → ⊥ }
{}

/// With the first train started at 0, the second cannot go first: a walk there is too late, and 24
/// is shown.
pub fn a_late_walk_closes_a_leaf()
    ensures { (problem : Problem) → HasTwoTrains 0 problem
        → Accepts problem (a0_at_0 ∷ []) (Optimal 24) late_tree }
{}
