ghost use Rattle.std.specs.Prelude.{[], ◌∷◌};
ghost use Rattle.disp_model.specs.Node.{root_of, node_at};
ghost use Rattle.disp_model.specs.declared.decision.Decision.TheVariants.{Skip};
ghost use Rattle.disp_model.specs.declared.fixing.Fixing.TheVariants.{NotBefore};
ghost use Rattle.disp_model.specs.declared.problem.Problem.{Problem};
ghost use Rattle.disp_model.specs.declared.tree.Leaf.TheVariants.{Shares};
ghost use Rattle.disp_model.specs.declared.tree.Verdict.TheVariants.{Optimal};
ghost use Rattle.disp_model.specs.Shares.{ShowsShare};
ghost use Rattle.disp_model.specs.Trees.{LeafHolds};
ghost use Rattle.definition_examples.specs.Trains.{HasBranchCosts, HasTwoTrains, op_named};
ghost use Rattle.definition_examples.specs.Trees.{first_before, first_listed, second_alone, second_behind};

/// The forked train is not to start before 5, so each branch is reached at 5: by 1 it costs 5, by 2
/// it costs 10. Its share is the lesser, also where no branch is taken yet; with 1 skipped it is
/// the other.
pub fn a_share_is_that_of_the_cheapest_route()
    ensures least { (problem : Problem) → HasBranchCosts problem
        → ShowsShare (root_of problem (NotBefore 0 0 5 ∷ [])) first_listed 5 }
    ensures left { (problem : Problem) → HasBranchCosts problem
        → ShowsShare (node_at problem (NotBefore 0 0 5 ∷ []) (Skip (op_named 0 1) ∷ []))
        first_listed 10 }
    ensures holds { (problem : Problem) → HasBranchCosts problem
        → LeafHolds (root_of problem (NotBefore 0 0 5 ∷ [])) (Optimal 5)
        (Shares [] (first_listed ∷ [])) }
    ensures too_much { (problem : Problem) → HasBranchCosts problem
        → LeafHolds (root_of problem (NotBefore 0 0 5 ∷ [])) (Optimal 6)
        (Shares [] (first_listed ∷ [])) → ⊥ }
{}

/// With the first train first, the walk across it has the length 10: listed, it makes the second
/// train's share 14. Listed without that walk, the share is what the train costs alone, 4.
pub fn a_listed_walk_counts_in_a_share()
    ensures listed { (problem : Problem) → HasTwoTrains 0 problem
        → ShowsShare (node_at problem [] first_before) second_behind 14 }
    ensures alone { (problem : Problem) → HasTwoTrains 0 problem
        → ShowsShare (node_at problem [] first_before) second_alone 4 }
{}
