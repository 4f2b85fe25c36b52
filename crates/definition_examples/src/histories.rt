ghost use Rattle.std.specs.Prelude.{◌≡◌, ℕ, ◌<◌, ◌≤◌, List, [], ◌∷◌};
ghost use Rattle.disp_model.specs.declared.problem.Problem.{Problem};
ghost use Rattle.disp_model.specs.declared.tree.TreeNode.{TreeNode};
ghost use Rattle.disp_model.specs.Replay.{branch, leaf, grown_by};
ghost use Rattle.disp_model.specs.declared.decision.Choice.TheVariants.{Order};
ghost use Rattle.disp_model.specs.declared.decision.Decision.TheVariants.{First};
ghost use Rattle.disp_model.specs.Legal.{IsLegal};
ghost use Rattle.definition_examples.specs.Histories.{asked, fixed_rule, grown_before, outdated, published, settled, settled_again, stopped};
ghost use Rattle.definition_examples.specs.Plans.{first_first, second_first};
ghost use Rattle.definition_examples.specs.Trains.{HasTwoTrains, a0, b0};

/// The first train is fixed to start at 0: the plan that starts it then is published, and the plan
/// that starts it at 4 is not, though it was the best before.
pub fn a_plan_is_judged_by_the_newest_edition()
    ensures shown { (problem : Problem) (budget : ℕ) → HasTwoTrains 0 problem
        → IsLegal problem (fixed_rule budget) asked }
    ensures published { (problem : Problem) (budget : ℕ) → HasTwoTrains 0 problem
        → IsLegal problem (fixed_rule budget) (published first_first 24) }
    ensures outdated { (problem : Problem) (budget : ℕ) → HasTwoTrains 0 problem
        → IsLegal problem (fixed_rule budget) outdated }
    ensures not_met { (problem : Problem) (budget : ℕ) → HasTwoTrains 0 problem
        → IsLegal problem (fixed_rule budget) (published second_first 18) → ⊥ }
    ensures other_cost { (problem : Problem) (budget : ℕ) → HasTwoTrains 0 problem
        → IsLegal problem (fixed_rule budget) (published first_first 23) → ⊥ }
{}

/// An edition is not stopped before its budget is spent.
pub fn an_edition_is_not_stopped_early()
    ensures unspent { (problem : Problem) (budget bound : ℕ) → HasTwoTrains 0 problem → 0 < budget
        → IsLegal problem (fixed_rule budget) (stopped 0 bound) → ⊥ }
    ensures invented { (problem : Problem) (budget bound : ℕ) → HasTwoTrains 0 problem → 0 < budget
        → IsLegal problem (fixed_rule budget) (stopped budget bound) → ⊥ }
{}

/// A history in which a start is fixed, the tree split by the order that is picked, a plan of cost
/// 24 published and the edition settled with 24. With the plan of cost 18 in its place it is not
/// legal.
pub fn an_edition_is_settled_by_its_tree()
    ensures legal { (problem : Problem) (budget : ℕ) → HasTwoTrains 0 problem → 1 ≤ budget
        → IsLegal problem (fixed_rule budget) (settled first_first 24) }
    ensures not_met { (problem : Problem) (budget : ℕ) → HasTwoTrains 0 problem
        → IsLegal problem (fixed_rule budget) (settled second_first 18) → ⊥ }
{}

/// An edition that was settled is not settled again, with whatever tree.
pub fn an_edition_is_settled_once()
    ensures { (problem : Problem) (budget : ℕ) (tree : List TreeNode) → HasTwoTrains 0 problem
        → IsLegal problem (fixed_rule budget) (settled_again tree) → ⊥ }
{}

/// With no budget the edition is stopped at once, with the bound 14 of the tree's one leaf, and
/// with no other.
pub fn an_edition_is_stopped_with_its_bound()
    ensures legal { (problem : Problem) → HasTwoTrains 0 problem
        → IsLegal problem (fixed_rule 0) (stopped 0 14) }
    ensures only { (problem : Problem) (bound : ℕ) → HasTwoTrains 0 problem
        → IsLegal problem (fixed_rule 0) (stopped 0 bound) → bound ≡ 14 }
{}

/// There is one tree over all editions: an accepted change leaves the grown tree as it is.
pub fn a_tree_goes_on_over_editions()
    ensures { (problem : Problem) → (grown_by problem grown_before).places
        ≡ branch (Order a0 b0) ∷ leaf 1 (First a0 b0 ∷ []) ∷ leaf 2 (First b0 a0 ∷ []) ∷ [] }
{}
