// Laws over the tree of a search, each the contract of a function without a body.
ghost use Rattle.std.specs.Prelude.{ℕ, Bool, List, Option, None, length, ◌↔◌};
ghost use Rattle.disp_model.specs.declared.entry.Split.{Split};
ghost use Rattle.disp_model.specs.declared.fixing.Fixing.{Fixing};
ghost use Rattle.disp_model.specs.declared.problem.Problem.{Problem};
ghost use Rattle.disp_model.specs.Trees.{Accepts};
ghost use Rattle.open_nodes.specs.declared.work.Fragment.{Fragment};
ghost use Rattle.open_nodes.specs.declared.work.GiveBack.{GiveBack};
ghost use Rattle.open_nodes.specs.declared.work.Take.{Take};
ghost use Rattle.open_nodes.specs.declared.work.Work.{Work};
ghost use Rattle.open_nodes.specs.States.{State, one_open_leaf, NoneWanted, Takes, GivesBack};
ghost use Rattle.open_nodes.specs.Grafts.{FillPlaces, Grows};
ghost use Rattle.open_nodes.specs.Preorder.{IsFirstSought, preorder};
ghost use Rattle.open_nodes.specs.Shown.{tree_of, fallen_at, with_edition};
ghost use Rattle.open_nodes.specs.Filled.{IsTree, HaveChoices, AllHold, NewHold, verdict_for};

/// The first leaf is a tree.
pub fn one_leaf_is_a_tree()
    ensures { (problem : Problem) → IsTree problem one_open_leaf }
{}

/// Grown trees are trees: where a fragment has grown in the place of its leaf, the links lead
/// through all places, and these fill the tree.
pub fn grown_trees_are_trees()
    ensures { (problem : Problem) (state : State) (fragment : Fragment) (splits : List Split)
        (after : State) → IsTree problem state → Grows problem state fragment splits after
        → FillPlaces problem 1 fragment.subtree fragment.bounds
        → HaveChoices problem fragment.subtree → IsTree problem after }
{}

/// Where a leaf has grown, each leaf holds for its kept bound if each did before, and the leaf that
/// has grown and the new ones do.
pub fn grown_leaves_hold()
    ensures { (problem : Problem) (fixings : List Fixing) (state : State) (fragment : Fragment)
        (splits : List Split) (after : State) → IsTree problem state
        → Grows problem state fragment splits after
        → AllHold problem fixings state.places state.kept
        → NewHold problem fixings (length state.places) fragment.work.node after.places after.kept
        → AllHold problem fixings after.places after.kept }
{}

/// Trees stay trees: where a leaf is taken or given back, or falls back, or the edition is newer.
pub fn trees_stay_trees()
    ensures takes { (problem : Problem) (state : State) (best : Option ℕ) (free want seen : ℕ)
        (take : Take) (after : State) → IsTree problem state
        → Takes state best free want seen take after → IsTree problem after }
    ensures back { (problem : Problem) (state : State) (work : Work) (examined : Bool)
        (answer : GiveBack) (after : State) → IsTree problem state
        → GivesBack state work examined answer after → IsTree problem after }
    ensures falls { (problem : Problem) (state : State) (n : ℕ) → IsTree problem state
        → IsTree problem (fallen_at state n) }
    ensures newer { (problem : Problem) (state : State) (edition : ℕ) → IsTree problem state
        → IsTree problem (with_edition state edition) }
{}

/// No leaf is wanted exactly where none is found along the links.
pub fn wanted_leaves_are_found()
    ensures { (problem : Problem) (state : State) (best : Option ℕ) → IsTree problem state
        → (IsFirstSought state.places best None (preorder state.places) None
        ↔ NoneWanted best state.places) }
{}

/// Ripe trees are accepted: where the places are a tree, each leaf holds for its kept bound, and no
/// leaf is wanted, the tree is accepted for the best cost, and without a best as infeasible.
pub fn ripe_trees_are_accepted()
    ensures { (problem : Problem) (fixings : List Fixing) (state : State) (best : Option ℕ)
        → IsTree problem state → AllHold problem fixings state.places state.kept
        → NoneWanted best state.places
        → Accepts problem fixings (verdict_for best) (tree_of state) }
{}
