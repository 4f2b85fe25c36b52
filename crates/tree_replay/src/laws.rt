// Laws over the tree of a search and its splits.
ghost use Rattle.std.specs.Prelude.{◌≡◌, ◌↔◌, ◌≤◌, ℕ, Bool, List, [], ◌∷◌, Option, Some, slice_get, length, take};
ghost use Rattle.disp_model.specs.declared.decision.Decision.{Decision};
ghost use Rattle.disp_model.specs.declared.entry.Entry.{Entry};
ghost use Rattle.disp_model.specs.declared.entry.Split.{Split};
ghost use Rattle.disp_model.specs.declared.problem.Problem.{Problem};
ghost use Rattle.disp_model.specs.declared.settings.Settings.{Settings};
ghost use Rattle.disp_model.specs.declared.tree.Leaf.{Leaf as TreeLeaf};
ghost use Rattle.disp_model.specs.declared.tree.TreeNode.TheVariants.{Leaf};
ghost use Rattle.disp_model.specs.History.{fixings_after, IsBestCost};
ghost use Rattle.disp_model.specs.Legal.{AreUseful, HasBranchesOf};
ghost use Rattle.disp_model.specs.Node.{node_at};
ghost use Rattle.disp_model.specs.Replay.{Growth, one_leaf as first_growth, after_splits, above_leaf};
ghost use Rattle.open_nodes.specs.declared.place.Place.{Place};
ghost use Rattle.open_nodes.specs.declared.work.Fragment.{Fragment};
ghost use Rattle.open_nodes.specs.declared.work.GiveBack.{GiveBack};
ghost use Rattle.open_nodes.specs.declared.work.Take.{Take};
ghost use Rattle.open_nodes.specs.declared.work.Work.{Work};
ghost use Rattle.open_nodes.specs.States.{State, one_open_leaf, decisions_of, Takes, GivesBack};
ghost use Rattle.open_nodes.specs.Grafts.{FillPlaces, Grows as GrowsTo};
ghost use Rattle.open_nodes.specs.Filled.{IsTree, HaveChoices};
ghost use Rattle.open_nodes.specs.Shown.{tree_of, fallen_at, with_edition};
ghost use Rattle.tree_growth.specs.Grown.{AreHelpful};
ghost use Rattle.tree_replay.specs.Replayed.{IsReplayed};

/// The first leaf is the tree before any split.
pub fn one_leaf_is_replayed()
    ensures { IsReplayed first_growth one_open_leaf }
{}

/// Where a fragment has grown, the tree is the one that its splits grow.
pub fn grown_trees_are_replayed()
    ensures { (problem : Problem) (growth : Growth) (state : State) (fragment : Fragment)
        (splits : List Split) (after : State) → IsTree problem state → IsReplayed growth state
        → GrowsTo problem state fragment splits after
        → FillPlaces problem 1 fragment.subtree fragment.bounds
        → HaveChoices problem fragment.subtree
        → IsReplayed (after_splits problem growth splits) after }
{}

/// The grown tree stays the same where a leaf is taken or given back, or falls back, or the edition
/// is newer.
pub fn replayed_trees_stay()
    ensures takes { (problem : Problem) (growth : Growth) (state : State) (best : Option ℕ)
        (free want seen : ℕ) (take : Take) (after : State) → IsTree problem state
        → IsReplayed growth state → Takes state best free want seen take after
        → IsReplayed growth after }
    ensures back { (problem : Problem) (growth : Growth) (state : State) (work : Work)
        (examined : Bool) (answer : GiveBack) (after : State) → IsTree problem state
        → IsReplayed growth state → GivesBack state work examined answer after
        → IsReplayed growth after }
    ensures falls { (problem : Problem) (growth : Growth) (state : State) (n : ℕ)
        → IsTree problem state → IsReplayed growth state
        → IsReplayed growth (fallen_at state n) }
    ensures newer { (growth : Growth) (state : State) (edition : ℕ) → IsReplayed growth state
        → IsReplayed growth (with_edition state edition) }
{}

/// What the grown tree tells of the places: a leaf of a number is a leaf of the grown tree with the
/// decisions above it, and the other way round; and the branches of the tree are those that were
/// grown.
pub fn replayed_trees_tell()
    ensures leaves { (problem : Problem) (growth : Growth) (state : State) (n : ℕ) (place : Place)
        (shown : TreeLeaf) → IsTree problem state → IsReplayed growth state
        → slice_get state.places n ≡ Some place → slice_get state.kept place.shows
        ≡ Some (Leaf shown) → above_leaf n growth.places ≡ Some (decisions_of state.places n) }
    ensures back { (problem : Problem) (growth : Growth) (state : State) (n : ℕ)
        (above : List Decision) → IsTree problem state → IsReplayed growth state
        → above_leaf n growth.places ≡ Some above
        → (place : Place) × (shown : TreeLeaf) × (slice_get state.places n ≡ Some place)
        × (slice_get state.kept place.shows ≡ Some (Leaf shown))
        × (above ≡ decisions_of state.places n) }
    ensures branches { (problem : Problem) (growth : Growth) (state : State)
        → IsTree problem state → IsReplayed growth state
        → HasBranchesOf growth.places (tree_of state) }
{}

/// The splits of a fragment whose branches help at the node of its work, under an edition of a
/// history, help, one after the other.
pub fn what_grows_helps()
    ensures { (problem : Problem) (settings : Settings) (history : List Entry) (edition seen : ℕ)
        (best : Option ℕ) (growth : Growth) (state : State) (fragment : Fragment)
        (splits : List Split) (after : State) → IsTree problem state → IsReplayed growth state
        → GrowsTo problem state fragment splits after
        → FillPlaces problem 1 fragment.subtree fragment.bounds
        → HaveChoices problem fragment.subtree → IsBestCost problem (take seen history) best
        → AreHelpful settings.rule best
        (node_at problem (fixings_after edition history) fragment.work.decisions ∷ [])
        fragment.subtree fragment.bounds
        → AreUseful problem settings history edition seen growth (fragment.work.node ∷ []) splits }
{}
