// Laws over what grows in the place of a leaf.
ghost use Rattle.std.specs.Prelude.{◌≡◌, ◌≤◌, ℕ, Bool, List, [], ◌∷◌, All, Option, length};
ghost use Rattle.disp_model.specs.declared.decision.Decision.{Decision};
ghost use Rattle.disp_model.specs.declared.entry.Split.{Split};
ghost use Rattle.disp_model.specs.declared.fixing.Fixing.{Fixing};
ghost use Rattle.disp_model.specs.declared.problem.Problem.{Problem};
ghost use Rattle.disp_model.specs.declared.settings.Rule.{Rule};
ghost use Rattle.disp_model.specs.declared.tree.Leaf.{Leaf};
ghost use Rattle.disp_model.specs.declared.tree.TreeNode.{TreeNode};
ghost use Rattle.disp_model.specs.declared.tree.Verdict.TheVariants.{Optimal};
ghost use Rattle.disp_model.specs.Node.{Node, node_at};
ghost use Rattle.disp_model.specs.Nodes.{IsDead};
ghost use Rattle.disp_model.specs.Shares.{IsBound};
ghost use Rattle.disp_model.specs.Trees.{LeafHolds, FitsNode};
ghost use Rattle.open_nodes.specs.declared.work.Fragment.{Fragment};
ghost use Rattle.open_nodes.specs.declared.work.GiveBack.{GiveBack};
ghost use Rattle.open_nodes.specs.declared.work.Take.{Take};
ghost use Rattle.open_nodes.specs.declared.work.Work.{Work};
ghost use Rattle.open_nodes.specs.States.{State, one_open_leaf, Takes, GivesBack};
ghost use Rattle.open_nodes.specs.Grafts.{FillPlaces, Grows as GrowsTo};
ghost use Rattle.open_nodes.specs.Filled.{IsTree, HaveChoices, AllHold};
ghost use Rattle.open_nodes.specs.Shown.{fallen_at, with_edition};
ghost use Rattle.tree_growth.specs.Grown.{LeafCounts, AreHelpful, KeepBounds, GrowsBelow, branches};
ghost use Rattle.tree_growth.specs.Left.{AreLeft};
ghost use Rattle.tree_growth.specs.Keeping.{AllKeep};

/// What grows at places helps and keeps its bounds.
pub fn what_grows_helps_and_keeps()
    ensures helps { (rule : Rule) (best : Option ℕ) (places : List Node) (tree : List TreeNode)
        (bounds : List ℕ) → GrowsBelow rule best places tree bounds
        → AreHelpful rule best places tree bounds }
    ensures keeps { (rule : Rule) (best : Option ℕ) (places : List Node) (tree : List TreeNode)
        (bounds : List ℕ) → GrowsBelow rule best places tree bounds
        → KeepBounds rule places tree bounds }
{}

/// Nodes that keep their bounds at one node fill its place, each branch has a choice of the
/// problem, and each node can be written.
pub fn what_keeps_bounds_fills()
    ensures fill { (node : Node) (rule : Rule) (tree : List TreeNode) (bounds : List ℕ)
        → KeepBounds rule (node ∷ []) tree bounds → FillPlaces node.problem 1 tree bounds }
    ensures choices { (node : Node) (rule : Rule) (tree : List TreeNode) (bounds : List ℕ)
        → KeepBounds rule (node ∷ []) tree bounds → HaveChoices node.problem tree }
    ensures fits { (node : Node) (rule : Rule) (tree : List TreeNode) (bounds : List ℕ)
        → KeepBounds rule (node ∷ []) tree bounds → All FitsNode tree }
{}

/// Where a fragment grew that keeps its bounds at the node of its work, each leaf of the tree keeps
/// its bound if each did before; and there are as many splits as branches.
pub fn grown_leaves_keep_bounds()
    ensures leaves { (problem : Problem) (fixings : List Fixing) (rule : Rule) (state : State)
        (fragment : Fragment) (splits : List Split) (after : State) → IsTree problem state
        → GrowsTo problem state fragment splits after
        → KeepBounds rule (node_at problem fixings fragment.work.decisions ∷ []) fragment.subtree
        fragment.bounds → AllKeep rule problem fixings state → AllKeep rule problem fixings after }
    ensures splits { (problem : Problem) (fixings : List Fixing) (rule : Rule) (state : State)
        (fragment : Fragment) (splits : List Split) (after : State) → IsTree problem state
        → GrowsTo problem state fragment splits after
        → KeepBounds rule (node_at problem fixings fragment.work.decisions ∷ []) fragment.subtree
        fragment.bounds → length splits ≡ branches fragment.subtree }
{}

/// The first leaf keeps its bound; leaves keep theirs where one is taken or given back, or falls
/// back, or the edition is newer.
pub fn kept_bounds_stay()
    ensures first { (rule : Rule) (problem : Problem) (fixings : List Fixing)
        → AllKeep rule problem fixings one_open_leaf }
    ensures takes { (rule : Rule) (problem : Problem) (fixings : List Fixing) (state : State)
        (best : Option ℕ) (free want seen : ℕ) (take : Take) (after : State)
        → IsTree problem state → AllKeep rule problem fixings state
        → Takes state best free want seen take after → AllKeep rule problem fixings after }
    ensures back { (rule : Rule) (problem : Problem) (fixings : List Fixing) (state : State)
        (work : Work) (examined : Bool) (answer : GiveBack) (after : State)
        → IsTree problem state → AllKeep rule problem fixings state
        → GivesBack state work examined answer after → AllKeep rule problem fixings after }
    ensures falls { (rule : Rule) (problem : Problem) (fixings : List Fixing) (state : State)
        (n : ℕ) → IsTree problem state → AllKeep rule problem fixings state
        → AllKeep rule problem fixings (fallen_at state n) }
    ensures newer { (rule : Rule) (problem : Problem) (fixings : List Fixing) (state : State)
        (edition : ℕ) → AllKeep rule problem fixings state
        → AllKeep rule problem fixings (with_edition state edition) }
    ensures hold { (rule : Rule) (problem : Problem) (fixings : List Fixing) (state : State)
        → AllKeep rule problem fixings state
        → AllHold problem fixings state.places state.kept }
{}

/// What is left of a fragment under other fixings: it has the same branches, which help as they
/// did, and its leaves keep their bounds under these fixings. Where each leaf holds under them all
/// is left.
pub fn what_is_left_keeps_bounds()
    ensures helps { (problem : Problem) (old new : List Fixing) (rule : Rule) (best : Option ℕ)
        (decisions : List Decision) (tree : List TreeNode) (bounds : List ℕ)
        (left : List TreeNode) (least : List ℕ)
        → AreHelpful rule best (node_at problem old decisions ∷ []) tree bounds
        → AreLeft (node_at problem new decisions ∷ []) tree bounds left least
        → AreHelpful rule best (node_at problem old decisions ∷ []) left least }
    ensures keeps { (problem : Problem) (old new : List Fixing) (rule : Rule)
        (decisions : List Decision) (tree : List TreeNode) (bounds : List ℕ)
        (left : List TreeNode) (least : List ℕ)
        → KeepBounds rule (node_at problem old decisions ∷ []) tree bounds
        → AreLeft (node_at problem new decisions ∷ []) tree bounds left least
        → KeepBounds rule (node_at problem new decisions ∷ []) left least }
    ensures all { (node : Node) (rule : Rule) (tree : List TreeNode) (bounds : List ℕ)
        → KeepBounds rule (node ∷ []) tree bounds
        → AreLeft (node ∷ []) tree bounds tree bounds }
    ensures count { (node : Node) (tree : List TreeNode) (bounds : List ℕ) (left : List TreeNode)
        (least : List ℕ) → AreLeft (node ∷ []) tree bounds left least
        → branches left ≡ branches tree }
{}

/// Kept bounds are low: at a node that is not dead, a leaf that holds for a bound, by what the rule
/// counts, has none above the node's bound by that rule.
pub fn kept_bounds_are_low()
    ensures { (rule : Rule) (node : Node) (leaf : Leaf) (kept bound : ℕ) → (IsDead node → ⊥)
        → LeafHolds node (Optimal kept) leaf → LeafCounts rule leaf kept → IsBound node rule bound
        → kept ≤ bound }
{}
