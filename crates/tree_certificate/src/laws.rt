ghost use Rattle.std.specs.Prelude.{◌≡◌, ◌≤◌, ℕ, List, All, Ok, Some};
ghost use Rattle.disp_model.specs.declared.tree.TreeNode.{TreeNode};
ghost use Rattle.disp_model.specs.declared.tree.Verdict.{Verdict};
ghost use Rattle.disp_model.specs.Trees.{FitsNode, FitsVerdict};
ghost use Rattle.tree_certificate.specs.declared.word.Version.{Version};
ghost use Rattle.tree_certificate.specs.TreeTexts.{tree_text, needs_third};
ghost use Rattle.tree_certificate.specs.TreesRead.{TreeRead, tree_at, read_of};
ghost use Rattle.tree_certificate.specs.Versions.{CompletesTree, IsText, later_version};

/// What is written of a tree within the limits, each of whose branches has its children, is the
/// text of its edition, its verdict and its nodes, and is read again as these.
pub fn written_is_read()
    ensures is_text { (edition : ℕ) (verdict : Verdict) (tree : List TreeNode) → edition ≤ 65535
        → FitsVerdict verdict → All FitsNode tree → CompletesTree 1 tree
        → IsText (tree_text edition verdict tree) (later_version (needs_third tree))
        (read_of (Some edition) verdict tree) }
    ensures is_read { (edition : ℕ) (verdict : Verdict) (tree : List TreeNode) → edition ≤ 65535
        → FitsVerdict verdict → All FitsNode tree → CompletesTree 1 tree
        → tree_at (tree_text edition verdict tree) ≡ Ok (read_of (Some edition) verdict tree) }
{}

/// A text says one thing.
pub fn a_text_says_one_thing()
    ensures { (bytes : List ℕ) (v w : Version) (one other : TreeRead) → IsText bytes v one
        → IsText bytes w other → one ≡ other }
{}
