// Laws over nodes with more decisions at the end.
ghost use Rattle.std.specs.Prelude.{◌≡◌, ◌≤◌, ℕ, List, ◌++◌};
ghost use Rattle.disp_model.specs.declared.decision.Decision.{Decision};
ghost use Rattle.disp_model.specs.declared.fixing.Fixing.{Fixing};
ghost use Rattle.disp_model.specs.declared.problem.Problem.{Problem};
ghost use Rattle.disp_model.specs.declared.settings.Rule.{Rule};
ghost use Rattle.disp_model.specs.declared.train.Op.{Op};
ghost use Rattle.disp_model.specs.declared.tree.Leaf.{Leaf};
ghost use Rattle.disp_model.specs.declared.tree.Verdict.{Verdict};
ghost use Rattle.disp_model.specs.Node.{node_at};
ghost use Rattle.disp_model.specs.Routes.{IsAllowed, HasRoute, HasNoRoute, IsForced};
ghost use Rattle.disp_model.specs.Arcs.{IsArc};
ghost use Rattle.disp_model.specs.Walks.{lower_of, upper_of};
ghost use Rattle.disp_model.specs.Nodes.{IsDead};
ghost use Rattle.disp_model.specs.Shares.{IsBound};
ghost use Rattle.disp_model.specs.Trees.{LeafHolds};

/// Decisions only tighten: with more of them allowed routes are among those before, a train without
/// one has none, what is forced stays forced while its train has a route, and each arc stays, and
/// is no shorter, while its trains have routes. Lowers and uppers do not depend on decisions.
pub fn decisions_tighten()
    ensures routes { (problem : Problem) (fixings : List Fixing) (decisions more : List Decision)
        (t : ℕ) (route : List ℕ)
        → IsAllowed (node_at problem fixings (decisions ++ more)) t route
        → IsAllowed (node_at problem fixings decisions) t route }
    ensures without { (problem : Problem) (fixings : List Fixing) (decisions more : List Decision)
        (t : ℕ) → (HasRoute (node_at problem fixings decisions) t → ⊥)
        → HasRoute (node_at problem fixings (decisions ++ more)) t → ⊥ }
    ensures none { (problem : Problem) (fixings : List Fixing) (decisions more : List Decision)
        → HasNoRoute (node_at problem fixings decisions)
        → HasNoRoute (node_at problem fixings (decisions ++ more)) }
    ensures forced { (problem : Problem) (fixings : List Fixing) (decisions more : List Decision)
        (o : Op) → IsForced (node_at problem fixings decisions) o
        → HasRoute (node_at problem fixings (decisions ++ more)) o.train
        → IsForced (node_at problem fixings (decisions ++ more)) o }
    ensures arcs { (problem : Problem) (fixings : List Fixing) (decisions more : List Decision)
        (u v : Op) (before : ℕ) → IsArc (node_at problem fixings decisions) u v before
        → HasRoute (node_at problem fixings (decisions ++ more)) u.train
        → HasRoute (node_at problem fixings (decisions ++ more)) v.train
        → (behind : ℕ) × IsArc (node_at problem fixings (decisions ++ more)) u v behind
        × (before ≤ behind) }
    ensures windows { (problem : Problem) (fixings : List Fixing) (decisions more : List Decision)
        (o : Op) → let node = node_at problem fixings decisions in
        let deeper = node_at problem fixings (decisions ++ more) in
        (lower_of deeper.problem deeper.fixings o ≡ lower_of node.problem node.fixings o)
        × (upper_of deeper.problem deeper.fixings o ≡ upper_of node.problem node.fixings o) }
{}

/// Leaves hold below: a leaf that holds at a node holds, for the same verdict, with more decisions.
pub fn leaves_hold_below()
    ensures { (problem : Problem) (fixings : List Fixing) (decisions more : List Decision)
        (verdict : Verdict) (leaf : Leaf)
        → LeafHolds (node_at problem fixings decisions) verdict leaf
        → LeafHolds (node_at problem fixings (decisions ++ more)) verdict leaf }
{}

/// A dead node stays dead with more decisions; so above a node that is not dead none is.
pub fn dead_stays_dead()
    ensures below { (problem : Problem) (fixings : List Fixing) (decisions more : List Decision)
        → IsDead (node_at problem fixings decisions)
        → IsDead (node_at problem fixings (decisions ++ more)) }
    ensures above { (problem : Problem) (fixings : List Fixing) (decisions more : List Decision)
        → (IsDead (node_at problem fixings (decisions ++ more)) → ⊥)
        → IsDead (node_at problem fixings decisions) → ⊥ }
{}

/// Bounds do not fall: with more decisions, at a node that is not dead, the bound by each rule is
/// at least the one before.
pub fn bounds_do_not_fall()
    ensures { (problem : Problem) (fixings : List Fixing) (decisions more : List Decision)
        (rule : Rule) (bound later : ℕ)
        → IsBound (node_at problem fixings decisions) rule bound
        → IsBound (node_at problem fixings (decisions ++ more)) rule later
        → (IsDead (node_at problem fixings (decisions ++ more)) → ⊥) → bound ≤ later }
{}
