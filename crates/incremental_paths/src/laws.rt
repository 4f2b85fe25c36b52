ghost use Rattle.std.specs.Prelude.{ℕ, ◌+◌, ◌-◌, ◌*◌, ◌<◌, ◌≤◌, List, All, length, sum_by};
ghost use Rattle.incremental_paths.specs.declared.arc.Arc.{Arc};
ghost use Rattle.incremental_paths.specs.Walks.{IsWalkTo, walk_length, HasNoNodeTwice, ArcsHaveCycle};

/// Where arcs have no cycle, no walk has a node twice, and none is longer than the greatest lower
/// and the lengths of all arcs together. Whether there are cycles or not, no walk without a node
/// twice is longer than the greatest lower and the longest arc for each node but one.
pub fn walks_are_bounded()
    ensures once { (lowers : List ℕ) (arcs : List Arc) → ¬ ArcsHaveCycle arcs
        → (v : ℕ) (nodes : List ℕ) → IsWalkTo lowers arcs v nodes → HasNoNodeTwice nodes }
    ensures bounded { (lowers : List ℕ) (arcs : List Arc) (most : ℕ)
        → All (λ lower. lower ≤ most) lowers → ¬ ArcsHaveCycle arcs
        → (v : ℕ) (nodes : List ℕ) → IsWalkTo lowers arcs v nodes
        → walk_length lowers arcs nodes ≤ most + sum_by (λ arc. arc.length) arcs }
    ensures by_nodes { (lowers : List ℕ) (arcs : List Arc) (most longest : ℕ)
        → All (λ lower. lower ≤ most) lowers → All (λ arc. arc.length ≤ longest) arcs
        → All (λ arc. arc.to < length lowers) arcs → (v : ℕ) (nodes : List ℕ)
        → IsWalkTo lowers arcs v nodes → HasNoNodeTwice nodes
        → walk_length lowers arcs nodes ≤ most + (length lowers - 1) * longest }
{}
