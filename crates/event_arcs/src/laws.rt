ghost use Rattle.std.specs.Prelude.{◌≡◌, ◌≢◌, ◌↔◌, ◌<◌, ◌≤◌, ℕ, List, [], ◌∷◌, ◌++◌, All, Contains, Some, length, map};
ghost use Rattle.disp_model.specs.declared.train.Op.{Op};
ghost use Rattle.disp_model.specs.declared.fixing.Change.{Change};
ghost use Rattle.disp_model.specs.declared.fixing.Fixing.{Fixing};
ghost use Rattle.disp_model.specs.declared.decision.Decision.{Decision};
ghost use Rattle.disp_model.specs.declared.decision.Decision.TheVariants.{First};
ghost use Rattle.disp_model.specs.declared.problem.Problem.{Problem};
ghost use Rattle.disp_model.specs.Changes.{standing_of};
ghost use Rattle.disp_model.specs.Numbers.{number_of};
ghost use Rattle.disp_model.specs.Node.{Node, node_at, with_decision};
ghost use Rattle.disp_model.specs.Routes.{AgreesWithFixing, AgreesWithDecision, IsAllowed, HasRoute, IsForced};
ghost use Rattle.disp_model.specs.Arcs.{Conflicts, IsTrainArc};
ghost use Rattle.disp_model.specs.Walks.{IsWalk, IsLongest as IsLongestAt, IsCycle as IsCycleAt, HasCycle as HasCycleAt};
ghost use Rattle.disp_model.specs.Replies.{IsEdition};
ghost use Rattle.route_sets.specs.declared.routes.Routes.{Routes};
ghost use Rattle.route_sets.specs.Sets.{AreRoutesOf};
ghost use Rattle.incremental_paths.specs.declared.arc.Arc.{Arc};
ghost use Rattle.incremental_paths.specs.Walks.{IsWalkTo, walk_length, IsLongestLength, IsArcCycle, ArcsHaveCycle, WalksAreShort};
ghost use Rattle.event_arcs.specs.Listed.{IsArcOf, AreArcsOf, AreLowersOf, SpansTrains, GoesBetween, JoinsOps};
ghost use Rattle.event_arcs.specs.Owned.{train_of_decision};
ghost use Rattle.event_arcs.specs.Chained.{LeadsAlong};
ghost use Rattle.event_arcs.specs.Ordering.{LeadsAsOrdered};

/// The list has a cycle exactly where the arcs of the node have one, and a cycle of numbers is one
/// of their operations.
pub fn cycles_are_shared()
    ensures exactly { (node : Node) (arcs : List Arc)
        → AreArcsOf node arcs → (ArcsHaveCycle arcs ↔ HasCycleAt node) }
    ensures operations { (node : Node) (arcs : List Arc) (numbers : List ℕ)
        → All (IsArcOf node) arcs → IsArcCycle arcs numbers
        → (ops : List Op) × (map (number_of node.problem) ops ≡ numbers) × IsCycleAt node ops }
{}

/// A walk of numbers from a forced operation is a walk of their operations, which is no shorter.
pub fn walks_are_carried_over()
    ensures { (node : Node) (arcs : List Arc) (lowers : List ℕ) (u : Op) (v : ℕ) (rest : List ℕ)
        → All (IsArcOf node) arcs → AreLowersOf node lowers → IsForced node u
        → IsWalkTo lowers arcs v (number_of node.problem u ∷ rest)
        → (ops : List Op) × (total : ℕ) × (map (number_of node.problem) ops ≡ rest)
        × IsWalk node (u ∷ ops) total
        × (walk_length lowers arcs (number_of node.problem u ∷ rest) ≤ total) }
{}

/// Where the arcs have no cycle, the longest walk to a forced operation is as long along the list.
pub fn longest_are_shared()
    ensures { (node : Node) (arcs : List Arc) (lowers : List ℕ) (o : Op) (total : ℕ)
        → AreArcsOf node arcs → AreLowersOf node lowers → (HasCycleAt node → ⊥) → IsForced node o
        → (IsLongestAt node o total
        ↔ IsLongestLength lowers arcs (number_of node.problem o) total) }
{}

/// With an edition's fixings, where the arcs have no cycle, no walk along the list is longer than
/// 2^63 - 1.
pub fn walks_stay_short()
    ensures { (node : Node) (changes : List Change) (arcs : List Arc) (lowers : List ℕ)
        → IsEdition node.problem changes → node.fixings ≡ standing_of changes
        → All (IsArcOf node) arcs → AreLowersOf node lowers → (HasCycleAt node → ⊥)
        → WalksAreShort lowers arcs }
{}

/// With an edition's fixings, a list that spans the trains and has no cycle has no walk longer than
/// 2^63 - 1, whichever of the orders' arcs it has, and whether the node's arcs have a cycle or not.
pub fn spanning_lists_are_short()
    ensures { (node : Node) (changes : List Change) (arcs : List Arc) (lowers : List ℕ)
        → IsEdition node.problem changes → node.fixings ≡ standing_of changes
        → All (IsArcOf node) arcs → SpansTrains node arcs → AreLowersOf node lowers
        → ¬ ArcsHaveCycle arcs → WalksAreShort lowers arcs }
{}

/// Where no order is decided the arcs have no cycle.
pub fn unordered_nodes_have_no_cycle()
    ensures { (node : Node) → ((a b : Op) → Contains node.decisions (First a b) → ⊥)
        → HasCycleAt node → ⊥ }
{}

/// What is known of a train's routes by fixings and decisions of its own is known by all, where the
/// same routes agree with both.
pub fn own_matters_suffice()
    ensures { (problem : Problem) (fixings own_fixings : List Fixing)
        (decisions own_decisions : List Decision) (t : ℕ) (routes : Routes)
        → ((route : List ℕ) → All (AgreesWithFixing t route) fixings
        ↔ All (AgreesWithFixing t route) own_fixings)
        → ((route : List ℕ) → All (AgreesWithDecision t route) decisions
        ↔ All (AgreesWithDecision t route) own_decisions)
        → AreRoutesOf (node_at problem own_fixings own_decisions) t routes
        → AreRoutesOf (node_at problem fixings decisions) t routes }
{}

/// With one more decision routes that are allowed were so before, and those of trains that it is
/// not about stay so; a list's arcs stay arcs of the node, or shorter, where each train still has a
/// route; and a list that stood for the node's arcs still spans the trains.
pub fn decisions_tighten()
    ensures routes { (node : Node) (decision : Decision) (t : ℕ) (route : List ℕ)
        → IsAllowed (with_decision node decision) t route → IsAllowed node t route }
    ensures others { (node : Node) (decision : Decision) (t : ℕ) (route : List ℕ)
        → train_of_decision decision ≢ Some t
        → IsAllowed node t route → IsAllowed (with_decision node decision) t route }
    ensures arcs { (node : Node) (decision : Decision) (arcs : List Arc)
        → ((t : ℕ) → t < length node.problem.trains → HasRoute (with_decision node decision) t)
        → All (IsArcOf node) arcs → All (IsArcOf (with_decision node decision)) arcs }
    ensures spans { (node : Node) (decision : Decision) (arcs : List Arc)
        → AreArcsOf node arcs → SpansTrains (with_decision node decision) arcs }
{}

/// With one more order a list that stands for the arcs of the node still spans the trains, whatever
/// is added to it; with arcs that lead as far as the order asks it stands for the arcs.
pub fn an_order_extends()
    ensures spans { (node : Node) (a b : Op) (arcs more : List Arc)
        → AreArcsOf node arcs → SpansTrains (with_decision node (First a b)) (arcs ++ more) }
    ensures stands { (node : Node) (a b : Op) (arcs more : List Arc)
        → AreArcsOf node arcs → All (IsArcOf (with_decision node (First a b))) more
        → (IsForced node a → IsForced node b → Conflicts node.problem a b
        → LeadsAsOrdered (with_decision node (First a b)) (arcs ++ more) a b)
        → AreArcsOf (with_decision node (First a b)) (arcs ++ more) }
{}

/// A list that spans the trains still does so with an arc to an operation, from one that stands
/// before it, and with an arc on from there, to one that stands behind it.
pub fn an_operation_goes_between()
    ensures { (node : Node) (arcs : List Arc) (before op behind : Op) (first second : Arc)
        → SpansTrains node arcs → GoesBetween node arcs before op behind
        → JoinsOps node first before op → JoinsOps node second op behind
        → SpansTrains node (arcs ++ first ∷ [])
        × SpansTrains node ((arcs ++ first ∷ []) ++ second ∷ []) }
{}

/// A list stands for the arcs of a node where each listed arc is one of them, or shorter, and the
/// list leads as far as the trains and the decided orders ask.
pub fn a_list_stands_by_its_parts()
    ensures { (node : Node) (arcs : List Arc) → All (IsArcOf node) arcs
        → ((u v : Op) (sum : ℕ) → IsForced node u → IsForced node v → IsTrainArc node u v sum
        → LeadsAlong node arcs u v sum)
        → ((a b : Op) → Contains node.decisions (First a b) → IsForced node a → IsForced node b
        → Conflicts node.problem a b → LeadsAsOrdered node arcs a b)
        → AreArcsOf node arcs }
{}
