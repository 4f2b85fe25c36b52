// Laws over the definitions, each the contract of a function without a body, for every crate to
// cite.
ghost use Rattle.std.specs.Prelude.{◌≡◌, ◌≢◌, ◌⊎◌, ◌↔◌, ◌+◌, ◌<◌, ◌≤◌, ℕ, List, [], ◌∷◌, ◌++◌, Contains, Option, Some, None, slice_get, length, sum_by};
ghost use Rattle.std.specs.List.Sorted.{IsNonDecreasingBy};
ghost use Rattle.disp_model.specs.declared.problem.Problem.{Problem};
ghost use Rattle.disp_model.specs.declared.train.Component.{Component};
ghost use Rattle.disp_model.specs.declared.train.Op.{Op};
ghost use Rattle.disp_model.specs.declared.fixing.Fixing.{Fixing};
ghost use Rattle.disp_model.specs.declared.plan.Event.{Event};
ghost use Rattle.disp_model.specs.declared.decision.Decision.{Decision};
ghost use Rattle.disp_model.specs.declared.decision.Decision.TheVariants.{First};
ghost use Rattle.disp_model.specs.declared.fixing.Change.{Change};
ghost use Rattle.disp_model.specs.declared.fixing.Change.TheVariants.{Fix};
ghost use Rattle.disp_model.specs.declared.settings.Rule.{Rule};
ghost use Rattle.disp_model.specs.declared.settings.Rule.TheVariants.{Fixed, Free};
ghost use Rattle.disp_model.specs.Node.{Node, node_at, with_decision, with_fixings};
ghost use Rattle.disp_model.specs.Changes.{standing_of};
ghost use Rattle.disp_model.specs.declared.decision.Choice.{Choice};
ghost use Rattle.disp_model.specs.declared.decision.Choice.TheVariants.{Route};
ghost use Rattle.disp_model.specs.declared.reply.Reply.{Reply};
ghost use Rattle.disp_model.specs.declared.reply.Reply.TheVariants.{Accepted};
ghost use Rattle.disp_model.specs.declared.tree.ComponentWalk.{ComponentWalk};
ghost use Rattle.disp_model.specs.declared.tree.TreeNode.{TreeNode};
ghost use Rattle.disp_model.specs.declared.tree.Leaf.{Leaf as TreeLeaf};
ghost use Rattle.disp_model.specs.declared.tree.Verdict.{Verdict};
ghost use Rattle.disp_model.specs.declared.tree.Verdict.TheVariants.{Optimal, Infeasible};
ghost use Rattle.disp_model.specs.Train.{IsEntry, IsExit};
ghost use Rattle.disp_model.specs.WellFormed.{horizon, operation_count};
ghost use Rattle.disp_model.specs.Numbers.{number_of};
ghost use Rattle.disp_model.specs.Plan.{operations_of};
ghost use Rattle.disp_model.specs.Fixing.{after};
ghost use Rattle.disp_model.specs.Cost.{cost_at, cost_of, IsInfeasible};
ghost use Rattle.disp_model.specs.Valid.{train_at, KeepApart, IsValid};
ghost use Rattle.disp_model.specs.Follows.{Follows};
ghost use Rattle.disp_model.specs.Routes.{Starts, IsAllowed, HasRoute, HasNoRoute, IsForced};
ghost use Rattle.disp_model.specs.Arcs.{Conflicts, IsTrainArc, IsArc, IsLongestArc};
ghost use Rattle.disp_model.specs.Walks.{lower_of, upper_of, IsWalk, EndsIn, IsLongest, HasCycle};
ghost use Rattle.disp_model.specs.Nodes.{IsDead};
ghost use Rattle.disp_model.specs.Shares.{IsShare, own_cost, IsBound};
ghost use Rattle.disp_model.specs.Trees.{IsChoice, children_of, HaveDistinct, WalksCost, LeafHolds, Accepts};
ghost use Rattle.disp_model.specs.Replies.{IsReply, IsEdition};
ghost use Rattle.disp_model.specs.Choices.{IsOpen};
ghost use Rattle.disp_model.specs.Earliest.{op_of, HaveOneRoute, IsEarliest, IsPicked};

/// Each train of a problem has one entry and one exit.
pub fn trains_have_ends()
    ensures entry { (problem : Problem) (t : ℕ) → t < length problem.trains
        → (o : ℕ) × IsEntry (train_at problem t) o
        × ((p : ℕ) → IsEntry (train_at problem t) p → p ≡ o) }
    ensures exit { (problem : Problem) (t : ℕ) → t < length problem.trains
        → (o : ℕ) × IsExit (train_at problem t) o
        × ((p : ℕ) → IsExit (train_at problem t) p → p ≡ o) }
{}

/// Branching covers: a valid plan that follows the decisions follows them with one of the choice's
/// children added.
pub fn branching_covers()
    ensures { (node : Node) (plan : List Event) (choice : Choice)
        → IsValid node.problem node.fixings plan → Follows plan node.decisions
        → IsChoice node.problem choice
        → (child : Decision) × Contains (children_of node.problem choice) child
        × Follows plan (with_decision node child).decisions }
{}

/// In a valid plan that follows the decisions the run of each train is an allowed route.
pub fn runs_are_allowed()
    ensures { (node : Node) (plan : List Event) (t : ℕ)
        → IsValid node.problem node.fixings plan → Follows plan node.decisions
        → t < length node.problem.trains
        → IsAllowed node t (operations_of t plan) }
{}

/// In a valid plan that follows the decisions each forced operation is run.
pub fn forced_are_run()
    ensures { (node : Node) (plan : List Event) (o : Op)
        → IsValid node.problem node.fixings plan → Follows plan node.decisions → IsForced node o
        → (i : ℕ) × (e : Event) × (slice_get plan i ≡ Some e) × Starts o e }
{}

/// In a valid plan that follows the decisions the end of an arc stands behind its beginning, and
/// starts at least the arc's length after it.
pub fn arcs_hold()
    ensures { (node : Node) (plan : List Event) (u v : Op) (arc_length i j : ℕ) (e f : Event)
        → IsValid node.problem node.fixings plan → Follows plan node.decisions
        → IsArc node u v arc_length
        → slice_get plan i ≡ Some e → Starts u e → slice_get plan j ≡ Some f → Starts v f
        → (i < j) × (e.time + arc_length ≤ f.time) }
{}

/// In a valid plan that follows the decisions a walk is no longer than the start of its end, and no
/// longer than that end's upper.
pub fn walks_hold()
    ensures starts { (node : Node) (plan : List Event) (walk : List Op) (total : ℕ) (o : Op) (j : ℕ)
        (f : Event)
        → IsValid node.problem node.fixings plan → Follows plan node.decisions
        → IsWalk node walk total → EndsIn walk o
        → slice_get plan j ≡ Some f → Starts o f → total ≤ f.time }
    ensures uppers { (node : Node) (plan : List Event) (walk : List Op) (total : ℕ) (o : Op)
        (upper : ℕ)
        → IsValid node.problem node.fixings plan → Follows plan node.decisions
        → IsWalk node walk total → EndsIn walk o
        → upper_of node.problem node.fixings o ≡ Some upper → total ≤ upper }
{}

/// A node whose decisions a valid plan follows is not dead: each train has an allowed route, the
/// arcs have no cycle, and no forced operation's longest walk is longer than its upper.
pub fn followed_is_not_dead()
    ensures { (node : Node) (plan : List Event)
        → IsValid node.problem node.fixings plan → Follows plan node.decisions → IsDead node → ⊥ }
{}

/// Costs grow: a component costs no less at a later start; walks to distinct components cost
/// together no more than a valid plan that follows the decisions.
pub fn costs_grow()
    ensures later { (c : Component) (earlier later : ℕ) → earlier ≤ later → cost_at c earlier
        ≤ cost_at c later }
    ensures together { (node : Node) (plan : List Event) (walks : List ComponentWalk) (sum : ℕ)
        → IsValid node.problem node.fixings plan → Follows plan node.decisions → HaveDistinct walks
        → WalksCost node walks sum
        → sum ≤ cost_of node.problem.components plan }
{}

/// A node's bound is at most the cost of every valid plan that follows its decisions, whatever the
/// rule. The bound of the free rule is at least that of the fixed one.
pub fn bound_holds()
    ensures costs { (node : Node) (rule : Rule) (plan : List Event) (bound : ℕ)
        → IsValid node.problem node.fixings plan → Follows plan node.decisions
        → IsBound node rule bound
        → bound ≤ cost_of node.problem.components plan }
    ensures free { (node : Node) (bound other : ℕ)
        → IsBound node Fixed bound → IsBound node Free other → bound ≤ other }
{}

/// Each train with an allowed route has one share, and its components cost at least that in every
/// valid plan that follows the decisions.
pub fn shares_hold()
    ensures there { (node : Node) (t : ℕ) → t < length node.problem.trains → HasRoute node t
        → (share : ℕ) × IsShare node t share }
    ensures alone { (node : Node) (t share other : ℕ)
        → IsShare node t share → IsShare node t other → share ≡ other }
    ensures costs { (node : Node) (plan : List Event) (t share : ℕ)
        → IsValid node.problem node.fixings plan → Follows plan node.decisions
        → IsShare node t share
        → share ≤ sum_by (own_cost t plan) node.problem.components }
{}

/// A tree's yes: where a tree is accepted for 'optimal' with a cost no valid plan costs less, and
/// where it is accepted for 'infeasible' no plan is valid.
pub fn trees_say_yes()
    ensures optimal { (problem : Problem) (fixings : List Fixing) (cost : ℕ) (tree : List TreeNode)
        (plan : List Event)
        → Accepts problem fixings (Optimal cost) tree → IsValid problem fixings plan
        → cost ≤ cost_of problem.components plan }
    ensures infeasible { (problem : Problem) (fixings : List Fixing) (tree : List TreeNode)
        → Accepts problem fixings Infeasible tree → IsInfeasible problem fixings }
{}

/// What is picked, whatever the rule: a choice that a branch may have, of which no child is decided
/// there. What the fixed rule picks is picked under the free one; an operation that all allowed
/// routes have, and from which two go on differently, goes on to two successors.
pub fn picked_is_open()
    ensures allowed { (node : Node) (rule : Rule) (choice : Choice)
        → IsPicked node rule (Some choice) → IsChoice node.problem choice }
    ensures undecided { (node : Node) (rule : Rule) (choice : Choice) (child : Decision)
        → IsPicked node rule (Some choice) → Contains (children_of node.problem choice) child
        → Contains node.decisions child → ⊥ }
    ensures fixed { (node : Node) (picked : Option Choice)
        → IsPicked node Fixed picked → IsPicked node Free picked }
    ensures two_ways { (node : Node) (o : Op)
        → IsOpen node (Route o)
        → (one other : List ℕ) × (next another : ℕ) × IsAllowed node o.train one
        × IsAllowed node o.train other
        × (after o.op one ≡ Some next) × (after o.op other ≡ Some another) × (next ≢ another) }
{}

/// An open choice is allowed in a tree, and no child of it is decided.
pub fn open_choices_are_free()
    ensures allowed { (node : Node) (choice : Choice)
        → IsOpen node choice → IsChoice node.problem choice }
    ensures undecided { (node : Node) (choice : Choice) (child : Decision)
        → IsOpen node choice → Contains (children_of node.problem choice) child
        → Contains node.decisions child → ⊥ }
{}

/// With an edition's fixings, at a node that is not dead: none is picked or some choice is, by
/// either rule, and never both. Where nothing is open there the earliest plan, if each train has
/// one route, is valid.
pub fn something_is_picked()
    ensures some { (node : Node) (changes : List Change) (rule : Rule)
        → IsEdition node.problem changes → node.fixings ≡ standing_of changes → (IsDead node → ⊥)
        → IsPicked node rule None ⊎ ((choice : Choice) × IsPicked node rule (Some choice)) }
    ensures one { (node : Node) (rule : Rule) (choice : Choice)
        → IsPicked node rule (Some choice) → IsPicked node rule None → ⊥ }
    ensures closed { (node : Node) (changes : List Change) (plan : List Event)
        → IsEdition node.problem changes → node.fixings ≡ standing_of changes → (IsDead node → ⊥)
        → ((choice : Choice) → IsOpen node choice → ⊥) → IsEarliest node plan
        → IsValid node.problem node.fixings plan }
{}

/// There is one plan of earliest starts at a node, its times do not fall, and with an edition's
/// fixings, at a node that is not dead, it is valid where its events keep apart; those whose order
/// is decided do.
pub fn earliest_plans_are_one()
    ensures alone { (node : Node) (plan other : List Event)
        → IsEarliest node plan → IsEarliest node other → plan ≡ other }
    ensures in_order { (node : Node) (plan : List Event)
        → IsEarliest node plan → IsNonDecreasingBy (λ e. e.time) plan }
    ensures decided { (node : Node) (plan : List Event) (i j : ℕ) (e f : Event)
        → IsEarliest node plan → i < j
        → slice_get plan i ≡ Some e → slice_get plan j ≡ Some f
        → Conflicts node.problem (op_of e) (op_of f)
        → Contains node.decisions (First (op_of e) (op_of f))
        → KeepApart node.problem plan i e j f }
    ensures valid { (node : Node) (changes : List Change) (plan : List Event)
        → IsEdition node.problem changes → node.fixings ≡ standing_of changes → (IsDead node → ⊥)
        → IsEarliest node plan
        → ((i j : ℕ) (e f : Event) → i < j → slice_get plan i ≡ Some e → slice_get plan j ≡ Some f
        → e.train ≢ f.train → KeepApart node.problem plan i e j f)
        → IsValid node.problem node.fixings plan }
{}

/// None is picked exactly where each train has one allowed route and the earliest plan is valid;
/// then its cost is the bound, whatever the rule.
pub fn unpicked_costs_bound()
    ensures exactly { (node : Node) (rule : Rule)
        → IsPicked node rule None
        ↔ ((plan : List Event) × IsEarliest node plan × IsValid node.problem node.fixings plan) }
    ensures costs { (node : Node) (rule : Rule) (plan : List Event) (bound : ℕ)
        → IsEarliest node plan → IsValid node.problem node.fixings plan → IsBound node rule bound
        → cost_of node.problem.components plan ≡ bound }
{}

/// Fixings only tighten: with more of them allowed routes are among those before, a train without
/// one has none, what is forced stays forced while its train has a route, and each arc stays, and
/// is no shorter, while its trains have routes. With an accepted one no lower falls and no upper
/// rises.
pub fn fixings_tighten()
    ensures routes { (node : Node) (more : List Fixing) (t : ℕ) (route : List ℕ)
        → IsAllowed (with_fixings node more) t route → IsAllowed node t route }
    ensures none { (node : Node) (more : List Fixing)
        → HasNoRoute node → HasNoRoute (with_fixings node more) }
    ensures forced { (node : Node) (more : List Fixing) (o : Op)
        → IsForced node o → HasRoute (with_fixings node more) o.train
        → IsForced (with_fixings node more) o }
    ensures arcs { (node : Node) (more : List Fixing) (u v : Op) (before : ℕ)
        → IsArc node u v before → HasRoute (with_fixings node more) u.train
        → HasRoute (with_fixings node more) v.train
        → (behind : ℕ) × IsArc (with_fixings node more) u v behind × (before ≤ behind) }
    ensures lowers { (problem : Problem) (changes : List Change) (fixing : Fixing) (number : ℕ)
        (o : Op)
        → IsReply problem changes (Fix fixing) (Accepted number)
        → lower_of problem (standing_of changes) o
        ≤ lower_of problem (standing_of changes ++ fixing ∷ []) o }
    ensures uppers { (problem : Problem) (changes : List Change) (fixing : Fixing) (number : ℕ)
        (o : Op) (upper : ℕ)
        → IsReply problem changes (Fix fixing) (Accepted number)
        → upper_of problem (standing_of changes) o ≡ Some upper
        → (u : ℕ) × (upper_of problem (standing_of changes ++ fixing ∷ []) o ≡ Some u)
        × (u ≤ upper) }
{}

/// The allowed routes of a train are a finite list; so whether there is one, and whether an
/// operation is forced, is decided.
pub fn allowed_routes_are_listed()
    ensures listed { (node : Node) (t : ℕ) → t < length node.problem.trains
        → (routes : List (List ℕ))
        × ((route : List ℕ) → IsAllowed node t route ↔ Contains routes route) }
    ensures route { (node : Node) (t : ℕ) → t < length node.problem.trains
        → HasRoute node t ⊎ (HasRoute node t → ⊥) }
    ensures forced { (node : Node) (o : Op)
        → IsForced node o ⊎ (IsForced node o → ⊥) }
{}

/// Where there is an arc between two operations there is a longest one.
pub fn longest_arcs_exist()
    ensures { (node : Node) (u v : Op) (arc_length : ℕ)
        → IsArc node u v arc_length → (longest : ℕ) × IsLongestArc node u v longest }
{}

/// Arcs of one train compose: by an operation that each allowed route has, least sums add up. So a
/// walk may leave out what lies between where it enters a train and where it leaves it.
pub fn train_arcs_compose()
    ensures sums { (node : Node) (u v w : Op) (one two : ℕ)
        → IsForced node v → IsTrainArc node u v one → IsTrainArc node v w two
        → IsTrainArc node u w (one + two) }
    ensures walks { (node : Node) (front : List Op) (u v w : Op) (rest : List Op) (total : ℕ)
        → u.train ≡ v.train → v.train ≡ w.train
        → IsWalk node (front ++ u ∷ v ∷ w ∷ rest) total
        → IsWalk node (front ++ u ∷ w ∷ rest) total }
{}

/// Whether a leaf holds is decided.
pub fn leaves_are_decided()
    ensures { (node : Node) (verdict : Verdict) (leaf : TreeLeaf)
        → LeafHolds node verdict leaf ⊎ (LeafHolds node verdict leaf → ⊥) }
{}

/// Leaves stay good: with an accepted fixing added a leaf that holds still holds for the same
/// decisions and verdict, and an accepted tree is still accepted.
pub fn leaves_stay_good()
    ensures leaves { (problem : Problem) (changes : List Change) (fixing : Fixing) (number : ℕ)
        (decisions : List Decision) (verdict : Verdict) (leaf : TreeLeaf)
        → IsReply problem changes (Fix fixing) (Accepted number)
        → LeafHolds (node_at problem (standing_of changes) decisions) verdict leaf
        → LeafHolds (node_at problem (standing_of changes ++ fixing ∷ []) decisions) verdict leaf }
    ensures trees { (problem : Problem) (changes : List Change) (fixing : Fixing) (number : ℕ)
        (verdict : Verdict) (tree : List TreeNode)
        → IsReply problem changes (Fix fixing) (Accepted number)
        → Accepts problem (standing_of changes) verdict tree
        → Accepts problem (standing_of changes ++ fixing ∷ []) verdict tree }
{}

/// Each forced operation has a longest walk, and each node has one bound by each rule.
pub fn longest_walks_exist()
    ensures longest { (node : Node) (o : Op)
        → IsForced node o → (total : ℕ) × IsLongest node o total }
    ensures bound { (node : Node) (rule : Rule)
        → (bound : ℕ) × IsBound node rule bound }
    ensures alone { (node : Node) (rule : Rule) (bound other : ℕ)
        → IsBound node rule bound → IsBound node rule other → bound ≡ other }
{}

/// Operations are numbered from 0, trains in order: the numbers of a problem's operations are below
/// their count, different operations have different numbers, and each number below the count is
/// one's.
pub fn operations_are_numbered()
    ensures below { (problem : Problem) (o : Op) → o.train < length problem.trains
        → o.op < length (train_at problem o.train)
        → number_of problem o < operation_count problem.trains }
    ensures apart { (problem : Problem) (o p : Op)
        → o.train < length problem.trains → o.op < length (train_at problem o.train)
        → p.train < length problem.trains → p.op < length (train_at problem p.train)
        → number_of problem o ≡ number_of problem p → o ≡ p }
    ensures each { (problem : Problem) (n : ℕ) → n < operation_count problem.trains
        → (o : Op) × (o.train < length problem.trains) × (o.op < length (train_at problem o.train))
        × (number_of problem o ≡ n) }
{}

/// Whatever the problem and the changes before, a change has one reply.
pub fn replies_are_one()
    ensures { (problem : Problem) (changes : List Change) (change : Change) (reply other : Reply)
        → IsReply problem changes change reply → IsReply problem changes change other
        → reply ≡ other }
{}

/// The horizon bounds walks: with an edition's fixings and no cycle of arcs, no walk is longer than
/// the horizon.
pub fn horizon_bounds_walks()
    ensures { (node : Node) (changes : List Change) (walk : List Op) (total : ℕ)
        → IsEdition node.problem changes → node.fixings ≡ standing_of changes → (HasCycle node → ⊥)
        → IsWalk node walk total
        → total ≤ horizon node.problem.trains }
{}

/// Where each train has one allowed route and arcs have no cycle there is a plan of earliest
/// starts.
pub fn earliest_plans_exist()
    ensures { (node : Node)
        → HaveOneRoute node → (HasCycle node → ⊥)
        → (plan : List Event) × IsEarliest node plan }
{}
