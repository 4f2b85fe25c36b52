ghost use Rattle.std.specs.Prelude.{[], ◌∷◌};
ghost use Rattle.disp_model.specs.Node.{node_at};
ghost use Rattle.disp_model.specs.declared.problem.Problem.{Problem};
ghost use Rattle.disp_model.specs.Arcs.{IsArc};
ghost use Rattle.disp_model.specs.Nodes.{IsDead};
ghost use Rattle.disp_model.specs.Trees.{IsLateWalk};
ghost use Rattle.disp_model.specs.Walks.{IsCycle};
ghost use Rattle.definition_examples.specs.Histories.{a0_at_0};
ghost use Rattle.definition_examples.specs.Trains.{HasSwapTrains, HasTwoTrains, a0, a1, b0, b1};
ghost use Rattle.definition_examples.specs.Trees.{against, both_started, second_before};

/// Two trains that swap resources, each to leave before the other comes: A1 and B1 wait for each
/// other, by arcs of length 0, and this is a cycle.
pub fn a_cycle_may_have_the_length_zero()
    ensures to { (problem : Problem) → HasSwapTrains problem
        → IsArc (node_at problem both_started against) a1 b1 0 }
    ensures back { (problem : Problem) → HasSwapTrains problem
        → IsArc (node_at problem both_started against) b1 a1 0 }
    ensures cycle { (problem : Problem) → HasSwapTrains problem
        → IsCycle (node_at problem both_started against) (a1 ∷ b1 ∷ []) }
    ensures dead { (problem : Problem) → HasSwapTrains problem
        → IsDead (node_at problem both_started against) }
{}

/// With the first train started at 0 and the second decided first, the walk B0, B1, A0 has the
/// length 4 and is too late for A0.
pub fn a_fixed_start_can_be_too_early()
    ensures walk { (problem : Problem) → HasTwoTrains 0 problem
        → IsLateWalk (node_at problem (a0_at_0 ∷ []) second_before) (b0 ∷ b1 ∷ a0 ∷ []) }
    ensures dead { (problem : Problem) → HasTwoTrains 0 problem
        → IsDead (node_at problem (a0_at_0 ∷ []) second_before) }
{}
