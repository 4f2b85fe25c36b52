ghost use Rattle.std.specs.Prelude.{[], ◌∷◌};
ghost use Rattle.disp_model.specs.Node.{root_of, node_at};
ghost use Rattle.disp_model.specs.declared.decision.Decision.TheVariants.{Go, Run, Skip};
ghost use Rattle.disp_model.specs.declared.decision.Choice.TheVariants.{Run as RunIt};
ghost use Rattle.disp_model.specs.declared.fixing.Change.TheVariants.{Fix};
ghost use Rattle.disp_model.specs.declared.fixing.Fixing.TheVariants.{Chosen, Started};
ghost use Rattle.disp_model.specs.declared.problem.Problem.{Problem};
ghost use Rattle.disp_model.specs.declared.reply.Refusal.TheVariants.{NoRoute};
ghost use Rattle.disp_model.specs.declared.reply.Reply.TheVariants.{Refused};
ghost use Rattle.disp_model.specs.Arcs.{IsTrainArc};
ghost use Rattle.disp_model.specs.Choices.{IsOpen};
ghost use Rattle.disp_model.specs.Replies.{IsReply};
ghost use Rattle.disp_model.specs.Routes.{HasOneRoute, IsAllowed, IsForced};
ghost use Rattle.definition_examples.specs.Trains.{HasForkedTrain, op_named};

/// Before a decision no branch of the fork is forced, and the least sum of durations is that by 2.
pub fn a_fork_forces_no_branch()
    ensures not_forced { (problem : Problem) → HasForkedTrain problem
        → IsForced (root_of problem []) (op_named 0 1) → ⊥ }
    ensures least { (problem : Problem) → HasForkedTrain problem
        → IsTrainArc (root_of problem []) (op_named 0 0) (op_named 0 3) 3 }
{}

/// Decided to go on to 1, the train is forced through it, and the sum is that by 1.
pub fn a_decision_forces_its_branch()
    ensures forced { (problem : Problem) → HasForkedTrain problem
        → IsForced (node_at problem [] (Go (op_named 0 0) 1 ∷ [])) (op_named 0 1) }
    ensures least { (problem : Problem) → HasForkedTrain problem
        → IsTrainArc (node_at problem [] (Go (op_named 0 0) 1 ∷ [])) (op_named 0 0) (op_named 0 3)
        5 }
{}

/// Fixed to go on to 2, the train has one route, and 1 cannot be fixed to start.
pub fn a_choice_leaves_one_route()
    ensures one { (problem : Problem) → HasForkedTrain problem
        → HasOneRoute (root_of problem (Chosen 0 0 2 ∷ [])) 0 (0 ∷ 2 ∷ 3 ∷ []) }
    ensures refused { (problem : Problem) → HasForkedTrain problem
        → IsReply problem (Fix (Chosen 0 0 2) ∷ []) (Fix (Started 0 1 4)) (Refused NoRoute) }
{}

/// Decided to run 1, the train is forced through it; decided to skip it, the route by 1 is not
/// allowed.
pub fn a_run_or_skip_leaves_one_route()
    ensures run { (problem : Problem) → HasForkedTrain problem
        → IsForced (node_at problem [] (Run (op_named 0 1) ∷ [])) (op_named 0 1) }
    ensures skipped { (problem : Problem) → HasForkedTrain problem
        → IsAllowed (node_at problem [] (Skip (op_named 0 1) ∷ [])) 0 (0 ∷ 1 ∷ 3 ∷ []) → ⊥ }
    ensures free { (problem : Problem) → HasForkedTrain problem
        → IsOpen (root_of problem []) (RunIt (op_named 0 1)) }
{}
