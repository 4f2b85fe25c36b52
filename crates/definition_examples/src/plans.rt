ghost use Rattle.std.specs.Prelude.{◌≡◌, [], ◌∷◌};
ghost use Rattle.disp_model.specs.declared.decision.Decision.TheVariants.{Run, Skip};
ghost use Rattle.disp_model.specs.declared.fixing.Change.TheVariants.{Fix, Withdraw};
ghost use Rattle.disp_model.specs.declared.fixing.Fixing.TheVariants.{NotBefore, Started};
ghost use Rattle.disp_model.specs.declared.problem.Problem.{Problem};
ghost use Rattle.disp_model.specs.Cost.{cost_of};
ghost use Rattle.disp_model.specs.Changes.{standing_of};
ghost use Rattle.disp_model.specs.Fixing.{IsMet};
ghost use Rattle.disp_model.specs.Follows.{FollowsDecision};
ghost use Rattle.disp_model.specs.Valid.{IsValid};
ghost use Rattle.definition_examples.specs.Plans.{first_first, listed_too_early, second_first, swap_at_once};
ghost use Rattle.definition_examples.specs.Trains.{HasSwapTrains, HasTwoTrains, b0, op_named};

/// With the second train first, B0 at 0, B1 at 4, A0 at 4, A1 at 14, the plan is valid and costs
/// 18.
pub fn the_second_train_first()
    ensures valid { (problem : Problem) → HasTwoTrains 0 problem → IsValid problem [] second_first }
    ensures cost { (problem : Problem) → HasTwoTrains 0 problem
        → cost_of problem.components second_first ≡ 18 }
{}

/// With the first train first, A0 at 0, A1 at 10, B0 at 10, B1 at 14, the plan is valid and costs
/// 24.
pub fn the_first_train_first()
    ensures valid { (problem : Problem) → HasTwoTrains 0 problem → IsValid problem [] first_first }
    ensures cost { (problem : Problem) → HasTwoTrains 0 problem
        → cost_of problem.components first_first ≡ 24 }
{}

/// With A0 listed before B1, at the same time, the resource is not free yet: positions count.
pub fn a_later_listing_at_the_same_time_is_too_late()
    ensures { (problem : Problem) → HasTwoTrains 0 problem → IsValid problem [] listed_too_early
        → ⊥ }
{}

/// With the release time 3 the plan of the second train first is not valid, since A0 comes at once.
pub fn a_release_time_keeps_trains_apart()
    ensures { (problem : Problem) → HasTwoTrains 3 problem → IsValid problem [] second_first → ⊥ }
{}

/// Two trains do not swap their resources at one moment.
pub fn resources_are_not_swapped_at_once()
    ensures { (problem : Problem) → HasSwapTrains problem → IsValid problem [] swap_at_once → ⊥ }
{}

/// An operation that is not to start before a time starts then or later, or is not run; one that
/// starts earlier does not meet it.
pub fn an_earliest_time_is_met_later_too()
    ensures at_the_time { IsMet second_first (NotBefore 0 0 4) }
    ensures later { IsMet second_first (NotBefore 0 0 3) }
    ensures earlier { IsMet second_first (NotBefore 0 0 5) → ⊥ }
    ensures not_run { IsMet second_first (NotBefore 0 2 5) }
{}

/// A fixing that is taken back need not be met.
pub fn a_withdrawn_fixing_is_not_met()
    ensures { (problem : Problem) → HasTwoTrains 0 problem
        → IsValid problem (standing_of (Fix (Started 0 0 0) ∷ Withdraw 1 ∷ [])) second_first }
{}

/// A plan that runs an operation follows the decision to run it, and not the one to skip it.
pub fn an_operation_is_run_or_skipped()
    ensures run { FollowsDecision second_first (Run b0) }
    ensures not_skipped { FollowsDecision second_first (Skip b0) → ⊥ }
    ensures skipped { FollowsDecision second_first (Skip (op_named 1 2)) }
{}
