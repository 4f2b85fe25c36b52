ghost use Rattle.std.specs.Prelude.{[], ◌∷◌};
ghost use Rattle.disp_model.specs.Node.{root_of};
ghost use Rattle.disp_model.specs.declared.decision.Choice.TheVariants.{Order};
ghost use Rattle.disp_model.specs.declared.fixing.Fixing.TheVariants.{NotBefore};
ghost use Rattle.disp_model.specs.declared.problem.Problem.{Problem};
ghost use Rattle.disp_model.specs.Choices.{Clears, IsOpen};
ghost use Rattle.definition_examples.specs.Trains.{HasTwoTrains, a0, b0};

/// A0 takes 10. Where B0 is not to start before 10 the two touch, and their order is open; from 11
/// on A0 clears B0. With the release time 3 it does so from 13 on, and 11 is too early.
pub fn operations_that_touch_are_open()
    ensures touching { (problem : Problem) → HasTwoTrains 0 problem
        → IsOpen (root_of problem (NotBefore 1 0 10 ∷ [])) (Order a0 b0) }
    ensures cleared { (problem : Problem) → HasTwoTrains 0 problem
        → Clears (root_of problem (NotBefore 1 0 11 ∷ [])) a0 b0 }
    ensures released { (problem : Problem) → HasTwoTrains 3 problem
        → IsOpen (root_of problem (NotBefore 1 0 11 ∷ [])) (Order a0 b0) }
    ensures waited { (problem : Problem) → HasTwoTrains 3 problem
        → Clears (root_of problem (NotBefore 1 0 13 ∷ [])) a0 b0 }
{}
