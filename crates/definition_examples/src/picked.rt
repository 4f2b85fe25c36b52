ghost use Rattle.std.specs.Prelude.{[], None, Some};
ghost use Rattle.disp_model.specs.declared.settings.Rule.TheVariants.{Fixed};
ghost use Rattle.disp_model.specs.Node.{root_of, node_at};
ghost use Rattle.disp_model.specs.declared.decision.Choice.TheVariants.{Order};
ghost use Rattle.disp_model.specs.declared.problem.Problem.{Problem};
ghost use Rattle.disp_model.specs.Earliest.{IsPicked};
ghost use Rattle.definition_examples.specs.Trains.{HasTwoTrains, a0, b0};
ghost use Rattle.definition_examples.specs.Trees.{second_before};

/// The two trains, each as early as it can, clash in their first operations: their order is picked.
/// With the second decided first, the earliest plan is valid and nothing is picked.
pub fn the_first_clash_is_picked()
    ensures order { (problem : Problem) → HasTwoTrains 0 problem
        → IsPicked (root_of problem []) Fixed (Some (Order a0 b0)) }
    ensures none { (problem : Problem) → HasTwoTrains 0 problem
        → IsPicked (node_at problem [] second_before) Fixed None }
{}
