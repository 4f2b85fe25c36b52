ghost use Rattle.std.specs.Prelude.{◌≡◌, ℕ, []};
ghost use Rattle.disp_model.specs.declared.settings.Rule.TheVariants.{Fixed};
ghost use Rattle.disp_model.specs.Node.{root_of, node_at};
ghost use Rattle.disp_model.specs.declared.problem.Problem.{Problem};
ghost use Rattle.disp_model.specs.Shares.{IsBound};
ghost use Rattle.definition_examples.specs.Trains.{HasTwoTrains};
ghost use Rattle.definition_examples.specs.Trees.{first_before, second_before};

/// Before a decision each train counts alone, 10 and 4: the bound is 14, and no other number.
pub fn undecided_trains_are_bounded_alone()
    ensures bound { (problem : Problem) → HasTwoTrains 0 problem
        → IsBound (root_of problem []) Fixed 14 }
    ensures only { (problem : Problem) (bound : ℕ) → HasTwoTrains 0 problem
        → IsBound (root_of problem []) Fixed bound → bound ≡ 14 }
{}

/// An order makes the later train wait: the bound is 24 with the first train first, else 18.
pub fn an_order_adds_the_wait()
    ensures first { (problem : Problem) → HasTwoTrains 0 problem
        → IsBound (node_at problem [] first_before) Fixed 24 }
    ensures second { (problem : Problem) → HasTwoTrains 0 problem
        → IsBound (node_at problem [] second_before) Fixed 18 }
{}

/// With the release time 3 the later train waits so much longer: 27 and 21, and no other number.
pub fn a_release_time_adds_to_the_wait()
    ensures first { (problem : Problem) → HasTwoTrains 3 problem
        → IsBound (node_at problem [] first_before) Fixed 27 }
    ensures second { (problem : Problem) → HasTwoTrains 3 problem
        → IsBound (node_at problem [] second_before) Fixed 21 }
    ensures only_first { (problem : Problem) (bound : ℕ) → HasTwoTrains 3 problem
        → IsBound (node_at problem [] first_before) Fixed bound → bound ≡ 27 }
    ensures only_second { (problem : Problem) (bound : ℕ) → HasTwoTrains 3 problem
        → IsBound (node_at problem [] second_before) Fixed bound → bound ≡ 21 }
{}
