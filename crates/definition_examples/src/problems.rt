ghost use Rattle.disp_model.specs.declared.problem.Problem.{Problem};
ghost use Rattle.definition_examples.specs.Trains.{HasBranchCosts, HasForkedTrain, HasSwapTrains, HasTwoTrains, HasWindowedTrain};

/// There are problems with the trains of the examples: what is said of each such problem is not
/// empty.
pub fn the_examples_are_problems()
    ensures two { (problem : Problem) × HasTwoTrains 0 problem }
    ensures released { (problem : Problem) × HasTwoTrains 3 problem }
    ensures swapping { (problem : Problem) × HasSwapTrains problem }
    ensures forked { (problem : Problem) × HasForkedTrain problem }
    ensures costly { (problem : Problem) × HasBranchCosts problem }
    ensures windowed { (problem : Problem) × HasWindowedTrain problem }
{}
