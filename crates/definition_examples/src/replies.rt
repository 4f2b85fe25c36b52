ghost use Rattle.std.specs.Prelude.{◌≡◌, List, [], ◌∷◌};
ghost use Rattle.disp_model.specs.declared.fixing.Change.TheVariants.{Fix, Withdraw};
ghost use Rattle.disp_model.specs.declared.fixing.Fixing.{Fixing};
ghost use Rattle.disp_model.specs.declared.fixing.Fixing.TheVariants.{Chosen, NotBefore, Started};
ghost use Rattle.disp_model.specs.declared.problem.Problem.{Problem};
ghost use Rattle.disp_model.specs.declared.reply.Refusal.TheVariants.{AboveUpper, BelowLower, EarliestIs, NoOperation, NoSuchChange, NoSuccessor, NoTrain, StartedAt, TooLarge, Withdrawn};
ghost use Rattle.disp_model.specs.declared.reply.Reply.{Reply};
ghost use Rattle.disp_model.specs.declared.reply.Reply.TheVariants.{Accepted, Known, Refused};
ghost use Rattle.disp_model.specs.Changes.{standing_of};
ghost use Rattle.disp_model.specs.Walks.{lower_of};
ghost use Rattle.disp_model.specs.Replies.{IsReply};
ghost use Rattle.definition_examples.specs.Trains.{b0, HasTwoTrains, HasWindowedTrain};

/// A fixing is accepted, known when it comes again, and refused with another time.
pub fn a_start_is_fixed_once()
    ensures accepted { (problem : Problem) → HasTwoTrains 0 problem
        → IsReply problem [] (Fix (Started 0 0 0)) (Accepted 1) }
    ensures known { (problem : Problem) → HasTwoTrains 0 problem
        → IsReply problem (Fix (Started 0 0 0) ∷ []) (Fix (Started 0 0 0)) (Known 1) }
    ensures refused { (problem : Problem) → HasTwoTrains 0 problem
        → IsReply problem (Fix (Started 0 0 0) ∷ []) (Fix (Started 0 0 7)) (Refused (StartedAt 0)) }
{}

/// A start outside the operation's window, or at a time above every limit, is refused.
pub fn a_start_is_within_its_window()
    ensures below { (problem : Problem) → HasWindowedTrain problem
        → IsReply problem [] (Fix (Started 0 0 1)) (Refused (BelowLower 2)) }
    ensures above { (problem : Problem) → HasWindowedTrain problem
        → IsReply problem [] (Fix (Started 0 0 6)) (Refused (AboveUpper 5)) }
    ensures too_large { (problem : Problem) → HasWindowedTrain problem
        → IsReply problem [] (Fix (Started 0 0 2147483648)) (Refused TooLarge) }
{}

/// A fixing names a train, an operation of it, and one of its successors.
pub fn a_fixing_names_what_is_there()
    ensures no_train { (problem : Problem) → HasWindowedTrain problem
        → IsReply problem [] (Fix (Started 1 0 2)) (Refused NoTrain) }
    ensures no_operation { (problem : Problem) → HasWindowedTrain problem
        → IsReply problem [] (Fix (Started 0 2 2)) (Refused NoOperation) }
    ensures no_successor { (problem : Problem) → HasWindowedTrain problem
        → IsReply problem [] (Fix (Chosen 0 0 0)) (Refused NoSuccessor) }
{}

/// A withdrawal takes back the fixing of its number, once; then the fixing does not stand, and may
/// be asked for anew. There is no change 0, none past the last, and a withdrawal is not taken back.
pub fn a_fixing_is_taken_back_once()
    ensures accepted { (problem : Problem)
        → IsReply problem (Fix (Started 0 0 0) ∷ []) (Withdraw 1) (Accepted 2) }
    ensures stands_no_more { standing_of (Fix (Started 0 0 0) ∷ Withdraw 1 ∷ []) ≡ [] }
    ensures again { (problem : Problem)
        → IsReply problem (Fix (Started 0 0 0) ∷ Withdraw 1 ∷ []) (Withdraw 1)
        (Refused (Withdrawn 2)) }
    ensures itself { (problem : Problem)
        → IsReply problem (Fix (Started 0 0 0) ∷ Withdraw 1 ∷ []) (Withdraw 2)
        (Refused NoSuchChange) }
    ensures past { (problem : Problem) → IsReply problem [] (Withdraw 1) (Refused NoSuchChange) }
    ensures zero { (problem : Problem)
        → IsReply problem (Fix (Started 0 0 0) ∷ []) (Withdraw 0) (Refused NoSuchChange) }
{}

/// Of two times before which an operation is not to start the greater counts: for its lower, and
/// for a start that is asked for. An operation that is fixed to start is not put off.
pub fn the_greatest_earliest_time_counts()
    ensures lower { (problem : Problem) → HasTwoTrains 0 problem
        → lower_of problem (NotBefore 1 0 20 ∷ NotBefore 1 0 10 ∷ []) b0 ≡ 20 }
    ensures refused { (problem : Problem) → HasTwoTrains 0 problem
        → IsReply problem (Fix (NotBefore 1 0 20) ∷ Fix (NotBefore 1 0 10) ∷ [])
        (Fix (Started 1 0 15)) (Refused (EarliestIs 20)) }
    ensures put_off { (problem : Problem) → HasTwoTrains 0 problem
        → IsReply problem (Fix (Started 1 0 20) ∷ []) (Fix (NotBefore 1 0 30))
        (Refused (StartedAt 20)) }
    ensures kept { (problem : Problem) → HasTwoTrains 0 problem
        → IsReply problem (Fix (Started 1 0 20) ∷ []) (Fix (NotBefore 1 0 20)) (Accepted 2) }
    ensures known { (problem : Problem) → HasTwoTrains 0 problem
        → IsReply problem (Fix (NotBefore 1 0 20) ∷ []) (Fix (NotBefore 1 0 20)) (Known 1) }
    ensures too_large { (problem : Problem) → HasTwoTrains 0 problem
        → IsReply problem [] (Fix (NotBefore 0 0 2147483648)) (Refused TooLarge) }
{}
