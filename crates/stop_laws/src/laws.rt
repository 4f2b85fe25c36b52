// Laws over the tree that a legal history grew, and over its stops.
ghost use Rattle.std.specs.Prelude.{◌≡◌, ℕ, List, Some, slice_get};
ghost use Rattle.disp_model.specs.declared.decision.Decision.{Decision};
ghost use Rattle.disp_model.specs.declared.entry.Entry.{Entry};
ghost use Rattle.disp_model.specs.declared.entry.Entry.TheVariants.{Stopped};
ghost use Rattle.disp_model.specs.declared.fixing.Fixing.{Fixing};
ghost use Rattle.disp_model.specs.declared.plan.Event.{Event};
ghost use Rattle.disp_model.specs.declared.problem.Problem.{Problem};
ghost use Rattle.disp_model.specs.declared.settings.Settings.{Settings};
ghost use Rattle.disp_model.specs.Follows.{Follows};
ghost use Rattle.disp_model.specs.History.{edition_of, fixings_after};
ghost use Rattle.disp_model.specs.Legal.{IsLegal, IsLegalStop};
ghost use Rattle.disp_model.specs.Replay.{grown_by, above_leaf};
ghost use Rattle.disp_model.specs.Valid.{IsValid};
ghost use Rattle.stop_laws.specs.Bounded.{CostsAtLeast};

/// The grown tree of a legal history covers: whatever the fixings, a valid plan follows the
/// decisions above some leaf.
pub fn grown_trees_cover()
    ensures { (problem : Problem) (settings : Settings) (history : List Entry)
        (fixings : List Fixing) (plan : List Event)
        → IsLegal problem settings history → IsValid problem fixings plan
        → (node : ℕ) × (above : List Decision)
        × (above_leaf node (grown_by problem history).places ≡ Some above)
        × Follows plan above }
{}

/// The bound of a stop is one: where an edition may be stopped with it behind a legal history, and
/// of each stop in a legal history, each plan that is valid for the edition costs at least that.
pub fn stops_bound_costs()
    ensures behind { (problem : Problem) (settings : Settings) (history : List Entry)
        (edition spent bound : ℕ)
        → IsLegal problem settings history
        → IsLegalStop problem settings history edition spent bound
        → CostsAtLeast problem (edition_of history) bound }
    ensures within { (problem : Problem) (settings : Settings) (history : List Entry)
        (i edition spent bound : ℕ)
        → IsLegal problem settings history
        → slice_get history i ≡ Some (Stopped edition spent bound)
        → CostsAtLeast problem (fixings_after edition history) bound }
{}
