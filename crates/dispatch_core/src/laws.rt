// Laws over the events of the core.
ghost use Rattle.std.specs.Prelude.{◌≤◌, ℕ, Bool, List, [], All};
ghost use Rattle.disp_model.specs.declared.entry.Unasked.{Unasked};
ghost use Rattle.disp_model.specs.declared.fixing.Change.{Change};
ghost use Rattle.disp_model.specs.declared.plan.Event.{Event};
ghost use Rattle.disp_model.specs.declared.entry.Entry.TheVariants.{Unread};
ghost use Rattle.disp_model.specs.declared.problem.Problem.{Problem};
ghost use Rattle.disp_model.specs.declared.settings.Settings.{Settings};
ghost use Rattle.disp_model.specs.WellFormed.{horizon};
ghost use Rattle.open_nodes.specs.declared.work.Fragment.{Fragment};
ghost use Rattle.open_nodes.specs.declared.work.Work.{Work};
ghost use Rattle.open_nodes.specs.States.{one_open_leaf};
ghost use Rattle.dispatch_core.specs.declared.event.CoreEvent.{CoreEvent};
ghost use Rattle.dispatch_core.specs.declared.event.CoreReply.{CoreReply};
ghost use Rattle.dispatch_core.specs.States.{Core, IsSound, entered};
ghost use Rattle.dispatch_core.specs.Asked.{IsGrowth, MayGiveBack, MayStep};
ghost use Rattle.dispatch_core.specs.Replies.{IsAsk, IsShow, with_ended, with_left, IsTake, IsGrow, IsGiveBack, IsPublish, IsSettle, IsStopReply, Steps};

/// What feeds ask keeps the core sound.
pub fn feeds_are_sound()
    ensures asks { (core : Core) (feed line : ℕ) (change : Change) (told : CoreReply)
        (after : Core) → IsSound core → IsAsk core feed line change told after → IsSound after }
    ensures unread { (core : Core) (feed line : ℕ) (why : Unasked) → IsSound core
        → IsSound (entered core (Unread feed line why)) }
    ensures shows { (core : Core) (feed line : ℕ) (told : CoreReply) (after : Core) → IsSound core
        → IsShow core feed line told after → IsSound after }
    ensures ends { (core : Core) (feed : ℕ) → IsSound core → IsSound (with_ended core feed) }
    ensures leaves { (core : Core) (searcher : ℕ) → IsSound core
        → IsSound (with_left core searcher) }
{}

/// So does what searchers take and give back.
pub fn works_are_sound()
    ensures takes { (core : Core) (edition want : ℕ) (told : CoreReply) (after : Core)
        → IsSound core → IsTake core edition want told after → IsSound after }
    ensures back { (core : Core) (work : Work) (examined : Bool) (told : CoreReply)
        (after : Core) → IsSound core → MayGiveBack core work examined
        → IsGiveBack core work examined told after → IsSound after }
{}

/// So does what they grow.
pub fn growths_are_sound()
    ensures { (core : Core) (searcher : ℕ) (fragment : Fragment) (told : CoreReply)
        (after : Core) → IsSound core → IsGrowth core fragment
        → IsGrow core searcher fragment told after → IsSound after }
{}

/// So does what is published, settled and stopped.
pub fn verdicts_are_sound()
    ensures publishes { (core : Core) (edition : ℕ) (plan : List Event) (told : CoreReply)
        (after : Core) → IsSound core
        → All (λ e. e.time ≤ horizon core.problem.trains) plan
        → IsPublish core edition plan told after → IsSound after }
    ensures settles { (core : Core) (edition : ℕ) (told : CoreReply) (after : Core)
        → IsSound core → IsSettle core edition told after → IsSound after }
    ensures stops { (core : Core) (edition : ℕ) (told : CoreReply) (after : Core) → IsSound core
        → IsStopReply core edition told after → IsSound after }
{}

/// A run without entries, whose tree is one leaf, is sound.
pub fn first_cores_are_sound()
    ensures { (problem : Problem) (settings : Settings) (ended left : List Bool)
        → IsSound (record {
          problem = problem;
          settings = settings;
          history = [];
          nodes = one_open_leaf;
          ended = ended;
          left = left;
        }) }
{}

/// Every step is sound: the history stays legal, the tree the one that it grew, and so on.
pub fn steps_are_sound()
    ensures { (core : Core) (event : CoreEvent) (told : CoreReply) (after : Core) → IsSound core
        → MayStep core event → Steps core event told after → IsSound after }
{}
