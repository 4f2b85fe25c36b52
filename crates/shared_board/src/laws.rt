// Laws over what calls do.
ghost use Rattle.disp_model.specs.declared.entry.Entry.{Entry};
ghost use Rattle.dispatch_core.specs.declared.event.CoreEvent.{CoreEvent};
ghost use Rattle.dispatch_core.specs.declared.event.CoreReply.{CoreReply};
ghost use Rattle.dispatch_core.specs.States.{Core};
ghost use Rattle.turn_lock.specs.Known.{Known};
ghost use Rattle.shared_board.specs.declared.terms.Terms.{Terms};
ghost use Rattle.shared_board.specs.Calls.{Enters, Looks};
ghost use Rattle.shared_board.specs.Standing.{SameRole, EntersAs};

/// Where a reply has an entry, it stands last in what its pass has seen, and its place is the
/// pass's last; else the pass has the places that it had.
pub fn calls_enter()
    ensures { (v : Known Entry Terms) (asked : CoreEvent) (told : CoreReply)
        (w : Known Entry Terms) → Enters v asked told w → EntersAs asked told v w }
{}

/// Calls change no role.
pub fn roles_stay()
    ensures entered { (v : Known Entry Terms) (asked : CoreEvent) (told : CoreReply)
        (w : Known Entry Terms) → Enters v asked told w → SameRole v w }
    ensures looked { (v : Known Entry Terms) (core : Core) (w : Known Entry Terms)
        → Looks v core w → SameRole v w }
{}
