ghost use Rattle.std.specs.Prelude.{◌≡◌, ◌≤◌, Some, IfSome, IfNone, MatchOption, length};
ghost use Rattle.disp_model.specs.declared.fixing.Change.TheVariants.{Fix};
ghost use Rattle.disp_model.specs.declared.limits.TheConstants.{MOST_CHANGES};
ghost use Rattle.disp_model.specs.declared.reply.Reply.TheVariants.{Refused};
ghost use Rattle.disp_model.specs.declared.reply.Refusal.TheVariants.{NoSuchChange};
ghost use Rattle.disp_model.specs.Changes.{change_at};
ghost use Rattle.disp_model.specs.Replies.{RepliesToWithdrawal};
ghost use Rattle.fixing_editions.specs.Edition.{AreWithdrawn};

use crate::reply::counted;
use disp_model::{Change, Fixing, Refusal, Reply};

/// The fixing that was accepted as the change of a number.
pub(crate) fn fixing_at(changes: &[Change], number: u64) -> Option<Fixing>
    ensures some { IfSome result (λ fixing. change_at changes.now number ≡ Some (Fix fixing)) }
    ensures none { IfNone result
        (RepliesToWithdrawal changes.now number (change_at changes.now number)
        (Refused NoSuchChange)) }
{
    if number == 0 {
        return None;
    }
    match changes.get(number as usize - 1) {
        Some(change) => match *change {
            Change::Fix(fixing) => Some(fixing),
            Change::Withdraw { .. } => None,
        },
        None => None,
    }
}

/// The reply to a withdrawal of a fixing that was accepted as the change of this number.
pub(crate) fn reply_to_withdrawal(
    changes: &[Change],
    withdrawn: &[Option<u32>],
    number: u64,
    fixing: Fixing,
) -> Reply
    requires fits { length changes.now ≤ MOST_CHANGES }
    requires withdrawn { AreWithdrawn changes.now withdrawn.now }
    requires there { change_at changes.now number ≡ Some (Fix fixing) }
    ensures { RepliesToWithdrawal changes.now number (Some (Fix fixing)) result }
{
    match withdrawn[number as usize - 1] {
        Some(by) => Reply::Refused(Refusal::Withdrawn(by)),
        None => counted(changes),
    }
}
