ghost use Rattle.std.specs.Prelude.{◌≡◌, ◌+◌, ◌++◌, ◌∷◌, [], OnOk, OnErr};
ghost use Rattle.disp_model.specs.declared.entry.Entry.{Entry};
ghost use Rattle.disp_model.specs.declared.entry.Entry.TheVariants.{Unread};
ghost use Rattle.shared_board.specs.Board.{board_of, own_board, known, lines};
ghost use Rattle.shared_board.specs.Calls.{HasLines};
ghost use Rattle.shared_board.specs.Onward.{entries_by, PassGoesOn};
ghost use Rattle.feed_reader.specs.Answered.{AnswersText};

use disp_model::{Memory, Unasked};
use fixing_lines::{Request, read_request};
use shared_board::{Board, Pass};
use std::alloc::Global;
use std::sync::Wait;

/// Enters that the feed's next line asks nothing.
pub(crate) fn enter_unread<W: Wait>(
    rt: &W,
    alloc: Global,
    board: &Board,
    pass: &mut Pass,
    why: Unasked,
) -> Result<(), Memory>
    requires board { own_board pass.old ≡ board_of board.now }
    requires feed { HasLines (known pass.old) }
    ensures on { PassGoesOn pass.old pass.new }
    ensures entered { OnOk result (entries_by (known pass.old).caller (known pass.new).seen
        ≡ entries_by (known pass.old).caller (known pass.old).seen
        ++ Unread (known pass.old).caller (lines pass.old + 1) why ∷ []) }
    ensures counted { OnOk result (lines pass.new ≡ lines pass.old + 1) }
    ensures err { OnErr result (entries_by (known pass.old).caller (known pass.new).seen
        ≡ entries_by (known pass.old).caller (known pass.old).seen) }
{
    board.unread(rt, alloc, pass, why)?;
    Ok(())
}

/// Enters what the feed's next line asks.
pub(crate) fn enter_text<W: Wait>(
    rt: &W,
    alloc: Global,
    board: &Board,
    pass: &mut Pass,
    text: &[u8],
) -> Result<(), Memory>
    requires board { own_board pass.old ≡ board_of board.now }
    requires feed { HasLines (known pass.old) }
    ensures on { PassGoesOn pass.old pass.new }
    ensures entered { OnOk result ((entry : Entry)
        × AnswersText (known pass.old).caller (lines pass.old + 1) text.now entry
        × (entries_by (known pass.old).caller (known pass.new).seen
        ≡ entries_by (known pass.old).caller (known pass.old).seen ++ entry ∷ [])) }
    ensures counted { OnOk result (lines pass.new ≡ lines pass.old + 1) }
    ensures err { OnErr result (entries_by (known pass.old).caller (known pass.new).seen
        ≡ entries_by (known pass.old).caller (known pass.old).seen) }
{
    match read_request(text) {
        Request::Ask(change) => {
            board.ask(rt, alloc, pass, change)?;
        }
        Request::Show => {
            board.show(rt, alloc, pass)?;
        }
        Request::Unreadable => {
            board.unread(rt, alloc, pass, Unasked::Unreadable)?;
        }
    }
    Ok(())
}
