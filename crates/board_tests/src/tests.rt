ghost use Rattle.std.specs.Prelude.{◌≡◌, ℕ, [], ◌∷◌, ◌++◌, IfOk, IfSome};
ghost use Rattle.turn_lock.specs.Known.{with_given, given_known};
ghost use Rattle.shared_board.specs.Board.{board_of, own_board, known};
ghost use Rattle.shared_board.specs.Calls.{HasLines, IsFeed, IsSearcher};
ghost use Rattle.board_tests.specs.Callers.{IsNew};

use disp_model::{Change, Entry, Fixing, Mark, Reply, Rule, Settings, Standing};
use dispatch_core::CoreReply;
use shared_board::{Board, Pass, SEARCHERS_FROM};
use std::alloc::Global;
use std::process::Abort;
use std::sync::Wait;
use std::test::Fail;
use std::thread::join;
use worked_problems::two_trains;

/// A board of two trains on one block, for two feeds and one searcher, and its first pass.
fn board(alloc: Global) -> Result<(Board, Pass), Fail>
    ensures board { IfOk result (λ made. own_board made.1 ≡ board_of made.0) }
    ensures new { IfOk result (λ made. IsNew (known made.1)) }
{
    let problem = two_trains(alloc)?;
    let settings = Settings {
        budget: 10,
        rule: Rule::Fixed,
    };
    Ok(Board::new(alloc, &problem, settings, 2, 1)?)
}

#[test]
fn a_new_board_shows_its_opening(rt: HostRuntime) -> Result<(), Fail> {
    let alloc = rt.alloc();
    let (board, mut pass) = board(alloc)?;
    let opening = Standing {
        edition: 0,
        best: None,
        mark: Mark::Working,
    };
    assert!(rt; board.try_show(alloc, &mut pass) == Ok(opening));
    let news = board.news(&rt, alloc, &mut pass)?;
    assert!(rt; news.entries.len() == 1 && !news.ended);
    assert!(rt; board.news(&rt, alloc, &mut pass)?.entries.len() == 0);
    assert!(rt; board.heard(&mut pass) == 1);
    Ok(())
}

/// Asks that the first operation of a train starts at a time, and answers the change's number.
fn ask<R: Wait>(
    rt: &R,
    alloc: Global,
    board: &Board,
    pass: &mut Pass,
    at_train: u64,
    time: u64,
) -> Option<u32>
    requires board { own_board pass.old ≡ board_of board.now }
    requires lines { HasLines (known pass.old) }
    ensures board { own_board pass.new ≡ own_board pass.old }
    ensures role { ((known pass.new).first ≡ (known pass.old).first)
        × ((known pass.new).caller ≡ (known pass.old).caller)
        × ((known pass.new).given ≡ (known pass.old).given)
        × ((known pass.new).back ≡ (known pass.old).back) }
    ensures one { IfSome result (λ _. (place : ℕ)
        × ((known pass.new).mine ≡ (known pass.old).mine ++ place ∷ [])) }
{
    let change = Change::Fix(Fixing::Started {
        at_train,
        at_op: 0,
        time,
    });
    match board.ask(rt, alloc, pass, change) {
        Ok(CoreReply::Asked(Reply::Accepted(number))) => Some(number),
        _ => None,
    }
}

#[test]
fn a_caller_that_asked_is_shown_edition_one(rt: HostRuntime) -> Result<(), Fail> {
    let alloc = rt.alloc();
    let (board, mut pass) = board(alloc)?;
    assert!(rt; ask(&rt, alloc, &board, &mut pass, 0, 0) == Some(1));
    let shown = Standing {
        edition: 1,
        best: None,
        mark: Mark::Working,
    };
    assert!(rt; board.try_show(alloc, &mut pass) == Ok(shown));
    Ok(())
}

/// The same, with a pass that is handed over.
fn ask_alone<R: Wait>(
    rt: &R,
    alloc: Global,
    board: &Board,
    mut pass: Pass,
    at_train: u64,
    time: u64,
) -> (Pass, Option<u32>)
    requires board { own_board pass ≡ board_of board.now }
    requires lines { HasLines (known pass) }
    ensures board { own_board result.0 ≡ board_of board.now }
    ensures one { IfSome result.1 (λ _. (place : ℕ)
        × ((known result.0).mine ≡ (known pass).mine ++ place ∷ [])) }
    ensures caller { (known result.0).caller ≡ (known pass).caller }
{
    let number = ask(rt, alloc, board, &mut pass, at_train, time);
    (pass, number)
}

/// A pass for each feed of a new board.
fn both_feeds(board: &Board, pass: &mut Pass) -> (Pass, Pass)
    requires board { own_board pass.old ≡ board_of board.now }
    requires new { IsNew (known pass.old) }
    ensures board { (own_board pass.new ≡ board_of board.now)
        × (own_board result.0 ≡ board_of board.now) × (own_board result.1 ≡ board_of board.now) }
    ensures pass { known pass.new ≡ with_given (with_given (known pass.old) 0) 1 }
    ensures callers { ((known result.0).caller ≡ 0) × ((known result.1).caller ≡ 1) }
    ensures feeds { IsFeed (known result.0) × IsFeed (known result.1) }
    ensures lines { HasLines (known result.0) × HasLines (known result.1) }
{
    let one = board.split(pass, 0);
    let two = board.split(pass, 1);
    (one, two)
}

#[test]
fn two_callers_ask_in_some_order(rt: HostRuntime) -> Result<(), Fail> {
    let alloc = rt.alloc();
    let (board, mut pass) = board(alloc)?;
    let (one, two) = both_feeds(&board, &mut pass);
    let ((one, first), (two, second)) = join(
        &rt,
        || ask_alone(&rt, alloc, &board, one, 0, 0),
        || ask_alone(&rt, alloc, &board, two, 1, 10),
    );
    board.join(&mut pass, one);
    board.join(&mut pass, two);
    let core = board.close(pass);
    assert!(rt; core.history().len() == 2);
    let numbers = (first, second);
    assert!(rt; numbers == (Some(1), Some(2)) || numbers == (Some(2), Some(1)));
    Ok(())
}

/// Whether a reply notes the event.
fn is_noted(told: CoreReply) -> bool {
    matches!(told, CoreReply::Noted)
}

/// Whether the run is over, as news say.
fn is_over<R: Wait>(rt: &R, alloc: Global, board: &Board, pass: &mut Pass) -> Option<bool>
    requires { own_board pass.old ≡ board_of board.now }
    ensures { own_board pass.new ≡ own_board pass.old }
{
    match board.news(rt, alloc, pass) {
        Ok(news) => Some(news.ended),
        Err(_) => None,
    }
}

/// Whether the run is over when both feeds have ended and the searcher has left, and not before.
fn ends<R: Wait>(
    rt: &R,
    alloc: Global,
    board: &Board,
    pass: &mut Pass,
    one: &mut Pass,
    two: &mut Pass,
    searcher: &mut Pass,
) -> bool
    requires board { own_board pass.old ≡ board_of board.now }
    requires one { (own_board one.old ≡ board_of board.now) × IsFeed (known one.old) }
    requires two { (own_board two.old ≡ board_of board.now) × IsFeed (known two.old) }
    requires searcher { (own_board searcher.old ≡ board_of board.now)
        × IsSearcher (known searcher.old) }
{
    let works = matches!(board.next(rt, alloc, pass), CoreReply::Work(0));
    let first = is_noted(board.feed_end(rt, alloc, one));
    let left = is_noted(board.leave(rt, alloc, searcher));
    let early = is_over(rt, alloc, board, pass);
    let second = is_noted(board.feed_end(rt, alloc, two));
    let late = is_over(rt, alloc, board, pass);
    works && first && left && second && early == Some(false) && late == Some(true)
}

#[test]
fn a_run_ends_with_its_feeds_and_searchers(rt: HostRuntime) -> Result<(), Fail> {
    let alloc = rt.alloc();
    let (board, mut pass) = board(alloc)?;
    let (mut one, mut two) = both_feeds(&board, &mut pass);
    let mut searcher = board.split(&mut pass, SEARCHERS_FROM);
    let ended = ends(
        &rt,
        alloc,
        &board,
        &mut pass,
        &mut one,
        &mut two,
        &mut searcher,
    );
    assert!(rt; ended);
    Ok(())
}
