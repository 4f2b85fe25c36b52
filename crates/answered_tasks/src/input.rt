ghost use Rattle.std.specs.Prelude.{◌≡◌, ◌≤◌, ◌<◌, ◌≢◌, ◌↔◌, ◌+◌, false, IfOk, IfErr, OnOk, OnErr, IfSome, IsErrAnd, MatchOption, MatchResult, Err, Some, [], option_map};
ghost use Rattle.disp_outside.specs.Lines.{HasLinesOf};
ghost use Rattle.fixing_files.specs.Files.{AskInTurn, TakesInTurn};
ghost use Rattle.displib_reader.specs.Outcome.{IsReadAs};
ghost use Rattle.solution_text.specs.Reading.{IsReadAsSolution};
ghost use Rattle.answered_tasks.specs.declared.cause.Cause.TheVariants.{Failed};
ghost use Rattle.answered_tasks.specs.Outside.{IsFile, ReadsOne, ReadsNames, IsGiven};
ghost use Rattle.answered_tasks.specs.Causes.{Misses, RefusesProblem, RefusesSolution, StopsProblem, StopsSolution, StopsFixings, RefusesLines, IsNotLong, IsReadingFault, RefusesTreeText, RefusesTree, RefusesPlan, StopsTree, StopsPlan, StopsGivenPlan, StopsGivenFixings};
ghost use Rattle.answered_tasks.specs.Files.{IsProblemFile, IsSolutionFile, TakesLines, IsFixingsTaken, AreChangesTaken, IsAskedFile, AreAsked, IsTreeText, IsTreeOf, IsTreeFile, IsPlanFile};

use crate::cause::{Cause, Input};
use disp_model::{Change, MOST_FILE_BYTES, Plan, Problem, Text, Verdict};
use disp_outside::{Feed, FeedNo, FetchNo, Shelf};
use displib_reader::{ProblemNo, read_problem};
use fixing_editions::Editions;
use fixing_files::{FileNo, take_fixings};
use solution_text::{SolutionNo, read_solution};
use std::alloc::Global;
use tree_certificate::{PackedTree, TreeNo, read_tree};

/// The bytes of a file.
fn fetch<S: Shelf>(alloc: Global, shelf: &mut S, which: Input, name: &str) -> Result<Vec<u8>, Cause>
    ensures file { IfOk result (λ bytes. IsFile (S.state shelf.old).holds name.now bytes.items) }
    ensures no { IfErr result
        (Misses (S.state shelf.old).holds (S.state shelf.old).reading (S.state shelf.new).reading
        which
        name.now) }
    ensures reads { ReadsOne name.now (S.state shelf.old) (S.state shelf.new)
        (result ≡ Err (Failed which)) }
    ensures feeds { S.open_feeds shelf.new ≡ S.open_feeds shelf.old }
{
    match shelf.fetch(alloc, name, MOST_FILE_BYTES) {
        Ok(bytes) => Ok(bytes),
        Err(FetchNo::Failed) => Err(Cause::Failed(which)),
        Err(FetchNo::TooLong) => Err(Cause::TooLong(which)),
        Err(FetchNo::Memory) => Err(Cause::Memory),
    }
}

/// The problem of a file's bytes.
fn problem_of(alloc: Global, bytes: &[u8]) -> Result<Problem, Cause>
    ensures { MatchResult result (IsReadAs bytes.now) (RefusesProblem bytes.now) }
{
    match read_problem(alloc, bytes) {
        Ok(problem) => Ok(problem),
        Err(ProblemNo::Memory) => Err(Cause::Memory),
        Err(no) => Err(Cause::NoProblem(no)),
    }
}

/// The plan and the stated cost of a file's bytes.
fn solution_of(alloc: Global, bytes: &[u8]) -> Result<(Plan, Option<u64>), Cause>
    ensures { MatchResult result (λ r. IsReadAsSolution bytes.now r.0 r.1)
        (RefusesSolution bytes.now) }
{
    match read_solution(alloc, bytes) {
        Ok(solution) => Ok(solution),
        Err(SolutionNo::Memory) => Err(Cause::Memory),
        Err(no) => Err(Cause::NoSolution(no)),
    }
}

/// The problem of a file.
///
/// # Errors
///
/// `Failed` and `TooLong` of a problem where the file is not read, `NoProblem` where it is none,
/// and `Memory`.
pub fn problem_file<S: Shelf>(alloc: Global, shelf: &mut S, name: &str) -> Result<Problem, Cause>
    ensures ok { IfOk result (IsProblemFile (S.state shelf.old).holds name.now) }
    ensures no { IfErr result
        (StopsProblem (S.state shelf.old).holds (S.state shelf.old).reading
        (S.state shelf.new).reading
        name.now) }
    ensures reads { ReadsOne name.now (S.state shelf.old) (S.state shelf.new)
        (IsErrAnd result IsReadingFault) }
    ensures feeds { S.open_feeds shelf.new ≡ S.open_feeds shelf.old }
{
    let bytes = fetch(alloc, shelf, Input::Problem, name)?;
    problem_of(alloc, &bytes)
}

/// The plan and the stated cost of a file.
pub(crate) fn solution_file<S: Shelf>(
    alloc: Global,
    shelf: &mut S,
    name: &str,
) -> Result<(Plan, Option<u64>), Cause>
    ensures ok { IfOk result (λ r. IsSolutionFile (S.state shelf.old).holds name.now r.0 r.1) }
    ensures no { IfErr result
        (StopsSolution (S.state shelf.old).holds (S.state shelf.old).reading
        (S.state shelf.new).reading
        name.now) }
    ensures reads { ReadsOne name.now (S.state shelf.old) (S.state shelf.new)
        (IsErrAnd result IsReadingFault) }
    ensures feeds { S.open_feeds shelf.new ≡ S.open_feeds shelf.old }
{
    let bytes = fetch(alloc, shelf, Input::Solution, name)?;
    solution_of(alloc, &bytes)
}

/// The changes of a feed's lines, and what each line asks for.
fn take_asked<F: Feed>(
    alloc: Global,
    problem: &Problem,
    feed: &mut F,
) -> Result<(Editions, Vec<Change>), Cause>
    requires { F.has_ended feed.old ≡ false }
    ensures problem { IfOk result (λ r. r.0.problem ≡ problem.now) }
    ensures ok { IfOk result (λ r.
        IfSome (F.lines feed.old) (λ lines. TakesLines problem.now lines r.0.changes)) }
    ensures asks { IfOk result
        (λ r. IfSome (F.lines feed.old) (λ lines. AskInTurn lines r.1.items)) }
    ensures taken { IfOk result (λ r. TakesInTurn problem.now [] r.1.items r.0.changes) }
    ensures no { IfErr result (RefusesLines problem.now (F.lines feed.old)) }
    ensures failed { (result ≡ Err (Failed Input.Fixings))
        ↔ (F.faults feed.old < F.faults feed.new) }
    ensures counted { F.faults feed.old ≤ F.faults feed.new }
    ensures name { F.name feed.new ≡ F.name feed.old }
{
    let mut editions = Editions::new(alloc, problem)?;
    let mut asked = Vec::new(alloc);
    match take_fixings(feed, &mut editions, &mut asked) {
        Ok(()) => Ok((editions, asked)),
        Err(FileNo::Line(number, why)) => Err(Cause::BadLine(number, why)),
        Err(FileNo::Failed) => Err(Cause::Failed(Input::Fixings)),
        Err(FileNo::Memory) => Err(Cause::Memory),
    }
}

/// The changes of a feed's lines.
fn take<F: Feed>(alloc: Global, problem: &Problem, feed: &mut F) -> Result<Editions, Cause>
    requires { F.has_ended feed.old ≡ false }
    ensures problem { IfOk result (λ editions. editions.problem ≡ problem.now) }
    ensures ok { IfOk result (λ editions.
        IfSome (F.lines feed.old) (λ lines. TakesLines problem.now lines editions.changes)) }
    ensures no { IfErr result (RefusesLines problem.now (F.lines feed.old)) }
    ensures failed { (result ≡ Err (Failed Input.Fixings))
        ↔ (F.faults feed.old < F.faults feed.new) }
    ensures counted { F.faults feed.old ≤ F.faults feed.new }
    ensures name { F.name feed.new ≡ F.name feed.old }
{
    match take_asked(alloc, problem, feed) {
        Ok((editions, _)) => Ok(editions),
        Err(cause) => Err(cause),
    }
}

/// A feed of a file's lines.
fn open<S: Shelf>(alloc: Global, shelf: &mut S, name: &str) -> Result<S::Feed, Cause>
    ensures name { IfOk result (λ feed. S.Feed.name feed ≡ name.now) }
    ensures lines { IfOk result
        (λ feed. HasLinesOf ((S.state shelf.old).holds name.now) (S.Feed.lines feed)) }
    ensures open { IfOk result (λ feed. S.Feed.has_ended feed ≡ false) }
    ensures unbroken { IfOk result (λ feed. S.Feed.faults feed ≡ 0) }
    ensures known { IfOk result (λ feed. S.knows shelf.new name.now) }
    ensures no { IfErr result
        (Misses (S.state shelf.old).holds (S.state shelf.old).reading (S.state shelf.new).reading
        Input.Fixings name.now) }
    ensures not_long { IfErr result IsNotLong }
    ensures reads { ReadsOne name.now (S.state shelf.old) (S.state shelf.new)
        (result ≡ Err (Failed Input.Fixings)) }
    ensures opened { OnOk result (S.open_feeds shelf.new
        ≡ S.open_feeds shelf.old + 1) }
    ensures unopened { OnErr result (S.open_feeds shelf.new
        ≡ S.open_feeds shelf.old) }
{
    match shelf.feed(alloc, name) {
        Ok(feed) => Ok(feed),
        Err(FeedNo::Failed) => Err(Cause::Failed(Input::Fixings)),
        Err(FeedNo::Memory) => Err(Cause::Memory),
    }
}

/// The changes of a file of fixings. The feed is closed whatever comes.
pub(crate) fn fixings_file<S: Shelf>(
    alloc: Global,
    shelf: &mut S,
    problem: &Problem,
    name: &str,
) -> Result<Editions, Cause>
    ensures ok { IfOk result (λ editions.
        IsFixingsTaken (S.state shelf.old).holds problem.now name.now editions.problem
        editions.changes) }
    ensures no { IfErr result
        (StopsFixings (S.state shelf.old).holds (S.state shelf.old).reading
        (S.state shelf.new).reading
        problem.now name.now) }
    ensures reads { ReadsOne name.now (S.state shelf.old) (S.state shelf.new)
        (IsErrAnd result IsReadingFault) }
    ensures feeds { S.open_feeds shelf.new ≡ S.open_feeds shelf.old }
{
    let mut feed = open(alloc, shelf, name)?;
    let editions = take(alloc, problem, &mut feed);
    shelf.close(feed);
    editions
}

/// What each line of a file of fixings asks for. The feed is closed whatever comes.
fn asked_file<S: Shelf>(
    alloc: Global,
    shelf: &mut S,
    problem: &Problem,
    name: &str,
) -> Result<Vec<Change>, Cause>
    ensures ok { IfOk result (λ asked.
        IsAskedFile (S.state shelf.old).holds problem.now name.now asked.items) }
    ensures no { IfErr result
        (StopsFixings (S.state shelf.old).holds (S.state shelf.old).reading
        (S.state shelf.new).reading
        problem.now name.now) }
    ensures reads { ReadsOne name.now (S.state shelf.old) (S.state shelf.new)
        (IsErrAnd result IsReadingFault) }
    ensures feeds { S.open_feeds shelf.new ≡ S.open_feeds shelf.old }
{
    let mut feed = open(alloc, shelf, name)?;
    let read = take_asked(alloc, problem, &mut feed);
    shelf.close(feed);
    match read {
        Ok((_, asked)) => Ok(asked),
        Err(cause) => Err(cause),
    }
}

/// What each line of a file of fixings asks for, if there is one; else nothing is asked.
pub(crate) fn asked_of<S: Shelf>(
    alloc: Global,
    shelf: &mut S,
    problem: &Problem,
    name: Option<&Text>,
) -> Result<Vec<Change>, Cause>
    ensures ok { IfOk result (λ asked.
        AreAsked (S.state shelf.old).holds problem.now (option_map (λ n. n.now) name.entry)
        asked.items) }
    ensures no { IfErr result
        (StopsGivenFixings (S.state shelf.old).holds (S.state shelf.old).reading
        (S.state shelf.new).reading problem.now (option_map (λ n. n.now) name.entry)) }
    ensures reads { ReadsNames (IsGiven (option_map (λ n. n.now) name.entry))
        (S.state shelf.old) (S.state shelf.new)
        (IsErrAnd result IsReadingFault) }
    ensures feeds { S.open_feeds shelf.new ≡ S.open_feeds shelf.old }
{
    match name {
        Some(name) => asked_file(alloc, shelf, problem, name.as_str()),
        None => Ok(Vec::new(alloc)),
    }
}

/// The changes of a file of fixings, if there is one; else there are none.
pub(crate) fn editions_of<S: Shelf>(
    alloc: Global,
    shelf: &mut S,
    problem: &Problem,
    name: Option<&Text>,
) -> Result<Editions, Cause>
    ensures ok { IfOk result (λ editions.
        AreChangesTaken (S.state shelf.old).holds problem.now (option_map (λ n. n.now) name.entry)
        editions.problem editions.changes) }
    ensures no { IfErr result
        (StopsGivenFixings (S.state shelf.old).holds (S.state shelf.old).reading
        (S.state shelf.new).reading problem.now (option_map (λ n. n.now) name.entry)) }
    ensures reads { ReadsNames (IsGiven (option_map (λ n. n.now) name.entry))
        (S.state shelf.old) (S.state shelf.new)
        (IsErrAnd result IsReadingFault) }
    ensures feeds { S.open_feeds shelf.new ≡ S.open_feeds shelf.old }
{
    match name {
        Some(name) => fixings_file(alloc, shelf, problem, name.as_str()),
        None => Ok(Editions::new(alloc, problem)?),
    }
}

/// What the text of a tree says.
fn tree_text(alloc: Global, bytes: &[u8]) -> Result<(Option<u32>, Verdict, PackedTree), Cause>
    ensures { MatchResult result (λ r. IsTreeText bytes.now r.0 r.1 r.2)
        (RefusesTreeText bytes.now) }
{
    match read_tree(alloc, bytes) {
        Ok(read) => Ok(read),
        Err(TreeNo::Memory) => Err(Cause::Memory),
        Err(no) => Err(Cause::NoTree(no)),
    }
}

/// The edition that is named, where it is another.
fn other_edition(named: Option<u32>, edition: u32) -> Option<u32>
    ensures { MatchOption result (IfSome named (λ e. e ≡ edition))
        (λ e. (named ≡ Some e) × (e ≢ edition)) }
{
    match named {
        Some(named) if named != edition => Some(named),
        _ => None,
    }
}

/// The verdict and the tree of a text that names an edition or none.
fn tree_of(alloc: Global, edition: u32, bytes: &[u8]) -> Result<(Verdict, PackedTree), Cause>
    ensures { MatchResult result (λ r. IsTreeOf edition bytes.now r.0 r.1)
        (RefusesTree bytes.now edition) }
{
    let (named, verdict, tree) = tree_text(alloc, bytes)?;
    match other_edition(named, edition) {
        Some(other) => Err(Cause::WrongEdition(other, edition)),
        None => Ok((verdict, tree)),
    }
}

/// The verdict and the tree of a file, of an edition.
pub(crate) fn tree_file<S: Shelf>(
    alloc: Global,
    shelf: &mut S,
    edition: u32,
    name: &str,
) -> Result<(Verdict, PackedTree), Cause>
    ensures ok { IfOk result (λ r. IsTreeFile (S.state shelf.old).holds name.now edition r.0 r.1) }
    ensures no { IfErr result
        (StopsTree (S.state shelf.old).holds (S.state shelf.old).reading (S.state shelf.new).reading
        edition name.now) }
    ensures reads { ReadsOne name.now (S.state shelf.old) (S.state shelf.new)
        (IsErrAnd result IsReadingFault) }
    ensures feeds { S.open_feeds shelf.new ≡ S.open_feeds shelf.old }
{
    let bytes = fetch(alloc, shelf, Input::Tree, name)?;
    tree_of(alloc, edition, &bytes)
}

/// The plan and the stated cost of a file's bytes.
fn plan_of(alloc: Global, bytes: &[u8]) -> Result<(Plan, Option<u64>), Cause>
    ensures { MatchResult result (λ r. IsReadAsSolution bytes.now r.0 r.1)
        (RefusesPlan bytes.now) }
{
    match read_solution(alloc, bytes) {
        Ok(solution) => Ok(solution),
        Err(SolutionNo::Memory) => Err(Cause::Memory),
        Err(no) => Err(Cause::NoPlan(no)),
    }
}

/// The plan and the stated cost of the file of a plan.
fn plan_file<S: Shelf>(
    alloc: Global,
    shelf: &mut S,
    name: &str,
) -> Result<(Plan, Option<u64>), Cause>
    ensures ok { IfOk result (λ r. IsSolutionFile (S.state shelf.old).holds name.now r.0 r.1) }
    ensures no { IfErr result
        (StopsPlan (S.state shelf.old).holds (S.state shelf.old).reading (S.state shelf.new).reading
        name.now) }
    ensures reads { ReadsOne name.now (S.state shelf.old) (S.state shelf.new)
        (IsErrAnd result IsReadingFault) }
    ensures feeds { S.open_feeds shelf.new ≡ S.open_feeds shelf.old }
{
    let bytes = fetch(alloc, shelf, Input::Plan, name)?;
    plan_of(alloc, &bytes)
}

/// The plan and the stated cost of a file, if there is one.
pub(crate) fn given_plan<S: Shelf>(
    alloc: Global,
    shelf: &mut S,
    name: Option<&Text>,
) -> Result<Option<(Plan, Option<u64>)>, Cause>
    ensures ok { IfOk result
        (IsPlanFile (S.state shelf.old).holds (option_map (λ n. n.now) name.entry)) }
    ensures no { IfErr result
        (StopsGivenPlan (S.state shelf.old).holds (S.state shelf.old).reading
        (S.state shelf.new).reading (option_map (λ n. n.now) name.entry)) }
    ensures reads { ReadsNames (IsGiven (option_map (λ n. n.now) name.entry))
        (S.state shelf.old) (S.state shelf.new)
        (IsErrAnd result IsReadingFault) }
    ensures feeds { S.open_feeds shelf.new ≡ S.open_feeds shelf.old }
{
    let Some(name) = name else {
        return Ok(None);
    };
    match plan_file(alloc, shelf, name.as_str()) {
        Ok(plan) => Ok(Some(plan)),
        Err(cause) => Err(cause),
    }
}
