ghost use Rattle.std.specs.Prelude.{◌≡◌, IfOk, string_bytes};
ghost use Rattle.answered_tasks.specs.declared.cause.Cause.TheVariants.{NoProblem, NoSolution, BadLine, NoTree, WrongEdition, NoPlan};
ghost use Rattle.answered_tasks.specs.Causes.{prefix_of, reason_text, tree_why_text, line_of, status_of};
ghost use Rattle.fixing_files.specs.declared.take.LineNo.TheVariants.{Refused};

use crate::tree_lines::with_numbers;
use disp_model::{Memory, Refusal, Text};
use displib_reader::ProblemNo;
use fixing_files::LineNo;
use fixing_lines::push_refusal;
use solution_text::SolutionNo;
use std::alloc::Global;
use tree_certificate::TreeNo;

/// A file that the words give to be read.
#[derive(Clone, Copy, Debug, PartialEq, Eq)]
pub enum Input {
    Problem,
    Solution,
    Fixings,
    Tree,
    Plan,
}

/// What stops a run before there is an answer.
#[derive(Drop)]
pub enum Cause {
    /// The words ask for nothing, and what clap says of them.
    Words(Text),
    /// The file could not be read.
    Failed(Input),
    /// The file has more bytes than are read.
    TooLong(Input),
    /// The file is no problem.
    NoProblem(ProblemNo),
    /// The file is no solution.
    NoSolution(SolutionNo),
    /// The line of the fixings, counted from 1, is not taken.
    BadLine(u64, LineNo),
    /// The file is no text of a tree.
    NoTree(TreeNo),
    /// The tree names the first edition, and the fixings give the second.
    WrongEdition(u32, u32),
    /// The file of a plan is no solution.
    NoPlan(SolutionNo),
    /// Memory ran out.
    Memory,
}

impl Input {
    /// What stands before a refusal of the file.
    fn prefix(self) -> &'static str
        ensures { result.now ≡ prefix_of self }
    {
        match self {
            Input::Problem => "problem: ",
            Input::Solution => "solution: ",
            Input::Fixings => "fixings: ",
            Input::Tree => "tree: ",
            Input::Plan => "plan: ",
        }
    }
}

/// The line for a problem that is refused.
fn problem_line(alloc: Global, no: &ProblemNo) -> Result<String, Memory>
    ensures { IfOk result (λ text. string_bytes text ≡ line_of (NoProblem no.now)) }
{
    let mut text = String::from_str(alloc, "problem: ")?;
    no.write(&mut text)?;
    text.push_str("\n")?;
    Ok(text)
}

/// The line for a solution that is refused.
fn solution_line(alloc: Global, no: &SolutionNo) -> Result<String, Memory>
    ensures { IfOk result (λ text. string_bytes text ≡ line_of (NoSolution no.now)) }
{
    let mut text = String::from_str(alloc, "solution: ")?;
    no.write(&mut text)?;
    text.push_str("\n")?;
    Ok(text)
}

/// Why a fixing is refused.
fn refused_text(alloc: Global, why: &Refusal) -> Result<String, Memory>
    ensures { IfOk result (λ text. string_bytes text ≡ reason_text (Refused why.now)) }
{
    let mut text = String::from_str(alloc, "refused ")?;
    push_refusal(&mut text, *why)?;
    Ok(text)
}

/// Why a line of fixings is not taken.
fn reason_text(alloc: Global, why: &LineNo) -> Result<String, Memory>
    ensures { IfOk result (λ text. string_bytes text ≡ reason_text why.now) }
{
    match why {
        LineNo::Unreadable => Ok(String::from_str(alloc, "unreadable")?),
        LineNo::Long => Ok(String::from_str(alloc, "long")?),
        LineNo::TooMany => Ok(String::from_str(alloc, "toomany")?),
        LineNo::Refused(why) => refused_text(alloc, why),
    }
}

/// The line for a line of fixings that is not taken.
fn bad_line(alloc: Global, number: u64, why: &LineNo) -> Result<String, Memory>
    ensures { IfOk result (λ text. string_bytes text ≡ line_of (BadLine number why.now)) }
{
    let reason = reason_text(alloc, why)?;
    let mut text = format!(in alloc; "fixings line {number}: ")?;
    text.push_str(reason.as_str())?;
    text.push_str("\n")?;
    Ok(text)
}

/// Why bytes are no text of a tree.
fn tree_why_text(alloc: Global, why: TreeNo) -> Result<String, Memory>
    ensures { IfOk result (λ text. string_bytes text ≡ tree_why_text why) }
{
    match why {
        TreeNo::BadLine(number) => Ok(format!(in alloc; "BadLine {number}")?),
        TreeNo::TooLarge(number) => Ok(format!(in alloc; "TooLarge {number}")?),
        TreeNo::Truncated => Ok(String::from_str(alloc, "Truncated")?),
        TreeNo::Trailing(number) => Ok(format!(in alloc; "Trailing {number}")?),
        TreeNo::Memory => Ok(String::from_str(alloc, "Memory")?),
    }
}

/// The line for a tree that is refused.
fn tree_line(alloc: Global, why: TreeNo) -> Result<String, Memory>
    ensures { IfOk result (λ text. string_bytes text ≡ line_of (NoTree why)) }
{
    let mut text = String::from_str(alloc, "tree: ")?;
    let reason = tree_why_text(alloc, why)?;
    text.push_str(reason.as_str())?;
    text.push_str("\n")?;
    Ok(text)
}

/// The line for a tree of another edition.
fn edition_line(alloc: Global, named: u32, wanted: u32) -> Result<String, Memory>
    ensures { IfOk result (λ text. string_bytes text ≡ line_of (WrongEdition named wanted)) }
{
    let mut text = String::from_str(alloc, "tree: ")?;
    let editions = with_numbers(alloc, "WrongEdition", u128::from(named), u64::from(wanted))?;
    text.push_str(editions.as_str())?;
    text.push_str("\n")?;
    Ok(text)
}

/// The line for a plan that is refused.
fn plan_line(alloc: Global, no: &SolutionNo) -> Result<String, Memory>
    ensures { IfOk result (λ text. string_bytes text ≡ line_of (NoPlan no.now)) }
{
    let mut text = String::from_str(alloc, "plan: ")?;
    no.write(&mut text)?;
    text.push_str("\n")?;
    Ok(text)
}

impl Cause {
    /// The line that is printed for it.
    pub(crate) fn line(&self, alloc: Global) -> Result<String, Memory>
        ensures { IfOk result (λ text. string_bytes text ≡ line_of self.now) }
    {
        match self {
            Cause::Words(text) => Ok(String::from_str(alloc, text.as_str())?),
            Cause::Failed(which) => Ok(format!(in alloc; "{}Failed\n", which.prefix())?),
            Cause::TooLong(which) => Ok(format!(in alloc; "{}TooLong\n", which.prefix())?),
            Cause::NoProblem(no) => problem_line(alloc, no),
            Cause::NoSolution(no) => solution_line(alloc, no),
            Cause::BadLine(number, why) => bad_line(alloc, *number, why),
            Cause::NoTree(why) => tree_line(alloc, *why),
            Cause::WrongEdition(named, wanted) => edition_line(alloc, *named, *wanted),
            Cause::NoPlan(no) => plan_line(alloc, no),
            Cause::Memory => Ok(String::from_str(alloc, "memory\n")?),
        }
    }

    /// The status with which the program ends.
    pub(crate) fn status(&self) -> u8
        ensures { result ≡ status_of self.now }
    {
        match self {
            Cause::Words(_)
            | Cause::TooLong(_)
            | Cause::NoProblem(_)
            | Cause::NoSolution(_)
            | Cause::BadLine(_, _)
            | Cause::NoTree(_)
            | Cause::WrongEdition(_, _)
            | Cause::NoPlan(_) => 2,
            Cause::Failed(_) => 4,
            Cause::Memory => 5,
        }
    }
}

impl From<Memory> for Cause {
    ghost use Rattle.std.specs.Prelude.{◌≡◌};
    ghost use Rattle.answered_tasks.specs.declared.cause.Cause.TheVariants.{Memory as OutOfMemory};

    ghost from_gives = { λ _ cause. cause ≡ OutOfMemory };

    fn from(_refused: Memory) -> Cause {
        Cause::Memory
    }
}
