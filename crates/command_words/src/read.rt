ghost use Rattle.std.specs.Prelude.{◌≡◌, ◌≤◌, ℕ, List, IfOk, IfErr, MatchOption, map, option_map};
ghost use Rattle.std.specs.Prelude.{string_bytes, codes};
ghost use Rattle.clap.specs.Words.{found_of, rows_of, subcommand_rows_of, subcommand_of, fault_of};
ghost use Rattle.clap.specs.Words.{all_of, first_of, one_of, HasKind};
ghost use Rattle.disp_model.specs.declared.limits.TheConstants.{MOST_CALLERS};
ghost use Rattle.command_words.specs.Program.{program};
ghost use Rattle.command_words.specs.Task.{IsTask, AreTaken, Names, AskForNoRule, Denies, IsJudge};
ghost use Rattle.command_words.specs.Task.{IsNumberOr, IsBudget, IsWithin, IsWorkers};
ghost use Rattle.command_words.specs.Task.{IsRuleText, NamesNoRule, name_found, names_found};

use crate::program::program;
use crate::task::{JudgeTask, MakeTask, RollTask, SolveTask, Task};
use clap::error::ErrorKind;
use clap::{ArgMatches, Error};
use disp_model::{List, MOST_CALLERS, Rule, Text};
use std::alloc::{AllocError, Global};

/// Why the words ask for nothing.
#[derive(Drop)]
pub enum WordsNo {
    /// Words that clap finds fault with, a call for help included, and what it says of them.
    Refused(Text),
    /// Memory ran out.
    Memory,
}

impl From<AllocError> for WordsNo {
    ghost use Rattle.std.specs.Prelude.{◌≡◌};
    ghost use Rattle.command_words.specs.declared.read.WordsNo.TheVariants.{Memory as OutOfMemory};

    ghost from_gives = { λ _ no. no ≡ OutOfMemory };

    fn from(_refused: AllocError) -> WordsNo {
        WordsNo::Memory
    }
}

/// What clap says of words that it finds fault with.
fn refusal(alloc: Global, error: &Error) -> WordsNo
    ensures { (words : List (List ℕ)) → HasKind (fault_of program words) error.now
        → Denies words result }
{
    if error.kind() == ErrorKind::OutOfMemory {
        return WordsNo::Memory;
    }
    match format!(in alloc; "{error}") {
        Ok(text) => WordsNo::Refused(Text::from_string(text)),
        Err(_) => WordsNo::Memory,
    }
}

/// The value that clap finds for an argument, if there is one.
fn value<'a>(found: &ArgMatches<'a>, id: &str) -> Option<&'a str>
    ensures { option_map (λ text. text.now) result
        ≡ first_of id.now (rows_of (found_of found.now)) }
{
    found.get_str(id)
}

/// The number of an argument, or another one.
#[tactic(auto, using(crate::proofs::Rows::one_is))]
fn number_or(found: &ArgMatches, id: &str, other: u32) -> u32
    ensures { IsNumberOr other (one_of id.now (rows_of (found_of found.now))) result }
{
    match found.get_one::<u32>(id) {
        Some(number) => number,
        None => other,
    }
}

/// How often the search may branch.
fn budget(found: &ArgMatches) -> u32
    ensures { IsBudget (one_of (codes "budget") (rows_of (found_of found.now))) result }
{
    number_or(found, "budget", 1_000_000)
}

/// The number of an argument, between these two.
fn within(found: &ArgMatches, id: &str, least: u32, most: u32) -> u32
    requires { least ≤ most }
    ensures within { IsWithin least most (one_of id.now (rows_of (found_of found.now))) result }
    ensures least { least ≤ result }
    ensures most { result ≤ most }
{
    let said = number_or(found, id, 1);
    said.clamp(least, most)
}

/// How many searchers there are to be.
fn workers(found: &ArgMatches) -> u32
    ensures workers { IsWorkers (one_of (codes "workers") (rows_of (found_of found.now))) result }
    ensures some { 1 ≤ result }
    ensures few { result ≤ MOST_CALLERS }
{
    within(found, "workers", 1, MOST_CALLERS)
}

/// A name that must be given.
fn name(alloc: Global, found: &ArgMatches, id: &str) -> Result<Text, WordsNo>
    ensures ok { IfOk result (λ name. name ≡ name_found id.now (rows_of (found_of found.now))) }
    ensures err { IfErr result (λ no. no ≡ WordsNo.Memory) }
{
    let text = match value(found, id) {
        Some(text) => text,
        None => "",
    };
    Ok(Text::from_string(String::from_str(alloc, text)?))
}

/// A name that may be given.
fn optional_name(alloc: Global, found: &ArgMatches, id: &str) -> Result<Option<Text>, WordsNo>
    ensures ok { IfOk result (λ name. name ≡ first_of id.now (rows_of (found_of found.now))) }
    ensures err { IfErr result (λ no. no ≡ WordsNo.Memory) }
{
    match value(found, id) {
        Some(text) => Ok(Some(Text::from_string(String::from_str(alloc, text)?))),
        None => Ok(None),
    }
}

/// The texts of a slice.
fn texts(alloc: Global, values: &[&str]) -> Result<List<Text>, AllocError>
    ensures { IfOk result (λ texts. texts ≡ map (λ text. text.now) values.now) }
{
    let mut texts = Vec::with_capacity(alloc, values.len())?;
    for value in values {
        texts.push(Text::from_string(String::from_str(alloc, value)?))?;
    }
    Ok(List::from_vec(texts))
}

/// The names of an argument with several ones.
#[tactic(auto, using(crate::proofs::Rows::all_is))]
fn names(alloc: Global, found: &ArgMatches, id: &str) -> Result<List<Text>, WordsNo>
    ensures ok { IfOk result (λ names. names ≡ names_found id.now (rows_of (found_of found.now))) }
    ensures err { IfErr result (λ no. no ≡ WordsNo.Memory) }
{
    match found.get_strs(id) {
        Some(values) => Ok(texts(alloc, values)?),
        None => Ok(List::new(alloc)),
    }
}

/// The rule that a text names. Where there is no text it is the free one.
fn rule_named(text: Option<&str>) -> Option<Rule>
    ensures { MatchOption result (NamesNoRule (option_map (λ t. t.now) text.entry))
        (IsRuleText (option_map (λ t. t.now) text.entry)) }
{
    let Some(text) = text else {
        return Some(Rule::Free);
    };
    if text == "fixed" {
        return Some(Rule::Fixed);
    }
    if text == "free" {
        return Some(Rule::Free);
    }
    None
}

/// By which rule the search branches, where the words name one that there is.
fn rule(found: &ArgMatches) -> Option<Rule>
    ensures { MatchOption result
        (NamesNoRule (first_of (codes "rule") (rows_of (found_of found.now))))
        (IsRuleText (first_of (codes "rule") (rows_of (found_of found.now)))) }
{
    rule_named(value(found, "rule"))
}

/// The refusal of a rule that there is not.
fn no_rule(alloc: Global) -> WordsNo
    ensures { (words : List (List ℕ)) → AskForNoRule words → Denies words result }
{
    let line = "error: a value of '--rule <RULE>' is one of: fixed, free\n";
    match String::from_str(alloc, line) {
        Ok(text) => WordsNo::Refused(Text::from_string(text)),
        Err(_) => WordsNo::Memory,
    }
}

/// What is asked of `solve`.
fn solve(alloc: Global, found: &ArgMatches) -> Result<Task, WordsNo>
    ensures ok { IfOk result (λ task. (words : List (List ℕ)) → AreTaken words
        → Names words (codes "solve") (rows_of (found_of found.now)) → IsTask words task) }
    ensures err { IfErr result (λ no. (words : List (List ℕ))
        → Names words (codes "solve") (rows_of (found_of found.now)) → Denies words no) }
{
    let Some(rule) = rule(found) else {
        return Err(no_rule(alloc));
    };
    Ok(Task::Solve(SolveTask {
        problem: name(alloc, found, "problem")?,
        fixings: optional_name(alloc, found, "fixings")?,
        workers: workers(found),
        budget: budget(found),
        rule,
        plan: optional_name(alloc, found, "plan")?,
        tree: optional_name(alloc, found, "tree")?,
    }))
}

/// What is asked of a command that judges a solution.
fn judge(alloc: Global, found: &ArgMatches) -> Result<JudgeTask, WordsNo>
    ensures ok { IfOk result (λ task. (command : List ℕ) (words : List (List ℕ)) → AreTaken words
        → Names words command (rows_of (found_of found.now)) → IsJudge command words task) }
    ensures err { IfErr result (λ no. no ≡ WordsNo.Memory) }
{
    Ok(JudgeTask {
        problem: name(alloc, found, "problem")?,
        solution: name(alloc, found, "solution")?,
        fixings: optional_name(alloc, found, "fixings")?,
    })
}

/// What is asked of `make`.
fn make(alloc: Global, found: &ArgMatches) -> Result<Task, WordsNo>
    ensures ok { IfOk result (λ task. (words : List (List ℕ)) → AreTaken words
        → Names words (codes "make") (rows_of (found_of found.now)) → IsTask words task) }
    ensures err { IfErr result (λ no. no ≡ WordsNo.Memory) }
{
    let number = within(found, "number", 0, 2_147_483_647);
    let trains = within(found, "trains", 1, 2_000);
    Ok(Task::Make(MakeTask {
        number,
        trains,
        out: optional_name(alloc, found, "out")?,
    }))
}

/// What is asked of `check`.
fn check(alloc: Global, found: &ArgMatches) -> Result<Task, WordsNo>
    ensures ok { IfOk result (λ task. (words : List (List ℕ)) → AreTaken words
        → Names words (codes "check") (rows_of (found_of found.now)) → IsTask words task) }
    ensures err { IfErr result (λ no. no ≡ WordsNo.Memory) }
{
    Ok(Task::Check {
        problem: name(alloc, found, "problem")?,
        tree: name(alloc, found, "tree")?,
        fixings: optional_name(alloc, found, "fixings")?,
        plan: optional_name(alloc, found, "plan")?,
    })
}

/// What is asked of `roll`.
fn roll(alloc: Global, found: &ArgMatches) -> Result<Task, WordsNo>
    ensures ok { IfOk result (λ task. (words : List (List ℕ)) → AreTaken words
        → Names words (codes "roll") (rows_of (found_of found.now)) → IsTask words task) }
    ensures err { IfErr result (λ no. (words : List (List ℕ))
        → Names words (codes "roll") (rows_of (found_of found.now)) → Denies words no) }
{
    let Some(rule) = rule(found) else {
        return Err(no_rule(alloc));
    };
    Ok(Task::Roll(RollTask {
        problem: name(alloc, found, "problem")?,
        feeds: names(alloc, found, "feeds")?,
        workers: workers(found),
        budget: budget(found),
        rule,
        trees: optional_name(alloc, found, "trees")?,
    }))
}

/// What clap's matches ask for.
fn task(alloc: Global, matches: &ArgMatches) -> Result<Task, WordsNo>
    ensures ok { IfOk result (λ task. (words : List (List ℕ)) → AreTaken words
        → subcommand_rows_of matches.now ≡ subcommand_of program words → IsTask words task) }
    ensures err { IfErr result (λ no. (words : List (List ℕ)) → subcommand_rows_of matches.now
        ≡ subcommand_of program words → Denies words no) }
{
    if let Some(found) = matches.subcommand_matches("solve") {
        return solve(alloc, found);
    }
    if let Some(found) = matches.subcommand_matches("verify") {
        return Ok(Task::Verify(judge(alloc, found)?));
    }
    if let Some(found) = matches.subcommand_matches("check") {
        return check(alloc, found);
    }
    if let Some(found) = matches.subcommand_matches("report") {
        return Ok(Task::Report(judge(alloc, found)?));
    }
    if let Some(found) = matches.subcommand_matches("make") {
        return make(alloc, found);
    }
    if let Some(found) = matches.subcommand_matches("roll") {
        return roll(alloc, found);
    }
    Err(WordsNo::Refused(Text::from_string(String::new(alloc))))
}

/// Reads the words behind the program's name.
///
/// # Errors
///
/// `Refused` where clap finds fault with the words, a call for help included, with clap's own text,
/// and where the words name a rule that there is not; `Memory` may come whatever the words are.
pub fn read_words(alloc: Global, words: &[String]) -> Result<Task, WordsNo>
    ensures ok { IfOk result (λ task. IsTask (map (λ word. string_bytes word) words.now) task) }
    ensures refused { IfErr result (Denies (map (λ word. string_bytes word) words.now)) }
{
    let command = program(alloc)?;
    match command.try_get_matches_from(words) {
        Ok(matches) => task(alloc, &matches),
        Err(error) => Err(refusal(alloc, &error)),
    }
}
