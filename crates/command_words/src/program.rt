ghost use Rattle.std.specs.Prelude.{◌≡◌, IfOk, false};
ghost use Rattle.clap.specs.Words.{app_of, rule_of};
ghost use Rattle.clap.specs.declared.builder.command.Command.TheViews.{out-Command as fields_of};
ghost use Rattle.command_words.specs.Program.{needed_rule, optional_rule, problem, fixings};
ghost use Rattle.command_words.specs.Program.{workers, budget, rule};
ghost use Rattle.command_words.specs.Program.{with_search, solve_inputs, solve, verify, check};
ghost use Rattle.command_words.specs.Program.{report, number, trains, make, feeds, roll_inputs, roll};
ghost use Rattle.command_words.specs.Program.{named_program, bare_program};
ghost use Rattle.command_words.specs.Program.{first_commands, more_commands, program};

use crate::texts;
use clap::{Arg, Command, value_parser};
use disp_model::MOST_CALLERS;
use std::alloc::{AllocError, Global};

/// An argument that must be given, by its place, and what help says of it.
fn needed_rule<'a>(alloc: Global, id: &'a str, shown: &'a str, help: &'a str) -> Arg<'a>
    ensures rule { rule_of result ≡ needed_rule id.entry.now }
    ensures own { result.global ≡ false }
{
    Arg::new(alloc, id)
        .required(true)
        .value_name(shown)
        .help(help)
}

/// An argument that may be given, behind two dashes and its id, and what help says of it.
fn optional_rule<'a>(alloc: Global, id: &'a str, shown: &'a str, help: &'a str) -> Arg<'a>
    ensures rule { rule_of result ≡ optional_rule id.entry.now }
    ensures own { result.global ≡ false }
{
    Arg::new(alloc, id).long(id).value_name(shown).help(help)
}

/// A command with what its help says: what it does, how it is called, and how help ends.
fn described<'a>(command: Command<'a>, about: &'a str, usage: &'a str, end: &'a str) -> Command<'a>
    ensures app { app_of result ≡ app_of command.entry }
    ensures own { (fields_of result).has_globals ≡ (fields_of command.entry).has_globals }
{
    command.about(about).override_usage(usage).after_help(end)
}

/// The problem that a command reads.
fn problem<'a>(alloc: Global) -> Arg<'a>
    ensures rule { rule_of result ≡ problem }
    ensures own { result.global ≡ false }
{
    needed_rule(alloc, "problem", "PROBLEM", texts::PROBLEM)
}

/// What is fixed already.
fn fixings<'a>(alloc: Global) -> Arg<'a>
    ensures rule { rule_of result ≡ fixings }
    ensures own { result.global ≡ false }
{
    optional_rule(alloc, "fixings", "F", texts::FIXINGS)
}

/// How many searchers there are to be.
fn workers<'a>(alloc: Global) -> Arg<'a>
    ensures rule { rule_of result ≡ workers }
    ensures own { result.global ≡ false }
{
    optional_rule(alloc, "workers", "N", texts::WORKERS)
        .default_value("1")
        .value_parser(value_parser!(u32).range(1..=i64::from(MOST_CALLERS)))
}

/// How often the search may branch.
fn budget<'a>(alloc: Global) -> Arg<'a>
    ensures rule { rule_of result ≡ budget }
    ensures own { result.global ≡ false }
{
    optional_rule(alloc, "budget", "B", texts::BUDGET)
        .default_value("1000000")
        .value_parser(value_parser!(u32))
}

/// By which rule the search branches. Which texts name one is tested behind clap.
fn rule<'a>(alloc: Global) -> Arg<'a>
    ensures rule { rule_of result ≡ rule }
    ensures own { result.global ≡ false }
{
    optional_rule(alloc, "rule", "RULE", texts::RULE)
}

/// A command, with what its search is told.
fn with_search<'a>(alloc: Global, command: Command<'a>) -> Result<Command<'a>, AllocError>
    requires { (fields_of command).has_globals ≡ false }
    ensures app { IfOk result (λ c. app_of c ≡ with_search (app_of command.entry)) }
    ensures own { IfOk result (λ c. (fields_of c).has_globals ≡ false) }
{
    command
        .arg(workers(alloc))?
        .arg(budget(alloc))?
        .arg(rule(alloc))
}

/// `solve`, with what it reads.
fn solve_inputs<'a>(alloc: Global) -> Result<Command<'a>, AllocError>
    ensures app { IfOk result (λ c. app_of c ≡ solve_inputs) }
    ensures own { IfOk result (λ c. (fields_of c).has_globals ≡ false) }
{
    let command = Command::new(alloc, "solve");
    described(command, texts::SOLVE, texts::SOLVE_USAGE, texts::SOLVE_END)
        .arg(problem(alloc))?
        .arg(fixings(alloc))
}

/// `solve`, with its arguments.
fn solve<'a>(alloc: Global) -> Result<Command<'a>, AllocError>
    ensures app { IfOk result (λ c. app_of c ≡ solve) }
    ensures own { IfOk result (λ c. (fields_of c).has_globals ≡ false) }
{
    with_search(alloc, solve_inputs(alloc)?)?
        .arg(optional_rule(alloc, "plan", "OUT", texts::PLAN))?
        .arg(optional_rule(alloc, "tree", "OUT", texts::TREE))
}

/// `verify`, with its arguments.
fn verify<'a>(alloc: Global) -> Result<Command<'a>, AllocError>
    ensures app { IfOk result (λ c. app_of c ≡ verify) }
    ensures own { IfOk result (λ c. (fields_of c).has_globals ≡ false) }
{
    let command = Command::new(alloc, "verify");
    described(
        command,
        texts::VERIFY,
        texts::VERIFY_USAGE,
        texts::VERIFY_END,
    )
    .arg(problem(alloc))?
    .arg(needed_rule(alloc, "solution", "SOLUTION", texts::SOLUTION))?
    .arg(fixings(alloc))
}

/// `report`, with its arguments.
fn report<'a>(alloc: Global) -> Result<Command<'a>, AllocError>
    ensures app { IfOk result (λ c. app_of c ≡ report) }
    ensures own { IfOk result (λ c. (fields_of c).has_globals ≡ false) }
{
    let command = Command::new(alloc, "report");
    described(
        command,
        texts::REPORT,
        texts::REPORT_USAGE,
        texts::REPORT_END,
    )
    .arg(problem(alloc))?
    .arg(needed_rule(alloc, "solution", "SOLUTION", texts::SOLUTION))?
    .arg(fixings(alloc))
}

/// The number of a problem that is made.
fn number<'a>(alloc: Global) -> Arg<'a>
    ensures rule { rule_of result ≡ number }
    ensures own { result.global ≡ false }
{
    needed_rule(alloc, "number", "NUMBER", texts::NUMBER).value_parser(value_parser!(u32).range(
        0..=2147483647,
    ))
}

/// How many trains it is to have.
fn trains<'a>(alloc: Global) -> Arg<'a>
    ensures rule { rule_of result ≡ trains }
    ensures own { result.global ≡ false }
{
    needed_rule(alloc, "trains", "TRAINS", texts::TRAINS).value_parser(value_parser!(u32).range(
        1..=2000,
    ))
}

/// `make`, with its arguments.
fn make<'a>(alloc: Global) -> Result<Command<'a>, AllocError>
    ensures app { IfOk result (λ c. app_of c ≡ make) }
    ensures own { IfOk result (λ c. (fields_of c).has_globals ≡ false) }
{
    let command = Command::new(alloc, "make");
    described(command, texts::MAKE, texts::MAKE_USAGE, texts::MAKE_END)
        .arg(number(alloc))?
        .arg(trains(alloc))?
        .arg(optional_rule(alloc, "out", "FILE", texts::OUT))
}

/// `check`, with its arguments.
fn check<'a>(alloc: Global) -> Result<Command<'a>, AllocError>
    ensures app { IfOk result (λ c. app_of c ≡ check) }
    ensures own { IfOk result (λ c. (fields_of c).has_globals ≡ false) }
{
    let command = Command::new(alloc, "check");
    described(command, texts::CHECK, texts::CHECK_USAGE, texts::CHECK_END)
        .arg(problem(alloc))?
        .arg(needed_rule(alloc, "tree", "TREE", texts::GIVEN_TREE))?
        .arg(fixings(alloc))?
        .arg(optional_rule(alloc, "plan", "P", texts::GIVEN_PLAN))
}

/// The feeds of a run.
fn feeds<'a>(alloc: Global) -> Arg<'a>
    ensures rule { rule_of result ≡ feeds }
    ensures own { result.global ≡ false }
{
    needed_rule(alloc, "feeds", "FEED", texts::FEEDS).num_args(1..)
}

/// `roll`, with what it reads.
fn roll_inputs<'a>(alloc: Global) -> Result<Command<'a>, AllocError>
    ensures app { IfOk result (λ c. app_of c ≡ roll_inputs) }
    ensures own { IfOk result (λ c. (fields_of c).has_globals ≡ false) }
{
    let command = Command::new(alloc, "roll");
    described(command, texts::ROLL, texts::ROLL_USAGE, texts::ROLL_END)
        .arg(problem(alloc))?
        .arg(feeds(alloc))
}

/// `roll`, with its arguments.
fn roll<'a>(alloc: Global) -> Result<Command<'a>, AllocError>
    ensures app { IfOk result (λ c. app_of c ≡ roll) }
    ensures own { IfOk result (λ c. (fields_of c).has_globals ≡ false) }
{
    let trees = optional_rule(alloc, "trees", "PREFIX", texts::TREES);
    with_search(alloc, roll_inputs(alloc)?)?.arg(trees)
}

/// The program's name, with what its help says.
fn named_program<'a>(alloc: Global) -> Command<'a>
    ensures { app_of result ≡ named_program }
{
    Command::new(alloc, "dispatch")
        .about(texts::ABOUT)
        .after_help(texts::END)
        .version(texts::VERSION)
}

/// The program's command line without a command.
fn bare_program<'a>(alloc: Global) -> Command<'a>
    ensures { app_of result ≡ bare_program }
{
    named_program(alloc)
        .no_binary_name(true)
        .subcommand_required(true)
        .disable_help_subcommand(true)
}

/// The program's command line with `solve` and `verify`.
fn first_commands<'a>(alloc: Global) -> Result<Command<'a>, AllocError>
    ensures { IfOk result (λ c. app_of c ≡ first_commands) }
{
    bare_program(alloc)
        .subcommand(solve(alloc)?)?
        .subcommand(verify(alloc)?)
}

/// The same with `check` and `report`.
fn more_commands<'a>(alloc: Global) -> Result<Command<'a>, AllocError>
    ensures { IfOk result (λ c. app_of c ≡ more_commands) }
{
    first_commands(alloc)?
        .subcommand(check(alloc)?)?
        .subcommand(report(alloc)?)
}

/// The program's command line.
pub(crate) fn program<'a>(alloc: Global) -> Result<Command<'a>, AllocError>
    ensures { IfOk result (λ c. app_of c ≡ program) }
{
    more_commands(alloc)?
        .subcommand(make(alloc)?)?
        .subcommand(roll(alloc)?)
}
