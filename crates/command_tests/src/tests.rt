// Words are read as clap reads them.
use command_words::{JudgeTask, MakeTask, RollTask, SolveTask, Task, WordsNo, read_words};
use disp_model::{List, Rule, Text};
use std::alloc::Global;
use std::panic::Expect;
use std::process::Abort;

fn words(rt: &impl Abort, alloc: Global, line: &str) -> Vec<String> {
    let mut words = Vec::new(alloc);
    for word in line.split(' ') {
        let word = String::from_str(alloc, word).expect(rt, "a word");
        words.push(word).expect(rt, "room");
    }
    words
}

fn listed(rt: &impl Abort, alloc: Global, names: &List<Text>) -> String {
    let mut text = String::new(alloc);
    for name in names.as_slice() {
        text.push_str(name.as_str()).expect(rt, "a text");
        text.push('+').expect(rt, "a text");
    }
    text
}

fn named(rule: Rule) -> &'static str {
    match rule {
        Rule::Fixed => "fixed",
        Rule::Free => "free",
    }
}

/// A name that there may be.
fn or_none(name: &Option<Text>) -> &str {
    match name {
        Some(name) => name.as_str(),
        None => "none",
    }
}

fn solved(rt: &impl Abort, alloc: Global, task: &SolveTask) -> String {
    let (problem, fixings) = (task.problem.as_str(), or_none(&task.fixings));
    let (workers, budget, rule) = (task.workers, task.budget, named(task.rule));
    let (plan, tree) = (or_none(&task.plan), or_none(&task.tree));
    format!(in alloc; "solve {problem} {fixings} {workers} {budget} {rule} {plan} {tree}").expect(
        rt, "a text",
    )
}

fn rolled(rt: &impl Abort, alloc: Global, task: &RollTask) -> String {
    let feeds = listed(rt, alloc, &task.feeds);
    let (problem, trees) = (task.problem.as_str(), or_none(&task.trees));
    let (workers, budget, rule) = (task.workers, task.budget, named(task.rule));
    format!(in alloc; "roll {problem} {feeds} {workers} {budget} {rule} {trees}").expect(
        rt, "a text",
    )
}

fn judged(rt: &impl Abort, alloc: Global, command: &str, task: &JudgeTask) -> String {
    let (problem, solution) = (task.problem.as_str(), task.solution.as_str());
    let fixings = or_none(&task.fixings);
    format!(in alloc; "{command} {problem} {solution} {fixings}").expect(rt, "a text")
}

fn made(rt: &impl Abort, alloc: Global, task: &MakeTask) -> String {
    let (number, trains, out) = (task.number, task.trains, or_none(&task.out));
    format!(in alloc; "make {number} {trains} {out}").expect(rt, "a text")
}

/// What is shown of a check of these files.
fn checked(
    rt: &impl Abort,
    alloc: Global,
    problem: &str,
    tree: &str,
    fixings: &str,
    plan: &str,
) -> String {
    format!(in alloc; "check {problem} {tree} {fixings} {plan}").expect(rt, "a text")
}

fn shown(rt: &impl Abort, alloc: Global, task: &Task) -> String {
    match task {
        Task::Solve(task) => solved(rt, alloc, task),
        Task::Roll(task) => rolled(rt, alloc, task),
        Task::Check {
            problem,
            tree,
            fixings,
            plan,
        } => checked(
            rt,
            alloc,
            problem.as_str(),
            tree.as_str(),
            or_none(fixings),
            or_none(plan),
        ),
        Task::Verify(task) => judged(rt, alloc, "verify", task),
        Task::Report(task) => judged(rt, alloc, "report", task),
        Task::Make(task) => made(rt, alloc, task),
    }
}

fn refused(rt: &impl Abort, alloc: Global, no: &WordsNo) -> String {
    match no {
        WordsNo::Refused(text) => String::from_str(alloc, text.as_str()).expect(rt, "a text"),
        WordsNo::Memory => panic!(rt; "no memory is left"),
    }
}

fn read(rt: &impl Abort, alloc: Global, line: &str) -> String {
    let words = words(rt, alloc, line);
    match &read_words(alloc, &words) {
        Ok(task) => shown(rt, alloc, task),
        Err(no) => refused(rt, alloc, no),
    }
}

/// Each line is read as the text behind it says.
fn are_read(rt: &impl Abort, alloc: Global, rows: &[(&str, &str)]) {
    for (line, wanted) in rows {
        let text = read(rt, alloc, line);
        assert_eq!(rt; text.as_str(), *wanted);
    }
}

/// Each line is refused by a text that has the one behind it.
fn are_refused(rt: &impl Abort, alloc: Global, rows: &[(&str, &str)]) {
    for (line, wanted) in rows {
        let text = read(rt, alloc, line);
        assert!(rt; text.as_str().contains(wanted), "{line}");
    }
}

const READ: &[(&str, &str)] = &[
    (
        "solve P --budget 7 --plan=OUT",
        "solve P none 1 7 free OUT none",
    ),
    (
        "solve --plan OUT P --fixings F",
        "solve P F 1 1000000 free OUT none",
    ),
    (
        "solve P --budget 4294967295",
        "solve P none 1 4294967295 free none none",
    ),
    (
        "solve P --budget 0 --tree T",
        "solve P none 1 0 free none T",
    ),
    (
        "solve P --rule fixed",
        "solve P none 1 1000000 fixed none none",
    ),
    (
        "solve P --workers 4",
        "solve P none 4 1000000 free none none",
    ),
    (
        "solve P --workers 64",
        "solve P none 64 1000000 free none none",
    ),
    ("verify P S", "verify P S none"),
    ("verify P S --fixings F", "verify P S F"),
    ("report P S --fixings F", "report P S F"),
    ("check P T", "check P T none none"),
    ("check P T --plan S --fixings F", "check P T F S"),
    ("make 0 2000", "make 0 2000 none"),
    ("make 2147483647 1 --out P", "make 2147483647 1 P"),
    ("roll p f g", "roll p f+g+ 1 1000000 free none"),
    (
        "roll p f --trees t --budget 7 --workers 2 --rule fixed",
        "roll p f+ 2 7 fixed t",
    ),
    (
        "roll --budget 7 p g --trees t f g",
        "roll p g+f+g+ 1 7 free t",
    ),
];

#[test]
fn words_have_their_values(rt: HostRuntime) {
    are_read(&rt, rt.alloc(), READ);
}

const REFUSED: &[(&str, &str)] = &[
    ("solve", "<PROBLEM>"),
    ("solve P --rule best", "fixed, free"),
    ("solve P Q", "unexpected argument 'Q'"),
    ("solve P --budget -1", "unexpected argument '-1'"),
    ("solve P --budget x", "invalid value 'x'"),
    (
        "solve P --budget 4294967296",
        "4294967296 is not in 0..=4294967295",
    ),
    ("solve P --workers 0", "0 is not in 1..=64"),
    ("solve P --workers 65", "65 is not in 1..=64"),
    ("verify P", "<SOLUTION>"),
    ("verify P S --workers 2", "unexpected argument '--workers'"),
    ("check P", "<TREE>"),
    ("check P T --budget 1", "unexpected argument '--budget'"),
    ("make 0 0", "0 is not in 1..=2000"),
    ("make 0 2001", "2001 is not in 1..=2000"),
    ("make 2147483648 1", "2147483648"),
    ("roll p", "<FEED>..."),
    ("roll P F --workers 0", "0 is not in 1..=64"),
    ("roll p f --rule best", "fixed, free"),
    ("roll p f --tree t", "unexpected argument '--tree'"),
    ("fly P", "'fly'"),
    ("help", "'help'"),
];

#[test]
fn other_words_are_refused(rt: HostRuntime) {
    are_refused(&rt, rt.alloc(), REFUSED);
}

#[test]
fn no_words_are_refused(rt: HostRuntime) {
    let none = Vec::new(rt.alloc());
    assert!(rt; read_words(rt.alloc(), &none).is_err());
}

const HELP: &[(&str, &str)] = &[
    ("--version", "dispatch 1.0.0"),
    ("--help", "Usage: dispatch <COMMAND>"),
    ("--help", "Example: dispatch solve problem.json"),
    ("solve --help", "Usage: dispatch solve [OPTIONS] <PROBLEM>"),
    (
        "solve --help",
        "<PROBLEM>  A problem, in the JSON format of DISPLIB 2025",
    ),
    (
        "solve --help",
        "--fixings <F>  A file with what is fixed already",
    ),
    (
        "solve --help",
        "--budget <B>   How often the search may branch [default: 1000000]",
    ),
    (
        "solve --help",
        "--plan <OUT>   Where the best plan is stored",
    ),
    ("solve --help", "--tree <OUT>   Where the tree is stored"),
    ("solve --help", "3 the budget was spent first"),
    (
        "verify --help",
        "Usage: dispatch verify [OPTIONS] <PROBLEM> <SOLUTION>",
    ),
    (
        "report --help",
        "Example: dispatch report problem.json plan.json",
    ),
    ("check --help", "<TREE>     The tree of a verdict"),
    (
        "make --help",
        "<TRAINS>  How many trains it has, up to 2000",
    ),
    (
        "roll --help",
        "Usage: dispatch roll [OPTIONS] <PROBLEM> <FEED>...",
    ),
    ("roll --help", "--trees <PREFIX>"),
];

#[test]
fn help_tells_of_each_argument(rt: HostRuntime) {
    are_refused(&rt, rt.alloc(), HELP);
}
