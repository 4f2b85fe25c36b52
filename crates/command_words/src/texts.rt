// What help says: of each argument a line, and of each command how it is called, an example, and
// what its status means.

/// The program's version.
pub(crate) const VERSION: &str = "1.0.0";

pub(crate) const PROBLEM: &str = "A problem, in the JSON format of DISPLIB 2025";

pub(crate) const FIXINGS: &str = "A file with what is fixed already, a change on each line";

pub(crate) const WORKERS: &str = "How many searchers work side by side";

pub(crate) const BUDGET: &str = "How often the search may branch";

pub(crate) const RULE: &str = "How the search branches: free or fixed; free where it is not given";

pub(crate) const PLAN: &str = "Where the best plan is stored";

pub(crate) const TREE: &str = "Where the tree is stored that shows the verdict";

pub(crate) const SOLUTION: &str = "A solution of the problem, in the same format";

pub(crate) const GIVEN_TREE: &str = "The tree of a verdict";

pub(crate) const GIVEN_PLAN: &str = "A solution that is to fit the verdict";

pub(crate) const NUMBER: &str = "Which problem is made, a number up to 2147483647";

pub(crate) const TRAINS: &str = "How many trains it has, up to 2000";

pub(crate) const OUT: &str = "Where the problem is stored";

pub(crate) const FEEDS: &str = "Files or pipes with a change on each line, at most 64";

pub(crate) const TREES: &str =
    "Where the tree of each settled edition is stored: this and the edition's number";

pub(crate) const ABOUT: &str = "Dispatches trains, with proved answers";

pub(crate) const END: &str = "Example: dispatch solve problem.json --plan plan.json
`dispatch COMMAND --help` tells of one command, and what its status means.";

pub(crate) const SOLVE: &str = "Finds a plan of least cost";

pub(crate) const SOLVE_USAGE: &str = "dispatch solve [OPTIONS] <PROBLEM>";

pub(crate) const SOLVE_END: &str = "\
Example: dispatch solve problem.json --fixings changes.txt --plan plan.json
Status:  0 a plan of least cost was found, 1 no plan is valid, 3 the budget was spent first,
         2 words or a file refused, 4 a file or the output failed, 5 out of memory";

pub(crate) const VERIFY: &str = "Judges a solution";

pub(crate) const VERIFY_USAGE: &str = "dispatch verify [OPTIONS] <PROBLEM> <SOLUTION>";

pub(crate) const VERIFY_END: &str = "\
Example: dispatch verify problem.json plan.json
Status:  0 it is valid, and costs what it states, 1 it has a fault, which is printed,
         2 words or a file refused, 4 a file or the output failed, 5 out of memory";

pub(crate) const REPORT: &str = "Tells how late each train is in a solution, and what that costs";

pub(crate) const REPORT_USAGE: &str = "dispatch report [OPTIONS] <PROBLEM> <SOLUTION>";

pub(crate) const REPORT_END: &str = "\
Example: dispatch report problem.json plan.json
Status:  0 the solution is valid, 1 it has a fault, which is printed,
         2 words or a file refused, 4 a file or the output failed, 5 out of memory";

pub(crate) const CHECK: &str = "Checks a tree: whether it shows its verdict";

pub(crate) const CHECK_USAGE: &str = "dispatch check [OPTIONS] <PROBLEM> <TREE>";

pub(crate) const CHECK_END: &str = "\
Example: dispatch check problem.json tree.txt --plan plan.json
Status:  0 the tree is accepted, and the plan fits, 1 the tree is refused, or the plan has a fault,
         2 words or a file refused, 4 a file or the output failed, 5 out of memory";

pub(crate) const MAKE: &str = "Makes the problem of a number, and solves it";

pub(crate) const MAKE_USAGE: &str = "dispatch make [OPTIONS] <NUMBER> <TRAINS>";

pub(crate) const MAKE_END: &str = "\
Example: dispatch make 7 40 --out problem.json
Status:  0 a plan of least cost was found, 1 no plan is valid, 3 the budget was spent first,
         2 words refused, 4 the problem could not be stored, or the output failed, 5 out of memory";

pub(crate) const ROLL: &str =
    "Finds a plan of least cost, and another one behind each change of a feed";

pub(crate) const ROLL_USAGE: &str = "dispatch roll [OPTIONS] <PROBLEM> <FEED>...";

pub(crate) const ROLL_END: &str = "\
Example: dispatch roll problem.json feed.txt --workers 4 --trees tree
Status, of the newest edition: 0 a plan of least cost was found, 1 no plan is valid, 3 the budget
         was spent first; 2 words, the problem, or the number of feeds or of a feed's lines refused,
         4 a file, a feed or the output failed, 5 out of memory";
