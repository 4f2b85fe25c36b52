ghost use Rattle.std.specs.Prelude.{◌≤◌};
ghost use Rattle.disp_model.specs.declared.limits.TheConstants.{MOST_CALLERS};

use disp_model::{List, Rule, Settings, Text};

/// What is asked of `solve`: a plan of least cost for a problem.
#[derive(Drop)]
pub struct SolveTask {
    /// The name of the problem's file.
    pub problem: Text,
    /// The name of a file of fixings that the plan is to meet, if there is one.
    pub fixings: Option<Text>,
    /// How many searchers there are to be, from 1 to 64.
    pub workers: u32,
    /// How often the search may branch, at most, for each edition.
    pub budget: u32,
    /// By which rule it branches.
    pub rule: Rule,
    /// Where the plan is to be put, if anywhere.
    pub plan: Option<Text>,
    /// Where the tree that shows the verdict is to be put, if anywhere.
    pub tree: Option<Text>,
    pub ghost some_worker: { 1 ≤ workers },
    pub ghost few_workers: { workers ≤ MOST_CALLERS },
}

/// What is asked of `roll`: a plan of least cost for a problem, and another one behind each change
/// that a feed gives.
#[derive(Drop)]
pub struct RollTask {
    /// The name of the problem's file.
    pub problem: Text,
    /// The names of the feeds, in the order of the words.
    pub feeds: List<Text>,
    /// How many searchers there are to be, from 1 to 64.
    pub workers: u32,
    /// How often the search may branch, at most, for each edition.
    pub budget: u32,
    /// By which rule it branches.
    pub rule: Rule,
    /// How the names of the trees that show the verdicts are to begin, if they are to be put.
    pub trees: Option<Text>,
    pub ghost some_worker: { 1 ≤ workers },
    pub ghost few_workers: { workers ≤ MOST_CALLERS },
}

/// What is asked of `verify` and `report`: whether a solution is valid for a problem.
#[derive(Drop)]
pub struct JudgeTask {
    /// The name of the problem's file.
    pub problem: Text,
    /// The name of the solution's file.
    pub solution: Text,
    /// The name of a file of fixings that the plan is to meet, if there is one.
    pub fixings: Option<Text>,
}

/// What is asked of `make`: a problem of a number, and its least cost.
#[derive(Drop)]
pub struct MakeTask {
    /// The number.
    pub number: u32,
    /// How many trains the problem is to have.
    pub trains: u32,
    /// Where the problem is to be put, if anywhere.
    pub out: Option<Text>,
    pub ghost number_fits: { number ≤ 2147483647 },
    pub ghost trains_fit: { trains ≤ 2000 },
}

/// What the words ask for. Names are those of files.
#[derive(Drop)]
pub enum Task {
    /// A plan of least cost for a problem.
    Solve(SolveTask),
    /// Whether a solution is valid for a problem.
    Verify(JudgeTask),
    /// The table of a valid solution.
    Report(JudgeTask),
    /// A problem of a number.
    Make(MakeTask),
    /// Whether a tree shows its verdict of a problem, and whether a plan fits the verdict.
    Check {
        /// The name of the problem's file.
        problem: Text,
        /// The name of the tree's file.
        tree: Text,
        /// The name of a file of fixings, if there is one.
        fixings: Option<Text>,
        /// The name of a plan's file, if there is one.
        plan: Option<Text>,
    },
    /// A plan of least cost for a problem, and for each edition of it that feeds make.
    Roll(RollTask),
}

impl SolveTask {
    ghost use Rattle.std.specs.Prelude.{◌≡◌};
    ghost use Rattle.command_words.specs.Settings.{settings_of};

    /// What the search is given.
    pub fn settings(&self) -> Settings
        ensures { result ≡ settings_of self.now }
    {
        Settings {
            budget: self.budget,
            rule: self.rule,
        }
    }
}

impl RollTask {
    ghost use Rattle.std.specs.Prelude.{◌≡◌};
    ghost use Rattle.command_words.specs.Settings.{roll_settings_of};

    /// What the search is given.
    pub fn settings(&self) -> Settings
        ensures { result ≡ roll_settings_of self.now }
    {
        Settings {
            budget: self.budget,
            rule: self.rule,
        }
    }
}
