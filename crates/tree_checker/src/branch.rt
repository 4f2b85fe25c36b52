ghost use Rattle.std.specs.Prelude.{◌≡◌, ◌↔◌, IsTrue, length};
ghost use Rattle.disp_model.specs.Trees.{children_of, IsChoice};

use disp_model::{Choice, Problem};
use node_facts::{nexts_of, train_of};
use problem_facts::release_between;

/// How many children a branch on a choice has.
fn count_of(problem: &Problem, choice: Choice) -> usize
    ensures { result ≡ length (children_of problem.now choice) }
{
    match choice {
        Choice::Route(op) => nexts_of(train_of(problem, op.train), op.op).len(),
        Choice::Order(_, _) => 2,
        Choice::Run(_) => 2,
    }
}

/// Whether a branch may have a choice: of an operation with two successors at least, of two
/// operations that conflict, or of one that there is.
fn is_choice(problem: &Problem, choice: Choice) -> bool
    ensures { IsTrue result ↔ IsChoice problem.now choice }
{
    match choice {
        Choice::Route(op) => nexts_of(train_of(problem, op.train), op.op).len() >= 2,
        Choice::Order(a, b) => match release_between(problem, a, b) {
            Some(_) => true,
            None => false,
        },
        Choice::Run(op) => (op.op as usize) < train_of(problem, op.train).len(),
    }
}

/// Whether a branch has a choice that it may have, and a child for each decision of it.
pub(crate) fn is_branch(problem: &Problem, choice: Choice, children: u32) -> bool
    ensures { IsTrue result ↔ (IsChoice problem.now choice
        × (children ≡ length (children_of problem.now choice))) }
{
    is_choice(problem, choice) && children as usize == count_of(problem, choice)
}
