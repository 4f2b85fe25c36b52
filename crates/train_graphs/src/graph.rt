ghost use Rattle.std.specs.Prelude.{◌≡◌, ◌<◌, All, IfOk, length, count_by, not, replicate, false};
ghost use Rattle.std.specs.List.{flat_map};
ghost use Rattle.train_graphs.specs.Graphs.{entry_count, exit_count, AreInside, marked_all};

use disp_model::{Memory, Operation};
use std::alloc::Global;

/// Marks the operations of these numbers.
fn mark(numbers: &[u32], marks: &mut [bool])
    requires { All (λ s. s < length marks.old) numbers.now }
    ensures { marks.new ≡ marked_all marks.old numbers.now }
{
    for number in numbers {
        marks[*number as usize] = true;
    }
}

/// Marks the operations that are successors of one.
fn mark_successors(train: &[Operation], marks: &mut [bool])
    requires inside { All (λ p. All (λ s. s < length marks.old) p.next) train.now }
    ensures { marks.new ≡ marked_all marks.old (flat_map (λ p. p.next) train.now) }
{
    for operation in train {
        mark(operation.next.as_slice(), marks);
    }
}

/// How many have no mark.
fn count_unmarked(marks: &[bool]) -> u64
    ensures { result ≡ count_by (λ b. not b) marks.now }
{
    marks.iter().filter(|marked_all| !**marked_all).count() as u64
}

/// How many operations are successors of none, by marks that are all clear yet.
#[tactic(auto, using(crate::proofs::Marks::count_entries))]
fn count_entries(train: &[Operation], marks: &mut [bool]) -> u64
    requires inside { AreInside train.now }
    requires clear { marks.old ≡ replicate (length train.now) false }
    ensures { result ≡ entry_count train.now }
{
    mark_successors(train, marks);
    count_unmarked(marks)
}

/// How many operations are successors of none.
pub(crate) fn entry_count(alloc: Global, train: &[Operation]) -> Result<u64, Memory>
    requires { AreInside train.now }
    ensures { IfOk result (λ n. n ≡ entry_count train.now) }
{
    let mut marks = vec![in alloc; false; train.len()]?;
    Ok(count_entries(train, &mut marks))
}

/// How many operations have no successor.
pub(crate) fn exit_count(train: &[Operation]) -> u64
    ensures { result ≡ exit_count train.now }
{
    train
        .iter()
        .filter(|operation| operation.next.len() == 0)
        .count() as u64
}
