// What is read off a journal.
ghost use Rattle.std.specs.Prelude.{◌≡◌, option_map};
ghost use Rattle.disp_model.specs.History.{plan_after, last_plan};
ghost use Rattle.answered_tasks.specs.Answers.{best_plan};
ghost use Rattle.answered_tasks.specs.Settled.{tree_after, settled_tree};

use disp_model::{Entry, Plan, Standing, Tree, Verdict};

/// A plan and its cost, of this entry or of those before it.
fn plan_after<'a>(before: Option<(&'a Plan, u64)>, entry: &'a Entry) -> Option<(&'a Plan, u64)>
    ensures { option_map (λ p. (p.0.now, p.1)) result
        ≡ plan_after (option_map (λ p. (p.0.now, p.1)) before.entry) entry.now }
{
    match entry {
        Entry::Published { plan, cost, .. } => Some((plan, *cost)),
        _ => before,
    }
}

/// The last published plan, and its cost.
fn last_plan(journal: &[Entry]) -> Option<(&Plan, u64)>
    ensures { option_map (λ p. (p.0.now, p.1)) result ≡ last_plan journal.now }
{
    let mut last = None;
    for entry in journal {
        last = plan_after(last, entry);
    }
    last
}

/// The plan of the best cost, where there is one.
pub(crate) fn best_plan<'a>(standing: &Standing, journal: &'a [Entry]) -> Option<(&'a Plan, u64)>
    ensures { option_map (λ p. (p.0.now, p.1)) result
        ≡ best_plan standing.now (last_plan journal.now) }
{
    match standing.best {
        Some(_) => last_plan(journal),
        None => None,
    }
}

/// The verdict on an edition with its tree, after this entry.
fn tree_after<'a>(
    number: u32,
    before: Option<(Verdict, &'a Tree)>,
    entry: &'a Entry,
) -> Option<(Verdict, &'a Tree)>
    ensures { option_map (λ s. (s.0, s.1.now)) result
        ≡ tree_after number (option_map (λ s. (s.0, s.1.now)) before.entry) entry.now }
{
    match entry {
        Entry::Settled {
            edition,
            verdict,
            tree,
        } => {
            if *edition == number {
                Some((*verdict, tree))
            } else {
                before
            }
        }
        Entry::Stopped { edition, .. } => { if *edition == number { None } else { before } }
        _ => before,
    }
}

/// The verdict on an edition with its tree, where it is settled.
pub(crate) fn settled_tree(number: u32, journal: &[Entry]) -> Option<(Verdict, &Tree)>
    ensures { option_map (λ s. (s.0, s.1.now)) result ≡ settled_tree number journal.now }
{
    let mut settled = None;
    for entry in journal {
        settled = tree_after(number, settled, entry);
    }
    settled
}
