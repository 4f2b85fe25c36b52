// Four entries, one of them without a line, and the last with a tree.
use disp_model::{
    Change, Entry, Event, Fixing, Leaf, List, Memory, Reply, Text, TreeNode, Verdict,
};
use journal_printer::{PrintNo, print_entries};
use outside_in_memory::{BrokenWrite, MemShelf, MemSink};
use std::alloc::Global;
use std::process::Abort;
use std::test::Fail;

const ASKED: &str = "feed 0 line 1 started 0 0 0 accepted 1\n";

const TWO_LINES: &str =
    "feed 0 line 1 started 0 0 0 accepted 1\nplan 1 24 {\"events\":[{\"operation\":0,\"time\":0,\"train\":0}],\"objective_value\":24}\n";

const ALL: &str =
    "feed 0 line 1 started 0 0 0 accepted 1\nplan 1 24 {\"events\":[{\"operation\":0,\"time\":0,\"train\":0}],\"objective_value\":24}\nsettled 1 infeasible\n";

const TREE: &str = "displib-tree 2\nedition 1\nverdict infeasible\nnoroute\nend\n";

/// A change that is accepted, and a plan for the edition with it.
fn asked_and_published(alloc: Global, entries: &mut List<Entry>) -> Result<(), Memory> {
    let fixing = Fixing::Started {
        at_train: 0,
        at_op: 0,
        time: 0,
    };
    entries.push(Entry::Asked {
        feed: 0,
        line: 1,
        change: Change::Fix(fixing),
        reply: Reply::Accepted(1),
    })?;
    entries.push(Entry::Grown {
        searcher: 0,
        edition: 1,
        seen: 1,
        node: 0,
        splits: List::new(alloc),
    })?;
    let mut plan = List::new(alloc);
    plan.push(Event {
        time: 0,
        train: 0,
        operation: 0,
    })?;
    entries.push(Entry::Published {
        edition: 1,
        plan,
        cost: 24,
    })
}

/// These and the verdict on the edition.
fn journal(alloc: Global) -> Result<List<Entry>, Memory> {
    let mut entries = List::new(alloc);
    asked_and_published(alloc, &mut entries)?;
    let mut tree = List::new(alloc);
    tree.push(TreeNode::Leaf(Leaf::NoRoute))?;
    entries.push(Entry::Settled {
        edition: 1,
        verdict: Verdict::Infeasible,
        tree,
    })?;
    Ok(entries)
}

/// Which puttings and writes break, and what is wanted then.
#[derive(Clone, Copy)]
struct Row<'a> {
    puts: &'a [u64],
    writes: &'a [BrokenWrite],
    answer: Result<(), PrintNo>,
    written: &'a str,
    /// The file of the tree; empty where there is none.
    tree: &'a str,
}

/// What the name of the tree holds.
fn tree_of(shelf: &MemShelf) -> &[u8] {
    match shelf.file("t1") {
        Some(file) => file,
        None => b"",
    }
}

/// Prints the entries on a shelf and a sink that break so.
fn expect(
    rt: &impl Abort,
    alloc: Global,
    trees: Option<&Text>,
    entries: &[Entry],
    row: &Row<'_>,
) -> Result<(), Fail> {
    let mut shelf = MemShelf::new(alloc);
    shelf.break_puts(row.puts)?;
    let mut out = MemSink::new(alloc, row.writes)?;
    let answer = print_entries(alloc, &mut shelf, &mut out, trees, entries);
    assert_eq!(rt; answer, row.answer, "{}", row.written);
    assert_eq!(rt; out.written(), row.written.as_bytes());
    assert_eq!(rt; tree_of(&shelf), row.tree.as_bytes(), "{}", row.written);
    Ok(())
}

#[test]
fn each_line_is_printed_behind_its_tree(rt: HostRuntime) -> Result<(), Fail> {
    let alloc = rt.alloc();
    let entries = journal(alloc)?;
    let prefix = Text::from_string(String::from_str(alloc, "t")?);
    let mut row = Row {
        puts: &[],
        writes: &[],
        answer: Ok(()),
        written: ALL,
        tree: "",
    };
    expect(&rt, alloc, None, entries.as_slice(), &row)?;
    row.tree = TREE;
    expect(&rt, alloc, Some(&prefix), entries.as_slice(), &row)
}

#[test]
fn the_first_failure_is_the_last(rt: HostRuntime) -> Result<(), Fail> {
    let alloc = rt.alloc();
    let entries = journal(alloc)?;
    let prefix = Text::from_string(String::from_str(alloc, "t")?);
    let unput = Row {
        puts: &[1],
        writes: &[],
        answer: Err(PrintNo::Unput),
        written: TWO_LINES,
        tree: "",
    };
    expect(&rt, alloc, Some(&prefix), entries.as_slice(), &unput)?;
    for (call, sent, written, tree) in [
        (1, 4, "feed", ""),
        (2, 0, ASKED, ""),
        (3, 0, TWO_LINES, TREE),
    ] {
        let row = Row {
            puts: &[],
            writes: &[BrokenWrite { call, sent }],
            answer: Err(PrintNo::Unwritten),
            written,
            tree,
        };
        expect(&rt, alloc, Some(&prefix), entries.as_slice(), &row)?;
    }
    Ok(())
}
