// Lines of the journal as they are written.
use disp_model::{
    Change, Entry, Event, Fixing, List, Mark, Refusal, Reply, Standing, Unasked, Verdict,
};
use fixing_lines::{push_refusal, write_entry};
use std::alloc::Global;
use std::panic::Expect;
use std::process::Abort;

/// Asserts the text of an entry.
fn expect(rt: &impl Abort, alloc: Global, entry: Entry, wanted: &str) {
    let bytes = write_entry(alloc, &entry).expect(rt, "a text");
    assert_eq!(rt; bytes.as_slice(), wanted.as_bytes());
}

fn asked_for(change: Change, reply: Reply) -> Entry {
    Entry::Asked {
        feed: 0,
        line: 1,
        change,
        reply,
    }
}

fn asked(reply: Reply) -> Entry {
    let fixing = Fixing::Started {
        at_train: 0,
        at_op: 0,
        time: 0,
    };
    asked_for(Change::Fix(fixing), reply)
}

fn shown(best: Option<u64>, mark: Mark) -> Entry {
    Entry::Shown {
        feed: 0,
        line: 2,
        standing: Standing {
            edition: 1,
            best,
            mark,
        },
    }
}

fn unread(why: Unasked) -> Entry {
    Entry::Unread {
        feed: 0,
        line: 3,
        why,
    }
}

fn event(time: u64, train: u32, operation: u32) -> Event {
    Event {
        time,
        train,
        operation,
    }
}

/// The plan where the first train goes first.
fn published(rt: &impl Abort, alloc: Global) -> Entry {
    let events = vec![in alloc;
        event(0, 0, 0),
        event(10, 0, 1),
        event(10, 1, 0),
        event(14, 1, 1),
    ];
    Entry::Published {
        edition: 1,
        plan: List::from_vec(events.expect(rt, "events")),
        cost: 24,
    }
}

fn settled(alloc: Global, edition: u32, verdict: Verdict) -> Entry {
    Entry::Settled {
        edition,
        verdict,
        tree: List::new(alloc),
    }
}

#[test]
fn a_journal_is_written_line_by_line(rt: HostRuntime) {
    let alloc = rt.alloc();
    let accepted = asked(Reply::Accepted(1));
    let line = "feed 0 line 1 started 0 0 0 accepted 1\n";
    expect(&rt, alloc, accepted, line);
    let working = shown(None, Mark::Working);
    let line = "feed 0 line 2 show edition 1 working best none\n";
    expect(&rt, alloc, working, line);
    let unreadable = unread(Unasked::Unreadable);
    expect(&rt, alloc, unreadable, "feed 0 line 3 unreadable\n");
    let line =
        "plan 1 24 {\"events\":[{\"operation\":0,\"time\":0,\"train\":0},{\"operation\":1,\"time\":10,\"train\":0},{\"operation\":0,\"time\":10,\"train\":1},{\"operation\":1,\"time\":14,\"train\":1}],\"objective_value\":24}\n";
    expect(&rt, alloc, published(&rt, alloc), line);
    let optimal = settled(alloc, 1, Verdict::Optimal(24));
    expect(&rt, alloc, optimal, "settled 1 optimal 24\n");
}

const REPLIES: &[(Reply, &str)] = &[
    (Reply::Known(7), "feed 0 line 1 started 0 0 0 known 7\n"),
    (
        Reply::Refused(Refusal::BelowLower(5)),
        "feed 0 line 1 started 0 0 0 refused BelowLower 5\n",
    ),
    (
        Reply::Refused(Refusal::NoRoute),
        "feed 0 line 1 started 0 0 0 refused NoRoute\n",
    ),
    (
        Reply::Refused(Refusal::Full(65535)),
        "feed 0 line 1 started 0 0 0 refused Full 65535\n",
    ),
    (
        Reply::Refused(Refusal::EarliestIs(20)),
        "feed 0 line 1 started 0 0 0 refused EarliestIs 20\n",
    ),
];

#[test]
fn replies_have_their_words(rt: HostRuntime) {
    for (reply, wanted) in REPLIES {
        expect(&rt, rt.alloc(), asked(*reply), wanted);
    }
}

#[test]
fn the_other_words_of_the_journal(rt: HostRuntime) {
    let alloc = rt.alloc();
    expect(&rt, alloc, unread(Unasked::Long), "feed 0 line 3 long\n");
    let too_many = unread(Unasked::TooMany);
    expect(&rt, alloc, too_many, "feed 0 line 3 toomany\n");
    let optimal = shown(Some(24), Mark::Optimal(24));
    let line = "feed 0 line 2 show edition 1 optimal best 24\n";
    expect(&rt, alloc, optimal, line);
    let stopped = Entry::Stopped {
        edition: 2,
        spent: 100,
        bound: 9,
    };
    expect(&rt, alloc, stopped, "stopped 2 spent 100 bound 9\n");
    let infeasible = settled(alloc, 3, Verdict::Infeasible);
    expect(&rt, alloc, infeasible, "settled 3 infeasible\n");
    let grown = Entry::Grown {
        searcher: 0,
        edition: 0,
        seen: 0,
        node: 0,
        splits: List::new(alloc),
    };
    expect(&rt, alloc, grown, "");
}

const CHANGES: &[(Change, Reply, &str)] = &[
    (
        Change::Fix(Fixing::NotBefore {
            at_train: 1,
            at_op: 0,
            time: 20,
        }),
        Reply::Accepted(1),
        "feed 0 line 1 notbefore 1 0 20 accepted 1\n",
    ),
    (
        Change::Withdraw { number: 1 },
        Reply::Accepted(2),
        "feed 0 line 1 withdraw 1 accepted 2\n",
    ),
    (
        Change::Withdraw { number: 2 },
        Reply::Refused(Refusal::NoSuchChange),
        "feed 0 line 1 withdraw 2 refused NoSuchChange\n",
    ),
    (
        Change::Withdraw { number: 1 },
        Reply::Refused(Refusal::Withdrawn(2)),
        "feed 0 line 1 withdraw 1 refused Withdrawn 2\n",
    ),
];

#[test]
fn changes_have_lines(rt: HostRuntime) {
    for (change, reply, wanted) in CHANGES {
        expect(&rt, rt.alloc(), asked_for(*change, *reply), wanted);
    }
}

const REFUSALS: &[(Refusal, &str)] = &[
    (Refusal::NoSuccessor, "refused NoSuccessor"),
    (Refusal::AboveUpper(4), "refused AboveUpper 4"),
    (Refusal::ChosenIs(2), "refused ChosenIs 2"),
];

/// Asserts what a refusal adds to a text.
fn expect_added(rt: &impl Abort, alloc: Global, refusal: Refusal, wanted: &str) {
    let mut text = String::from_str(alloc, "refused ").expect(rt, "a text");
    push_refusal(&mut text, refusal).expect(rt, "a text");
    assert_eq!(rt; text.as_str(), wanted);
}

#[test]
fn a_refusal_is_added_to_a_text(rt: HostRuntime) {
    for (refusal, wanted) in REFUSALS {
        expect_added(&rt, rt.alloc(), *refusal, wanted);
    }
}
