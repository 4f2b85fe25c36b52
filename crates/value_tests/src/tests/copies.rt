// Copies are equal to what they are copied from.
use disp_model::{
    Alone, Answer, Change, Choice, ComponentWalk, Copied, Entry, Event, Fixing, GREATEST_COST,
    GREATEST_EVENT_TIME, GREATEST_NUMBER, Leaf, List, Listing, MOST_CALLERS, MOST_CHANGES,
    MOST_COMPONENTS, MOST_EVENTS, MOST_FILE_BYTES, MOST_LINE_BYTES, MOST_LINES, MOST_OPERATIONS,
    MOST_TRAINS, Mark, Memory, Op, Operation, Plan, Reply, Split, Standing, Text, Tree, TreeNode,
    Unasked, Verdict,
};
use std::alloc::Global;
use std::panic::Expect;
use std::process::Abort;

#[test]
fn a_plan_is_copied(rt: HostRuntime) {
    let mut plan = List::new(rt.alloc());
    let first = Event {
        time: 4,
        train: 1,
        operation: 0,
    };
    let second = Event {
        time: 9,
        train: 0,
        operation: 2,
    };
    plan.push(first).expect(&rt, "room");
    plan.push(second).expect(&rt, "room");
    let copy = plan.copy().expect(&rt, "a copy");
    assert_eq!(rt;
        (copy.len(), copy.as_slice()),
        (2, [first, second].as_slice())
    );
}

const LISTING: Listing = Listing {
    resource: 3,
    release: 7,
};

fn operation(rt: &impl Abort, alloc: Global) -> Operation {
    let listings = vec![in alloc; LISTING].expect(rt, "listings");
    let next = vec![in alloc; 4u32, 6].expect(rt, "successors");
    Operation {
        lower: 1,
        upper: Some(5),
        min: 2,
        listings: List::from_vec(listings),
        next: List::from_vec(next),
    }
}

#[test]
fn an_operation_is_copied(rt: HostRuntime) {
    let copy = operation(&rt, rt.alloc()).copy().expect(&rt, "a copy");
    assert_eq!(rt; (copy.lower, copy.upper, copy.min), (1, Some(5), 2));
    assert_eq!(rt; copy.listings.as_slice(), [LISTING].as_slice());
    assert_eq!(rt; copy.next.into_vec().as_slice(), [4, 6].as_slice());
}

#[test]
fn a_text_is_copied(rt: HostRuntime) {
    let text = String::from_str(rt.alloc(), "platform 1").expect(&rt, "a text");
    let copy = Text::from_string(text).copy().expect(&rt, "a copy");
    assert_eq!(rt; copy.as_str(), "platform 1");
}

#[test]
fn names_are_copied(rt: HostRuntime) {
    let op = Op { train: 1, op: 2 };
    let fixing = Fixing::Chosen {
        at_train: 1,
        at_op: 2,
        next: 3,
    };
    assert_eq!(rt; (op.copy(), fixing.copy()), (Ok(op), Ok(fixing)));
}

#[test]
fn want_of_memory_has_a_text(rt: HostRuntime) {
    let text = format!(in rt.alloc(); "{Memory}").expect(&rt, "a text");
    assert_eq!(rt; text.as_str(), "out of memory");
}

#[test]
fn the_limits_are_those_of_the_formats(rt: HostRuntime) {
    let problems = (MOST_TRAINS, MOST_OPERATIONS, MOST_COMPONENTS);
    assert_eq!(rt; problems, (65535, 1048575, 1048575));
    let greatest = (GREATEST_NUMBER, GREATEST_COST, GREATEST_EVENT_TIME);
    let wanted = (2147483647, 9223372036854775807, 4611686018427387904);
    assert_eq!(rt; greatest, wanted);
    let most = (MOST_EVENTS, MOST_CHANGES, MOST_CALLERS);
    assert_eq!(rt; most, (1048575, 65535, 64));
    let files = (MOST_LINE_BYTES, MOST_LINES, MOST_FILE_BYTES);
    assert_eq!(rt; files, (256, 1048576, 268435456));
}

/// A plan of so many events, one at each time.
fn plan_of(rt: &impl Abort, alloc: Global, count: u32) -> Plan {
    let mut plan = List::new(alloc);
    for operation in 0..count {
        let event = Event {
            time: u64::from(operation),
            train: 1,
            operation,
        };
        plan.push(event).expect(rt, "room");
    }
    plan
}

/// These operations one after another.
fn walk(rt: &impl Abort, alloc: Global, ops: &[Op]) -> List<Op> {
    List::from_vec(Vec::from_slice(alloc, ops).expect(rt, "operations"))
}

/// A leaf of one walk to a component.
fn costs(rt: &impl Abort, alloc: Global, op: Op) -> TreeNode {
    let walk = ComponentWalk {
        component: 3,
        walk: walk(rt, alloc, &[op]),
    };
    let walks = vec![in alloc; walk].expect(rt, "walks");
    TreeNode::Leaf(Leaf::Costs(List::from_vec(walks)))
}

/// A tree of one branch with a leaf of each kind that lists a walk.
fn small_tree(rt: &impl Abort, alloc: Global) -> Tree {
    let op = Op { train: 0, op: 1 };
    let branch = TreeNode::Branch {
        choice: Choice::Route(op),
        children: 4,
    };
    let cycle = TreeNode::Leaf(Leaf::Cycle(walk(rt, alloc, &[op, op])));
    let late = TreeNode::Leaf(Leaf::Late(walk(rt, alloc, &[op])));
    let costs = costs(rt, alloc, op);
    let none = TreeNode::Leaf(Leaf::NoRoute);
    let nodes = vec![in alloc; branch, none, cycle, late, costs];
    List::from_vec(nodes.expect(rt, "nodes"))
}

#[test]
fn a_long_plan_is_copied(rt: HostRuntime) {
    let plan = plan_of(&rt, rt.alloc(), 300);
    let copy = plan.copy().expect(&rt, "a copy");
    assert_eq!(rt; (copy.len(), copy.as_slice()), (300, plan.as_slice()));
}

fn outcome(rt: &impl Abort, alloc: Global) -> Alone {
    Alone {
        answer: Answer::Optimal(18),
        plan: Some(plan_of(rt, alloc, 4)),
        tree: small_tree(rt, alloc),
        spent: 1,
        bound: 18,
    }
}

#[test]
fn a_tree_and_the_outcome_of_a_search_are_copied(rt: HostRuntime) {
    let copy = outcome(&rt, rt.alloc()).copy().expect(&rt, "a copy");
    let numbers = (copy.answer, copy.spent, copy.bound);
    assert_eq!(rt; numbers, (Answer::Optimal(18), 1, 18));
    assert_eq!(rt; (copy.plan.is_some(), copy.tree.len()), (true, 5));
}

fn asked() -> Entry {
    let fixing = Fixing::Started {
        at_train: 0,
        at_op: 0,
        time: 0,
    };
    Entry::Asked {
        feed: 0,
        line: 1,
        change: Change::Fix(fixing),
        reply: Reply::Accepted(1),
    }
}

fn shown() -> Entry {
    let standing = Standing {
        edition: 1,
        best: Some(24),
        mark: Mark::Working,
    };
    Entry::Shown {
        feed: 0,
        line: 3,
        standing,
    }
}

fn grown(rt: &impl Abort, alloc: Global) -> Entry {
    let split = Split {
        node: 0,
        choice: Choice::Order(Op { train: 0, op: 0 }, Op { train: 1, op: 0 }),
    };
    let splits = vec![in alloc; split].expect(rt, "splits");
    Entry::Grown {
        searcher: 1,
        edition: 1,
        seen: 3,
        node: 0,
        splits: List::from_vec(splits),
    }
}

fn published(rt: &impl Abort, alloc: Global) -> Entry {
    Entry::Published {
        edition: 1,
        plan: plan_of(rt, alloc, 4),
        cost: 24,
    }
}

fn settled(rt: &impl Abort, alloc: Global) -> Entry {
    Entry::Settled {
        edition: 1,
        verdict: Verdict::Optimal(24),
        tree: small_tree(rt, alloc),
    }
}

/// An entry of each kind.
fn entries(rt: &impl Abort, alloc: Global) -> List<Entry> {
    let unread = Entry::Unread {
        feed: 0,
        line: 2,
        why: Unasked::Long,
    };
    let stopped = Entry::Stopped {
        edition: 1,
        spent: 7,
        bound: 3,
    };
    let entries = vec![in alloc;
        asked(),
        unread,
        shown(),
        grown(rt, alloc),
        published(rt, alloc),
        settled(rt, alloc),
        stopped,
    ];
    List::from_vec(entries.expect(rt, "entries"))
}

#[test]
fn each_kind_of_entry_is_copied(rt: HostRuntime) {
    let copy = entries(&rt, rt.alloc()).copy().expect(&rt, "a copy");
    assert_eq!(rt; copy.len(), 7);
}
