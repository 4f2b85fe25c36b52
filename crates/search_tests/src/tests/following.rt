// Where a script leads that has a branch of which the choice is not open.
use super::parts::{Worked, means_of, problem_of, root};
use disp_model::{Choice, Decision, Op, Rule};
use std::alloc::Global;
use std::panic::Expect;
use std::process::Abort;
use tree_dives::{Below, Script};

/// The operations of the train with two ways: it begins at the first, and takes the second or the
/// third.
const BEGIN: Op = Op { train: 0, op: 0 };

const WAY: Op = Op { train: 0, op: 1 };

const OTHER_WAY: Op = Op { train: 0, op: 2 };

/// It takes the first way.
const GO: Decision = Decision::Go { op: BEGIN, next: 1 };

/// A script that begins with a branch over whether an operation is run. Behind the one decision it
/// goes on with one over the way, and behind the other with none.
fn script_of(rt: &impl Abort, alloc: Global, over: Op, led: Decision, other: Decision) -> Script {
    let mut script = Script::new(alloc, &[]).expect(rt, "a script");
    let last = script.add(Choice::Run(OTHER_WAY), Vec::new(alloc));
    let place = last.expect(rt, "a branch");
    let below = vec![in alloc; Below {
        decision: GO,
        place
    }; 1]
    .expect(rt, "room");
    let ways = script.add(Choice::Route(BEGIN), below);
    let mut below = Vec::new(alloc);
    let place = ways.expect(rt, "a branch");
    below
        .push(Below {
            decision: led,
            place,
        })
        .expect(rt, "room");
    let place = script.add(Choice::Run(OTHER_WAY), Vec::new(alloc));
    let place = place.expect(rt, "a branch");
    below
        .push(Below {
            decision: other,
            place,
        })
        .expect(rt, "room");
    let first = script.add(Choice::Run(over), below);
    script.begin_at(Some(first.expect(rt, "a branch")));
    script
}

/// Whether such a script says something of the node where the train takes the first way. Its copy
/// says the same, followed alone.
fn says(rt: &impl Abort, alloc: Global, over: Op, led: Decision, other: Decision) -> bool {
    let problem = problem_of(rt, alloc, Worked::Fork);
    let mut graph = root(rt, alloc, &problem);
    assert!(rt; graph.extend(GO).is_ok());
    let mut means = means_of(rt, alloc, &problem, Rule::Free);
    let script = script_of(rt, alloc, over, led, other);
    let copy = script.copied(alloc).expect(rt, "a copy");
    means.guide.follow(script).expect(rt, "room");
    let says = means.guide.is_scripted(&problem, &graph);
    means.guide.follow_alone(copy).expect(rt, "room");
    assert!(rt; means.guide.is_scripted(&problem, &graph) == says);
    drop(means);
    drop(graph);
    drop(problem);
    says
}

/// Of a branch over whether an operation is run, the script is followed behind this decision, and
/// not behind that one.
fn follows(rt: &impl Abort, alloc: Global, over: Op, held: Decision, other: Decision) {
    assert!(rt; says(rt, alloc, over, held, other));
    assert!(rt; !says(rt, alloc, over, other, held));
}

// The train that takes the first way runs that operation, and not the other one.
#[test]
fn a_script_is_followed_as_the_routes_agree(rt: HostRuntime) {
    let alloc = rt.alloc();
    follows(&rt, alloc, WAY, Decision::Run(WAY), Decision::Skip(WAY));
    let skip = Decision::Skip(OTHER_WAY);
    follows(&rt, alloc, OTHER_WAY, skip, Decision::Run(OTHER_WAY));
}

// Only a script from the root says something of each part of the tree.
#[test]
fn a_script_is_whole_from_the_root(rt: HostRuntime) {
    let alloc = rt.alloc();
    let problem = problem_of(&rt, alloc, Worked::Fork);
    let mut means = means_of(&rt, alloc, &problem, Rule::Free);
    assert!(rt; means.guide.whole_script().is_none());
    let below = Script::new(alloc, &[GO]).expect(&rt, "a script");
    means.guide.follow(below).expect(&rt, "room");
    assert!(rt; means.guide.whole_script().is_none());
    let whole = Script::new(alloc, &[]).expect(&rt, "a script");
    means.guide.follow_alone(whole).expect(&rt, "room");
    assert!(rt; means.guide.whole_script().is_some());
    drop(means);
    drop(problem);
}
