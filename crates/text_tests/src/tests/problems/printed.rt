use displib_reader::{ComponentKey, Kind, ListingKey, OperationKey, Place, ProblemNo};
use std::alloc::{AllocError, Global};
use std::error::Error;
use std::panic::Expect;
use std::process::Abort;

const PRINTED: &[(ProblemNo, &str)] = &[
    (ProblemNo::NotJson, "NotJson"),
    (ProblemNo::Shape(Place::Root), "Shape /"),
    (
        ProblemNo::NotWhole(Place::ListingKey(1, 2, 3, ListingKey::ReleaseTime)),
        "NotWhole /trains/1/2/resources/3/release_time",
    ),
    (
        ProblemNo::TooLarge(Place::OperationKey(65534, 0, OperationKey::StartUb)),
        "TooLarge /trains/65534/0/start_ub",
    ),
    (
        ProblemNo::TooMany(Kind::Components, 1048576),
        "TooMany components 1048576",
    ),
    (
        ProblemNo::BadIndex(Place::ComponentKey(7, ComponentKey::Train)),
        "BadIndex /objective/7/train",
    ),
    (ProblemNo::NotOneExit(4, 0), "NotOneExit 4 0"),
    (ProblemNo::Loop(0, 1), "Loop 0 1"),
    (ProblemNo::UnknownObjective(3), "UnknownObjective 3"),
    (ProblemNo::Memory, "Memory"),
];

/// Asserts what is printed for a refusal.
fn expect_text(rt: &impl Abort, alloc: Global, no: ProblemNo, wanted: &str) {
    let mut text = String::new(alloc);
    no.write(&mut text).expect(rt, "a text");
    assert_eq!(rt; text.as_str(), wanted);
}

#[test]
fn refusals_are_printed_with_numbers_and_places(rt: HostRuntime) {
    for (no, wanted) in PRINTED {
        expect_text(&rt, rt.alloc(), *no, wanted);
    }
}

/// The message of an error, by the bound that programs have.
fn message<E: Error>(alloc: Global, error: &E) -> Result<String, AllocError> {
    format!(in alloc; "{error}")
}

/// Want of memory as an error, by the bounds that `?` has.
fn starved<E: From<AllocError> + From<disp_model::Memory>>(in_model: bool) -> E {
    if in_model {
        E::from(disp_model::Memory)
    } else {
        E::from(AllocError)
    }
}

/// Asserts the message of an error.
fn expect_message(rt: &impl Abort, alloc: Global, no: ProblemNo, wanted: &str) {
    let text = message(alloc, &no).expect(rt, "a text");
    assert_eq!(rt; text.as_str(), wanted);
}

#[test]
fn refusals_are_errors(rt: HostRuntime) {
    let on_cycle = "operation 3 of train 2 lies on a cycle";
    expect_message(&rt, rt.alloc(), ProblemNo::Loop(2, 3), on_cycle);
    let exits = "train 1 has 4 exits";
    expect_message(&rt, rt.alloc(), ProblemNo::NotOneExit(1, 4), exits);
    let starved = (starved::<ProblemNo>(true), starved::<ProblemNo>(false));
    assert_eq!(rt; starved, (ProblemNo::Memory, ProblemNo::Memory));
}
