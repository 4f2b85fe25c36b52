// Files in memory.
use disp_outside::{PutNo, Shelf};
use outside_in_memory::MemShelf;
use std::alloc::Global;
use std::panic::Expect;
use std::process::Abort;

// The name's file is there, with these bytes.
fn holds(shelf: &MemShelf, name: &str, bytes: &[u8]) -> bool {
    match shelf.file(name) {
        Some(file) => file == bytes,
        None => false,
    }
}

const PUTS: &[(&str, &str, Result<(), PutNo>)] = &[
    ("a", "one", Ok(())),
    ("a", "two", Err(PutNo::Failed)),
    ("b", "three", Ok(())),
];

/// Asserts what each putting of the table answers.
fn check_puts(rt: &impl Abort, alloc: Global, shelf: &mut MemShelf) {
    for (name, bytes, want) in PUTS {
        assert_eq!(rt; shelf.put(alloc, name, bytes.as_bytes()), *want);
    }
}

/// Asserts which files there are then, and which faults.
fn check_files(rt: &impl Abort, shelf: &MemShelf) {
    assert!(rt; holds(shelf, "a", b"one") && holds(shelf, "b", b"three"));
    let puts = (shelf.put_faults("a"), shelf.put_faults("b"));
    assert_eq!(rt; (puts, shelf.faults("a")), ((1, 0), 0));
}

#[test]
fn a_putting_in_memory_breaks_where_it_is_told_to(rt: HostRuntime) {
    let mut shelf = MemShelf::new(rt.alloc());
    shelf.break_puts(&[2]).expect(&rt, "room");
    check_puts(&rt, rt.alloc(), &mut shelf);
    check_files(&rt, &shelf);
}
