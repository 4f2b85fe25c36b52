// Files of the system.
use disp_outside::{FetchNo, FileShelf, PutNo, Shelf};
use std::alloc::Global;
use std::panic::Expect;
use std::process::Abort;
use std::{env, fs, io, process};

/// A path of this process alone.
pub(crate) fn path_of(rt: &HostRuntime, name: &str) -> io::Result<String> {
    let folder = env::temp_dir(rt)?.into_string();
    let process = process::id(rt.process());
    Ok(format!(in rt.alloc(); "{folder}/outside_tests-{process}-{name}")?)
}

const LIMITS: &[(u64, Result<&str, FetchNo>)] = &[
    (4, Err(FetchNo::TooLong)),
    (5, Ok("abcde")),
    (u64::MAX, Ok("abcde")),
    (0, Err(FetchNo::TooLong)),
];

/// Whether a file was read as it should be.
fn is_read(got: Result<Vec<u8>, FetchNo>, want: Result<&str, FetchNo>) -> bool {
    match (got, want) {
        (Ok(bytes), Ok(text)) => bytes.as_slice() == text.as_bytes(),
        (Err(no), Err(wanted)) => no == wanted,
        _ => false,
    }
}

/// Asserts what each limit of the table comes to.
fn check_limits(rt: &impl Abort, alloc: Global, shelf: &mut impl Shelf, name: &str) {
    for (limit, want) in LIMITS {
        let got = shelf.fetch(alloc, name, *limit);
        assert!(rt; is_read(got, *want));
    }
}

#[test]
fn a_file_is_read_within_its_limit(rt: HostRuntime) {
    let path = path_of(&rt, "read").expect(&rt, "a path");
    fs::write(&rt, path.as_str(), "abcde").expect(&rt, "a file");
    let mut shelf = FileShelf::new(rt.alloc(), &rt);
    check_limits(&rt, rt.alloc(), &mut shelf, path.as_str());
    fs::remove_file(&rt, path.as_str()).expect(&rt, "no file");
    let lost = shelf.fetch(rt.alloc(), path.as_str(), 5).err();
    assert_eq!(rt;
        (lost, shelf.faults(path.as_str())),
        (Some(FetchNo::Failed), 1)
    );
}

/// What a reading of a file that holds these bytes comes to: whether it gives them.
fn gives(
    alloc: Global,
    shelf: &mut impl Shelf,
    name: &str,
    limit: u64,
    bytes: &[u8],
) -> Result<bool, FetchNo> {
    let read = shelf.fetch(alloc, name, limit)?;
    Ok(read.as_slice() == bytes)
}

/// Asserts that a file of 200 000 bytes is read whole, and not at all past the limit by one.
fn check_large(rt: &impl Abort, alloc: Global, shelf: &mut impl Shelf, name: &str, bytes: &[u8]) {
    let whole = gives(alloc, shelf, name, 200_000, bytes);
    let cut = gives(alloc, shelf, name, 199_999, bytes);
    assert_eq!(rt; (whole, cut), (Ok(true), Err(FetchNo::TooLong)));
}

#[test]
fn a_large_file_is_read_whole(rt: HostRuntime) {
    let path = path_of(&rt, "large").expect(&rt, "a path");
    let bytes = vec![in rt.alloc(); 7u8; 200_000].expect(&rt, "room");
    fs::write(&rt, path.as_str(), bytes.as_slice()).expect(&rt, "a file");
    let mut shelf = FileShelf::new(rt.alloc(), &rt);
    check_large(&rt, rt.alloc(), &mut shelf, path.as_str(), &bytes);
    fs::remove_file(&rt, path.as_str()).expect(&rt, "no file");
}

/// Asserts that what is put is read back in place of more that was there.
fn check_put(rt: &impl Abort, alloc: Global, shelf: &mut impl Shelf, name: &str) {
    let put = shelf.put(alloc, name, b"plan\n");
    let read = gives(alloc, shelf, name, 100, b"plan\n");
    assert_eq!(rt; (put, read), (Ok(()), Ok(true)));
}

#[test]
fn a_file_that_is_put_is_read_back(rt: HostRuntime) {
    let path = path_of(&rt, "put").expect(&rt, "a path");
    fs::write(&rt, path.as_str(), "longer than what is put").expect(&rt, "a file");
    let mut shelf = FileShelf::new(rt.alloc(), &rt);
    check_put(&rt, rt.alloc(), &mut shelf, path.as_str());
    fs::remove_file(&rt, path.as_str()).expect(&rt, "no file");
    assert_eq!(rt; shelf.put_faults(path.as_str()), 0);
}

#[test]
fn nothing_is_put_where_there_is_no_folder(rt: HostRuntime) {
    let missing = path_of(&rt, "no/such/folder").expect(&rt, "a path");
    let mut shelf = FileShelf::new(rt.alloc(), &rt);
    let lost = shelf.put(rt.alloc(), missing.as_str(), b"plan\n");
    let faults = shelf.put_faults(missing.as_str());
    assert_eq!(rt; (lost, faults), (Err(PutNo::Failed), 1));
}
