//! Names of files, and files that are opened and read.

use bench_io::{ReadError, Source, read_all};
use bench_shelf::{DirShelf, FileName, MemShelf, OpenError, Shelf, read_named};
use std::alloc::{AllocError, Global};
use std::os::unix::fs::symlink;
use std::test::Fail;
use std::{fs, io};

/// Bytes, and whether they are the name of a file.
const NAMES: &[(&[u8], bool)] = &[
    (b"A.SRC", true),
    (b"a", true),
    (b"-_.9z", true),
    (b"", false),
    (b".", false),
    (b"..", false),
    (b".hidden", false),
    (b"a/b", false),
    (b"a b", false),
    (b"a\xE9", false),
    (b"a\0", false),
    (
        b"0123456789ABCDEFGHIJabcdefghij0123456789ABCDEFGHIJabcdefghij",
        true,
    ),
    (
        b"0123456789ABCDEFGHIJabcdefghij0123456789ABCDEFGHIJabcdefghijk",
        false,
    ),
];

/// Whether bytes are read as a name, which then gives them back, as stated.
fn named_as(bytes: &[u8], named: bool) -> bool {
    match FileName::read(bytes) {
        Some(name) => named && name.as_bytes() == bytes,
        None => !named,
    }
}

#[test]
fn names_of_files_are_those_of_the_rule(rt: HostRuntime) {
    for &(bytes, named) in NAMES {
        assert!(rt; named_as(bytes, named), "{bytes:?}");
    }
}

/// What comes of opening and reading a file.
#[derive(Clone, Copy, PartialEq, Eq)]
enum Got {
    Bytes(usize),
    NotOpened(OpenError),
    NotRead(ReadError),
}

/// The number of no call.
const NEVER: u64 = 99;

/// The file that is opened, the call that fails, the limit, and what comes. A file ONE of three bytes is before
/// another of the name, and BIG has 9,000 bytes: opening and reading it makes five calls.
const READINGS: &[(&[u8], u64, usize, Got)] = &[
    (b"ONE", NEVER, 10, Got::Bytes(3)),
    (b"ONE", NEVER, 3, Got::Bytes(3)),
    (b"ONE", NEVER, 2, Got::NotRead(ReadError::TooLarge)),
    (b"NONE", NEVER, 0, Got::Bytes(0)),
    (b"BIG", NEVER, 262144, Got::Bytes(9000)),
    (b"BIG", 4, 262144, Got::NotRead(ReadError::Fault)),
    (b"BIG", 5, 262144, Got::Bytes(9000)),
    (b"BIG", 0, 262144, Got::NotOpened(OpenError::Failed)),
    (b"one", NEVER, 10, Got::NotOpened(OpenError::Missing)),
    (b"TWO", 0, 10, Got::NotOpened(OpenError::Failed)),
];

/// The name with these bytes, which are one.
fn name_of(bytes: &[u8]) -> Result<FileName, AllocError> {
    match FileName::read(bytes) {
        Some(name) => Ok(name),
        None => Err(AllocError),
    }
}

/// What comes of opening a file of a shelf and reading it.
fn got_from<F: Shelf>(
    alloc: Global,
    shelf: &mut F,
    name: &[u8],
    limit: usize,
) -> Result<Got, AllocError> {
    if limit == usize::MAX {
        return Err(AllocError);
    }
    if let Err(error) = shelf.open_file(&name_of(name)?) {
        return Ok(Got::NotOpened(error));
    }
    Ok(match read_all(alloc, shelf, limit) {
        Ok(bytes) => Got::Bytes(bytes.len()),
        Err(error) => Got::NotRead(error),
    })
}

/// The shelf of these cases.
fn shelf(alloc: Global, fails: u64) -> Result<MemShelf, AllocError> {
    let mut files = Vec::new(alloc);
    files.push((name_of(b"NONE")?, Vec::new(alloc)))?;
    files.push((name_of(b"ONE")?, Vec::from_slice(alloc, b"one")?))?;
    files.push((name_of(b"ONE")?, Vec::from_slice(alloc, b"another")?))?;
    files.push((name_of(b"BIG")?, vec![in alloc; 7; 9000]?))?;
    Ok(MemShelf::new(files, Vec::from_slice(alloc, &[fails])?))
}

/// Whether a file is read as stated, and a fault or a miss is counted where it is one.
fn reads_as(
    alloc: Global,
    name: &[u8],
    fails: u64,
    limit: usize,
    want: Got,
) -> Result<bool, AllocError> {
    let mut shelf = shelf(alloc, fails)?;
    let got = got_from(alloc, &mut shelf, name, limit)?;
    let failed = want == Got::NotOpened(OpenError::Failed)
        || want == Got::NotRead(ReadError::Fault);
    let missed = want == Got::NotOpened(OpenError::Missing);
    Ok(got == want && shelf.faults() == u64::from(failed) && shelf.misses() == u64::from(missed))
}

/// Whether a shelf gives nothing before a file is opened and after a name was missing, and a file anew each time.
fn opens_anew(alloc: Global) -> Result<bool, AllocError> {
    let mut shelf = shelf(alloc, NEVER)?;
    let mut buffer = [0; 2];
    let before = shelf.take(&mut buffer) == Ok(0);
    let first = shelf.open_file(&name_of(b"ONE")?).is_ok()
        && shelf.take(&mut buffer) == Ok(2)
        && buffer == *b"on";
    let again = got_from(alloc, &mut shelf, b"ONE", 9)? == Got::Bytes(3);
    let missing = shelf.open_file(&name_of(b"ON")?).is_err() && shelf.take(&mut buffer) == Ok(0);
    let whole = holds(alloc, &mut shelf, b"ONE", b"one")?;
    Ok(before && first && again && missing && whole)
}

#[test]
fn a_shelf_in_memory_gives_the_first_file_of_a_name(rt: HostRuntime) -> Result<(), Fail> {
    for &(name, fails, limit, want) in READINGS {
        assert!(rt;
            reads_as(rt.alloc(), name, fails, limit, want)?,
            "{name:?}, call {fails} fails"
        );
    }
    assert!(rt; opens_anew(rt.alloc())?);
    Ok(())
}

/// Names in the current folder, and what comes of opening and reading each: a file, a folder, a link to the file, and a
/// name that nothing has.
const IN_FOLDER: &[(&[u8], usize, Got)] = &[
    (b"shelf-test-file", 100, Got::Bytes(4)),
    (b"shelf-test-file", 3, Got::NotRead(ReadError::TooLarge)),
    (
        b"shelf-test-folder",
        100,
        Got::NotOpened(OpenError::Missing),
    ),
    (b"shelf-test-link", 100, Got::NotOpened(OpenError::Missing)),
    (b"shelf-test-none", 100, Got::NotOpened(OpenError::Missing)),
];

/// Whether a file of a shelf has these bytes.
fn holds<F: Shelf>(
    alloc: Global,
    shelf: &mut F,
    name: &[u8],
    bytes: &[u8],
) -> Result<bool, AllocError> {
    Ok(match read_named(alloc, shelf, &name_of(name)?, 100) {
        Ok(found) => found.as_slice() == bytes,
        Err(_) => false,
    })
}

/// Makes the entries of the current folder.
fn make_entries(rt: &HostRuntime) -> io::Result<()> {
    fs::write(rt, "shelf-test-file", b"four".as_slice())?;
    fs::create_dir(rt, "shelf-test-folder")?;
    symlink(rt, "shelf-test-file", "shelf-test-link")
}

/// Removes them, where they are.
fn remove_entries(rt: &HostRuntime) {
    let _ = fs::remove_file(rt, "shelf-test-link");
    let _ = fs::remove_dir(rt, "shelf-test-folder");
    let _ = fs::remove_file(rt, "shelf-test-file");
}

#[test]
fn the_current_folder_gives_its_regular_files_alone(rt: HostRuntime) -> Result<(), Fail> {
    remove_entries(&rt);
    make_entries(&rt)?;
    let mut shelf = DirShelf::new(&rt);
    for &(name, limit, want) in IN_FOLDER {
        assert!(rt;
            got_from(rt.alloc(), &mut shelf, name, limit)? == want,
            "{name:?}, limit {limit}"
        );
    }
    assert!(rt; holds(rt.alloc(), &mut shelf, b"shelf-test-file", b"four")?);
    remove_entries(&rt);
    Ok(())
}
