//! Words that are no command, and the numbers of the statuses.

use super::run::{USAGE, run};
use report_defs::Status;
use std::alloc::{AllocError, Global};
use std::test::Fail;

/// Words that are no command.
const NO_COMMANDS: &[&[&[u8]]] = &[
    &[],
    &[b""],
    &[b"GASM"],
    &[b"run", b"007"],
    &[b"demo", b"1", b"1"],
];

/// Whether words are answered by the usage line, and nothing is read.
fn is_usage(alloc: Global, words: &[&[u8]]) -> Result<bool, AllocError> {
    let ended = run(alloc, words, b" RTN\n".to_vec(alloc)?, &[0], &[])?;
    Ok(
        ended.status == Status::Usage
            && ended.out.bytes().is_empty()
            && ended.err.bytes() == USAGE
            && ended.input.faults() == 0,
    )
}

/// Whether a usage line that cannot be written is a write fault.
fn usage_is_missed(alloc: Global) -> Result<bool, AllocError> {
    Ok(run(alloc, &[], Vec::new(alloc), &[], &[0])?.status == Status::WriteFault)
}

/// The statuses by their numbers. No status has the number 6.
const NUMBERS: &[(Status, u8)] = &[
    (Status::Done, 0),
    (Status::Refused, 1),
    (Status::Usage, 2),
    (Status::ReadFault, 3),
    (Status::WriteFault, 4),
    (Status::Memory, 5),
    (Status::Stopped, 7),
];

#[test]
fn words_that_are_no_command_read_nothing(rt: HostRuntime) -> Result<(), Fail> {
    for &words in NO_COMMANDS {
        assert!(rt; is_usage(rt.alloc(), words)?, "{words:?}");
    }
    assert!(rt; usage_is_missed(rt.alloc())?);
    Ok(())
}

#[test]
fn each_status_has_its_number(rt: HostRuntime) -> Result<(), Fail> {
    for &(status, number) in NUMBERS {
        assert!(rt; status as u8 == number);
    }
    Ok(())
}
