//! Words and inputs, and the statuses that they end with.

use bench_commands::bench_steady;
use bench_io::SteadySource;
use command_words::Words;
use report_defs::Status;
use std::alloc::{AllocError, Global};
use std::test::Fail;

/// The words of a command line.
fn words_of(alloc: Global, words: &[&[u8]]) -> Result<Words, AllocError> {
    let mut list = Words::new(alloc);
    for word in words {
        list.push(word)?;
    }
    Ok(list)
}

/// Words, an input, and what they are answered by where nothing fails.
const STEADY: &[(&[&[u8]], &[u8], Status)] = &[
    (&[], b"", Status::Usage),
    (
        &[b"trace", b"5"],
        b"S ST @>8300,5\n INC @>8300\n BYTE >0F,>77\n END S\n",
        Status::Stopped,
    ),
    (&[b"gasm"], b" OOPS\n", Status::Refused),
    (&[b"demo", b"1"], b"", Status::Done),
];

/// Whether words are answered so where nothing fails.
fn answers_steadily(
    alloc: Global,
    words: &[&[u8]],
    input: &[u8],
    status: Status,
) -> Result<bool, AllocError> {
    let words = words_of(alloc, words)?;
    let mut input = SteadySource::new(input.to_vec(alloc)?);
    Ok(bench_steady(alloc, &words, &mut input) == status)
}

#[test]
fn steady_runs_answer_by_their_report(rt: HostRuntime) -> Result<(), Fail> {
    for &(words, input, status) in STEADY {
        assert!(rt;
            answers_steadily(rt.alloc(), words, input, status)?,
            "{input:?}"
        );
    }
    Ok(())
}
