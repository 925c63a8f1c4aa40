//! A workbench for cartridges of the TI-99/4A.
#![tactic(auto)]

use bench_io::{StdSink, StdSource};
use bench_shelf::DirShelf;
use command_words::program_words;
use report_defs::Status;
use std::io::{BufWriter, Stderr, Stdin, Stdout};
use std::process::ExitCode;
use workbench::{bench_over, bench_through};

/// How a run ends: its status, and the standard streams. Their types are different, so that they cannot be exchanged.
type Ended = (Status, StdSource<Stdin>, StdSink<Stdout>, StdSink<Stderr>);

/// Runs the command that the words of the command line say, over the standard streams and the files of the current
/// folder. Standard output is buffered if there is memory for that, and else it is not.
fn main(rt: HostRuntime) -> ExitCode {
    let Ok(words) = program_words(&rt) else {
        return ExitCode::from(Status::Memory as u8);
    };
    let mut shelf = DirShelf::new(&rt);
    let (alloc, input, errors) = (rt.alloc(), rt.stdin(), rt.stderr());
    let ended: Ended = match BufWriter::new(alloc, rt.stdout()) {
        Ok(output) => bench_through(alloc, &words, input, &mut shelf, output, errors),
        Err(_) => bench_over(alloc, &words, input, &mut shelf, rt.stdout(), errors),
    };
    ExitCode::from(ended.0 as u8)
}
