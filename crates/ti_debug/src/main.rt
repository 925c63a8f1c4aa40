//! A debugger for cartridges of the TI-99/4A: where each line of a source stands, and what each step of a program
//! changes.
#![tactic(auto)]

use bench_io::{StdSink, StdSource};
use bench_shelf::DirShelf;
use command_words::program_words;
use debug_commands::{debug_over, debug_through};
use report_defs::Status;
use std::io::{BufWriter, Stderr, Stdin, Stdout};
use std::process::ExitCode;

/// How a run ends: its status, and the standard streams. Their types are different, so that they cannot be exchanged.
type Ended = (Status, StdSource<Stdin>, StdSink<Stdout>, StdSink<Stderr>);

/// Runs the command that the words of the command line say, over the standard streams and the files of the current
/// folder. Standard output is buffered if there is memory for that, and else it is not.
fn main(rt: HostRuntime) -> ExitCode {
    let Ok(words) = program_words(&rt) else {
        return ExitCode::from(Status::Memory as u8);
    };
    let mut shelf = DirShelf::new(&rt);
    let (alloc, input, errors) = (rt.alloc(), rt.stdin(), rt.stderr());
    let ended: Ended = match BufWriter::new(alloc, rt.stdout()) {
        Ok(output) => debug_through(alloc, &words, input, &mut shelf, output, errors),
        Err(_) => debug_over(alloc, &words, input, &mut shelf, rt.stdout(), errors),
    };
    ExitCode::from(ended.0 as u8)
}
