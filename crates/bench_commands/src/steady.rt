//! The program over an input that never fails, for its answer alone.

ghost use Rattle.std.specs.Prelude.{◌≢◌};
ghost use Rattle.report_defs.specs.declared.status.Status.TheVariants as status;
ghost use Rattle.report_defs.specs.Commands.{command_of};
ghost use Rattle.bench_commands.specs.Steady.{AnswersSteadily, EndsSteadily};

use crate::running::bench;
use bench_io::{SteadySink, SteadySource};
use command_words::Words;
use report_defs::Status;
use std::alloc::Global;

/// The answer of [`bench`] to words and an input where nothing fails: of its outputs nothing is kept. It is the status
/// of the report that the definitions give, or memory ran out; words that are no command are always answered by
/// `Usage`.
pub fn bench_steady(alloc: Global, words: &Words, input: &mut SteadySource) -> Status
    ensures answers { AnswersSteadily (command_of words.now) input.old.left result }
    ensures no_read_fault { result ≢ status.ReadFault }
    ensures no_write_fault { result ≢ status.WriteFault }
    // what the input gave stays taken
    ensures ends { EndsSteadily words.now input.old input.new result }
{
    let mut out = SteadySink::new();
    let mut err = SteadySink::new();
    bench(alloc, words, input, &mut out, &mut err)
}
