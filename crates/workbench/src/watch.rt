//! `watch`: a GPL program that is run up to the first step at which a watched item holds.

ghost use Rattle.std.specs.Prelude.{◌≤◌, length};
ghost use Rattle.report_defs.specs.Report.{largest_input};
ghost use Rattle.report_defs.specs.FileReports as whole;
ghost use Rattle.report_defs.specs.ProgramCommands as spec;
ghost use Rattle.bench_shelf.specs.States.{ShelfState};
ghost use Rattle.reports.specs.Answers.{answer, WantsMemory, Reported};
ghost use Rattle.workbench.specs.Answered.{AnswersWith};

use bench_commands::load_program;
use bench_io::{Source, read_all};
use report_defs::LARGEST_INPUT;
use reports::{CommandError, Report};
use std::alloc::Global;
use watch_command::{WatchedItems, watch_program};

/// What is to be reported of the source that the input has, whose program is run up to the first step at which an item
/// holds.
pub(crate) fn watch<S: Source>(
    alloc: Global,
    limit: u32,
    items: &WatchedItems,
    input: &mut S,
) -> Result<Report, CommandError>
    ensures { (shelf : ShelfState) → AnswersWith (spec.Watch limit items.now)
        (record { input = S.state input.old; shelf = shelf })
        (record { input = S.state input.new; shelf = shelf }) (answer result) }
{
    let source = read_all(alloc, input, LARGEST_INPUT)?;
    watch_source(alloc, limit, items, source.as_slice())
}

/// What is to be reported of a GPL source of at most 1,048,576 bytes.
fn watch_source(
    alloc: Global,
    limit: u32,
    items: &WatchedItems,
    source: &[u8],
) -> Result<Report, CommandError>
    requires { length source.now ≤ largest_input }
    ensures { Reported (whole.WatchReport limit items.now source.now) WantsMemory (answer result) }
{
    let program = load_program(alloc, source)?;
    Ok(Report::Watched(watch_program(alloc, program.machine, limit, items)?))
}
