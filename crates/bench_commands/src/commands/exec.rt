//! `exec`: linked memory, executed from its entry on.

ghost use Rattle.std.specs.Prelude.{◌≡◌, ◌<◌, ◌≤◌, ℕ, length, None, IfOk};
ghost use Rattle.console_defs.specs.Runs.{IsRun};
ghost use Rattle.link_loader.specs.View.{model_of_linked};
ghost use Rattle.report_defs.specs.Exec as runs;
ghost use Rattle.report_defs.specs.Report as spec;
ghost use Rattle.report_defs.specs.ObjectInput.{linked_input};
ghost use Rattle.reports.specs.Answers.{answer, WantsMemory, Reported};
ghost use Rattle.bench_commands.specs.LinkedInput.{StartsInput};

use crate::object_input::link_input;
use console_defs::RunEnd;
use gpl_run::load_machine;
use link_loader::Linked;
use memory_basics::zeros;
use report_defs::Command;
use reports::{CommandError, Report};
use std::alloc::{AllocError, Global};
use std::marker::Brand;
use std::sync::ledger::{Blank, Ledger};
use tms_step::{Machine, Steps};

/// Where the workspace of a program begins.
const WORKSPACE: u16 = 0x83E0;

/// How many bytes all GROMs have together.
const ALL_GROMS: usize = 65536;

/// The report of up to `limit` instructions of the linked memory of an object text, from its entry on.
pub(crate) fn exec(alloc: Global, limit: u32, input: &[u8]) -> Result<Report, CommandError>
    requires { length input.now ≤ spec.largest_input }
    ensures { Reported (spec.AcceptedReport (Command.Exec limit) input.now) WantsMemory (answer result) }
{
    let linked = link_input(alloc, input)?;
    execute(alloc, limit, &linked)
}

/// A machine at the entry of the linked memory of an object text, or why there is none. No memory is taken later.
///
/// # Errors
/// `Refused` has the line of a text that is refused, and `Memory` means out of memory.
pub fn start_input(alloc: Global, input: &[u8]) -> Result<Machine, CommandError>
    requires { length input.now ≤ spec.largest_input }
    ensures { StartsInput result (linked_input input.now) }
{
    let linked = link_input(alloc, input)?;
    Ok(start(alloc, &linked)?)
}

/// The report of up to `limit` instructions of linked memory, from its entry on.
fn execute(alloc: Global, limit: u32, linked: &Linked) -> Result<Report, CommandError>
    ensures { Reported (spec.ReportsExecution limit (model_of_linked linked.now)) WantsMemory (answer result) }
{
    let mut machine = start(alloc, linked)?;
    let ending = run::<Brand>(&mut machine, u64::from(limit), Blank::new(1));
    Ok(Report::Execution { ending, machine })
}

/// A machine at the entry of linked memory.
fn start(alloc: Global, linked: &Linked) -> Result<Machine, AllocError>
    ensures { IfOk result (λ machine. runs.IsStart (model_of_linked linked.now) machine) }
{
    let image = zeros(alloc, ALL_GROMS)?;
    load_machine(
        alloc,
        linked,
        image.as_slice(),
        WORKSPACE,
        linked.entry(),
        0,
    )
}

/// Executes up to `limit` instructions on a machine that has executed none.
fn run<L: Ledger>(machine: &mut Machine, limit: u64, blank: Blank) -> RunEnd
    requires name { blank.name ≡ L.name }
    requires parts { blank.parts ≡ L.parts }
    requires some { 0 < L.parts }
    ensures { (made : ℕ) × IsRun None limit made machine.old result machine.new }
{
    let mut steps = Steps::<L>::new(blank);
    machine.run_to(None, limit, &mut steps)
}
